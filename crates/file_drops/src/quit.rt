//! The name of a file goes out of its record.
ghost use Rattle.std.specs.Prelude.{◌≡◌, ◌<◌, IfErr, IsTrue, MatchResult, OnOk, false, length};
ghost use Rattle.vol_stage.specs.Staged.{StagesOnly};
ghost use Rattle.mft_table.specs.Mft.{KeepsDisk, faults_of, is_mft_broken, mounted_of, stage_of, view};
ghost use Rattle.mft_table.specs.MirrorClusters.{IsMirrorInside};
ghost use Rattle.mft_table.specs.Staging.{record_places};
ghost use Rattle.file_record.specs.FileNos.{CountsNo, IsReadNo};
ghost use Rattle.record_calls.specs.Marks.{marks_of};
ghost use Rattle.gone_edits.specs.Goes.{QuitsName};
ghost use Rattle.file_drops.specs.Named.{HasOneName};

use crate::name::find_name;
use file_record::{FileNo, FileParts};
use mft_table::Mft;
use std::alloc::Global;
use vol_disk::Disk;

/// Takes the one name of a file out of its record, and counts its links 0. The record is staged. Where there is no name, as never where
/// there is one, `Memory` is answered.
///
/// # Errors
///
/// `Device` where the disk failed, and `Memory`. Whoever called gives up what was staged.
pub fn quit_name<D: Disk>(alloc: Global, mft: &mut Mft<'_, D>, n: u64) -> Result<(), FileNo>
    requires inside { n < length (mounted_of D.Disk mft.old).records }
    requires mirror { IsMirrorInside (mounted_of D.Disk mft.old) }
    requires sound { is_mft_broken D.Disk mft.old ≡ false }
    requires one { IsTrue (view D.Disk mft.old).told → HasOneName (view D.Disk mft.old) (marks_of (mounted_of D.Disk mft.old)) n }
    ensures quits { OnOk result (IsTrue (view D.Disk mft.old).told → QuitsName (view D.Disk mft.old) (view D.Disk mft.new) n) }
    ensures places { IsTrue (view D.Disk mft.old).told → StagesOnly D.Disk (record_places (view D.Disk mft.old).layout n)
        (stage_of D.Disk mft.old) (stage_of D.Disk mft.new) }
    ensures disk { KeepsDisk D.Disk mft.old mft.new }
    ensures err { IfErr result IsReadNo }
    ensures faults { MatchResult result (λ _. faults_of D.Disk mft.new ≡ faults_of D.Disk mft.old)
        (CountsNo (faults_of D.Disk mft.old) (faults_of D.Disk mft.new)) }
{
    let mut file = FileParts::load(alloc, mft, n)?;
    let Some(at) = find_name(&file) else {
        return Err(FileNo::Memory);
    };
    file.remove_attribute(mft, 0, at)?;
    file.set_links(mft, 0)?;
    Ok(())
}
