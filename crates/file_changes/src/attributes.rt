//! The times and the DOS flags of a file are set, and told anew in the entries of all of its names.
ghost use Rattle.std.specs.Prelude.{◌≡◌, ◌<◌, false, IfErr, IsTrue, MatchResult, OnOk, length};
ghost use Rattle.volume_def.specs.FileNames.{names_of};
ghost use Rattle.volume_def.specs.Files.{records_of};
ghost use Rattle.mft_table.specs.InUse.{IsInUse};
ghost use Rattle.mft_table.specs.Mft.{KeepsDisk, faults_of, is_mft_broken, mounted_of, view};
ghost use Rattle.mft_table.specs.MirrorClusters.{IsMirrorInside};
ghost use Rattle.file_record.specs.FileNos.{CountsNo, IsReadNo};
ghost use Rattle.attribute_edits.specs.Below.{SetsAttributes};
ghost use Rattle.file_changes.specs.Links.{CanTellFile, CanWriteFile, TellsNames};
ghost use Rattle.file_changes.specs.Staged.{StagesAttributes, StagesNames, TellsStored};

use crate::duplicated::duplicated;
use crate::refresh::refresh_links;
use dir_index::set_node;
use file_record::{FileNo, FileParts};
use file_room::links_of;
use mft_table::Mft;
use std::alloc::Global;
use vol_disk::Disk;

// The entries of all names of a file tell anew what they repeat of it.
fn refresh_names<D: Disk>(alloc: Global, mft: &mut Mft<'_, D>, number: u64) -> Result<(), FileNo>
    requires inside { number < length (mounted_of D.Disk mft.old).records }
    requires mirror { IsMirrorInside (mounted_of D.Disk mft.old) }
    requires sound { is_mft_broken D.Disk mft.old ≡ false }
    requires can { IsTrue (view D.Disk mft.old).told → CanTellFile (view D.Disk mft.old) (mounted_of D.Disk mft.old).upcase number }
    ensures told { OnOk result (IsTrue (view D.Disk mft.old).told → TellsNames (view D.Disk mft.old) (view D.Disk mft.new) number) }
    ensures places { IsTrue (view D.Disk mft.old).told
        → StagesNames D.Disk (names_of (records_of (view D.Disk mft.old)) number) mft.old mft.new }
    ensures disk { KeepsDisk D.Disk mft.old mft.new }
    ensures err { IfErr result IsReadNo }
    ensures faults { MatchResult result (λ _. faults_of D.Disk mft.new ≡ faults_of D.Disk mft.old)
        (CountsNo (faults_of D.Disk mft.old) (faults_of D.Disk mft.new)) }
{
    let file = FileParts::load(alloc, mft, number)?;
    let links = links_of(alloc, &file)?;
    refresh_links(alloc, mft, links.as_slice(), &duplicated(&file))
}

/// Sets the four times of a file that is shown, in the order of its `$STANDARD_INFORMATION`, and its DOS flags beside those that are
/// not shown, and lets the entries of all of its names tell them. All of it is staged.
///
/// # Errors
///
/// `Device` where the disk failed, and `Memory`. Whoever called gives up what was staged.
pub fn set_attributes<D: Disk>(
    alloc: Global,
    mft: &mut Mft<'_, D>,
    number: u64,
    times: &[u64; 4],
    flags: u16,
) -> Result<(), FileNo>
    requires inside { number < length (mounted_of D.Disk mft.old).records }
    requires mirror { IsMirrorInside (mounted_of D.Disk mft.old) }
    requires sound { is_mft_broken D.Disk mft.old ≡ false }
    requires volume { IsInUse D.Disk mft.old }
    requires can { IsTrue (view D.Disk mft.old).told → CanWriteFile (view D.Disk mft.old) number }
    ensures set { OnOk result (IsTrue (view D.Disk mft.old).told
        → SetsAttributes (view D.Disk mft.old) (view D.Disk mft.new) number times.now flags) }
    ensures places { IsTrue (view D.Disk mft.old).told
        → StagesAttributes D.Disk number (names_of (records_of (view D.Disk mft.old)) number) mft.old mft.new }
    ensures tables { OnOk result (TellsStored D.Disk mft.new) }
    ensures disk { KeepsDisk D.Disk mft.old mft.new }
    ensures err { IfErr result IsReadNo }
    ensures faults { MatchResult result (λ _. faults_of D.Disk mft.new ≡ faults_of D.Disk mft.old)
        (CountsNo (faults_of D.Disk mft.old) (faults_of D.Disk mft.new)) }
{
    set_node(alloc, mft, number, times, flags)?;
    refresh_names(alloc, mft, number)
}
