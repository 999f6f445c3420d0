//! The name of a file goes out of its record, which is freed, and its flag cleared.
ghost use Rattle.std.specs.Prelude.{◌≡◌, ◌+◌, ◌*◌, ◌<◌, ◌≤◌, IfErr, IsTrue, MatchResult, OnOk, false, length};
ghost use Rattle.vol_stage.specs.Staged.{StagesOnly, places};
ghost use Rattle.volume_def.specs.Coverage.{IsApart};
ghost use Rattle.mft_table.specs.Changes.{with_record_given};
ghost use Rattle.mft_table.specs.FreeRecords.{FreesBlock};
ghost use Rattle.mft_table.specs.Mft.{faults_of, is_mft_broken, mounted_of, stage_of, view};
ghost use Rattle.mft_table.specs.MirrorClusters.{IsMirrorInside};
ghost use Rattle.mft_table.specs.Staging.{record_places};
ghost use Rattle.file_record.specs.FileNos.{CountsNo, IsReadNo};
ghost use Rattle.record_calls.specs.Marks.{marks_of};
ghost use Rattle.file_makes.specs.Steps.{KeepsDevice, StagesFile};
ghost use Rattle.file_drops.specs.Freed.{GoesWhole, LeavesRecord, MayFree};
ghost use Rattle.file_drops.specs.Named.{HasOneName};

use crate::quit::quit_name;
use file_record::FileNo;
use mft_table::{Mft, MftNo};
use record_bits::clear_record_bit;
use std::alloc::Global;
use vol_disk::Disk;

// Frees a record: its sequence number counts up, it is not in use any more, and its flag in memory is given back.
fn free_one<D: Disk>(mft: &mut Mft<'_, D>, n: u64) -> Result<(), FileNo>
    requires inside { n < length (mounted_of D.Disk mft.old).records }
    requires mirror { IsMirrorInside (mounted_of D.Disk mft.old) }
    requires sound { is_mft_broken D.Disk mft.old ≡ false }
    ensures frees { OnOk result (IsApart (view D.Disk mft.old).layout → 1024 * n + 1024 ≤ (view D.Disk mft.old).layout.initialized
        → FreesBlock (view D.Disk mft.old) (view D.Disk mft.new) n) }
    ensures bits { OnOk result (mounted_of D.Disk mft.new ≡ with_record_given (mounted_of D.Disk mft.old) n) }
    ensures places { StagesOnly D.Disk (record_places (view D.Disk mft.old).layout n) (stage_of D.Disk mft.old) (stage_of D.Disk mft.new) }
    ensures device { KeepsDevice D.Disk mft.old mft.new }
    ensures err { IfErr result IsReadNo }
    ensures faults { MatchResult result (λ _. faults_of D.Disk mft.new ≡ faults_of D.Disk mft.old)
        (CountsNo (faults_of D.Disk mft.old) (faults_of D.Disk mft.new)) }
{
    match mft.free_record(n) {
        Ok(()) => Ok(()),
        Err(MftNo::Device) => Err(FileNo::Device),
        Err(_) => Err(FileNo::Memory),
    }
}

// Takes the one name of a file out of its record, which counts no link then, and frees that record.
fn leave_record<D: Disk>(alloc: Global, mft: &mut Mft<'_, D>, n: u64) -> Result<(), FileNo>
    requires inside { n < length (mounted_of D.Disk mft.old).records }
    requires mirror { IsMirrorInside (mounted_of D.Disk mft.old) }
    requires sound { is_mft_broken D.Disk mft.old ≡ false }
    requires one { IsTrue (view D.Disk mft.old).told → HasOneName (view D.Disk mft.old) (marks_of (mounted_of D.Disk mft.old)) n }
    ensures leaves { OnOk result (IsTrue (view D.Disk mft.old).told → LeavesRecord (view D.Disk mft.old) (view D.Disk mft.new) n) }
    ensures bits { OnOk result (mounted_of D.Disk mft.new ≡ with_record_given (mounted_of D.Disk mft.old) n) }
    ensures places { IsTrue (view D.Disk mft.old).told → StagesOnly D.Disk (record_places (view D.Disk mft.old).layout n)
        (stage_of D.Disk mft.old) (stage_of D.Disk mft.new) }
    ensures device { KeepsDevice D.Disk mft.old mft.new }
    ensures err { IfErr result IsReadNo }
    ensures faults { MatchResult result (λ _. faults_of D.Disk mft.new ≡ faults_of D.Disk mft.old)
        (CountsNo (faults_of D.Disk mft.old) (faults_of D.Disk mft.new)) }
{
    quit_name(alloc, mft, n)?;
    free_one(mft, n)
}

/// Takes the one name of a file out of its record, which counts no link then, frees that record, and clears its flag, in memory and in the
/// stored bitmap of records. All of it is staged, and a discard takes the flag again.
///
/// # Errors
///
/// `Device` where the disk failed, and `Memory`. Some of it may then be staged: whoever called discards.
pub fn free_file<D: Disk>(alloc: Global, mft: &mut Mft<'_, D>, n: u64) -> Result<(), FileNo>
    requires inside { n < length (mounted_of D.Disk mft.old).records }
    requires mirror { IsMirrorInside (mounted_of D.Disk mft.old) }
    requires sound { is_mft_broken D.Disk mft.old ≡ false }
    requires may { IsTrue (view D.Disk mft.old).told → MayFree (view D.Disk mft.old) (mounted_of D.Disk mft.old) n }
    ensures goes { OnOk result (IsTrue (view D.Disk mft.old).told
        → GoesWhole (view D.Disk mft.old) (view D.Disk mft.new) (mounted_of D.Disk mft.old) (mounted_of D.Disk mft.new) n) }
    ensures bits { OnOk result (mounted_of D.Disk mft.new ≡ with_record_given (mounted_of D.Disk mft.old) n) }
    ensures places { IsTrue (view D.Disk mft.old).told → StagesFile D.Disk (view D.Disk mft.old) n mft.old mft.new }
    ensures few { IsTrue (view D.Disk mft.old).told
        → length (places D.Disk (stage_of D.Disk mft.new)) ≤ length (places D.Disk (stage_of D.Disk mft.old)) + 3 }
    ensures device { KeepsDevice D.Disk mft.old mft.new }
    ensures err { IfErr result IsReadNo }
    ensures faults { MatchResult result (λ _. faults_of D.Disk mft.new ≡ faults_of D.Disk mft.old)
        (CountsNo (faults_of D.Disk mft.old) (faults_of D.Disk mft.new)) }
{
    leave_record(alloc, mft, n)?;
    clear_record_bit(alloc, mft, n)
}
