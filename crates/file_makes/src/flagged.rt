//! The record of a new file, behind its flag in the stored bitmap of records.
ghost use Rattle.std.specs.Prelude.{◌≡◌, ◌+◌, ◌*◌, ◌≤◌, ℕ, IfErr, IfOk, IsTrue, MatchResult, false, length, true};
ghost use Rattle.vol_stage.specs.Staged.{places};
ghost use Rattle.volume_edits.specs.Owners.{HasOwners};
ghost use Rattle.mft_table.specs.Changes.{with_record_taken};
ghost use Rattle.mft_table.specs.FreeRecords.{IsLeastFree, IsOrdinaryFree};
ghost use Rattle.mft_table.specs.InUse.{IsInUse};
ghost use Rattle.mft_table.specs.Mft.{faults_of, is_mft_broken, mounted_of, stage_of, view};
ghost use Rattle.mft_table.specs.MirrorClusters.{IsMirrorInside};
ghost use Rattle.file_record.specs.FileNos.{CountsNo, IsReadNo};
ghost use Rattle.tree_model.specs.Ways.{has_record_bit};
ghost use Rattle.file_makes.specs.Steps.{ComesFlagged, KeepsDevice, StagesFile};

use crate::record::make_record;
use file_record::FileNo;
use made_edits::store_record_bit;
use mft_table::Mft;
use std::alloc::Global;
use vol_disk::Disk;

/// Makes the record of a new file, as `make_record` does, behind the flag of that record, which is set in the stored bitmap of records
/// first. All of it is staged, and a discard leaves the volume as it was.
///
/// # Errors
///
/// `Device` where the disk failed, and `Memory`. Some of it may then be staged: whoever called discards.
pub fn make_flagged<D: Disk>(
    alloc: Global,
    mft: &mut Mft<'_, D>,
    directory: bool,
    standard: &[u8; 72],
    key: &[u8],
) -> Result<u64, FileNo>
    requires key { length key.now ≤ 576 }
    requires free { (n : ℕ) × IsOrdinaryFree (mounted_of D.Disk mft.old).records n }
    requires mirror { IsMirrorInside (mounted_of D.Disk mft.old) }
    requires sound { is_mft_broken D.Disk mft.old ≡ false }
    requires owners { IsTrue (view D.Disk mft.old).told → HasOwners (view D.Disk mft.old) }
    requires volume { IsInUse D.Disk mft.old }
    ensures least { IfOk result (IsLeastFree (mounted_of D.Disk mft.old).records) }
    ensures bits { IfOk result (λ n. mounted_of D.Disk mft.new ≡ with_record_taken (mounted_of D.Disk mft.old) n) }
    ensures comes { IfOk result (λ n. IsTrue (view D.Disk mft.old).told → has_record_bit (view D.Disk mft.old) n ≡ true
        → 1024 * n + 1024 ≤ (view D.Disk mft.old).layout.initialized
        → ComesFlagged directory (view D.Disk mft.old) (view D.Disk mft.new) n standard.now key.now) }
    ensures places { IsTrue (view D.Disk mft.old).told → (n : ℕ) → IsLeastFree (mounted_of D.Disk mft.old).records n
        → StagesFile D.Disk (view D.Disk mft.old) n mft.old mft.new }
    ensures few { length (places D.Disk (stage_of D.Disk mft.new)) ≤ length (places D.Disk (stage_of D.Disk mft.old)) + 3 }
    ensures device { KeepsDevice D.Disk mft.old mft.new }
    ensures err { IfErr result IsReadNo }
    ensures faults { MatchResult result (λ _. faults_of D.Disk mft.new ≡ faults_of D.Disk mft.old)
        (CountsNo (faults_of D.Disk mft.old) (faults_of D.Disk mft.new)) }
{
    let n = match mft.least_free_record() {
        Some(n) => n,
        None => unreachable!(),
    };
    store_record_bit(alloc, mft, n)?;
    let made = make_record(alloc, mft, directory, standard, key)?;
    Ok(made)
}
