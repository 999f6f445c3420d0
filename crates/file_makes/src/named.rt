//! The record of a new file, and its name in its directory.
ghost use Rattle.std.specs.Prelude.{◌≡◌, ◌<◌, ◌≤◌, ℕ, IfErr, IfOk, IsTrue, MatchResult, false, length};
ghost use Rattle.ntfs_def.specs.FileName.{is_name_key};
ghost use Rattle.ntfs_def.specs.Record.{reference_in};
ghost use Rattle.mft_table.specs.Changes.{with_record_taken};
ghost use Rattle.mft_table.specs.FreeRecords.{IsLeastFree, IsOrdinaryFree};
ghost use Rattle.mft_table.specs.InUse.{IsInUse};
ghost use Rattle.mft_table.specs.Mft.{faults_of, is_mft_broken, mounted_of, view};
ghost use Rattle.mft_table.specs.MirrorClusters.{IsMirrorInside};
ghost use Rattle.file_record.specs.FileNos.{CountsNo, IsReadNo};
ghost use Rattle.made_edits.specs.Comes.{ComesUnder, new_reference};
ghost use Rattle.file_makes.specs.Steps.{KeepsDevice};
ghost use Rattle.file_makes.specs.Under.{HasRecordRoom, MayMake, StagesMade};

use crate::flagged::make_flagged;
use crate::under::put_under;
use file_record::FileNo;
use mft_table::Mft;
use std::alloc::Global;
use vol_disk::Disk;

/// Makes the record of a new file, behind its flag in the stored bitmap of records, and puts the entry of its name, for the file of this
/// reference, into the index of its directory. All of it is staged, and a discard leaves the volume as it was.
///
/// # Errors
///
/// `Device` where the disk failed, and `Memory`. Some of it may then be staged: whoever called discards.
pub fn make_named<D: Disk>(
    alloc: Global,
    mft: &mut Mft<'_, D>,
    dir: u64,
    file: u64,
    directory: bool,
    standard: &[u8; 72],
    key: &[u8],
) -> Result<u64, FileNo>
    requires inside { dir < length (mounted_of D.Disk mft.old).records }
    requires few { length key.now ≤ 576 }
    requires key { IsTrue (is_name_key key.now) }
    requires free { (n : ℕ) × IsOrdinaryFree (mounted_of D.Disk mft.old).records n }
    requires mirror { IsMirrorInside (mounted_of D.Disk mft.old) }
    requires sound { is_mft_broken D.Disk mft.old ≡ false }
    requires volume { IsInUse D.Disk mft.old }
    requires may { IsTrue (view D.Disk mft.old).told → MayMake directory (view D.Disk mft.old) dir key.now }
    requires record_bit { IsTrue (view D.Disk mft.old).told → (n : ℕ) → IsLeastFree (mounted_of D.Disk mft.old).records n
        → HasRecordRoom (view D.Disk mft.old) n }
    ensures least { IfOk result (IsLeastFree (mounted_of D.Disk mft.old).records) }
    ensures bits { IfOk result (λ n. mounted_of D.Disk mft.new ≡ with_record_taken (mounted_of D.Disk mft.old) n) }
    ensures made { IfOk result (λ n. IsTrue (view D.Disk mft.old).told → reference_in file ≡ new_reference (view D.Disk mft.old) n
        → ComesUnder directory (view D.Disk mft.old) (view D.Disk mft.new) (mounted_of D.Disk mft.old) (mounted_of D.Disk mft.new) n dir
        standard.now key.now) }
    ensures places { IsTrue (view D.Disk mft.old).told → (n : ℕ) → IsLeastFree (mounted_of D.Disk mft.old).records n
        → StagesMade D.Disk (view D.Disk mft.old) n dir mft.old mft.new }
    ensures device { KeepsDevice D.Disk mft.old mft.new }
    ensures err { IfErr result IsReadNo }
    ensures faults { MatchResult result (λ _. faults_of D.Disk mft.new ≡ faults_of D.Disk mft.old)
        (CountsNo (faults_of D.Disk mft.old) (faults_of D.Disk mft.new)) }
{
    let made = make_flagged(alloc, mft, directory, standard, key)?;
    put_under(alloc, mft, dir, file, key)?;
    Ok(made)
}
