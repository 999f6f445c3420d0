//! A file, or a directory, made under one name.
ghost use Rattle.std.specs.Prelude.{◌≡◌, ◌<◌, ◌≤◌, ℕ, IfErr, IfOk, IsTrue, MatchResult, false, length};
ghost use Rattle.mft_table.specs.Changes.{with_record_taken};
ghost use Rattle.mft_table.specs.FreeRecords.{IsLeastFree, IsOrdinaryFree};
ghost use Rattle.mft_table.specs.InUse.{IsInUse};
ghost use Rattle.mft_table.specs.Mft.{faults_of, is_mft_broken, mounted_of, view};
ghost use Rattle.mft_table.specs.MirrorClusters.{IsMirrorInside};
ghost use Rattle.file_record.specs.FileNos.{CountsNo, IsReadNo};
ghost use Rattle.tree_model.specs.declared.tree.Node.{Node};
ghost use Rattle.made_edits.specs.Standard.{IsInitialized};
ghost use Rattle.made_edits.specs.Comes.{CanMake};
ghost use Rattle.made_edits.specs.Makes.{MakesFile};
ghost use Rattle.file_makes.specs.Steps.{KeepsDevice};
ghost use Rattle.file_makes.specs.Under.{HasNameRoom, HasRecordRoom, StagesMade};

use crate::key::new_key;
use crate::named::make_named;
use crate::reference::{next_reference, reference_of};
use crate::standard::new_standard;
use file_record::FileNo;
use mft_table::Mft;
use std::alloc::Global;
use vol_disk::Disk;

/// Makes an empty file, or a directory, under a new name in a directory, at this moment (in units of 100 ns since 1601), with the security
/// descriptor of this id, in the least free record, whose number is answered: its flag in the stored bitmap of records and in memory, its
/// record, and the entry of its name. All of it is staged, and a discard leaves the volume as it was. The times of the directory in which
/// it comes are the caller's to set.
///
/// By condition, where the contents are told: the directory is shown, and no name of it is the same (`CanMake`); the flag of that record
/// has a place in the stored bitmap, and its block was written (`HasRecordRoom`); the directory's index has room for the entry, in the
/// record in which the search for the name ends, or in its root, where it has no records (`HasNameRoom`); and the records of the directory
/// lie in what was written of the table.
///
/// # Errors
///
/// `Device` where the disk failed, and `Memory`. Some of it may then be staged: whoever called discards.
pub fn make_file<D: Disk>(
    alloc: Global,
    mft: &mut Mft<'_, D>,
    dir: u64,
    name: &[u16],
    directory: bool,
    moment: u64,
    security: u32,
) -> Result<u64, FileNo>
    requires inside { dir < length (mounted_of D.Disk mft.old).records }
    requires some { 1 ≤ length name.now }
    requires few { length name.now ≤ 255 }
    requires free { (n : ℕ) × IsOrdinaryFree (mounted_of D.Disk mft.old).records n }
    requires mirror { IsMirrorInside (mounted_of D.Disk mft.old) }
    requires sound { is_mft_broken D.Disk mft.old ≡ false }
    requires volume { IsInUse D.Disk mft.old }
    requires can { IsTrue (view D.Disk mft.old).told → (node : Node) × CanMake (view D.Disk mft.old) dir node name.now }
    requires record_bit { IsTrue (view D.Disk mft.old).told → (n : ℕ) → IsLeastFree (mounted_of D.Disk mft.old).records n
        → HasRecordRoom (view D.Disk mft.old) n }
    requires room { IsTrue (view D.Disk mft.old).told → HasNameRoom (view D.Disk mft.old) dir name.now }
    requires written { IsTrue (view D.Disk mft.old).told → IsInitialized (view D.Disk mft.old) dir }
    ensures least { IfOk result (IsLeastFree (mounted_of D.Disk mft.old).records) }
    ensures bits { IfOk result (λ n. mounted_of D.Disk mft.new ≡ with_record_taken (mounted_of D.Disk mft.old) n) }
    ensures made { IfOk result (λ n. IsTrue (view D.Disk mft.old).told → MakesFile directory (view D.Disk mft.old)
        (view D.Disk mft.new) (mounted_of D.Disk mft.old) (mounted_of D.Disk mft.new) n dir name.now moment security) }
    ensures places { IsTrue (view D.Disk mft.old).told → (n : ℕ) → IsLeastFree (mounted_of D.Disk mft.old).records n
        → StagesMade D.Disk (view D.Disk mft.old) n dir mft.old mft.new }
    ensures device { KeepsDevice D.Disk mft.old mft.new }
    ensures err { IfErr result IsReadNo }
    ensures faults { MatchResult result (λ _. faults_of D.Disk mft.new ≡ faults_of D.Disk mft.old)
        (CountsNo (faults_of D.Disk mft.old) (faults_of D.Disk mft.new)) }
{
    let n = match mft.least_free_record() {
        Some(n) => n,
        None => unreachable!(),
    };
    let parent = reference_of(alloc, mft, dir)?;
    let file = next_reference(mft, n)?;
    let key = new_key(alloc, parent, name, directory, moment)?;
    let standard = new_standard(moment, security, directory);
    let made = make_named(alloc, mft, dir, file, directory, &standard, &key)?;
    Ok(made)
}
