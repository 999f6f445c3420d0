//! The record of a new file: what comes into it, step by step.
ghost use Rattle.std.specs.Prelude.{◌≡◌, ◌+◌, ◌≤◌, ℕ, IfErr, IfOk, IsTrue, List, MatchResult, OnOk, [], false, length};
ghost use Rattle.ntfs_def.specs.Shape.{IsOneAttribute};
ghost use Rattle.ntfs_def.specs.declared.kinds.TheConstants.{FILE_NAME};
ghost use Rattle.volume_def.specs.Files.{parts, records_of};
ghost use Rattle.volume_def.specs.Table.{cluster_bytes};
ghost use Rattle.volume_edits.specs.Rewritten.{CountsLinks};
ghost use Rattle.record_bytes.specs.AttributeBytes.{resident_bytes};
ghost use Rattle.vol_stage.specs.Staged.{StagesOnly};
ghost use Rattle.mft_table.specs.Changes.{with_record_taken};
ghost use Rattle.mft_table.specs.FreeRecords.{IsLeastFree, IsOrdinaryFree};
ghost use Rattle.mft_table.specs.Mft.{KeepsDisk, faults_of, is_mft_broken, mounted_of, stage_of, view};
ghost use Rattle.mft_table.specs.MirrorClusters.{IsMirrorInside};
ghost use Rattle.mft_table.specs.Staging.{record_places};
ghost use Rattle.file_record.specs.declared.error.FileNo.TheVariants.{Memory};
ghost use Rattle.file_record.specs.FileNos.{CountsNo, IsReadNo};
ghost use Rattle.file_record.specs.Extensions.{HoldsNewBase};
ghost use Rattle.file_record.specs.Held.{file_number};
ghost use Rattle.file_record.specs.Links.{HoldsBase};
ghost use Rattle.file_record.specs.Written.{IsWholeFile};
ghost use Rattle.file_makes.specs.Steps.{ComesSecond, FillsRecord, HasRoomFor, HasUsed, IsWrittenRecord, KeepsDevice, MakesRecord};

use crate::body::new_body;
use file_record::{FileNo, FileParts};
use mft_table::Mft;
use ntfs_def::kinds::FILE_NAME;
use record_bytes::resident;
use std::alloc::Global;
use vol_disk::Disk;

// Puts an attribute behind the first one of the base record of a file, and stages the record.
fn put_second<D: Disk>(
    mft: &mut Mft<'_, D>,
    file: &mut FileParts,
    attr: &[u8],
) -> Result<(), FileNo>
    requires one { IsOneAttribute attr.now }
    requires room { HasRoomFor file.old (length attr.now) }
    requires mirror { IsMirrorInside (mounted_of D.Disk mft.old) }
    requires sound { is_mft_broken D.Disk mft.old ≡ false }
    ensures comes { OnOk result (IsWrittenRecord (view D.Disk mft.old) (file_number file.old) → IsWholeFile (view D.Disk mft.old) file.old
        → ComesSecond (view D.Disk mft.old) (view D.Disk mft.new) file.old file.new attr.now) }
    ensures used { OnOk result ((used : ℕ) → HasUsed file.old used → HasUsed file.new (used + length attr.now)) }
    ensures number { file_number file.new ≡ file_number file.old }
    ensures places { StagesOnly D.Disk (record_places (view D.Disk mft.old).layout (file_number file.old)) (stage_of D.Disk mft.old)
        (stage_of D.Disk mft.new) }
    ensures disk { KeepsDisk D.Disk mft.old mft.new }
    ensures memory { IfErr result (λ no. no ≡ Memory) }
    ensures faults { faults_of D.Disk mft.new ≡ faults_of D.Disk mft.old }
{
    file.insert_attribute(mft, 0, 1, attr)?;
    Ok(())
}

// Counts one link in the base record of a file, and stages the record.
fn count_one<D: Disk>(mft: &mut Mft<'_, D>, file: &mut FileParts) -> Result<(), FileNo>
    requires base { HoldsBase file.old }
    requires mirror { IsMirrorInside (mounted_of D.Disk mft.old) }
    requires sound { is_mft_broken D.Disk mft.old ≡ false }
    ensures counts { OnOk result (IsWrittenRecord (view D.Disk mft.old) (file_number file.old) → IsWholeFile (view D.Disk mft.old) file.old
        → (stored : List ℕ) × CountsLinks (view D.Disk mft.old) (view D.Disk mft.new) (file_number file.old) stored 1) }
    ensures number { file_number file.new ≡ file_number file.old }
    ensures places { StagesOnly D.Disk (record_places (view D.Disk mft.old).layout (file_number file.old)) (stage_of D.Disk mft.old)
        (stage_of D.Disk mft.new) }
    ensures disk { KeepsDisk D.Disk mft.old mft.new }
    ensures memory { IfErr result (λ no. no ≡ Memory) }
    ensures faults { faults_of D.Disk mft.new ≡ faults_of D.Disk mft.old }
{
    file.set_links(mft, 1)?;
    Ok(())
}

// Puts the body of a new file into its record, its name in front of that, and counts that name.
fn fill_record<D: Disk>(
    alloc: Global,
    mft: &mut Mft<'_, D>,
    file: &mut FileParts,
    directory: bool,
    key: &[u8],
) -> Result<(), FileNo>
    requires key { length key.now ≤ 576 }
    requires new { HoldsNewBase file.old }
    requires mirror { IsMirrorInside (mounted_of D.Disk mft.old) }
    requires sound { is_mft_broken D.Disk mft.old ≡ false }
    ensures fills { OnOk result (IsWrittenRecord (view D.Disk mft.old) (file_number file.old) → IsWholeFile (view D.Disk mft.old) file.old
        → FillsRecord directory (cluster_bytes (view D.Disk mft.old).layout) (view D.Disk mft.old) (view D.Disk mft.new)
        (file_number file.old) key.now) }
    ensures number { file_number file.new ≡ file_number file.old }
    ensures places { StagesOnly D.Disk (record_places (view D.Disk mft.old).layout (file_number file.old)) (stage_of D.Disk mft.old)
        (stage_of D.Disk mft.new) }
    ensures disk { KeepsDisk D.Disk mft.old mft.new }
    ensures memory { IfErr result (λ no. no ≡ Memory) }
    ensures faults { faults_of D.Disk mft.new ≡ faults_of D.Disk mft.old }
{
    let body = new_body(alloc, directory, mft.cluster_sectors())?;
    put_second(mft, file, &body)?;
    let name = resident(alloc, FILE_NAME, &[], 2, key)?;
    put_second(mft, file, &name)?;
    count_one(mft, file)
}

/// Makes the record of a new file, the least free one, whose flag is taken: its `$STANDARD_INFORMATION`, the value of its one name, and
/// its body, an empty stream, or of a directory the root of its index. The record is staged, and a discard gives its flag back.
///
/// # Errors
///
/// `Device` where the disk failed, and `Memory`. Some of it may then be staged: whoever called discards.
pub fn make_record<D: Disk>(
    alloc: Global,
    mft: &mut Mft<'_, D>,
    directory: bool,
    standard: &[u8; 72],
    key: &[u8],
) -> Result<u64, FileNo>
    requires key { length key.now ≤ 576 }
    requires free { (n : ℕ) × IsOrdinaryFree (mounted_of D.Disk mft.old).records n }
    requires mirror { IsMirrorInside (mounted_of D.Disk mft.old) }
    requires sound { is_mft_broken D.Disk mft.old ≡ false }
    ensures least { IfOk result (IsLeastFree (mounted_of D.Disk mft.old).records) }
    ensures bits { IfOk result (λ n. mounted_of D.Disk mft.new ≡ with_record_taken (mounted_of D.Disk mft.old) n) }
    ensures made { IfOk result (λ n. IsWrittenRecord (view D.Disk mft.old) n → parts (records_of (view D.Disk mft.old)) n ≡ []
        → MakesRecord directory (cluster_bytes (view D.Disk mft.old).layout) (view D.Disk mft.old) (view D.Disk mft.new) n standard.now
        key.now) }
    ensures places { (n : ℕ) → IsLeastFree (mounted_of D.Disk mft.old).records n
        → StagesOnly D.Disk (record_places (view D.Disk mft.old).layout n) (stage_of D.Disk mft.old) (stage_of D.Disk mft.new) }
    ensures device { KeepsDevice D.Disk mft.old mft.new }
    ensures err { IfErr result IsReadNo }
    ensures faults { MatchResult result (λ _. faults_of D.Disk mft.new ≡ faults_of D.Disk mft.old)
        (CountsNo (faults_of D.Disk mft.old) (faults_of D.Disk mft.new)) }
{
    let mut file = FileParts::create(alloc, mft, directory, standard)?;
    fill_record(alloc, mft, &mut file, directory, key)?;
    Ok(file.number())
}
