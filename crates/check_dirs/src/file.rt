//! The indexes of one file.
ghost use Rattle.std.specs.Prelude.{◌≡◌, ◌↔◌, ◌≤◌, ◌∷◌, [], ℕ, All, IfOk, IsTrue, List, MatchResult, count_by, length};
ghost use Rattle.std.specs.List.{list_any};
ghost use Rattle.ntfs_def.specs.declared.kinds.TheConstants.{INDEX_ROOT};
ghost use Rattle.ntfs_def.specs.FileName.{is_name_key, key_units};
ghost use Rattle.ntfs_def.specs.Units.{wide};
ghost use Rattle.volume_def.specs.AttributesClause.{IsRightPart};
ghost use Rattle.volume_def.specs.FileNames.{names_among};
ghost use Rattle.volume_def.specs.Files.{is_of, part_of};
ghost use Rattle.volume_def.specs.IndexesClause.{MeetsIndexes, MeetsViewIndex, StandsInExtend, is_in_extend, word_rule};
ghost use Rattle.attr_view.specs.View.{attribute_of};
ghost use Rattle.mft_table.specs.Mft.{MftReads, faults_of, view};
ghost use Rattle.file_record.specs.Base.{HasBaseRecord};
ghost use Rattle.file_record.specs.Held.{IsHeldFile, file_number, parts_held};
ghost use Rattle.attr_store.specs.First.{attribute_held};
ghost use Rattle.check_dirs.specs.Files.{MeetsExtended, MeetsNames, MeetsSecured};
ghost use Rattle.check_dirs.specs.Notes.{AreNotes};
ghost use Rattle.check_dirs.specs.OrderedIndex.{key_rule};
ghost use Rattle.check_dirs.specs.Records.{CountsNo};
ghost use Rattle.check_dirs.specs.Volume.{IsStoredCase};

use crate::CheckNo;
use crate::directory::check_directory;
use crate::notes::Notes;
use crate::rules::{COLLATION_NTOFS_SECURITY_HASH, COLLATION_NTOFS_ULONG, COLLATION_NTOFS_ULONGS};
use crate::volume_index::index_entries;
use attr_view::AttrView;
use collation::{Collation, FileNameOrder, HashOrder, IdOrder, WordsOrder};
use file_record::{BaseFile, FileParts};
use index_store::find_index;
use mft_table::Mft;
use ntfs_def::file_name::{PARENT, UNITS, UNITS_LEN, is_name_key};
use ntfs_def::kinds::{FILE_NAME, INDEX_ROOT};
use ntfs_def::records::{EXTEND, FIRST_ORDINARY, SECURE};
use ntfs_def::reference::number_in;
use ntfs_def::{NodeForm, is_directory};
use std::alloc::Global;
use vol_bytes::{u16_at, u64_at};
use vol_disk::Disk;

/// `$SII`, the index of security descriptors by their ids.
const SECURITY_IDS: &[u8] = b"$\0S\0I\0I\0";
/// `$SDH`, the same by their hashes.
const SECURITY_HASHES: &[u8] = b"$\0S\0D\0H\0";
/// `$R`, the index of reparse points.
const REPARSE_POINTS: &[u8] = b"$\0R\0";
/// `$O`, the index of object ids.
const OBJECT_IDS: &[u8] = b"$\0O\0";

/// The names under which the last two stand in `$Extend`.
const REPARSE: &[u8] = b"$Reparse";

const OBJECTS: &[u8] = b"$ObjId";

// Whether an attribute is a root of this name.
fn is_root(attribute: &AttrView<'_>, name: &[u8]) -> bool
    ensures { result ≡ is_of INDEX_ROOT name.now (part_of 0 (attribute_of attribute.now)) }
{
    attribute.kind() == INDEX_ROOT && attribute.name() == name
}

// Whether a file has a root of this name.
fn has_root(file: &FileParts, name: &[u8]) -> bool
    ensures { IsTrue result ↔ (1 ≤ length (attribute_held file.now INDEX_ROOT name.now)) }
{
    for attribute in file.attributes() {
        if is_root(&attribute, name) {
            return true;
        }
    }
    false
}

// Checks a view index, where it is there.
fn check_view<D: Disk, C: Collation>(
    alloc: Global,
    mft: &mut Mft<'_, D>,
    file: &FileParts,
    name: &[u8],
    collation: u32,
    order: &C,
) -> Result<bool, CheckNo>
    requires held { IsTrue (view D.Disk mft.old).told → IsHeldFile (view D.Disk mft.old) file.now }
    ensures right { IfOk result (λ right. IsTrue (view D.Disk mft.old).told → (units : List ℕ) → name.now ≡ wide units
        → IsTrue right ↔ MeetsViewIndex (view D.Disk mft.old) (file_number file.now) units
        (key_rule collation (C.order order.now) (C.valid order.now))) }
    ensures reads { (reads : ℕ) × MftReads D.Disk mft.old mft.new reads }
    ensures faults { MatchResult result (λ _. faults_of D.Disk mft.new ≡ faults_of D.Disk mft.old)
        (CountsNo (faults_of D.Disk mft.old) (faults_of D.Disk mft.new)) }
{
    if !has_root(file, name) {
        return Ok(true);
    }
    let Some(index) = find_index(file, name) else {
        return Ok(false);
    };
    let found = index_entries(alloc, mft, file, index, NodeForm::View, collation, order)?;
    Ok(found.is_some())
}

// Checks the indexes of security descriptors, of the file that has them.
fn check_secured<D: Disk>(
    alloc: Global,
    mft: &mut Mft<'_, D>,
    file: &FileParts,
) -> Result<bool, CheckNo>
    requires held { IsTrue (view D.Disk mft.old).told → IsHeldFile (view D.Disk mft.old) file.now }
    ensures right { IfOk result (λ right. IsTrue (view D.Disk mft.old).told
        → IsTrue right ↔ MeetsSecured (view D.Disk mft.old) (file_number file.now)) }
    ensures reads { (reads : ℕ) × MftReads D.Disk mft.old mft.new reads }
    ensures faults { MatchResult result (λ _. faults_of D.Disk mft.new ≡ faults_of D.Disk mft.old)
        (CountsNo (faults_of D.Disk mft.old) (faults_of D.Disk mft.new)) }
{
    if file.number() != SECURE {
        return Ok(true);
    }
    let by_ids = check_view(
        alloc,
        mft,
        file,
        SECURITY_IDS,
        COLLATION_NTOFS_ULONG,
        &IdOrder,
    )?;
    let by_hashes = check_view(
        alloc,
        mft,
        file,
        SECURITY_HASHES,
        COLLATION_NTOFS_SECURITY_HASH,
        &HashOrder,
    )?;
    Ok(by_ids && by_hashes)
}

// Whether the units of a name, the value of a `$FILE_NAME`, are these letters.
fn has_letters(key: &[u8], letters: &[u8]) -> bool
    requires { IsTrue (is_name_key key.now) }
    ensures { IsTrue result ↔ (key_units key.now ≡ letters.now) }
{
    if key[UNITS_LEN] as usize != letters.len() {
        return false;
    }
    for i in 0..letters.len() {
        if u16_at(key, UNITS + 2 * i) != u16::from(letters[i]) {
            return false;
        }
    }
    true
}

// Whether an attribute is a name in `$Extend` of these letters.
fn is_in_extend(attribute: &AttrView<'_>, letters: &[u8]) -> bool
    ensures { IsRightPart (part_of 0 (attribute_of attribute.now))
        → result ≡ list_any (is_in_extend letters.now) (names_among (part_of 0 (attribute_of attribute.now) ∷ [])) }
{
    if attribute.kind() != FILE_NAME {
        return false;
    }
    let Some(key) = attribute.value() else {
        return false;
    };
    if !is_name_key(key) {
        return false;
    }
    if number_in(u64_at(key, PARENT)) != EXTEND {
        return false;
    }
    has_letters(key, letters)
}

// Whether a file stands in `$Extend` under a name of these letters.
fn stands_in_extend(file: &FileParts, letters: &[u8]) -> bool
    ensures { All IsRightPart (parts_held file.now)
        → IsTrue result ↔ (1 ≤ count_by (is_in_extend letters.now) (names_among (parts_held file.now))) }
{
    for attribute in file.attributes() {
        if is_in_extend(&attribute, letters) {
            return true;
        }
    }
    false
}

// Checks the index of a file that stands in `$Extend` under a name, where it is one.
fn check_extended<D: Disk>(
    alloc: Global,
    mft: &mut Mft<'_, D>,
    file: &FileParts,
    letters: &[u8],
    name: &[u8],
) -> Result<bool, CheckNo>
    requires held { IsTrue (view D.Disk mft.old).told → IsHeldFile (view D.Disk mft.old) file.now }
    ensures right { IfOk result (λ right. IsTrue (view D.Disk mft.old).told → (units : List ℕ) → name.now ≡ wide units
        → IsTrue right ↔ (StandsInExtend (view D.Disk mft.old) (file_number file.now) letters.now
        → MeetsViewIndex (view D.Disk mft.old) (file_number file.now) units word_rule)) }
    ensures reads { (reads : ℕ) × MftReads D.Disk mft.old mft.new reads }
    ensures faults { MatchResult result (λ _. faults_of D.Disk mft.new ≡ faults_of D.Disk mft.old)
        (CountsNo (faults_of D.Disk mft.old) (faults_of D.Disk mft.new)) }
{
    if file.number() < FIRST_ORDINARY {
        return Ok(true);
    }
    if !stands_in_extend(file, letters) {
        return Ok(true);
    }
    check_view(alloc, mft, file, name, COLLATION_NTOFS_ULONGS, &WordsOrder)
}

// Checks the indexes of reparse points and of object ids, of the file that has them.
fn check_extend<D: Disk>(
    alloc: Global,
    mft: &mut Mft<'_, D>,
    file: &FileParts,
) -> Result<bool, CheckNo>
    requires held { IsTrue (view D.Disk mft.old).told → IsHeldFile (view D.Disk mft.old) file.now }
    ensures right { IfOk result (λ right. IsTrue (view D.Disk mft.old).told
        → IsTrue right ↔ MeetsExtended (view D.Disk mft.old) (file_number file.now)) }
    ensures reads { (reads : ℕ) × MftReads D.Disk mft.old mft.new reads }
    ensures faults { MatchResult result (λ _. faults_of D.Disk mft.new ≡ faults_of D.Disk mft.old)
        (CountsNo (faults_of D.Disk mft.old) (faults_of D.Disk mft.new)) }
{
    let points = check_extended(alloc, mft, file, REPARSE, REPARSE_POINTS)?;
    let objects = check_extended(alloc, mft, file, OBJECTS, OBJECT_IDS)?;
    Ok(points && objects)
}

// Checks the view indexes of a file, as far as the clause asks for them.
fn check_views<D: Disk>(
    alloc: Global,
    mft: &mut Mft<'_, D>,
    file: &FileParts,
) -> Result<bool, CheckNo>
    requires held { IsTrue (view D.Disk mft.old).told → IsHeldFile (view D.Disk mft.old) file.now }
    ensures right { IfOk result (λ right. IsTrue (view D.Disk mft.old).told
        → IsTrue right ↔ (MeetsSecured (view D.Disk mft.old) (file_number file.now)
        × MeetsExtended (view D.Disk mft.old) (file_number file.now))) }
    ensures reads { (reads : ℕ) × MftReads D.Disk mft.old mft.new reads }
    ensures faults { MatchResult result (λ _. faults_of D.Disk mft.new ≡ faults_of D.Disk mft.old)
        (CountsNo (faults_of D.Disk mft.old) (faults_of D.Disk mft.new)) }
{
    let secured = check_secured(alloc, mft, file)?;
    let extended = check_extend(alloc, mft, file)?;
    Ok(secured && extended)
}

// Checks the index of a directory, where the file is one.
fn check_names<D: Disk>(
    alloc: Global,
    mft: &mut Mft<'_, D>,
    order: &FileNameOrder,
    notes: &Notes,
    file: &BaseFile,
) -> Result<bool, CheckNo>
    requires held { IsTrue (view D.Disk mft.old).told → IsHeldFile (view D.Disk mft.old) file.now.parts }
    requires case { IsStoredCase (view D.Disk mft.old) order.now.upcase }
    ensures right { IfOk result (λ right. IsTrue (view D.Disk mft.old).told → AreNotes (view D.Disk mft.old) notes.now
        → HasBaseRecord (view D.Disk mft.old) (file_number file.now.parts) file.now.header
        → IsTrue right ↔ MeetsNames (view D.Disk mft.old) (file_number file.now.parts)) }
    ensures reads { (reads : ℕ) × MftReads D.Disk mft.old mft.new reads }
    ensures faults { MatchResult result (λ _. faults_of D.Disk mft.new ≡ faults_of D.Disk mft.old)
        (CountsNo (faults_of D.Disk mft.old) (faults_of D.Disk mft.new)) }
{
    if !is_directory(file.header.flags) {
        return Ok(true);
    }
    let names = notes.names_in(file.parts.number());
    check_directory(alloc, mft, order, names, &file.parts)
}

/// Checks the indexes of a file, as far as the clause asks for them: that of a directory, those of security descriptors,
/// and those of reparse points and of object ids in `$Extend`.
///
/// # Errors
///
/// `Device` where the disk failed, and `Memory` where it did not.
pub fn check_file<D: Disk>(
    alloc: Global,
    mft: &mut Mft<'_, D>,
    order: &FileNameOrder,
    notes: &Notes,
    file: &BaseFile,
) -> Result<bool, CheckNo>
    requires held { IsTrue (view D.Disk mft.old).told → IsHeldFile (view D.Disk mft.old) file.now.parts }
    requires case { IsStoredCase (view D.Disk mft.old) order.now.upcase }
    ensures right { IfOk result (λ right. IsTrue (view D.Disk mft.old).told → AreNotes (view D.Disk mft.old) notes.now
        → HasBaseRecord (view D.Disk mft.old) (file_number file.now.parts) file.now.header
        → IsTrue right ↔ MeetsIndexes (view D.Disk mft.old) (file_number file.now.parts)) }
    ensures reads { (reads : ℕ) × MftReads D.Disk mft.old mft.new reads }
    ensures faults { MatchResult result (λ _. faults_of D.Disk mft.new ≡ faults_of D.Disk mft.old)
        (CountsNo (faults_of D.Disk mft.old) (faults_of D.Disk mft.new)) }
{
    let names = check_names(alloc, mft, order, notes, file)?;
    let views = check_views(alloc, mft, &file.parts)?;
    Ok(names && views)
}
