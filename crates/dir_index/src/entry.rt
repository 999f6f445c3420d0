//! An entry of a directory repeats facts of its file; it tells them anew.
ghost use Rattle.std.specs.Prelude.{◌≡◌, ◌≤◌, ◌<◌, ◌∷◌, [], ℕ, List, Some, false, All, codes, length, map};
ghost use Rattle.std.specs.Prelude.{IfErr, IfOk, IfSome, IsTrue, MatchResult, OnErr, OnOk};
ghost use Rattle.ntfs_def.specs.FileName.{is_name_key};
ghost use Rattle.ntfs_def.specs.Node.{item_in};
ghost use Rattle.ntfs_def.specs.Units.{wide};
ghost use Rattle.ntfs_def.specs.declared.index.NodeForm.TheVariants.{Names};
ghost use Rattle.ntfs_def.specs.declared.kinds.TheConstants.{INDEX_ROOT};
ghost use Rattle.volume_def.specs.Coverage.{IsApart};
ghost use Rattle.volume_def.specs.Files.{content_value};
ghost use Rattle.index_store.specs.Owners.{HasOwners};
ghost use Rattle.index_node.specs.Edit.{IsShortEntry};
ghost use Rattle.index_store.specs.Search.{IsKeyed};
ghost use Rattle.index_store.specs.Mft.{KeepsDisk, MftReads, faults_of, is_mft_broken, mounted_of, view};
ghost use Rattle.index_store.specs.MirrorClusters.{IsMirrorInside};
ghost use Rattle.index_store.specs.FileNos.{CountsNo, IsReadNo};
ghost use Rattle.index_store.specs.Held.{IsHeldFile, file_number, held_of, parts_held};
ghost use Rattle.index_store.specs.Records.{IsRecordOf};
ghost use Rattle.index_store.specs.FileRecordWritten.{IsWholeFile, PartHeld};
ghost use Rattle.index_store.specs.Below.{attribute_held};
ghost use Rattle.index_store.specs.Index.{index_held};
ghost use Rattle.dir_index.specs.Held.{IsHeldDirectory};
ghost use Rattle.dir_index.specs.Refreshed.{CanRefresh, FoundExactly, GivesRoot, HasUnits, IsHeldWhole, IsOtherValue};
ghost use Rattle.dir_index.specs.Refreshed.{PutsEntry, RefreshesEntry, StagesEntry, WritesRoot};
ghost use Rattle.dir_index.specs.Replaced.{StagesRecords};
ghost use Rattle.dir_index.specs.Sought.{is_sought_key};
ghost use Rattle.dir_index.specs.Standard.{IsInitialized, StagesNothing, StagesRecordOf};

use crate::fresh::fresh_entry;
use crate::index::find_first as find_entry_first;
use crate::replace::replace_in;
use crate::search::share;
use crate::sought::ExactName;
use collation::FileNameOrder;
use index_store::{FileNo, FileParts, Mft, find_first, find_index};
use ntfs_def::index_root::DIRECTORY_INDEX;
use ntfs_def::kinds::INDEX_ROOT;
use std::alloc::Global;
use upcase::UpCase;
use vol_bytes::Octets;
use vol_disk::Disk;

/// What an entry of a directory repeats of its file (Linux-NTFS documentation, attribute $FILE_NAME).
#[derive(Clone, Copy, Debug)]
pub struct DuplicatedInformation {
    /// Four times: made, changed, record changed, read.
    pub times: [u64; 4],
    /// The bytes of the clusters of the unnamed stream.
    pub allocated: u64,
    /// The bytes of the unnamed stream.
    pub real: u64,
    /// The DOS flags that are shown.
    pub flags: u16,
}

// The entry of exactly a name in a directory that is held.
fn find_exact<D: Disk>(
    alloc: Global,
    mft: &mut Mft<'_, D>,
    file: &FileParts,
    upcase: &UpCase,
    name: &[u16],
) -> Result<Option<Octets>, FileNo>
    requires held { IsTrue (view D.Disk mft.old).told → IsHeldDirectory (view D.Disk mft.old) file.now upcase.now }
    ensures found { IfOk result (λ found. IsTrue (view D.Disk mft.old).told
        → FoundExactly (view D.Disk mft.old) (file_number file.now) name.now found) }
    ensures keyed { IfOk result (λ found. IfSome found (IsKeyed Names is_sought_key)) }
    ensures err { IfErr result IsReadNo }
    ensures faults { MatchResult result (λ _. faults_of D.Disk mft.new ≡ faults_of D.Disk mft.old)
        (CountsNo (faults_of D.Disk mft.old) (faults_of D.Disk mft.new)) }
    ensures reads { (reads : ℕ) × MftReads D.Disk mft.old mft.new reads }
{
    let Some(index) = find_index(file, DIRECTORY_INDEX) else {
        return Ok(None);
    };
    find_entry_first(alloc, mft, file, index, ExactName { upcase, name })
}

// Puts an entry in the place of the one with an equal key in the index of a directory that is held, and gives the value of the
// index's root as it is to be then; `None` only where nothing is told.
fn replace_entry<D: Disk>(
    alloc: Global,
    mft: &mut Mft<'_, D>,
    file: &FileParts,
    upcase: UpCase,
    entry: &[u8],
) -> Result<Option<Octets>, FileNo>
    requires held { IsTrue (view D.Disk mft.old).told → IsHeldDirectory (view D.Disk mft.old) file.now upcase }
    requires owners { IsTrue (view D.Disk mft.old).told → HasOwners (view D.Disk mft.old) }
    requires sound { is_mft_broken D.Disk mft.old ≡ false }
    requires entry { IsShortEntry Names false entry.now }
    requires key { IsTrue (is_name_key (item_in entry.now).key) }
    ensures replaced { IfOk result (λ root. IsTrue (view D.Disk mft.old).told
        → GivesRoot (view D.Disk mft.old) (view D.Disk mft.new) (file_number file.now) upcase (item_in entry.now) root) }
    ensures held { OnOk result (IsTrue (view D.Disk mft.old).told → IsHeldFile (view D.Disk mft.new) file.now) }
    ensures places { StagesRecords D.Disk 1 (index_held file.now (wide (codes "$I30"))).records mft.old mft.new }
    ensures disk { KeepsDisk D.Disk mft.old mft.new }
    ensures err { IfErr result IsReadNo }
    ensures faults { MatchResult result (λ _. faults_of D.Disk mft.new ≡ faults_of D.Disk mft.old)
        (CountsNo (faults_of D.Disk mft.old) (faults_of D.Disk mft.new)) }
{
    let Some(index) = find_index(file, DIRECTORY_INDEX) else {
        return Ok(None);
    };
    let mut root = Vec::from_slice(alloc, index.root)?;
    replace_in(
        alloc,
        mft,
        file,
        index,
        FileNameOrder { upcase },
        &mut root,
        entry,
    )?;
    Ok(Some(Octets::from_vec(root)))
}

// Whether part `i` of a file is a value as long as these bytes, and another.
fn is_other(file: &FileParts, i: usize, bytes: &[u8]) -> bool
    requires { i < length (parts_held file.now) }
    ensures { PartHeld file.now i (IsOtherValue bytes.now result) }
{
    let attribute = file.attr(i);
    match attribute.value() {
        Some(value) => value.len() == bytes.len() && value != bytes,
        None => false,
    }
}

// Writes the value of the root of a directory's index in its record, where that is another.
fn write_root<D: Disk>(
    mft: &mut Mft<'_, D>,
    file: &mut FileParts,
    root: &[u8],
) -> Result<(), FileNo>
    requires mirror { IsMirrorInside (mounted_of D.Disk mft.old) }
    requires sound { is_mft_broken D.Disk mft.old ≡ false }
    requires own { IsTrue (view D.Disk mft.old).told
        → All (λ one. IsRecordOf (view D.Disk mft.old) (file_number file.old) one.number) (held_of file.old) }
    ensures written { OnOk result ((was : List ℕ) → IsTrue (view D.Disk mft.old).told → IsApart (view D.Disk mft.old).layout
        → IsWholeFile (view D.Disk mft.old) file.old → IsInitialized (view D.Disk mft.old) (file_number file.old)
        → map (λ part. content_value part.content) (attribute_held file.old INDEX_ROOT (wide (codes "$I30"))) ≡ Some was ∷ []
        → length root.now ≡ length was
        → WritesRoot (view D.Disk mft.old) (view D.Disk mft.new) (attribute_held file.old INDEX_ROOT (wide (codes "$I30"))) was root.now) }
    ensures places { StagesRecordOf D.Disk (file_number file.old) mft.old mft.new }
    ensures kept { OnErr result (StagesNothing D.Disk mft.old mft.new) }
    ensures disk { KeepsDisk D.Disk mft.old mft.new }
    ensures faults { faults_of D.Disk mft.new ≡ faults_of D.Disk mft.old }
    ensures memory { IfErr result (λ no. no ≡ FileNo.Memory) }
{
    let Some(first) = find_first(file, INDEX_ROOT, DIRECTORY_INDEX) else {
        return Ok(());
    };
    if !is_other(file, first.index, root) {
        return Ok(());
    }
    file.write_bytes(mft, first.index, 0, root)
}

// Puts an entry in the place of the one with an equal key in the index of a directory that is held: in one of its records, or in
// its root.
fn put_entry<D: Disk>(
    alloc: Global,
    mft: &mut Mft<'_, D>,
    file: &mut FileParts,
    upcase: UpCase,
    entry: &[u8],
) -> Result<(), FileNo>
    requires held { IsTrue (view D.Disk mft.old).told → IsHeldWhole (view D.Disk mft.old) file.old upcase }
    requires mirror { IsMirrorInside (mounted_of D.Disk mft.old) }
    requires sound { is_mft_broken D.Disk mft.old ≡ false }
    requires entry { IsShortEntry Names false entry.now }
    requires key { IsTrue (is_name_key (item_in entry.now).key) }
    ensures put { OnOk result (IsTrue (view D.Disk mft.old).told
        → PutsEntry (view D.Disk mft.old) (view D.Disk mft.new) (file_number file.old) upcase (item_in entry.now)) }
    ensures places { StagesEntry D.Disk (file_number file.old) mft.old mft.new }
    ensures disk { KeepsDisk D.Disk mft.old mft.new }
    ensures err { IfErr result IsReadNo }
    ensures faults { MatchResult result (λ _. faults_of D.Disk mft.new ≡ faults_of D.Disk mft.old)
        (CountsNo (faults_of D.Disk mft.old) (faults_of D.Disk mft.new)) }
{
    let Some(root) = replace_entry(alloc, mft, file, upcase, entry)? else {
        return Ok(());
    };
    write_root(mft, file, root.as_slice())
}

// The entry of exactly a name tells this of its file, in a directory that is held.
fn refresh_in<D: Disk>(
    alloc: Global,
    mft: &mut Mft<'_, D>,
    file: &mut FileParts,
    upcase: UpCase,
    name: &[u16],
    told: &DuplicatedInformation,
) -> Result<(), FileNo>
    requires held { IsTrue (view D.Disk mft.old).told → IsHeldWhole (view D.Disk mft.old) file.old upcase }
    requires mirror { IsMirrorInside (mounted_of D.Disk mft.old) }
    requires sound { is_mft_broken D.Disk mft.old ≡ false }
    ensures refreshed { OnOk result (IsTrue (view D.Disk mft.old).told → HasUnits (view D.Disk mft.old) (file_number file.old) name.now
        → RefreshesEntry (view D.Disk mft.old) (view D.Disk mft.new) (file_number file.old) name.now told.now) }
    ensures absent { OnOk result (IsTrue (view D.Disk mft.old).told
        → ¬ (HasUnits (view D.Disk mft.old) (file_number file.old) name.now) → StagesNothing D.Disk mft.old mft.new) }
    ensures places { StagesEntry D.Disk (file_number file.old) mft.old mft.new }
    ensures disk { KeepsDisk D.Disk mft.old mft.new }
    ensures err { IfErr result IsReadNo }
    ensures faults { MatchResult result (λ _. faults_of D.Disk mft.new ≡ faults_of D.Disk mft.old)
        (CountsNo (faults_of D.Disk mft.old) (faults_of D.Disk mft.new)) }
{
    let Some(entry) = find_exact(alloc, mft, file, &upcase, name)? else {
        return Ok(());
    };
    let Some(fresh) = fresh_entry(alloc, entry.as_slice(), told)? else {
        return Ok(());
    };
    put_entry(alloc, mft, file, upcase, fresh.as_slice())
}

/// Lets the entry of exactly this name in a directory tell anew what it repeats of its file: the times, the sizes of the unnamed
/// stream, and the DOS flags beside those that are not shown. It is written in the record of the index that has it, or in the
/// index's root. Where the directory has no such name, nothing changes.
///
/// # Errors
///
/// `Device` where the disk failed, and `Memory`. Whoever called gives up what was staged.
pub fn refresh_entry<D: Disk>(
    alloc: Global,
    mft: &mut Mft<'_, D>,
    dir: u64,
    name: &[u16],
    told: &DuplicatedInformation,
) -> Result<(), FileNo>
    requires inside { dir < length (mounted_of D.Disk mft.old).records }
    requires mirror { IsMirrorInside (mounted_of D.Disk mft.old) }
    requires sound { is_mft_broken D.Disk mft.old ≡ false }
    requires told { IsTrue (view D.Disk mft.old).told → CanRefresh (view D.Disk mft.old) dir (mounted_of D.Disk mft.old).upcase }
    ensures refreshed { OnOk result (IsTrue (view D.Disk mft.old).told → HasUnits (view D.Disk mft.old) dir name.now
        → RefreshesEntry (view D.Disk mft.old) (view D.Disk mft.new) dir name.now told.now) }
    ensures absent { OnOk result (IsTrue (view D.Disk mft.old).told → ¬ (HasUnits (view D.Disk mft.old) dir name.now)
        → StagesNothing D.Disk mft.old mft.new) }
    ensures places { StagesEntry D.Disk dir mft.old mft.new }
    ensures disk { KeepsDisk D.Disk mft.old mft.new }
    ensures err { IfErr result IsReadNo }
    ensures faults { MatchResult result (λ _. faults_of D.Disk mft.new ≡ faults_of D.Disk mft.old)
        (CountsNo (faults_of D.Disk mft.old) (faults_of D.Disk mft.new)) }
{
    let mut file = FileParts::load(alloc, mft, dir)?;
    let upcase = share(&mft.mounted().upcase)?;
    refresh_in(alloc, mft, &mut file, upcase, name, told)
}
