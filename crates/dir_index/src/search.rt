//! A name is sought in a directory, and all names of one are listed.
ghost use Rattle.std.specs.Prelude.{◌≡◌, ◌+◌, ◌*◌, ◌++◌, ◌∷◌, [], ℕ, IfErr, IfOk, IfSome, IsTrue, MatchResult, OnOk, codes};
ghost use Rattle.std.specs.List.{filter_map};
ghost use Rattle.std.specs.Option.{option_and_then};
ghost use Rattle.ntfs_def.specs.IndexTree.{Each};
ghost use Rattle.ntfs_def.specs.Node.{IsOwnEntry};
ghost use Rattle.ntfs_def.specs.declared.index.NodeForm.TheVariants.{Names};
ghost use Rattle.ntfs_def.specs.Units.{wide};
ghost use Rattle.volume_def.specs.CaseClause.{volume_fold};
ghost use Rattle.volume_def.specs.IndexesClause.{IsDirectoryIndex};
ghost use Rattle.index_store.specs.Search.{IsKeyed};
ghost use Rattle.tree_model.specs.Reading.{directory_links};
ghost use Rattle.tree_model.specs.Tree.{sought_link};
ghost use Rattle.index_store.specs.Mft.{MftReads, faults_of, mounted_of, view};
ghost use Rattle.index_store.specs.FileNos.{CountsNo, IsReadNo};
ghost use Rattle.index_store.specs.Held.{file_number};
ghost use Rattle.index_store.specs.Records.{file_reads};
ghost use Rattle.index_store.specs.Index.{IsFound};
ghost use Rattle.dir_index.specs.Held.{IsHeldDirectory, IsReadableDirectory};
ghost use Rattle.dir_index.specs.Links.{link_in};
ghost use Rattle.dir_index.specs.Sought.{is_sought_key};

use crate::index::{find_first, walk_all};
use crate::link::link_of_entry;
use crate::sought::{ExactName, FoldedName};
use index_store::{FileNo, FileParts, FoundIndex, Mft, find_index};
use ntfs_def::index_root::DIRECTORY_INDEX;
use std::alloc::Global;
use tree_model::Link;
use upcase::UpCase;
use vol_bytes::{Name, Octets};
use vol_disk::Disk;

/// A table of case, once more.
pub(crate) fn share(upcase: &UpCase) -> Result<UpCase, FileNo>
    ensures table { IfOk result (λ table. table ≡ upcase.now) }
    ensures err { IfErr result (λ no. no ≡ FileNo.Memory) }
{
    match upcase.share() {
        Ok(table) => Ok(table),
        Err(_) => Err(FileNo::Memory),
    }
}

// The entry of exactly this name, else the first that is the same by the table of case.
fn find_entry<D: Disk>(
    alloc: Global,
    mft: &mut Mft<'_, D>,
    file: &FileParts,
    index: FoundIndex<'_>,
    upcase: &UpCase,
    name: &[u16],
) -> Result<Option<Octets>, FileNo>
    requires found { IsFound file.now index }
    requires name { index.name.now ≡ wide (codes "$I30") }
    requires held { IsTrue (view D.Disk mft.old).told → IsHeldDirectory (view D.Disk mft.old) file.now upcase.now }
    ensures found { IfOk result (λ found. IsTrue (view D.Disk mft.old).told → option_and_then link_in found
        ≡ sought_link (volume_fold (view D.Disk mft.old)) (directory_links (view D.Disk mft.old) (file_number file.now)) name.now) }
    ensures keyed { IfOk result (λ found. IfSome found (IsKeyed Names is_sought_key)) }
    ensures err { IfErr result IsReadNo }
    ensures faults { MatchResult result (λ _. faults_of D.Disk mft.new ≡ faults_of D.Disk mft.old)
        (CountsNo (faults_of D.Disk mft.old) (faults_of D.Disk mft.new)) }
    ensures reads { (reads : ℕ) × MftReads D.Disk mft.old mft.new reads }
    ensures fetched { IsTrue (view D.Disk mft.old).told → (index : IsDirectoryIndex (view D.Disk mft.old) (file_number file.now))
        → MftReads D.Disk mft.old mft.new (16 * index.index.walks.depth) }
{
    let exact = find_first(alloc, mft, file, index, ExactName { upcase, name })?;
    if exact.is_some() {
        return Ok(exact);
    }
    find_first(alloc, mft, file, index, FoldedName { upcase, name })
}

// The link that an entry says, where there is one.
fn link_found(alloc: Global, entry: Option<Octets>) -> Result<Option<Link>, FileNo>
    requires { IfSome entry (IsKeyed Names is_sought_key) }
    ensures link { IfOk result (λ link. link ≡ option_and_then link_in entry) }
    ensures err { IfErr result (λ no. no ≡ FileNo.Memory) }
{
    match entry {
        Some(entry) => Ok(link_of_entry(alloc, entry.as_slice())?),
        None => Ok(None),
    }
}

// The link that is sought by a name in a directory that is held.
fn find_link<D: Disk>(
    alloc: Global,
    mft: &mut Mft<'_, D>,
    file: &FileParts,
    upcase: &UpCase,
    name: &[u16],
) -> Result<Option<Link>, FileNo>
    requires held { IsTrue (view D.Disk mft.old).told → IsHeldDirectory (view D.Disk mft.old) file.now upcase.now }
    ensures found { IfOk result (λ found. IsTrue (view D.Disk mft.old).told → found
        ≡ sought_link (volume_fold (view D.Disk mft.old)) (directory_links (view D.Disk mft.old) (file_number file.now)) name.now) }
    ensures err { IfErr result IsReadNo }
    ensures faults { MatchResult result (λ _. faults_of D.Disk mft.new ≡ faults_of D.Disk mft.old)
        (CountsNo (faults_of D.Disk mft.old) (faults_of D.Disk mft.new)) }
    ensures reads { (reads : ℕ) × MftReads D.Disk mft.old mft.new reads }
    ensures fetched { IsTrue (view D.Disk mft.old).told → (index : IsDirectoryIndex (view D.Disk mft.old) (file_number file.now))
        → MftReads D.Disk mft.old mft.new (16 * index.index.walks.depth) }
{
    let Some(index) = find_index(file, DIRECTORY_INDEX) else {
        return Ok(None);
    };
    let entry = find_entry(alloc, mft, file, index, upcase, name)?;
    link_found(alloc, entry)
}

/// Seeks a name in a directory that is held, among all its links, DOS names and hidden ones too: the link of exactly this name,
/// else the first in name order whose units are the same by the volume's table of case. For each of the two searches one index
/// record a level is read at most. By condition, where the contents are told: the directory is held as the volume has it, the
/// volume's files can be read, this directory's index is right, and the table of case that is kept is the volume's.
///
/// # Errors
///
/// `Device` where the disk failed, and `Memory`.
pub fn lookup_in<D: Disk>(
    alloc: Global,
    mft: &mut Mft<'_, D>,
    dir: &FileParts,
    name: &Name,
) -> Result<Option<Link>, FileNo>
    requires held { IsTrue (view D.Disk mft.old).told → IsHeldDirectory (view D.Disk mft.old) dir.now (mounted_of D.Disk mft.old).upcase }
    ensures found { IfOk result (λ found. IsTrue (view D.Disk mft.old).told → found
        ≡ sought_link (volume_fold (view D.Disk mft.old)) (directory_links (view D.Disk mft.old) (file_number dir.now)) name.now) }
    ensures err { IfErr result IsReadNo }
    ensures faults { MatchResult result (λ _. faults_of D.Disk mft.new ≡ faults_of D.Disk mft.old)
        (CountsNo (faults_of D.Disk mft.old) (faults_of D.Disk mft.new)) }
    ensures reads { (reads : ℕ) × MftReads D.Disk mft.old mft.new reads }
    ensures fetched { IsTrue (view D.Disk mft.old).told → (index : IsDirectoryIndex (view D.Disk mft.old) (file_number dir.now))
        → MftReads D.Disk mft.old mft.new (16 * index.index.walks.depth) }
{
    let upcase = share(&mft.mounted().upcase)?;
    find_link(alloc, mft, dir, &upcase, name.as_slice())
}

/// Seeks a name in a directory as `lookup_in` does. The directory is loaded once. By condition, where the contents are told: the
/// volume's files can be read, `dir` is the number of one, the index of that directory is right, and the table of case that is kept
/// is the volume's.
///
/// # Errors
///
/// `Device` where the disk failed, and `Memory`.
pub fn lookup<D: Disk>(
    alloc: Global,
    mft: &mut Mft<'_, D>,
    dir: u64,
    name: &Name,
) -> Result<Option<Link>, FileNo>
    requires directory { IsTrue (view D.Disk mft.old).told
        → IsReadableDirectory (view D.Disk mft.old) dir (mounted_of D.Disk mft.old).upcase }
    ensures found { IfOk result (λ found. IsTrue (view D.Disk mft.old).told
        → found ≡ sought_link (volume_fold (view D.Disk mft.old)) (directory_links (view D.Disk mft.old) dir) name.now) }
    ensures err { IfErr result IsReadNo }
    ensures faults { MatchResult result (λ _. faults_of D.Disk mft.new ≡ faults_of D.Disk mft.old)
        (CountsNo (faults_of D.Disk mft.old) (faults_of D.Disk mft.new)) }
    ensures reads { (reads : ℕ) × MftReads D.Disk mft.old mft.new reads }
    ensures fetched { IsTrue (view D.Disk mft.old).told → (index : IsDirectoryIndex (view D.Disk mft.old) dir)
        → MftReads D.Disk mft.old mft.new (file_reads (view D.Disk mft.old) dir + 16 * index.index.walks.depth) }
{
    if dir >= mft.mounted().records.count() {
        return Ok(None);
    }
    let file = FileParts::load(alloc, mft, dir)?;
    lookup_in(alloc, mft, &file, name)
}

// Puts the link that an entry says behind the others, where its key is a name.
fn put_link(alloc: Global, entry: &[u8], links: &mut Vec<Link>) -> Result<(), FileNo>
    requires { IsOwnEntry Names entry.now }
    ensures links { OnOk result (links.new.items ≡ links.old.items ++ filter_map link_in (entry.now ∷ [])) }
    ensures err { IfErr result (λ no. no ≡ FileNo.Memory) }
{
    if let Some(link) = link_of_entry(alloc, entry)? {
        links.push(link)?;
    }
    Ok(())
}

// The links that entries say, in their order.
fn links_of(alloc: Global, entries: &[Octets]) -> Result<Vec<Link>, FileNo>
    requires { Each (IsOwnEntry Names) entries.now }
    ensures links { IfOk result (λ links. links.items ≡ filter_map link_in entries.now) }
    ensures err { IfErr result (λ no. no ≡ FileNo.Memory) }
{
    let mut links = Vec::new(alloc);
    for entry in entries {
        put_link(alloc, entry.as_slice(), &mut links)?;
    }
    Ok(links)
}

// The links of a directory that is held.
fn list_links<D: Disk>(
    alloc: Global,
    mft: &mut Mft<'_, D>,
    file: &FileParts,
    upcase: UpCase,
) -> Result<Vec<Link>, FileNo>
    requires held { IsTrue (view D.Disk mft.old).told → IsHeldDirectory (view D.Disk mft.old) file.now upcase }
    ensures links { IfOk result (λ links. IsTrue (view D.Disk mft.old).told
        → links.items ≡ directory_links (view D.Disk mft.old) (file_number file.now)) }
    ensures err { IfErr result IsReadNo }
    ensures faults { MatchResult result (λ _. faults_of D.Disk mft.new ≡ faults_of D.Disk mft.old)
        (CountsNo (faults_of D.Disk mft.old) (faults_of D.Disk mft.new)) }
    ensures reads { (reads : ℕ) × MftReads D.Disk mft.old mft.new reads }
{
    let Some(index) = find_index(file, DIRECTORY_INDEX) else {
        return Ok(Vec::new(alloc));
    };
    let entries = walk_all(alloc, mft, file, index, upcase)?;
    links_of(alloc, &entries)
}

/// Lists the links of a directory that is held, DOS names and hidden ones too, in name order. The condition is that of `lookup_in`.
///
/// # Errors
///
/// `Device` where the disk failed, and `Memory`.
pub fn list_in<D: Disk>(
    alloc: Global,
    mft: &mut Mft<'_, D>,
    dir: &FileParts,
) -> Result<Vec<Link>, FileNo>
    requires held { IsTrue (view D.Disk mft.old).told → IsHeldDirectory (view D.Disk mft.old) dir.now (mounted_of D.Disk mft.old).upcase }
    ensures links { IfOk result (λ links. IsTrue (view D.Disk mft.old).told
        → links.items ≡ directory_links (view D.Disk mft.old) (file_number dir.now)) }
    ensures err { IfErr result IsReadNo }
    ensures faults { MatchResult result (λ _. faults_of D.Disk mft.new ≡ faults_of D.Disk mft.old)
        (CountsNo (faults_of D.Disk mft.old) (faults_of D.Disk mft.new)) }
    ensures reads { (reads : ℕ) × MftReads D.Disk mft.old mft.new reads }
{
    let upcase = share(&mft.mounted().upcase)?;
    list_links(alloc, mft, dir, upcase)
}

/// Lists the links of a directory as `list_in` does. The directory is loaded once. The condition is that of `lookup`.
///
/// # Errors
///
/// `Device` where the disk failed, and `Memory`.
pub fn list<D: Disk>(alloc: Global, mft: &mut Mft<'_, D>, dir: u64) -> Result<Vec<Link>, FileNo>
    requires directory { IsTrue (view D.Disk mft.old).told
        → IsReadableDirectory (view D.Disk mft.old) dir (mounted_of D.Disk mft.old).upcase }
    ensures links { IfOk result (λ links. IsTrue (view D.Disk mft.old).told
        → links.items ≡ directory_links (view D.Disk mft.old) dir) }
    ensures err { IfErr result IsReadNo }
    ensures faults { MatchResult result (λ _. faults_of D.Disk mft.new ≡ faults_of D.Disk mft.old)
        (CountsNo (faults_of D.Disk mft.old) (faults_of D.Disk mft.new)) }
    ensures reads { (reads : ℕ) × MftReads D.Disk mft.old mft.new reads }
{
    if dir >= mft.mounted().records.count() {
        return Ok(Vec::new(alloc));
    }
    let file = FileParts::load(alloc, mft, dir)?;
    list_in(alloc, mft, &file)
}
