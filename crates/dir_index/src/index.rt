//! The index of a directory that is held: one descent for a name, and the walk of all entries.
ghost use Rattle.std.specs.Prelude.{◌≡◌, ℕ, [], IfErr, IfOk, IfSome, IsTrue, MatchResult};
ghost use Rattle.ntfs_def.specs.IndexTree.{Each};
ghost use Rattle.ntfs_def.specs.Node.{IsOwnEntry};
ghost use Rattle.ntfs_def.specs.declared.index.NodeForm.TheVariants.{Names};
ghost use Rattle.index_store.specs.Search.{Costs, Finds, HasRisingIndex, IsKeyed};
ghost use Rattle.index_store.specs.Walk.{HasWalk, IsWalk};
ghost use Rattle.index_store.specs.Mft.{MftReads, faults_of, fetched_of, view};
ghost use Rattle.index_store.specs.FileNos.{CountsNo, IsReadNo};
ghost use Rattle.index_store.specs.Held.{IsHeldFile};
ghost use Rattle.index_store.specs.Index.{IsFound};
ghost use Rattle.index_store.specs.IndexBlocks.{file_no_of};
ghost use Rattle.dir_index.specs.Held.{nodes_found, root_found, side_of};

use collation::{Collation, FileNameOrder};
use index_store::{FileNo, FileParts, FoundIndex, Index, IndexBlocks, IndexNo, Mft};
use ntfs_def::NodeForm;
use std::alloc::Global;
use upcase::UpCase;
use vol_bytes::Octets;
use vol_disk::Disk;

/// The most bytes of entries in the root of a directory, which stands in a record.
pub(crate) const ROOT_LIMIT: usize = 1024;

// Why a directory was not searched, by why its index was not.
pub(crate) fn file_no(no: IndexNo) -> FileNo
    ensures { result ≡ file_no_of no }
{
    match no {
        IndexNo::Device => FileNo::Device,
        IndexNo::NoRoom => FileNo::NoRoom,
        IndexNo::Memory => FileNo::Memory,
    }
}

/// The first entry of an index whose key an order calls equal to the empty key, which stands for what is sought.
///
/// # Errors
///
/// `Device` where the disk failed, and `Memory`.
pub fn find_first<'m, 'd, D: Disk, C: Collation + Drop>(
    alloc: Global,
    mft: &'m mut Mft<'d, D>,
    file: &'m FileParts,
    index: FoundIndex<'m>,
    order: C,
) -> Result<Option<Octets>, FileNo>
    requires found { IsFound file.now index }
    requires held { IsTrue (view D.Disk mft.old).told → IsHeldFile (view D.Disk mft.old) file.now }
    requires rising { IsTrue (view D.Disk mft.old).told → HasRisingIndex (side_of (C.order order)) (C.valid order)
        (nodes_found (view D.Disk mft.old) file.now index) (root_found index) }
    requires key { IsTrue (C.valid order []) }
    ensures found { IfOk result (λ found. IsTrue (view D.Disk mft.old).told → Finds (side_of (C.order order)) (C.valid order)
        (nodes_found (view D.Disk mft.old) file.now index.entry) (root_found index.entry) found) }
    ensures keyed { IfOk result (λ found. IfSome found (IsKeyed Names (C.valid order))) }
    ensures err { IfErr result IsReadNo }
    ensures faults { MatchResult result (λ _. faults_of D.Disk mft.new ≡ faults_of D.Disk mft.old)
        (CountsNo (faults_of D.Disk mft.old) (faults_of D.Disk mft.new)) }
    ensures reads { (reads : ℕ) × MftReads D.Disk mft.old mft.new reads }
    ensures fetched { IsTrue (view D.Disk mft.old).told → Costs 8 (side_of (C.order order)) (C.valid order)
        (nodes_found (view D.Disk mft.old) file.now index.entry) (root_found index.entry)
        (fetched_of D.Disk mft.old) (fetched_of D.Disk mft.new) }
{
    let root = index.root;
    let mut blocks = IndexBlocks {
        alloc,
        mft,
        file,
        index,
        reads: 0,
    };
    let names = Index::new(order, NodeForm::Names, ROOT_LIMIT);
    match names.find(alloc, &mut blocks, root, &[]) {
        Ok(found) => Ok(found),
        Err(no) => Err(file_no(no)),
    }
}

/// All entries of an index, in order.
///
/// # Errors
///
/// `Device` where the disk failed, and `Memory`.
pub fn walk_all<'m, 'd, D: Disk>(
    alloc: Global,
    mft: &'m mut Mft<'d, D>,
    file: &'m FileParts,
    index: FoundIndex<'m>,
    upcase: UpCase,
) -> Result<Vec<Octets>, FileNo>
    requires found { IsFound file.now index }
    requires held { IsTrue (view D.Disk mft.old).told → IsHeldFile (view D.Disk mft.old) file.now }
    requires walk { IsTrue (view D.Disk mft.old).told
        → HasWalk (nodes_found (view D.Disk mft.old) file.now index) (root_found index) }
    ensures walked { IfOk result (λ entries. IsTrue (view D.Disk mft.old).told
        → IsWalk (nodes_found (view D.Disk mft.old) file.now index.entry) (root_found index.entry) entries.items) }
    ensures own { IfOk result (λ entries. Each (IsOwnEntry Names) entries.items) }
    ensures err { IfErr result IsReadNo }
    ensures faults { MatchResult result (λ _. faults_of D.Disk mft.new ≡ faults_of D.Disk mft.old)
        (CountsNo (faults_of D.Disk mft.old) (faults_of D.Disk mft.new)) }
    ensures reads { (reads : ℕ) × MftReads D.Disk mft.old mft.new reads }
{
    let root = index.root;
    let mut blocks = IndexBlocks {
        alloc,
        mft,
        file,
        index,
        reads: 0,
    };
    let names = Index::new(FileNameOrder { upcase }, NodeForm::Names, ROOT_LIMIT);
    match names.walk(alloc, &mut blocks, root) {
        Ok(entries) => Ok(entries),
        Err(no) => Err(file_no(no)),
    }
}
