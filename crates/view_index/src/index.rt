//! A key is sought in a view index of a file that is held.
ghost use Rattle.std.specs.Prelude.{◌≡◌, ℕ, IfErr, IfOk, IfSome, IsTrue, MatchResult};
ghost use Rattle.ntfs_def.specs.declared.index.NodeForm.TheVariants.{View};
ghost use Rattle.mft_table.specs.Mft.{MftReads, faults_of, fetched_of, view};
ghost use Rattle.file_record.specs.FileNos.{CountsNo, IsReadNo};
ghost use Rattle.file_record.specs.Held.{IsHeldFile};
ghost use Rattle.index_tree.specs.Search.{Costs, Finds, HasRisingIndex, IsKeyed};
ghost use Rattle.index_store.specs.Index.{IsFound};
ghost use Rattle.index_store.specs.IndexBlocks.{file_no_of};
ghost use Rattle.view_index.specs.Held.{nodes_found, root_found};

use collation::Collation;
use file_record::{FileNo, FileParts};
use index_store::{FoundIndex, IndexBlocks};
use index_tree::{Index, IndexNo};
use mft_table::Mft;
use ntfs_def::NodeForm;
use std::alloc::Global;
use vol_bytes::Octets;
use vol_disk::Disk;

/// The most bytes of entries in the root of an index, which stands in a record.
const ROOT_LIMIT: usize = 1024;

// Why a file was not searched, by why its index was not.
fn file_no(no: IndexNo) -> FileNo
    ensures { result ≡ file_no_of no }
{
    match no {
        IndexNo::Device => FileNo::Device,
        IndexNo::NoRoom => FileNo::NoRoom,
        IndexNo::Memory => FileNo::Memory,
    }
}

/// The first entry of a view index whose key an order calls equal to a key.
///
/// # Errors
///
/// `Device` where the disk failed, and `Memory`.
pub fn find_key<'m, 'd, D: Disk, C: Collation + Drop>(
    alloc: Global,
    mft: &'m mut Mft<'d, D>,
    file: &'m FileParts,
    index: FoundIndex<'m>,
    order: C,
    key: &[u8],
) -> Result<Option<Octets>, FileNo>
    requires found { IsFound file.now index }
    requires held { IsTrue (view D.Disk mft.old).told → IsHeldFile (view D.Disk mft.old) file.now }
    requires rising { IsTrue (view D.Disk mft.old).told → HasRisingIndex (λ x. C.order order x key.now) (C.valid order)
        (nodes_found (view D.Disk mft.old) file.now index) (root_found index) }
    requires key { IsTrue (C.valid order key.now) }
    ensures found { IfOk result (λ found. IsTrue (view D.Disk mft.old).told → Finds (λ x. C.order order x key.now) (C.valid order)
        (nodes_found (view D.Disk mft.old) file.now index.entry) (root_found index.entry) found) }
    ensures keyed { IfOk result (λ found. IfSome found (IsKeyed View (C.valid order))) }
    ensures err { IfErr result IsReadNo }
    ensures faults { MatchResult result (λ _. faults_of D.Disk mft.new ≡ faults_of D.Disk mft.old)
        (CountsNo (faults_of D.Disk mft.old) (faults_of D.Disk mft.new)) }
    ensures reads { (reads : ℕ) × MftReads D.Disk mft.old mft.new reads }
    ensures fetched { IsTrue (view D.Disk mft.old).told → Costs 8 (λ x. C.order order x key.now) (C.valid order)
        (nodes_found (view D.Disk mft.old) file.now index.entry) (root_found index.entry)
        (fetched_of D.Disk mft.old) (fetched_of D.Disk mft.new) }
{
    let root = index.root;
    let mut blocks = IndexBlocks {
        alloc,
        mft,
        file,
        index,
        reads: 0,
    };
    let keys = Index::new(order, NodeForm::View, ROOT_LIMIT);
    match keys.find(alloc, &mut blocks, root, key) {
        Ok(found) => Ok(found),
        Err(no) => Err(file_no(no)),
    }
}
