//! Whether the leaf of a key has an entry of it beside another one.
ghost use Rattle.std.specs.Prelude.{◌≡◌, ◌*◌, ℕ, IfErr, IfOk, IsSome, IsTrue, List, MatchResult, Some, length, nat_le};
ghost use Rattle.vol_disk.specs.Contents.{WhereTold};
ghost use Rattle.ntfs_def.specs.FileName.{is_name_key, key_units};
ghost use Rattle.ntfs_def.specs.KeyOrder.{fold_of, name_order};
ghost use Rattle.ntfs_def.specs.Node.{Item, Node, node_in, short_node};
ghost use Rattle.ntfs_def.specs.declared.index.NodeForm.TheVariants.{Names};
ghost use Rattle.index_node.specs.Blocks.{CountsNo as CountsBlockNo};
ghost use Rattle.index_tree.specs.Edit.{EditReads, HasSortedIndex, short_nodes};
ghost use Rattle.mft_table.specs.Mft.{MftReads, faults_of, fetched_of, view};
ghost use Rattle.file_record.specs.FileNos.{CountsNo, IsReadNo};
ghost use Rattle.file_record.specs.Held.{IsHeldFile, file_number};
ghost use Rattle.entry_edits.specs.Index.{IsFound};
ghost use Rattle.entry_edits.specs.IndexBlocks.{records_found};
ghost use Rattle.edit_def.specs.Items.{HasItems};
ghost use Rattle.index_puts.specs.Held.{HoldsItems};
ghost use Rattle.index_takes.specs.Leaf.{entry_under};
ghost use Rattle.tree_model.specs.LeafEntry.{has_leaf_entry};

use collation::{Collation, FileNameOrder};
use entry_edits::{FoundIndex, IndexBlocks, find_index};
use file_record::{FileNo, FileParts};
use index_node::{BlockNo, Blocks, NodeView};
use index_puts::{file_no, find_leaf};
use mft_table::Mft;
use ntfs_def::NodeForm;
use ntfs_def::index_root::DIRECTORY_INDEX;
use std::alloc::Global;
use upcase::UpCase;
use vol_disk::Disk;

// Whether the node of a record has two entries with a key, or more.
fn has_two(block: &[u8; 4096]) -> bool
    requires { IsSome (node_in Names block.now) }
    ensures { (said : Node) → node_in Names block.now ≡ Some said → result ≡ nat_le 2 (length said.entries) }
{
    let Ok(node) = NodeView::new(block, NodeForm::Names) else {
        unreachable!();
    };
    2 <= node.entries()
}

// Whether the leaf of a key, in the index under a root, has an entry of it beside another one.
fn entry_in_leaf<B: Blocks, C: Collation>(
    blocks: &mut B,
    order: &C,
    root: &[u8],
    key: &[u8],
) -> Result<bool, BlockNo>
    requires ready { B.ready blocks.old }
    requires index { WhereTold (B.records blocks.old) (λ r. HasSortedIndex (C.order order.now) (C.valid order.now)
        (short_nodes Names r) (short_node Names root.now) 15) }
    requires key { IsTrue (C.valid order.now key.now) }
    ensures entry { IfOk result (λ entry. WhereTold (B.records blocks.old) (λ r.
        entry ≡ entry_under (λ x. C.order order.now x key.now) r (short_node Names root.now))) }
    ensures fetched { WhereTold (B.records blocks.old) (λ r. EditReads 8 (C.order order.now) (C.valid order.now)
        (short_nodes Names r) (short_node Names root.now) (B.fetched blocks.old) (B.fetched blocks.new)) }
    ensures only_reads { B.only_reads blocks.old blocks.new }
    ensures faults { MatchResult result (λ _. B.faults blocks.new ≡ B.faults blocks.old)
        (CountsBlockNo (B.faults blocks.old) (B.faults blocks.new)) }
{
    let mut block = [0; 4096];
    match find_leaf(blocks, order, root, key, &mut block)? {
        Some(leaf) => Ok(leaf.hit && has_two(&block)),
        None => Ok(false),
    }
}

// The same of an index of names that was found in a file which is held.
fn entry_found<'m, 'd, D: Disk>(
    alloc: Global,
    mft: &'m mut Mft<'d, D>,
    file: &'m FileParts,
    index: FoundIndex<'m>,
    upcase: UpCase,
    key: &[u8],
) -> Result<bool, FileNo>
    requires found { IsFound file.now index }
    requires held { IsTrue (view D.Disk mft.old).told → IsHeldFile (view D.Disk mft.old) file.now }
    requires sorted { IsTrue (view D.Disk mft.old).told → HasSortedIndex (name_order (fold_of upcase)) is_name_key
        (short_nodes Names (records_found (view D.Disk mft.old) file.now index)) (short_node Names index.root.now) 15 }
    requires key { IsTrue (is_name_key key.now) }
    ensures entry { IfOk result (λ entry. IsTrue (view D.Disk mft.old).told
        → entry ≡ entry_under (λ x. name_order (fold_of upcase) x key.now) (records_found (view D.Disk mft.old) file.now index.entry)
        (short_node Names index.entry.root.now)) }
    ensures err { IfErr result IsReadNo }
    ensures faults { MatchResult result (λ _. faults_of D.Disk mft.new ≡ faults_of D.Disk mft.old)
        (CountsNo (faults_of D.Disk mft.old) (faults_of D.Disk mft.new)) }
    ensures reads { (reads : ℕ) × MftReads D.Disk mft.old mft.new reads }
    ensures fetched { IsTrue (view D.Disk mft.old).told → EditReads 8 (name_order (fold_of upcase)) is_name_key
        (short_nodes Names (records_found (view D.Disk mft.old) file.now index.entry)) (short_node Names index.entry.root.now)
        (fetched_of D.Disk mft.old) (fetched_of D.Disk mft.new) }
{
    let root = index.root;
    let mut blocks = IndexBlocks {
        alloc,
        mft,
        file,
        index,
        reads: 0,
    };
    match entry_in_leaf(&mut blocks, &FileNameOrder { upcase }, root, key) {
        Ok(entry) => Ok(entry),
        Err(no) => Err(file_no(no)),
    }
}

/// Whether the search for a key, in the index of a directory that is held, ends at an entry of it in a record of the index, a leaf, and
/// that record has another entry with a key: then it can be taken out there (`take_item`), and no record becomes empty. Where the index
/// has no records there is no such entry, nor where the entry stands in a node that leads to others. One record a level is read. By
/// condition, where the contents are told: the directory is held as the volume has it, its index is right by itself, whichever names
/// the directory has, and the table of case is the volume's.
///
/// # Errors
///
/// `Device` where the disk failed, and `Memory`.
pub fn has_leaf_entry<D: Disk>(
    alloc: Global,
    mft: &mut Mft<'_, D>,
    dir: &FileParts,
    upcase: UpCase,
    key: &[u8],
) -> Result<bool, FileNo>
    requires held { IsTrue (view D.Disk mft.old).told → HoldsItems (view D.Disk mft.old) dir.now upcase }
    requires key { IsTrue (is_name_key key.now) }
    ensures entry { IfOk result (λ entry. IsTrue (view D.Disk mft.old).told
        → entry ≡ has_leaf_entry (view D.Disk mft.old) (file_number dir.now) (key_units key.now)) }
    ensures err { IfErr result IsReadNo }
    ensures faults { MatchResult result (λ _. faults_of D.Disk mft.new ≡ faults_of D.Disk mft.old)
        (CountsNo (faults_of D.Disk mft.old) (faults_of D.Disk mft.new)) }
    ensures reads { (reads : ℕ) × MftReads D.Disk mft.old mft.new reads }
    ensures fetched { IsTrue (view D.Disk mft.old).told → (items : List Item)
        → (has : HasItems (view D.Disk mft.old) (file_number dir.now) items)
        → MftReads D.Disk mft.old mft.new (8 * has.index.walks.depth) }
{
    let Some(index) = find_index(dir, DIRECTORY_INDEX) else {
        return Ok(false);
    };
    entry_found(alloc, mft, dir, index, upcase, key)
}
