//! How deep the index of a directory is.
ghost use Rattle.std.specs.Prelude.{◌≡◌, ◌+◌, ◌≤◌, ℕ, suc, IfErr, IfOk, IsTrue, MatchResult, Some, false};
ghost use Rattle.vol_disk.specs.Contents.{WhereTold};
ghost use Rattle.ntfs_def.specs.Node.{Node, node_in, short_node};
ghost use Rattle.ntfs_def.specs.declared.index.NodeForm.TheVariants.{Names};
ghost use Rattle.index_node.specs.Blocks.{CountsNo as CountsBlockNo};
ghost use Rattle.file_record.specs.FileNos.{CountsNo, IsReadNo};
ghost use Rattle.file_record.specs.Held.{IsHeldFile, file_number};
ghost use Rattle.entry_edits.specs.Index.{IsFound};
ghost use Rattle.entry_edits.specs.IndexBlocks.{records_found};
ghost use Rattle.index_tree.specs.Edit.{short_nodes};
ghost use Rattle.mft_table.specs.Mft.{MftReads, faults_of, mounted_of, view};
ghost use Rattle.tree_model.specs.IndexRoom.{directory_index, index_depth};
ghost use Rattle.index_puts.specs.Held.{HoldsItems};
ghost use Rattle.index_puts.specs.Depth.{HasLevels, HasTree, HasTreeUnder};

use crate::room::file_no;
use entry_edits::{FoundIndex, IndexBlocks, find_index};
use file_record::{FileNo, FileParts};
use index_node::{BlockNo, Blocks, NodeView};
use mft_table::Mft;
use ntfs_def::NodeForm;
use ntfs_def::index_root::DIRECTORY_INDEX;
use std::alloc::Global;
use vol_disk::Disk;

// The most nodes below the root on a way to a leaf.
const MOST_DEPTH: usize = 15;

// The child to which the last entry of a node leads.
fn last_child(node: &[u8]) -> Option<u64>
    ensures { (said : Node) → node_in Names node.now ≡ Some said → result ≡ said.last }
{
    match NodeView::new(node, NodeForm::Names) {
        Ok(view) => view.child(view.entries()),
        Err(_) => None,
    }
}

// The levels of the tree under `child`, which has at most `most`: all leaves have one depth, so the way goes by the last children.
// Each node of it is read into the same block.
fn levels_below<B: Blocks>(
    blocks: &mut B,
    child: Option<u64>,
    most: usize,
    block: &mut [u8; 4096],
) -> Result<u64, BlockNo>
    requires few { most ≤ 15 }
    requires ready { B.ready blocks.old }
    requires tree { WhereTold (B.records blocks.old) (λ r. HasTree (short_nodes Names r) child most) }
    ensures levels { IfOk result (λ levels. WhereTold (B.records blocks.old) (λ r. HasLevels (short_nodes Names r) child most levels)) }
    ensures few { IfOk result (λ levels. levels ≤ most) }
    ensures ready { B.ready blocks.new }
    ensures records { B.records blocks.new ≡ B.records blocks.old }
    ensures only_reads { B.only_reads blocks.old blocks.new }
    ensures faults { MatchResult result (λ _. B.faults blocks.new ≡ B.faults blocks.old)
        (CountsBlockNo (B.faults blocks.old) (B.faults blocks.new)) }
{
    let Some(vcn) = child else {
        return Ok(0);
    };
    if most == 0 {
        return Ok(0);
    }
    blocks.read(vcn, block)?;
    let last = last_child(block);
    let below = levels_below(blocks, last, most - 1, block)?;
    Ok(1 + below)
}

// The depth of the index under a root.
fn depth_under<B: Blocks>(blocks: &mut B, root: &[u8]) -> Result<u64, BlockNo>
    requires ready { B.ready blocks.old }
    requires tree { WhereTold (B.records blocks.old) (λ r. HasTreeUnder (short_nodes Names r) (short_node Names root.now)) }
    ensures depth { IfOk result (λ depth. WhereTold (B.records blocks.old) (λ r.
        (has : HasTreeUnder (short_nodes Names r) (short_node Names root.now)) → depth ≡ suc has.depth)) }
    ensures few { IfOk result (λ depth. depth ≤ 16) }
    ensures only_reads { B.only_reads blocks.old blocks.new }
    ensures faults { MatchResult result (λ _. B.faults blocks.new ≡ B.faults blocks.old)
        (CountsBlockNo (B.faults blocks.old) (B.faults blocks.new)) }
{
    let mut block = [0; 4096];
    let below = levels_below(blocks, last_child(root), MOST_DEPTH, &mut block)?;
    Ok(1 + below)
}

// The same of an index of names that was found in a file which is held.
fn depth_found<'m, 'd, D: Disk>(
    alloc: Global,
    mft: &'m mut Mft<'d, D>,
    file: &'m FileParts,
    index: FoundIndex<'m>,
) -> Result<u64, FileNo>
    requires found { IsFound file.now index }
    requires held { IsTrue (view D.Disk mft.old).told → IsHeldFile (view D.Disk mft.old) file.now }
    requires tree { IsTrue (view D.Disk mft.old).told
        → HasTreeUnder (short_nodes Names (records_found (view D.Disk mft.old) file.now index)) (short_node Names index.root.now) }
    ensures depth { IfOk result (λ depth. IsTrue (view D.Disk mft.old).told
        → (has : HasTreeUnder (short_nodes Names (records_found (view D.Disk mft.old) file.now index.entry))
        (short_node Names index.entry.root.now)) → depth ≡ suc has.depth) }
    ensures few { IfOk result (λ depth. depth ≤ 16) }
    ensures err { IfErr result IsReadNo }
    ensures faults { MatchResult result (λ _. faults_of D.Disk mft.new ≡ faults_of D.Disk mft.old)
        (CountsNo (faults_of D.Disk mft.old) (faults_of D.Disk mft.new)) }
    ensures reads { (reads : ℕ) × MftReads D.Disk mft.old mft.new reads }
{
    let root = index.root;
    let mut blocks = IndexBlocks {
        alloc,
        mft,
        file,
        index,
        reads: 0,
    };
    match depth_under(&mut blocks, root) {
        Ok(depth) => Ok(depth),
        Err(no) => Err(file_no(no)),
    }
}

/// How deep the index of a directory is that is held: the nodes on the way from its root to a leaf, both counted.
/// By condition, where the contents are told: the directory is held as the volume has it, and its index is right.
///
/// # Errors
///
/// `Device` where the disk failed, and `Memory`.
pub fn index_depth<D: Disk>(
    alloc: Global,
    mft: &mut Mft<'_, D>,
    dir: &FileParts,
) -> Result<u64, FileNo>
    requires held { IsTrue (view D.Disk mft.old).told → HoldsItems (view D.Disk mft.old) dir.now (mounted_of D.Disk mft.old).upcase }
    ensures depth { IfOk result (λ depth. IsTrue (view D.Disk mft.old).told
        → depth ≡ index_depth (view D.Disk mft.old) (directory_index (file_number dir.now))) }
    ensures few { IfOk result (λ depth. depth ≤ 16) }
    ensures err { IfErr result IsReadNo }
    ensures faults { MatchResult result (λ _. faults_of D.Disk mft.new ≡ faults_of D.Disk mft.old)
        (CountsNo (faults_of D.Disk mft.old) (faults_of D.Disk mft.new)) }
    ensures reads { (reads : ℕ) × MftReads D.Disk mft.old mft.new reads }
{
    let Some(index) = find_index(dir, DIRECTORY_INDEX) else {
        return Ok(0);
    };
    depth_found(alloc, mft, dir, index)
}
