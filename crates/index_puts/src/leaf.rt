//! The record of an index in which the search for a key ends.
ghost use Rattle.std.specs.Prelude.{◌≡◌, IfOk, IfSome, IsTrue, MatchResult, Some};
ghost use Rattle.vol_disk.specs.Contents.{WhereTold};
ghost use Rattle.ntfs_def.specs.Node.{short_node};
ghost use Rattle.ntfs_def.specs.declared.index.NodeForm.TheVariants.{Names};
ghost use Rattle.index_node.specs.Blocks.{CountsNo};
ghost use Rattle.index_tree.specs.Edit.{EditCostsBelow, EditReads, HasSorted, HasSortedIndex, short_nodes};
ghost use Rattle.index_puts.specs.Leaf.{EndsIn, ReadsLeaf};
ghost use Rattle.tree_model.specs.LeafRoom.{leaf_of, leaf_under};

use crate::seek::seek_block;
use collation::Collation;
use index_node::{BlockNo, Blocks};

// The most nodes below the root on a way to a leaf.
const MOST_DEPTH: usize = 15;

/// A record of an index in which the search for a key ends.
#[derive(Clone, Copy)]
pub struct Leaf {
    /// Its number.
    pub vcn: u64,
    /// The place in its node.
    pub place: usize,
    /// Whether the key there is equal.
    pub hit: bool,
}

// The leaf in which the search for a key ends in the tree under a record, which has at most `level` levels. Each node of the way is
// read into the same block, and the leaf stands there then.
fn leaf_below<B: Blocks, C: Collation>(
    blocks: &mut B,
    order: &C,
    vcn: u64,
    key: &[u8],
    level: usize,
    block: &mut [u8; 4096],
) -> Result<Option<Leaf>, BlockNo>
    requires ready { B.ready blocks.old }
    requires tree { WhereTold (B.records blocks.old) (λ r.
        HasSorted (C.order order.now) (C.valid order.now) (short_nodes Names r) (Some vcn) level) }
    requires key { IsTrue (C.valid order.now key.now) }
    ensures leaf { IfOk result (λ leaf. WhereTold (B.records blocks.old) (λ r.
        ReadsLeaf r (leaf_under (λ x. C.order order.now x key.now) (short_nodes Names r) level vcn) leaf block.new)) }
    ensures ends { IfOk result (λ leaf. IfSome leaf (EndsIn (C.order order.now) key.now block.new)) }
    ensures fetched { WhereTold (B.records blocks.old) (λ r. EditCostsBelow 8 (C.order order.now) (C.valid order.now)
        (short_nodes Names r) (Some vcn) (B.fetched blocks.old) (B.fetched blocks.new)) }
    ensures ready { B.ready blocks.new }
    ensures records { B.records blocks.new ≡ B.records blocks.old }
    ensures only_reads { B.only_reads blocks.old blocks.new }
    ensures faults { MatchResult result (λ _. B.faults blocks.new ≡ B.faults blocks.old)
        (CountsNo (B.faults blocks.old) (B.faults blocks.new)) }
{
    if level == 0 {
        return Ok(None);
    }
    blocks.read(vcn, block)?;
    let Some(spot) = seek_block(block, order, key) else {
        return Ok(None);
    };
    match spot.child {
        None => Ok(Some(Leaf {
            vcn,
            place: spot.place,
            hit: spot.hit,
        })),
        Some(below) => leaf_below(blocks, order, below, key, level - 1, block),
    }
}

/// The leaf in which the search for a key ends in the index under a root, read into the block; `None` where the root has no children.
///
/// # Errors
///
/// Those of a record that is read.
pub fn find_leaf<B: Blocks, C: Collation>(
    blocks: &mut B,
    order: &C,
    root: &[u8],
    key: &[u8],
    block: &mut [u8; 4096],
) -> Result<Option<Leaf>, BlockNo>
    requires ready { B.ready blocks.old }
    requires index { WhereTold (B.records blocks.old) (λ r. HasSortedIndex (C.order order.now) (C.valid order.now)
        (short_nodes Names r) (short_node Names root.now) 15) }
    requires key { IsTrue (C.valid order.now key.now) }
    ensures leaf { IfOk result (λ leaf. WhereTold (B.records blocks.old) (λ r.
        ReadsLeaf r (leaf_of (λ x. C.order order.now x key.now) (short_nodes Names r) (short_node Names root.now)) leaf block.new)) }
    ensures ends { IfOk result (λ leaf. IfSome leaf (EndsIn (C.order order.now) key.now block.new)) }
    ensures fetched { WhereTold (B.records blocks.old) (λ r. EditReads 8 (C.order order.now) (C.valid order.now)
        (short_nodes Names r) (short_node Names root.now) (B.fetched blocks.old) (B.fetched blocks.new)) }
    ensures ready { B.ready blocks.new }
    ensures records { B.records blocks.new ≡ B.records blocks.old }
    ensures only_reads { B.only_reads blocks.old blocks.new }
    ensures faults { MatchResult result (λ _. B.faults blocks.new ≡ B.faults blocks.old)
        (CountsNo (B.faults blocks.old) (B.faults blocks.new)) }
{
    let Some(spot) = seek_block(root, order, key) else {
        return Ok(None);
    };
    match spot.child {
        None => Ok(None),
        Some(vcn) => leaf_below(blocks, order, vcn, key, MOST_DEPTH, block),
    }
}
