//! A key is found: one node a level is read, from the root down.
ghost use Rattle.std.specs.Prelude.{◌≡◌, IsTrue, IfOk, IfSome, MatchResult};
ghost use Rattle.ntfs_def.specs.Node.{node_in};
ghost use Rattle.vol_disk.specs.Contents.{WhereTold};
ghost use Rattle.index_tree.specs.Index.{CountsNo, form_of, limit_of, order_of};
ghost use Rattle.index_tree.specs.Search.{Costs, CostsBelow, Finds, FindsBelow, HasRising, HasRisingIndex, IsKeyed, nodes_of};

use crate::seek::entry_hit;
use crate::{Index, IndexNo};
use collation::Collation;
use index_node::{Blocks, NodeView, seek_in};
use ntfs_def::NodeForm;
use std::alloc::Global;
use vol_bytes::Octets;

/// The most nodes below the root on a way to a leaf.
pub const MOST_DEPTH: usize = 15;

// The first entry with an equal key in the tree under `child`, which has at most `level` levels. Each node of the way is
// read into the same block.
fn first_below<B: Blocks, C: Collation>(
    alloc: Global,
    blocks: &mut B,
    order: &C,
    form: NodeForm,
    child: Option<u64>,
    key: &[u8],
    level: usize,
    block: &mut [u8; 4096],
) -> Result<Option<Octets>, IndexNo>
    requires ready { B.ready blocks.old }
    requires tree { WhereTold (B.records blocks.old) (λ r.
        HasRising (λ x. C.order order.now x key.now) (C.valid order.now) (nodes_of form r) child level) }
    requires key { IsTrue (C.valid order.now key.now) }
    ensures found { IfOk result (λ found. WhereTold (B.records blocks.old) (λ r.
        FindsBelow (λ x. C.order order.now x key.now) (C.valid order.now) (nodes_of form r) child found)) }
    ensures keyed { IfOk result (λ found. IfSome found (IsKeyed form (C.valid order.now))) }

    ensures reads { WhereTold (B.records blocks.old) (λ r. CostsBelow 1 (λ x. C.order order.now x key.now) (C.valid order.now)
        (nodes_of form r) child (B.reads blocks.old) (B.reads blocks.new)) }
    ensures fetched { WhereTold (B.records blocks.old) (λ r. CostsBelow 8 (λ x. C.order order.now x key.now) (C.valid order.now)
        (nodes_of form r) child (B.fetched blocks.old) (B.fetched blocks.new)) }

    ensures ready { B.ready blocks.new }
    ensures records { B.records blocks.new ≡ B.records blocks.old }
    ensures only_reads { B.only_reads blocks.old blocks.new }
    ensures taken { B.taken blocks.new ≡ B.taken blocks.old }
    ensures full { B.full blocks.new ≡ B.full blocks.old }

    ensures faults { MatchResult result (λ _. B.faults blocks.new ≡ B.faults blocks.old)
        (CountsNo (B.faults blocks.old) (B.faults blocks.new)) }
{
    let Some(vcn) = child else {
        return Ok(None);
    };
    if level == 0 {
        return Ok(None);
    }
    blocks.read(vcn, block)?;
    let Ok(node) = NodeView::new(block, form) else {
        return Ok(None);
    };
    let Some((place, hit)) = seek_in(&node, order, key) else {
        return Ok(None);
    };
    let here = entry_hit(alloc, order, &place, hit)?;
    let child = place.child();
    let below = first_below(alloc, blocks, order, form, child, key, level - 1, block)?;
    Ok(below.or(here))
}

impl<C: Collation> Index<C> {
    /// An index with keys in this order.
    pub fn new(order: C, form: NodeForm, limit: usize) -> Index<C>
        ensures order { order_of result ≡ order }
        ensures form { form_of result ≡ form }
        ensures limit { limit_of result ≡ limit }
    {
        Index { order, form, limit }
    }

    /// Lends the order of its keys.
    pub fn order(&self) -> &C
        ensures { result.now ≡ order_of self.now }
    {
        &self.order
    }

    /// The entry with this key, in the index under a root: the value of its `$INDEX_ROOT`. Of several entries whose keys
    /// compare as equal to it, it is the first. `None` exactly where no entry has such a key.
    ///
    /// One record a level is read at most. Where the contents are not told, the entry that is given still is one entry
    /// with a valid key.
    ///
    /// # Errors
    ///
    /// `Device` only where the disk failed, and `Memory` only where it did not. Never `NoRoom`.
    pub fn find<B: Blocks>(
        &self,
        alloc: Global,
        blocks: &mut B,
        root: &[u8],
        key: &[u8],
    ) -> Result<Option<Octets>, IndexNo>
        requires ready { B.ready blocks.old }
        requires index { WhereTold (B.records blocks.old) (λ r. HasRisingIndex (λ x. C.order (order_of self.now) x key.now)
            (C.valid (order_of self.now)) (nodes_of (form_of self.now) r) (node_in (form_of self.now) root.now)) }
        requires key { IsTrue (C.valid (order_of self.now) key.now) }
        ensures found { IfOk result (λ found. WhereTold (B.records blocks.old) (λ r. Finds (λ x. C.order (order_of self.now) x key.now)
            (C.valid (order_of self.now)) (nodes_of (form_of self.now) r) (node_in (form_of self.now) root.now) found)) }
        ensures keyed { IfOk result (λ found. IfSome found (IsKeyed (form_of self.now) (C.valid (order_of self.now)))) }

        ensures reads { WhereTold (B.records blocks.old) (λ r. Costs 1 (λ x. C.order (order_of self.now) x key.now)
            (C.valid (order_of self.now)) (nodes_of (form_of self.now) r) (node_in (form_of self.now) root.now)
            (B.reads blocks.old) (B.reads blocks.new)) }
        ensures fetched { WhereTold (B.records blocks.old) (λ r. Costs 8 (λ x. C.order (order_of self.now) x key.now)
            (C.valid (order_of self.now)) (nodes_of (form_of self.now) r) (node_in (form_of self.now) root.now)
            (B.fetched blocks.old) (B.fetched blocks.new)) }

        ensures ready { B.ready blocks.new }
        ensures records { B.records blocks.new ≡ B.records blocks.old }
        ensures only_reads { B.only_reads blocks.old blocks.new }
        ensures taken { B.taken blocks.new ≡ B.taken blocks.old }
        ensures full { B.full blocks.new ≡ B.full blocks.old }

        ensures faults { MatchResult result (λ _. B.faults blocks.new ≡ B.faults blocks.old)
            (CountsNo (B.faults blocks.old) (B.faults blocks.new)) }
    {
        let Ok(node) = NodeView::new(root, self.form) else {
            return Ok(None);
        };
        let Some((place, hit)) = seek_in(&node, &self.order, key) else {
            return Ok(None);
        };
        let here = entry_hit(alloc, &self.order, &place, hit)?;
        let mut block = [0; 4096];
        let below = first_below(
            alloc,
            blocks,
            &self.order,
            self.form,
            place.child(),
            key,
            MOST_DEPTH,
            &mut block,
        )?;
        Ok(below.or(here))
    }
}
