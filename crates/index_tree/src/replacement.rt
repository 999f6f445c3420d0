//! An entry comes in the place of the one with an equal key, which is as long: no node gains or loses an entry.
ghost use Rattle.std.specs.Prelude.{◌≡◌, ◌+◌, ◌≤◌, IsSome, IsTrue, MatchResult, OnErr, OnOk, Some, false, is_some, length, take, true};
ghost use Rattle.vol_disk.specs.Contents.{WhereTold};
ghost use Rattle.ntfs_def.specs.Node.{has_children, is_one_entry, item_in, short_node};
ghost use Rattle.index_node.specs.Edit.{HasEntry, IsOpened, IsShortEntry, LeadsBytes, LeadsTo, entry_in};
ghost use Rattle.index_node.specs.EditBlocks.{Edits};
ghost use Rattle.index_tree.specs.Edit.{EditCostsBelow, EditReads, HasSorted, HasSortedIndex, short_nodes};
ghost use Rattle.index_tree.specs.Index.{CountsNo, form_of, order_of};
ghost use Rattle.index_tree.specs.Replace.{Replaces, ReplacesBelow, SwapsAt, SwapsIn, entry_with};

use crate::descent::MOST_DEPTH;
use crate::insertion::seek_block;
use crate::seek::key_of;
use crate::{Index, IndexNo};
use collation::Collation;
use index_node::{NodeView, WriteBlocks, lead_to, replace_at, sealed_nodes};
use ntfs_def::NodeForm;

// Puts an entry in place of entry i where that is as long; leaves the node where it is not.
fn swap_entry(node: &mut [u8], form: NodeForm, i: usize, entry: &[u8])
    requires has { HasEntry form node.old i }
    requires one { IsTrue (is_one_entry form (has_children node.old) entry.now) }
    ensures { SwapsAt form node.old node.new i (entry_in entry.now) }
{
    let Ok(view) = NodeView::new(node, form) else {
        unreachable!();
    };
    if view.entry(i).len() != entry.len() {
        return;
    }
    replace_at(node, form, i, entry);
}

// The same with an entry that is to lead to this child; it is put together on the stack.
fn swap_leading(node: &mut [u8], form: NodeForm, i: usize, entry: &[u8], vcn: u64)
    requires has { HasEntry form node.old i }
    requires children { has_children node.old ≡ true }
    requires entry { IsShortEntry form false entry.now }
    ensures { SwapsAt form node.old node.new i (entry_with (item_in entry.now) (Some vcn)) }
{
    let base = entry.len();
    let mut room = [0; 640];
    let up = &mut room[..base + 8];
    up[..base].copy_from_slice(entry);
    lead_to(up, base, vcn);
    swap_entry(node, form, i, up);
}

// Puts an item in place of that of entry i, which leads to this child, where it is as long.
fn swap_item(node: &mut [u8], form: NodeForm, i: usize, entry: &[u8], child: Option<u64>)
    requires has { HasEntry form node.old i }
    requires children { is_some child ≡ has_children node.old }
    requires entry { IsShortEntry form false entry.now }
    ensures { SwapsAt form node.old node.new i (entry_with (item_in entry.now) child) }
{
    match child {
        None => swap_entry(node, form, i, entry),
        Some(vcn) => swap_leading(node, form, i, entry, vcn),
    }
}

// Puts an item in place of that of entry i of the node of a record.
fn replace_here<B: WriteBlocks>(
    blocks: &mut B,
    form: NodeForm,
    vcn: u64,
    block: &mut [u8; 4096],
    i: usize,
    entry: &[u8],
    child: Option<u64>,
) -> Result<(), IndexNo>
    requires ready { B.ready blocks.old }
    requires there { WhereTold (B.records blocks.old) (λ r. IsSome (r vcn)) }
    requires opened { WhereTold (B.records blocks.old) (λ r. IsOpened vcn block.old) }
    requires has { HasEntry form block.old i }
    requires children { is_some child ≡ has_children block.old }
    requires entry { IsShortEntry form false entry.now }
    ensures done { OnOk result (Edits (B.records blocks.old) (B.records blocks.new)
        (SwapsIn form block.old vcn i (entry_with (item_in entry.now) child))) }
    ensures ready { OnOk result (B.ready blocks.new) }
    ensures reads { B.reads blocks.new ≡ B.reads blocks.old }
    ensures written { B.written blocks.new ≤ B.written blocks.old + 1 }
    ensures taken { B.taken blocks.new ≡ B.taken blocks.old }
    ensures full { B.full blocks.new ≡ B.full blocks.old }
    ensures edits { B.edits blocks.old blocks.new }
    ensures faults { MatchResult result (λ _. B.faults blocks.new ≡ B.faults blocks.old)
        (CountsNo (B.faults blocks.old) (B.faults blocks.new)) }
{
    sealed_nodes();
    swap_item(block, form, i, entry, child);
    blocks.write(vcn, block)?;
    Ok(())
}

// Puts an item in place of the one with an equal key in the tree under `child`, which has at most `level` levels.
fn replace_below<B: WriteBlocks, C: Collation>(
    blocks: &mut B,
    order: &C,
    form: NodeForm,
    child: Option<u64>,
    entry: &[u8],
    key: &[u8],
    level: usize,
) -> Result<(), IndexNo>
    requires ready { B.ready blocks.old }
    requires tree { WhereTold (B.records blocks.old) (λ r.
        HasSorted (C.order order.now) (C.valid order.now) (short_nodes form r) child level) }
    requires entry { IsShortEntry form false entry.now }
    requires is_key { key.now ≡ (item_in entry.now).key }
    requires key { IsTrue (C.valid order.now key.now) }
    ensures done { OnOk result (Edits (B.records blocks.old) (B.records blocks.new) (λ r r'.
        ReplacesBelow (C.order order.now) (C.valid order.now) (short_nodes form r) (short_nodes form r') child (item_in entry.now))) }
    ensures ready { OnOk result (B.ready blocks.new) }
    ensures reads { WhereTold (B.records blocks.old) (λ r. EditCostsBelow 1 (C.order order.now) (C.valid order.now)
        (short_nodes form r) child (B.reads blocks.old) (B.reads blocks.new)) }
    ensures written { B.written blocks.new ≤ B.written blocks.old + 1 }
    ensures taken { B.taken blocks.new ≡ B.taken blocks.old }
    ensures full { B.full blocks.new ≡ B.full blocks.old }
    ensures edits { B.edits blocks.old blocks.new }
    ensures faults { MatchResult result (λ _. B.faults blocks.new ≡ B.faults blocks.old)
        (CountsNo (B.faults blocks.old) (B.faults blocks.new)) }
{
    let Some(vcn) = child else {
        return Ok(());
    };
    if level == 0 {
        return Ok(());
    }
    let mut block = [0; 4096];
    blocks.read(vcn, &mut block)?;
    let Some(spot) = seek_block(&block, form, order, key) else {
        return Ok(());
    };
    if spot.hit {
        return replace_here(blocks, form, vcn, &mut block, spot.i, entry, spot.child);
    }
    replace_below(blocks, order, form, spot.child, entry, key, level - 1)
}

impl<C: Collation> Index<C> {
    /// Puts an entry, without a child's number, in place of the one with an equal key in the index under a root, the value of
    /// its `$INDEX_ROOT`. That one has to be as long, apart from a child's number; the index keeps its shape then, and the
    /// root its length and the fields in front of its node. At most one record is written, and one a level is read.
    ///
    /// # Errors
    ///
    /// `Device` only where the disk failed, and `Memory` only where it did not. Never `NoRoom`. What stands in the root and in
    /// the records is not told then.
    pub fn replace<B: WriteBlocks>(
        &self,
        blocks: &mut B,
        root: &mut [u8],
        entry: &[u8],
    ) -> Result<(), IndexNo>
        requires ready { B.ready blocks.old }
        requires index { WhereTold (B.records blocks.old) (λ r. HasSortedIndex (C.order (order_of self.now)) (C.valid (order_of self.now))
            (short_nodes (form_of self.now) r) (short_node (form_of self.now) root.old) 15) }
        requires entry { IsShortEntry (form_of self.now) false entry.now }
        requires key { IsTrue (C.valid (order_of self.now) (item_in entry.now).key) }
        ensures replaced { OnOk result (Edits (B.records blocks.old) (B.records blocks.new) (Replaces (C.order (order_of self.now))
            (C.valid (order_of self.now)) (form_of self.now) (short_node (form_of self.now) root.old)
            (short_node (form_of self.now) root.new) (item_in entry.now))) }
        ensures root { OnOk result (length root.new ≡ length root.old) }
        ensures front { OnOk result (take 16 root.new ≡ take 16 root.old) }
        ensures ready { OnOk result (B.ready blocks.new) }
        ensures reads { WhereTold (B.records blocks.old) (λ r. EditReads 1 (C.order (order_of self.now)) (C.valid (order_of self.now))
            (short_nodes (form_of self.now) r) (short_node (form_of self.now) root.old) (B.reads blocks.old) (B.reads blocks.new)) }
        ensures written { B.written blocks.new ≤ B.written blocks.old + 1 }
        ensures taken { B.taken blocks.new ≡ B.taken blocks.old }
        ensures full { B.full blocks.new ≡ B.full blocks.old }
        ensures edits { B.edits blocks.old blocks.new }
        ensures faults { MatchResult result (λ _. B.faults blocks.new ≡ B.faults blocks.old)
            (CountsNo (B.faults blocks.old) (B.faults blocks.new)) }
    {
        let key = key_of(entry);
        let Some(spot) = seek_block(root, self.form, &self.order, key) else {
            return Ok(());
        };
        if spot.hit {
            swap_item(root, self.form, spot.i, entry, spot.child);
            return Ok(());
        }
        replace_below(
            blocks,
            &self.order,
            self.form,
            spot.child,
            entry,
            key,
            MOST_DEPTH,
        )
    }
}
