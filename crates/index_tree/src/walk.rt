//! All entries of an index are walked in order.
ghost use Rattle.std.specs.Prelude.{◌≡◌, ◌++◌, ◌∷◌, [], IfOk, IfErr, MatchResult, OnOk};
ghost use Rattle.ntfs_def.specs.IndexTree.{Each};
ghost use Rattle.ntfs_def.specs.Node.{IsOwnEntry, node_in};
ghost use Rattle.vol_disk.specs.Contents.{WhereTold};
ghost use Rattle.index_node.specs.View.{form_of_view, node_of_view};
ghost use Rattle.index_tree.specs.Index.{CountsNo, form_of};
ghost use Rattle.index_tree.specs.Search.{nodes_of};
ghost use Rattle.index_tree.specs.Walk.{CostsNode, CostsTree, CostsWalk, HasSpread, HasTree, HasWalk, IsWalk, WalksNode, WalksTree};

use crate::descent::MOST_DEPTH;
use crate::{Index, IndexNo};
use index_node::{Blocks, NodeView};
use ntfs_def::NodeForm;
use std::alloc::Global;
use vol_bytes::Octets;

// Puts the bytes of an entry behind the others.
fn keep(alloc: Global, entry: &[u8], out: &mut Vec<Octets>) -> Result<(), IndexNo>
    ensures kept { OnOk result (out.new.items ≡ out.old.items ++ entry.now ∷ []) }
    ensures memory { IfErr result (λ no. no ≡ IndexNo.Memory) }
{
    let bytes = Vec::from_slice(alloc, entry)?;
    out.push(Octets::from_vec(bytes))?;
    Ok(())
}

// Walks what stands under `child`, which has at most `level` levels.
#[cycle(walking)]
fn walk_tree<B: Blocks>(
    alloc: Global,
    blocks: &mut B,
    form: NodeForm,
    child: Option<u64>,
    level: usize,
    out: &mut Vec<Octets>,
) -> Result<(), IndexNo>
    requires ready { B.ready blocks.old }
    requires tree { WhereTold (B.records blocks.old) (λ r. HasTree (nodes_of form r) child level) }
    ensures walked { OnOk result (WhereTold (B.records blocks.old) (λ r.
        WalksTree (nodes_of form r) child out.old.items out.new.items)) }
    ensures own { OnOk result (Each (IsOwnEntry form) out.old.items → Each (IsOwnEntry form) out.new.items) }

    ensures reads { OnOk result (WhereTold (B.records blocks.old) (λ r.
        CostsTree 1 (nodes_of form r) child (B.reads blocks.old) (B.reads blocks.new))) }
    ensures fetched { OnOk result (WhereTold (B.records blocks.old) (λ r.
        CostsTree 8 (nodes_of form r) child (B.fetched blocks.old) (B.fetched blocks.new))) }

    ensures ready { B.ready blocks.new }
    ensures records { B.records blocks.new ≡ B.records blocks.old }
    ensures only_reads { B.only_reads blocks.old blocks.new }
    ensures taken { B.taken blocks.new ≡ B.taken blocks.old }
    ensures full { B.full blocks.new ≡ B.full blocks.old }

    ensures faults { MatchResult result (λ _. B.faults blocks.new ≡ B.faults blocks.old)
        (CountsNo (B.faults blocks.old) (B.faults blocks.new)) }
{
    let Some(vcn) = child else {
        return Ok(());
    };
    if level == 0 {
        return Ok(());
    }
    let mut block = [0; 4096];
    blocks.read(vcn, &mut block)?;
    let Ok(node) = NodeView::new(&block, form) else {
        return Ok(());
    };
    walk_node(alloc, blocks, &node, level - 1, out)
}

// Walks a node: for each entry the tree under its child and then the entry, and last the tree under the last child.
#[cycle(walking)]
fn walk_node<B: Blocks>(
    alloc: Global,
    blocks: &mut B,
    node: &NodeView<'_>,
    level: usize,
    out: &mut Vec<Octets>,
) -> Result<(), IndexNo>
    requires ready { B.ready blocks.old }
    requires spread { WhereTold (B.records blocks.old) (λ r.
        HasSpread (nodes_of (form_of_view node.now) r) (node_of_view node.now) level) }
    ensures walked { OnOk result (WhereTold (B.records blocks.old) (λ r.
        WalksNode (nodes_of (form_of_view node.now) r) (node_of_view node.now) out.old.items out.new.items)) }
    ensures own { OnOk result (Each (IsOwnEntry (form_of_view node.now)) out.old.items
        → Each (IsOwnEntry (form_of_view node.now)) out.new.items) }

    ensures reads { OnOk result (WhereTold (B.records blocks.old) (λ r.
        CostsNode 1 (nodes_of (form_of_view node.now) r) (node_of_view node.now) (B.reads blocks.old) (B.reads blocks.new))) }
    ensures fetched { OnOk result (WhereTold (B.records blocks.old) (λ r.
        CostsNode 8 (nodes_of (form_of_view node.now) r) (node_of_view node.now) (B.fetched blocks.old) (B.fetched blocks.new))) }

    ensures ready { B.ready blocks.new }
    ensures records { B.records blocks.new ≡ B.records blocks.old }
    ensures only_reads { B.only_reads blocks.old blocks.new }
    ensures taken { B.taken blocks.new ≡ B.taken blocks.old }
    ensures full { B.full blocks.new ≡ B.full blocks.old }

    ensures faults { MatchResult result (λ _. B.faults blocks.new ≡ B.faults blocks.old)
        (CountsNo (B.faults blocks.old) (B.faults blocks.new)) }
{
    let mut place = node.first_place();
    'places: while place.has_key() {
        walk_tree(alloc, blocks, node.form(), place.child(), level, out)?;
        keep(alloc, place.entry(), out)?;
        place.advance();
    }
    let last = place.child();
    walk_tree(alloc, blocks, node.form(), last, level, out)
}

impl<C> Index<C> {
    /// All entries of the index under a root, the value of its `$INDEX_ROOT`, in order. Where the contents are told, an Ok
    /// has read no more records than the index has below its root.
    ///
    /// Where the contents are not told, each of the entries that are given still is one entry.
    ///
    /// # Errors
    ///
    /// `Device` only where the disk failed, and `Memory` only where it did not. Never `NoRoom`.
    pub fn walk<B: Blocks>(
        &self,
        alloc: Global,
        blocks: &mut B,
        root: &[u8],
    ) -> Result<Vec<Octets>, IndexNo>
        requires ready { B.ready blocks.old }
        requires index { WhereTold (B.records blocks.old) (λ r.
            HasWalk (nodes_of (form_of self.now) r) (node_in (form_of self.now) root.now)) }
        ensures walked { IfOk result (λ entries. WhereTold (B.records blocks.old) (λ r.
            IsWalk (nodes_of (form_of self.now) r) (node_in (form_of self.now) root.now) entries.items)) }
        ensures own { IfOk result (λ entries. Each (IsOwnEntry (form_of self.now)) entries.items) }

        ensures reads { IfOk result (λ _. WhereTold (B.records blocks.old) (λ r.
            CostsWalk 1 (nodes_of (form_of self.now) r) (node_in (form_of self.now) root.now) (B.reads blocks.old)
            (B.reads blocks.new))) }
        ensures fetched { IfOk result (λ _. WhereTold (B.records blocks.old) (λ r.
            CostsWalk 8 (nodes_of (form_of self.now) r) (node_in (form_of self.now) root.now)
            (B.fetched blocks.old) (B.fetched blocks.new))) }

        ensures ready { B.ready blocks.new }
        ensures records { B.records blocks.new ≡ B.records blocks.old }
        ensures only_reads { B.only_reads blocks.old blocks.new }
        ensures taken { B.taken blocks.new ≡ B.taken blocks.old }
        ensures full { B.full blocks.new ≡ B.full blocks.old }

        ensures faults { MatchResult result (λ _. B.faults blocks.new ≡ B.faults blocks.old)
            (CountsNo (B.faults blocks.old) (B.faults blocks.new)) }
    {
        let mut out = Vec::new(alloc);
        let Ok(node) = NodeView::new(root, self.form) else {
            return Ok(out);
        };
        walk_node(alloc, blocks, &node, MOST_DEPTH, &mut out)?;
        Ok(out)
    }
}
