//! A key is sought in the bytes of a node of names.
ghost use Rattle.std.specs.Prelude.{◌≡◌, ◌+◌, ◌≤◌, IfNone, IfSome, IsTrue, Some, length};
ghost use Rattle.ntfs_def.specs.IndexTree.{Each};
ghost use Rattle.ntfs_def.specs.Node.{Entry, Node, item_in, key_len, node_in};
ghost use Rattle.ntfs_def.specs.declared.index.NodeForm.TheVariants.{Names};
ghost use Rattle.index_tree.specs.Edit.{SeeksNode};

use collation::Collation;
use index_node::{NodeView, seek_in};
use ntfs_def::{NodeForm, index_record};
use vol_bytes::u16_at;

/// Where a search ends in a node.
#[derive(Clone, Copy)]
pub struct Spot {
    /// The place.
    pub place: usize,
    /// Whether the key there is equal.
    pub hit: bool,
    /// The child that the place leads to.
    pub child: Option<u64>,
}

/// Where the search for a key ends in the bytes of a node; `None` where they say none, or a key is not valid.
pub fn seek_block<C: Collation>(block: &[u8], order: &C, key: &[u8]) -> Option<Spot>
    requires { IsTrue (C.valid order.now key.now) }
    ensures some { IfSome result (λ spot. SeeksNode (C.order order.now) Names block.now key.now spot.place spot.hit spot.child) }
    ensures none { IfNone result ((said : Node) → node_in Names block.now ≡ Some said
        → Each (λ (e : Entry). IsTrue (C.valid order.now e.item.key)) said.entries → ⊥) }
{
    let Ok(node) = NodeView::new(block, NodeForm::Names) else {
        return None;
    };
    match seek_in(&node, order, key) {
        Some((place, hit)) => Some(Spot {
            place: place.number(),
            hit,
            child: place.child(),
        }),
        None => None,
    }
}

// The key of an entry by itself.
pub fn key_of(entry: &[u8]) -> &[u8]
    requires { 16 + key_len entry.now 0 ≤ length entry.now }
    ensures { result.now ≡ (item_in entry.now).key }
{
    let len = u16_at(entry, index_record::KEY_LEN) as usize;
    &entry[index_record::KEY..index_record::KEY + len]
}
