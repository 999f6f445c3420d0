//! Views of the nodes of an index, and the records that the nodes are read from.
//!
//! A node is the value of an `$INDEX_ROOT`, or an opened index record of 4,096 bytes. A view lends its bytes and copies
//! none.
#![tactic(auto)]

ghost use Rattle.std.specs.Prelude.{◌≡◌, ◌≤◌, ◌<◌, ◌^◌, IsTrue, None, length};
ghost use Rattle.ntfs_def.specs.Node.{HasEntries, entries_end, entry_place, first_entry, has_children, is_last_entry, node_header_failing};

mod blocks;
mod edit;
mod edit_blocks;
mod laws;
mod node_mut;
mod parts;
mod places;
mod root;
mod seek;
mod shape;
mod split;
mod view;
mod written;

pub use blocks::{BlockNo, Blocks};
pub use edit::{insert_at, remove_at, replace_at};
pub use edit_blocks::{EditBlocks, WriteBlocks};
pub use laws::sealed_nodes;
pub use node_mut::NodeMut;
pub use ntfs_def::NodeForm;
pub use parts::{base_len, join_at, lead_to, new_record, set_child, split_with, with_child};
pub use root::{empty_root, insert_in_root, root_record};
pub use seek::seek_in;
use thiserror::Error;
pub use written::lay_out;

/// Why bytes are no node, or hold no more.
#[derive(Clone, Copy, Debug, PartialEq, Eq, Error)]
pub enum NodeNo {
    /// The bytes are no node: `at` is the place of the first field of the header that is wrong, or else of the
    /// first entry.
    #[error("the node has a wrong shape at byte {at}")]
    Shape { at: usize },
    /// The entries take `need` bytes, and the node has room for `free`.
    #[error("the node has room for {free} bytes of {need}")]
    Full { need: usize, free: usize },
}

/// A node of an index.
#[derive(Clone, Copy, Debug)]
pub struct NodeView<'r> {
    node: &'r [u8],
    form: NodeForm,
    children: bool,
    first: usize,
    end: usize,
    count: usize,
    ghost begins: { first ≡ first_entry node.now },
    ghost flag: { children ≡ has_children node.now },
    ghost inside: { end ≤ length node.now },
    ghost short: { end < 2 ^ 33 },
    ghost small: { first < 2 ^ 33 },
    ghost each: { HasEntries form node.now children end first count },
    ghost last: { IsTrue (is_last_entry node.now children end (entry_place node.now first count)) },
}

// A view whose header is known to be right, and where it says that the entries end.
#[derive(Clone, Copy, Debug)]
struct WholeView<'r> {
    view: NodeView<'r>,
    ghost right: { node_header_failing view.node.now ≡ None },
    ghost ends: { view.end ≡ entries_end view.node.now },
    ghost few: { view.count < length view.node.now },
}

/// A place in a node: that of an entry with a key, or behind all of those the last one, by its number.
#[derive(Clone, Copy, Debug)]
pub struct Place<'r> {
    view: NodeView<'r>,
    number: usize,
    at: usize,
    ghost within: { number ≤ view.count },
    ghost stands: { at ≡ entry_place view.node.now view.first number },
}
