//! A place in a node: the entry there and its child, and the way on to the next place.
ghost use Rattle.std.specs.Prelude.{◌≡◌, ◌+◌, ◌<◌, IsTrue, false, length, slice_index_or, true};
ghost use Rattle.ntfs_def.specs.Node.{Entry, child_from, has_children, is_one_entry, item_in};
ghost use Rattle.index_node.specs.Lent.{child_said};
ghost use Rattle.index_node.specs.View.{bytes_of, form_of_view, node_of_view, number_of, view_of};

use crate::Place;
use crate::shape::{entry_len, key_len};
use ntfs_def::index_record;
use vol_bytes::u64_at;

impl<'r> Place<'r> {
    /// How many entries stand before it.
    pub fn number(&self) -> usize
        ensures { result ≡ number_of self.now }
    {
        self.number
    }

    /// Whether an entry with a key stands there. The last place alone has none.
    pub fn has_key(&self) -> bool
        ensures inside { result ≡ true → number_of self.now < length (node_of_view (view_of self.now)).entries }
        ensures last { result ≡ false → number_of self.now ≡ length (node_of_view (view_of self.now)).entries }
    {
        self.number < self.view.count
    }

    /// The bytes of the entry there, with its child's number.
    pub fn entry(&self) -> &'r [u8]
        requires { number_of self.now < length (node_of_view (view_of self.now)).entries }
        ensures item { (d : Entry)
            → item_in result.now ≡ (slice_index_or (node_of_view (view_of self.now)).entries (number_of self.now) d).item }
        ensures child { (d : Entry)
            → child_said result.now ≡ (slice_index_or (node_of_view (view_of self.now)).entries (number_of self.now) d).child }
        ensures own { IsTrue (is_one_entry (form_of_view (view_of self.now)) (has_children (bytes_of (view_of self.now))) result.now) }
    {
        &self.view.node[self.at..self.at + entry_len(self.view.node, self.at) as usize]
    }

    /// The key of the entry there.
    pub fn key(&self) -> &'r [u8]
        requires { number_of self.now < length (node_of_view (view_of self.now)).entries }
        ensures { (d : Entry)
            → result.now ≡ (slice_index_or (node_of_view (view_of self.now)).entries (number_of self.now) d).item.key }
    {
        let from = self.at + index_record::KEY;
        &self.view.node[from..from + key_len(self.view.node, self.at) as usize]
    }

    /// The child that the place leads to.
    pub fn child(&self) -> Option<u64>
        ensures { result ≡ child_from (node_of_view (view_of self.now)).entries (node_of_view (view_of self.now)).last
            (number_of self.now) }
    {
        if !self.view.children {
            return None;
        }
        let end = self.at + entry_len(self.view.node, self.at) as usize;
        Some(u64_at(self.view.node, end - 8))
    }

    /// Goes on to the next place.
    pub fn advance(&mut self)
        requires { number_of self.old < length (node_of_view (view_of self.old)).entries }
        ensures view { view_of self.new ≡ view_of self.old }
        ensures number { number_of self.new ≡ number_of self.old + 1 }
    {
        self.at += entry_len(self.view.node, self.at) as usize;
        self.number += 1;
    }
}
