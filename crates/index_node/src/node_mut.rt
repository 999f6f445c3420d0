//! A node that is edited in its bytes.
ghost use Rattle.std.specs.Prelude.{◌≡◌, ◌↔◌, ◌++◌, ◌-◌, IfErr, IfOk, IsOk, IsSome, IsTrue, OnErr, OnOk, Some, drop, insert, length};
ghost use Rattle.std.specs.Prelude.{remove, suc, take, true};
ghost use Rattle.ntfs_def.specs.IndexTree.{Each};
ghost use Rattle.ntfs_def.specs.Node.{Entry, Node, has_children, is_one_entry, node_in};
ghost use Rattle.index_node.specs.Edit.{Becomes, FitsBehind, HasEntry, HasPlace, HasRoomFor, Inserts, IsKeyless, LacksRoomFor};
ghost use Rattle.index_node.specs.Edit.{TakesBehind, leading, left_of, without_entry};
ghost use Rattle.index_node.specs.LayOut.{room_len};
ghost use Rattle.index_node.specs.Pieces.{EditsPieces, LeadsPiece};
ghost use Rattle.index_node.specs.Seek.{IsPlace};
ghost use Rattle.index_node.specs.View.{Refuses, bytes_of, form_of_view, node_of_view};

use crate::edit::{insert_at, remove_at};
use crate::parts::set_child;
use crate::seek::seek_in;
use crate::split::split_into;
use crate::{NodeNo, NodeView};
use collation::Collation;
use ntfs_def::NodeForm;

/// A node whose entries can be read and edited. All its bytes stay in the slice that was lent, which has every edit once
/// this is let go.
#[derive(Debug, Drop)]
pub struct NodeMut<'r> {
    node: &'r mut [u8],
    form: NodeForm,
    ghost shape: { IsSome (node_in form node.now) },
}

impl<'r> NodeMut<'r> {
    ghost use Rattle.index_node.specs.Edited.{edited_bytes, edited_form, reference_of};

    /// The value of an `$INDEX_ROOT`, or an opened index record of 4,096 bytes, that can be edited.
    ///
    /// # Errors
    ///
    /// `Shape` exactly where the bytes have not the shape of a node, with the first place where they fail.
    pub fn new(node: &'r mut [u8], form: NodeForm) -> Result<NodeMut<'r>, NodeNo>
        ensures same_reference { IfOk result (λ edited. reference_of edited ≡ node.entry.ghost_name) }
        ensures ok { IfOk result (λ edited. edited_bytes edited ≡ node.old) }
        ensures form { IfOk result (λ edited. edited_form edited ≡ form) }
        ensures shape { IfOk result (λ edited. IsSome (node_in form node.old)) }
        ensures err { IfErr result (Refuses form node.old) }
    {
        NodeView::new(node, form)?;
        Ok(NodeMut { node, form })
    }

    /// A view of the node as it is now.
    pub fn view(&self) -> NodeView<'_>
        ensures node { node_in (edited_form self.now) (edited_bytes self.now) ≡ Some (node_of_view result) }
        ensures bytes { bytes_of result ≡ edited_bytes self.now }
        ensures form { form_of_view result ≡ edited_form self.now }
    {
        match NodeView::new(self.node, self.form) {
            Ok(view) => view,
            Err(_) => unreachable!(),
        }
    }

    /// The first entry whose key is not below this one, or how many entries there are where all are, and whether its key is
    /// equal. All keys are valid.
    pub fn find<C: Collation>(&self, order: &C, key: &[u8]) -> (usize, bool)
        requires key { IsTrue (C.valid order.now key.now) }
        requires keys { (said : Node) → node_in (edited_form self.now) (edited_bytes self.now) ≡ Some said
            → Each (λ (e : Entry). IsTrue (C.valid order.now e.item.key)) said.entries }
        ensures { (said : Node) → node_in (edited_form self.now) (edited_bytes self.now) ≡ Some said
            → IsPlace (λ x. C.order order.now x key.now) said.entries result.0 result.1 }
    {
        match seek_in(&self.view(), order, key) {
            Some((place, hit)) => (place.number(), hit),
            None => unreachable!(),
        }
    }

    /// Puts an entry before entry i, or behind all. All other entries stay.
    ///
    /// # Errors
    ///
    /// `Full` exactly where the node has no room for the entry: `need` is its length, and `free` what the room holds beside
    /// the entries. The node is then as before.
    pub fn insert_at(&mut self, i: usize, entry: &[u8]) -> Result<(), NodeNo>
        requires place { HasPlace (edited_form self.old) (edited_bytes self.old) i }
        requires one { IsTrue (is_one_entry (edited_form self.old) (has_children (edited_bytes self.old)) entry.now) }
        ensures same_reference { reference_of self.new ≡ reference_of self.old }
        ensures form { edited_form self.new ≡ edited_form self.old }
        ensures ok { OnOk result (Inserts (edited_form self.old) (edited_bytes self.old) (edited_bytes self.new) i entry.now) }
        ensures pieces { OnOk result (EditsPieces (edited_form self.old) (edited_bytes self.old) (edited_bytes self.new)
            (λ before now. now ≡ insert before i entry.now)) }
        ensures fits { IsOk result ↔ HasRoomFor (edited_form self.old) (edited_bytes self.old) (length entry.now) }
        ensures err { IfErr result (LacksRoomFor (edited_form self.old) (edited_bytes self.old) (length entry.now)) }
        ensures kept { OnErr result (edited_bytes self.new ≡ edited_bytes self.old) }
    {
        insert_at(self.node, self.form, i, entry)
    }

    /// Takes entry i out. All other entries stay.
    pub fn remove_at(&mut self, i: usize)
        requires { HasEntry (edited_form self.old) (edited_bytes self.old) i }
        ensures same_reference { reference_of self.new ≡ reference_of self.old }
        ensures form { edited_form self.new ≡ edited_form self.old }
        ensures removed { Becomes (edited_form self.old) (edited_bytes self.old) (edited_bytes self.new) (λ said. without_entry said i) }
        ensures pieces { EditsPieces (edited_form self.old) (edited_bytes self.old) (edited_bytes self.new)
            (λ before now. now ≡ remove before i) }
    {
        remove_at(self.node, self.form, i);
    }

    /// Lets entry i, or the last one, lead to this child, in a node whose entries have children. All else stays.
    pub fn set_child(&mut self, i: usize, vcn: u64)
        requires place { HasPlace (edited_form self.old) (edited_bytes self.old) i }
        requires children { has_children (edited_bytes self.old) ≡ true }
        ensures same_reference { reference_of self.new ≡ reference_of self.old }
        ensures form { edited_form self.new ≡ edited_form self.old }
        ensures led { Becomes (edited_form self.old) (edited_bytes self.old) (edited_bytes self.new) (λ said. leading said i (Some vcn)) }
        ensures pieces { EditsPieces (edited_form self.old) (edited_bytes self.old) (edited_bytes self.new) (LeadsPiece i) }
    {
        set_child(self.node, self.form, i, vcn);
    }

    /// Splits the node at entry i. It keeps the entries before entry i, and its last entry, which has no key, leads where
    /// entry i led. `right`, a node without keys in the same form, gets the entries behind entry i, the last one too, in
    /// place of its own last one. Entry i is in neither then: the caller lifts it.
    pub fn split_into(&mut self, right: &mut [u8], i: usize)
        requires entry { HasEntry (edited_form self.old) (edited_bytes self.old) i }
        requires keyless { IsKeyless (edited_form self.old) right.old }
        requires same { has_children right.old ≡ has_children (edited_bytes self.old) }
        requires fits { FitsBehind (edited_form self.old) (edited_bytes self.old) i (room_len right.old) }
        ensures same_reference { reference_of self.new ≡ reference_of self.old }
        ensures form { edited_form self.new ≡ edited_form self.old }
        ensures left { Becomes (edited_form self.old) (edited_bytes self.old) (edited_bytes self.new) (left_of i) }
        ensures right { TakesBehind (edited_form self.old) right.old right.new (edited_bytes self.old) i }
        ensures left_pieces { EditsPieces (edited_form self.old) (edited_bytes self.old) (edited_bytes self.new)
            (λ before now. LeadsPiece i (take i before ++ drop (length before - 1) before) now) }
        ensures right_pieces { EditsPieces (edited_form self.old) (edited_bytes self.old) right.new
            (λ before now. now ≡ drop (suc i) before) }
    {
        split_into(self.node, self.form, right, i);
    }
}
