//! The view: how many entries the node has, and each of them.
ghost use Rattle.std.specs.Prelude.{◌≡◌, ◌<◌, ◌≤◌, IfOk, IfErr, IsTrue, length, slice_index_or};
ghost use Rattle.ntfs_def.specs.Node.{Entry, Whole, are_short, child_from, has_children, is_one_entry, item_in, scan_node};
ghost use Rattle.index_node.specs.Edit.{HasSpan};
ghost use Rattle.index_node.specs.Lent.{child_said};
ghost use Rattle.index_node.specs.View.{Refuses, bytes_of, form_of_view, node_of_view, number_of, view_of};

use crate::edit::Span;
use crate::shape::{
    child_len, count_of, entries_end, entry_len, first_entry, has_children, header_failing,
};
use crate::{NodeNo, NodeView, Place, WholeView};
use ntfs_def::NodeForm;

/// The bytes of the longest entry, apart from a child's number.
const MOST: usize = 632;

impl<'r> NodeView<'r> {
    /// A view of the value of an `$INDEX_ROOT`, or of an opened index record of 4,096 bytes.
    ///
    /// # Errors
    ///
    /// `Shape` exactly where the bytes have not the shape of a node, with the first place where they fail.
    pub fn new(node: &'r [u8], form: NodeForm) -> Result<NodeView<'r>, NodeNo>
        ensures ok { IfOk result (λ view. scan_node form node.now ≡ Whole (node_of_view view)) }
        ensures form { IfOk result (λ view. form_of_view view ≡ form) }
        ensures bytes { IfOk result (λ view. bytes_of view ≡ node.now) }
        ensures err { IfErr result (Refuses form node.now) }
    {
        match whole_view(node, form) {
            Ok(whole) => Ok(whole.view),
            Err(no) => Err(no),
        }
    }
}

/// A view, with what its header says.
pub fn whole_view<'r>(node: &'r [u8], form: NodeForm) -> Result<WholeView<'r>, NodeNo>
    ensures ok { IfOk result (λ whole. scan_node form node.now ≡ Whole (node_of_view whole.view)) }
    ensures form { IfOk result (λ whole. form_of_view whole.view ≡ form) }
    ensures bytes { IfOk result (λ whole. bytes_of whole.view ≡ node.now) }
    ensures err { IfErr result (Refuses form node.now) }
{
    if let Some(at) = header_failing(node) {
        return Err(NodeNo::Shape { at });
    }
    let first = first_entry(node);
    let end = entries_end(node);
    let children = has_children(node);
    let count = count_of(form, node, children, end, first)?;
    Ok(WholeView {
        view: NodeView {
            node,
            form,
            children,
            first,
            end,
            count,
        },
    })
}

impl<'r> WholeView<'r> {
    /// How many entries have a key.
    pub fn entries(&self) -> usize
        ensures { result ≡ length (node_of_view self.now.view).entries }
    {
        self.view.entries()
    }

    /// Where entry i stands, or the last one, and where the entries end.
    pub fn span(&self, i: usize) -> Span
        requires { i ≤ length (node_of_view self.now.view).entries }
        ensures { HasSpan (form_of_view self.now.view) (bytes_of self.now.view) i result.at result.behind result.end }
    {
        let at = self.view.place(i).at;
        let last = self.view.place(self.view.count).at;
        Span {
            at,
            behind: at + entry_len(self.view.node, at) as usize,
            end: last + entry_len(self.view.node, last) as usize,
        }
    }
}

impl<'r> NodeView<'r> {
    /// The place of the first entry, or the last place where no entry has a key. From there on the node is gone over once.
    pub fn first_place(&self) -> Place<'r>
        ensures view { view_of result ≡ self.now }
        ensures number { number_of result ≡ 0 }
    {
        Place {
            view: *self,
            number: 0,
            at: self.first,
        }
    }

    // A place by its number, from the first one on.
    fn place(&self, i: usize) -> Place<'r>
        requires { i ≤ length (node_of_view self.now).entries }
        ensures view { view_of result ≡ self.now }
        ensures number { number_of result ≡ i }
    {
        let mut place = self.first_place();
        for k in 0..i {
            place.advance();
        }
        place
    }

    /// What its entries are.
    pub fn form(&self) -> NodeForm
        ensures { result ≡ form_of_view self.now }
    {
        self.form
    }

    /// How many entries have a key.
    #[tactic(auto, unfolding(crate::specs::View::node_of_view))]
    pub fn entries(&self) -> usize
        ensures { result ≡ length (node_of_view self.now).entries }
    {
        self.count
    }

    /// Whether no entry, the last one neither, is longer than 632 bytes, apart from a child's number. An index of a
    /// volume has no longer ones.
    pub fn is_short(&self) -> bool
        ensures { result ≡ are_short (bytes_of self.now) (length (node_of_view self.now).entries) }
    {
        let most = MOST + child_len(self.children);
        let mut at = self.first;
        for k in 0..self.count {
            let len = entry_len(self.node, at) as usize;
            if len > most {
                return false;
            }
            at += len;
        }
        entry_len(self.node, at) as usize <= most
    }

    /// The bytes of an entry, with its child's number.
    pub fn entry(&self, i: usize) -> &'r [u8]
        requires { i < length (node_of_view self.now).entries }
        ensures item { (d : Entry) → item_in result.now ≡ (slice_index_or (node_of_view self.now).entries i d).item }
        ensures child { (d : Entry) → child_said result.now ≡ (slice_index_or (node_of_view self.now).entries i d).child }
        ensures own { IsTrue (is_one_entry (form_of_view self.now) (has_children (bytes_of self.now)) result.now) }
    {
        self.place(i).entry()
    }

    /// The key of an entry.
    pub fn key(&self, i: usize) -> &'r [u8]
        requires { i < length (node_of_view self.now).entries }
        ensures { (d : Entry) → result.now ≡ (slice_index_or (node_of_view self.now).entries i d).item.key }
    {
        self.place(i).key()
    }

    /// The child that place i leads to; the last place has no key.
    pub fn child(&self, i: usize) -> Option<u64>
        requires { i ≤ length (node_of_view self.now).entries }
        ensures { result ≡ child_from (node_of_view self.now).entries (node_of_view self.now).last i }
    {
        self.place(i).child()
    }
}
