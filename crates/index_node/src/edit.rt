//! Nodes are edited in their bytes: what stands behind an edit is moved, and nothing is copied out.
ghost use Rattle.std.specs.Prelude.{◌≡◌, ◌↔◌, ◌+◌, ◌-◌, ◌<◌, ◌≤◌, ℕ, IfErr, IsOk, IsTrue, OnErr, OnOk, Some, length, suc};
ghost use Rattle.std.specs.Prelude.{insert, remove, slice_index, slice_index_or};
ghost use Rattle.vol_bytes.specs.Field.{SameOutside};
ghost use Rattle.ntfs_def.specs.Node.{Entry, Node, has_children, is_one_entry, item_in, node_in};
ghost use Rattle.index_node.specs.Edit.{Becomes, CanSplice, HasEntry, HasPlace, HasRoomFor, HasSpan, Inserts, LacksRoomFor};
ghost use Rattle.index_node.specs.Edit.{PutsFront, Splices, entries_len, entry_in, front_len, item_len, replaced, right_of};
ghost use Rattle.index_node.specs.Edit.{without_entry};
ghost use Rattle.index_node.specs.Pieces.{EditsPieces};

use crate::NodeNo;
use crate::shape::{has_children, room_end};
use crate::view::whole_view;
use crate::written::{put_entry, put_header};
use ntfs_def::NodeForm;

/// Where an entry stands, where the next one does, and where the entries end, the last one too.
#[derive(Clone, Copy, Debug)]
pub struct Span {
    pub at: usize,
    pub behind: usize,
    pub end: usize,
}

// Moves the bytes from `from` up to `end` to `to`.
fn move_bytes(node: &mut [u8], from: usize, end: usize, to: usize)
    requires order { from ≤ end }
    requires inside { end ≤ length node.old }
    requires fits { to + (end - from) ≤ length node.old }
    ensures rest { SameOutside node.old node.new to (to + (end - from)) }
    ensures moved { (j k : ℕ) → from ≤ k → k < end → j + from ≡ k + to → slice_index node.new j ≡ slice_index node.old k }
{
    node.copy_within(from..end, to);
}

// Puts bytes at `at`, and the entries from `from` up to `end` behind them; the entries end there then.
pub fn splice(node: &mut [u8], at: usize, from: usize, end: usize, bytes: &[u8])
    requires { CanSplice node.old at from end (length bytes.now) }
    ensures { Splices node.old node.new at from end bytes.now }
{
    let children = has_children(node);
    put_header(node, children, at + bytes.len() + (end - from));
    move_bytes(node, from, end, at + bytes.len());
    put_entry(node, at, bytes);
}

// The span of entry i, or of the last one.
pub fn span_of(node: &[u8], form: NodeForm, i: usize) -> Span
    requires { HasPlace form node.now i }
    ensures { HasSpan form node.now i result.at result.behind result.end }
{
    match whole_view(node, form) {
        Ok(whole) => whole.span(i),
        Err(_) => unreachable!(),
    }
}

/// Puts an entry before entry i, or behind all.
///
/// # Errors
///
/// `Full` exactly where the node has no room for it. The node is then as before.
pub fn insert_at(node: &mut [u8], form: NodeForm, i: usize, entry: &[u8]) -> Result<(), NodeNo>
    requires place { HasPlace form node.old i }
    requires one { IsTrue (is_one_entry form (has_children node.old) entry.now) }
    ensures ok { OnOk result (Inserts form node.old node.new i entry.now) }
    ensures fits { IsOk result ↔ HasRoomFor form node.old (length entry.now) }
    ensures err { IfErr result (LacksRoomFor form node.old (length entry.now)) }
    ensures pieces { OnOk result (EditsPieces form node.old node.new (λ before now. now ≡ insert before i entry.now)) }
    ensures kept { OnErr result (node.new ≡ node.old) }
{
    let span = span_of(node, form, i);
    let free = room_end(node) - span.end;
    if entry.len() > free {
        return Err(NodeNo::Full {
            need: entry.len(),
            free,
        });
    }
    splice(node, span.at, span.at, span.end, entry);
    Ok(())
}

/// Takes entry i out.
pub fn remove_at(node: &mut [u8], form: NodeForm, i: usize)
    requires { HasEntry form node.old i }
    ensures ok { Becomes form node.old node.new (λ said. without_entry said i) }
    ensures pieces { EditsPieces form node.old node.new (λ before now. now ≡ remove before i) }
{
    let span = span_of(node, form, i);
    splice(node, span.at, span.behind, span.end, &[]);
}

/// Puts an entry in place of entry i, which is as long.
pub fn replace_at(node: &mut [u8], form: NodeForm, i: usize, entry: &[u8])
    requires entry { HasEntry form node.old i }
    requires one { IsTrue (is_one_entry form (has_children node.old) entry.now) }
    requires alike { (said : Node) → node_in form node.old ≡ Some said
        → (d : Entry) → item_len (slice_index_or said.entries i d).item ≡ item_len (item_in entry.now) }
    ensures ok { Becomes form node.old node.new (λ said. replaced said i (entry_in entry.now)) }
    ensures pieces { EditsPieces form node.old node.new (λ before now. now ≡ insert (remove before i) i entry.now) }
{
    let span = span_of(node, form, i);
    splice(node, span.at, span.behind, span.end, entry);
}

/// Keeps the entries behind entry i alone.
pub fn keep_behind(node: &mut [u8], form: NodeForm, i: usize)
    requires { HasEntry form node.old i }
    ensures ok { Becomes form node.old node.new (right_of i) }
    ensures len { (said : Node) → node_in form node.old ≡ Some said
        → entries_len node.new (right_of i said) + front_len node.old (suc i) ≡ entries_len node.old said }
{
    let first = span_of(node, form, 0);
    let span = span_of(node, form, i);
    splice(node, first.at, span.behind, span.end, &[]);
}

/// Puts the entries of another node before its entry i in front of those of a node.
///
/// # Errors
///
/// `Full` where they do not fit. The node is then as before.
pub fn put_front(into: &mut [u8], form: NodeForm, from: &[u8], i: usize) -> Result<(), NodeNo>
    requires into { HasPlace form into.old 0 }
    requires from { HasPlace form from.now i }
    requires same { has_children into.old ≡ has_children from.now }
    ensures ok { OnOk result (PutsFront form into.old into.new from.now i) }
    ensures err { IfErr result (LacksRoomFor form into.old (front_len from.now i)) }
    ensures kept { OnErr result (into.new ≡ into.old) }
{
    let span = span_of(into, form, 0);
    let start = span_of(from, form, 0);
    let upto = span_of(from, form, i);
    let bytes = &from[start.at..upto.at];
    let free = room_end(into) - span.end;
    if bytes.len() > free {
        return Err(NodeNo::Full {
            need: bytes.len(),
            free,
        });
    }
    splice(into, span.at, span.at, span.end, bytes);
    Ok(())
}
