//! A node is split into itself and a node without keys, in the bytes of both.
ghost use Rattle.std.specs.Prelude.{◌≡◌, ◌++◌, ◌-◌, Some, drop, length, suc, take, true};
ghost use Rattle.ntfs_def.specs.Node.{Node, entries_end, has_children, node_in};
ghost use Rattle.index_node.specs.Edit.{Becomes, FitsBehind, HasEntry, HasPlace, HasSpan, IsKeyless, TakesBehind, leading};
ghost use Rattle.index_node.specs.Edit.{left_of, without_from};
ghost use Rattle.index_node.specs.LayOut.{room_len};
ghost use Rattle.index_node.specs.Pieces.{EditsPieces, LeadsPiece};

use crate::NodeView;
use crate::edit::{Span, span_of, splice};
use crate::view::whole_view;
use ntfs_def::NodeForm;
use vol_bytes::put_u64;

// The span of the last entry.
fn last_span_of(node: &[u8], form: NodeForm) -> Span
    requires { HasPlace form node.now 0 }
    ensures { (said : Node) → node_in form node.now ≡ Some said
        → HasSpan form node.now (length said.entries) result.at result.behind result.end }
{
    match whole_view(node, form) {
        Ok(whole) => whole.span(whole.entries()),
        Err(_) => unreachable!(),
    }
}

// Puts the entries of another node behind its entry i, the last one too, in place of those of a node.
fn put_behind(into: &mut [u8], form: NodeForm, from: &[u8], i: usize)
    requires into { HasPlace form into.old 0 }
    requires from { HasEntry form from.now i }
    requires same { has_children into.old ≡ has_children from.now }
    requires fits { FitsBehind form from.now i (room_len into.old) }
    ensures ok { TakesBehind form into.old into.new from.now i }
    ensures pieces { EditsPieces form from.now into.new (λ before now. now ≡ drop (suc i) before) }
{
    let place = span_of(into, form, 0);
    let span = span_of(from, form, i);
    let bytes = &from[span.behind..span.end];
    splice(into, place.at, place.end, place.end, bytes);
}

// Takes the entries from entry i on out; the last one, which has no key, stays.
fn cut_from(node: &mut [u8], form: NodeForm, i: usize)
    requires { HasPlace form node.old i }
    ensures ok { Becomes form node.old node.new (without_from i) }
    ensures pieces { EditsPieces form node.old node.new (λ before now. now ≡ take i before ++ drop (length before - 1) before) }
{
    let span = span_of(node, form, i);
    let last = last_span_of(node, form);
    splice(node, span.at, last.at, span.end, &[]);
}

// Lets place i lead to another child. The entries end where they did.
fn lead_at(node: &mut [u8], form: NodeForm, i: usize, vcn: u64)
    requires place { HasPlace form node.old i }
    requires children { has_children node.old ≡ true }
    ensures led { Becomes form node.old node.new (λ said. leading said i (Some vcn)) }
    ensures pieces { EditsPieces form node.old node.new (LeadsPiece i) }
    ensures used { entries_end node.new ≡ entries_end node.old }
{
    let span = span_of(node, form, i);
    put_u64(node, span.behind - 8, vcn);
}

// Keeps the entries before entry i, and the last one, which leads where entry i led.
fn keep_before(node: &mut [u8], form: NodeForm, i: usize)
    requires { HasEntry form node.old i }
    ensures ok { Becomes form node.old node.new (left_of i) }
    ensures pieces { EditsPieces form node.old node.new (λ before now.
        LeadsPiece i (take i before ++ drop (length before - 1) before) now) }
{
    let below = match NodeView::new(node, form) {
        Ok(view) => view.child(i),
        Err(_) => unreachable!(),
    };
    cut_from(node, form, i);
    if let Some(vcn) = below {
        lead_at(node, form, i, vcn);
    }
}

// Splits a node at entry i: what stands before it stays, and what stands behind it goes into a node without keys.
pub fn split_into(node: &mut [u8], form: NodeForm, right: &mut [u8], i: usize)
    requires entry { HasEntry form node.old i }
    requires keyless { IsKeyless form right.old }
    requires same { has_children right.old ≡ has_children node.old }
    requires fits { FitsBehind form node.old i (room_len right.old) }
    ensures left { Becomes form node.old node.new (left_of i) }
    ensures right { TakesBehind form right.old right.new node.old i }
    ensures left_pieces { EditsPieces form node.old node.new (λ before now.
        LeadsPiece i (take i before ++ drop (length before - 1) before) now) }
    ensures right_pieces { EditsPieces form node.old right.new (λ before now. now ≡ drop (suc i) before) }
{
    put_behind(right, form, node, i);
    keep_before(node, form, i);
}
