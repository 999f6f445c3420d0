//! The parts of a node that is split, and new nodes.
ghost use Rattle.std.specs.Prelude.{◌≡◌, ◌↔◌, ◌*◌, ◌+◌, ◌-◌, ◌<◌, ◌≤◌, [], Bool, IfNone, IfOk, IfSome, IsSome, IsTrue, OnErr, OnOk};
ghost use Rattle.std.specs.Prelude.{Option, None, Some, is_some, length, remove, suc, take, true};
ghost use Rattle.ntfs_def.specs.Node.{Node, child_len, has_child, has_children, is_one_entry, most_len, node_in, short_node};
ghost use Rattle.ntfs_def.specs.declared.index.NodeForm.{NodeForm};
ghost use Rattle.index_node.specs.Edit.{Becomes, Turns, BeginsWith, child_of_node, leading, without_entry, HasEntry, HasPlace};
ghost use Rattle.index_node.specs.Edit.{IsMiddle, IsOpened, IsShortEntry, LacksMiddle, LeadsBytes, LeadsTo, IsCrowded, SplitsWith};
ghost use Rattle.index_node.specs.Edit.{entries_len, front_len, right_of};
ghost use Rattle.index_node.specs.LayOut.{room_len};
ghost use Rattle.index_node.specs.Pieces.{EditsPieces, LeadsPiece};

use crate::edit::{insert_at, keep_behind, put_front, remove_at, span_of};
use crate::view::whole_view;
use crate::written::put_entry;
use crate::{NodeNo, NodeView};
use ntfs_def::{NodeForm, index_record};
use std::alloc::{AllocError, Global};
use vol_bytes::{Octets, put_u16, put_u64, u16_at};

// What a record without a key begins with: a leaf, and a node above. Its number stands at 0x10, a child's at 0x50.
#[rattlefmt::skip]
const LEAF: [u8; 88] = [
    0x49, 0x4E, 0x44, 0x58, 0x28, 0x00, 0x09, 0x00, 0, 0, 0, 0, 0, 0, 0, 0,
    0, 0, 0, 0, 0, 0, 0, 0, 0x28, 0x00, 0x00, 0x00, 0x38, 0x00, 0x00, 0x00,
    0xE8, 0x0F, 0x00, 0x00, 0x00, 0, 0, 0, 0, 0, 0, 0, 0, 0, 0, 0,
    0, 0, 0, 0, 0, 0, 0, 0, 0, 0, 0, 0, 0, 0, 0, 0,
    0, 0, 0, 0, 0, 0, 0, 0, 0x10, 0x00, 0x00, 0x00, 0x02, 0x00, 0, 0,
    0, 0, 0, 0, 0, 0, 0, 0,
];

#[rattlefmt::skip]
const ABOVE: [u8; 88] = [
    0x49, 0x4E, 0x44, 0x58, 0x28, 0x00, 0x09, 0x00, 0, 0, 0, 0, 0, 0, 0, 0,
    0, 0, 0, 0, 0, 0, 0, 0, 0x28, 0x00, 0x00, 0x00, 0x40, 0x00, 0x00, 0x00,
    0xE8, 0x0F, 0x00, 0x00, 0x01, 0, 0, 0, 0, 0, 0, 0, 0, 0, 0, 0,
    0, 0, 0, 0, 0, 0, 0, 0, 0, 0, 0, 0, 0, 0, 0, 0,
    0, 0, 0, 0, 0, 0, 0, 0, 0x18, 0x00, 0x00, 0x00, 0x03, 0x00, 0, 0,
    0, 0, 0, 0, 0, 0, 0, 0,
];

// A block that begins so, under this number.
fn begin_with(start: &[u8; 88], vcn: u64) -> [u8; 4096]
    ensures { BeginsWith result start.now vcn }
{
    let mut record = [0; 4096];
    put_entry(&mut record, 0, start);
    put_u64(&mut record, 0x10, vcn);
    record
}

/// A new record of this number: a node without a key, whose last entry leads to this child.
pub fn new_record(vcn: u64, child: Option<u64>) -> [u8; 4096]
    ensures opened { IsOpened vcn result }
    ensures node { (form : NodeForm) → short_node form result ≡ Some (record { entries = []; last = child }) }
    ensures children { has_children result ≡ is_some child }
    ensures len { entries_len result (record { entries = []; last = child }) ≡ 16 + child_len (is_some child) }
    ensures room { room_len result ≡ 4032 }
{
    match child {
        None => begin_with(&LEAF, vcn),
        Some(child) => {
            let mut record = begin_with(&ABOVE, vcn);
            put_u64(&mut record, 0x50, child);
            record
        }
    }
}

/// The entry that has the middle byte of the entries; `None` where the last entry has it, which has no key.
pub fn middle_of(node: &[u8], form: NodeForm) -> Option<usize>
    ensures middle { IfSome result (IsMiddle form node.now) }
    ensures none { IfNone result (LacksMiddle form node.now) }
{
    let Ok(whole) = whole_view(node, form) else {
        return None;
    };
    let first = whole.span(0).at;
    for i in 0..whole.entries() {
        let span = whole.span(i);
        if span.end - span.behind <= span.behind - first {
            return Some(i);
        }
    }
    None
}

/// Lets bytes that began with those of an entry lead to a child, which stands in their last eight.
pub fn lead_to(bytes: &mut [u8], base: usize, vcn: u64)
    requires len { length bytes.old ≡ base + 8 }
    requires low { 16 ≤ base }
    requires short { base ≤ 632 }
    ensures { LeadsBytes bytes.old bytes.new base vcn }
{
    let flags = u16_at(bytes, index_record::ENTRY_FLAGS) / 2 * 2 + 1;
    put_u16(bytes, index_record::ENTRY_LEN, (base + 8) as u16);
    put_u16(bytes, index_record::ENTRY_FLAGS, flags);
    put_u64(bytes, base, vcn);
}

/// The bytes of an entry before its child's number, if it has one.
pub fn base_len(entry: &[u8]) -> usize
    requires { 16 + child_len (has_child entry.now 0) ≤ length entry.now }
    ensures { result + child_len (has_child entry.now 0) ≡ length entry.now }
{
    if u16_at(entry, index_record::ENTRY_FLAGS) % 2 == 1 {
        entry.len() - 8
    } else {
        entry.len()
    }
}

/// The entry with this child in place of the one that it has, or beside all that it has; none exactly where the entry is
/// longer than one in an index of a volume may be.
///
/// # Errors
///
/// Where there is no memory.
pub fn with_child(
    alloc: Global,
    form: NodeForm,
    entry: &[u8],
    vcn: u64,
) -> Result<Option<Octets>, AllocError>
    requires { IsTrue (is_one_entry form (has_child entry.now 0) entry.now) }
    ensures leads { IfOk result (λ up. IfSome up (LeadsTo form entry.now vcn)) }
    ensures some { IfOk result (λ up. IsSome up ↔ (length entry.now ≤ most_len (has_child entry.now 0))) }
{
    let base = base_len(entry);
    if base > 632 {
        return Ok(None);
    }
    let mut bytes = Vec::from_slice(alloc, &entry[..base])?;
    bytes.extend_from_slice(&[0; 8])?;
    lead_to(&mut bytes, base, vcn);
    Ok(Some(Octets::from_vec(bytes)))
}

// Splits a node at entry m: what stands behind it stays, and what stands before it goes into a new record, with `below` as
// the child of its last entry.
fn part_at(
    node: &mut [u8; 4096],
    form: NodeForm,
    m: usize,
    vcn: u64,
    below: Option<u64>,
    left: &mut [u8; 4096],
)
    requires entry { HasEntry form node.old m }
    requires short { front_len node.old m ≤ 4008 }
    requires below { is_some below ≡ has_children node.old }
    ensures right { Becomes form node.old node.new (right_of m) }
    ensures right_len { (said : Node) → node_in form node.old ≡ Some said
        → entries_len node.new (right_of m said) + front_len node.old (suc m) ≡ entries_len node.old said }
    ensures left { (said : Node) → node_in form node.old ≡ Some said
        → node_in form left.new ≡ Some (record { entries = take m said.entries; last = below }) }
    ensures left_short { (said : Node) → short_node form node.old ≡ Some said
        → short_node form left.new ≡ Some (record { entries = take m said.entries; last = below }) }
    ensures left_len { (said : Node) → node_in form node.old ≡ Some said
        → (front_len node.old m ≤ entries_len left.new (record { entries = take m said.entries; last = below }))
        × (entries_len left.new (record { entries = take m said.entries; last = below }) ≤ front_len node.old m + 24) }
    ensures left_room { room_len left.new ≡ 4032 }
    ensures left_children { has_children left.new ≡ has_children node.old }
    ensures left_opened { IsOpened vcn left.new }
{
    *left = new_record(vcn, below);
    let Ok(()) = put_front(left, form, node, m) else {
        unreachable!();
    };
    keep_behind(node, form, m);
}

/// Splits a node that an entry does not fit into, and puts the entry into one of the parts, by its place in the whole. What
/// stands behind the middle stays; what stands before it goes into a new record of this number, which `left` has then. The
/// entry in the middle is given, to go up. There is one, and both parts have room, where the node is a standard record of
/// short entries that has no room for the entry; elsewhere there may be none, and what the parts are then is not told.
///
/// # Errors
///
/// Where there is no memory.
pub fn split_with(
    alloc: Global,
    node: &mut [u8; 4096],
    form: NodeForm,
    vcn: u64,
    i: usize,
    entry: &[u8],
    left: &mut [u8; 4096],
) -> Result<Option<Octets>, AllocError>
    requires place { HasPlace form node.old i }
    requires entry { IsShortEntry form (has_children node.old) entry.now }
    ensures split { IfOk result (λ out. IfSome out (SplitsWith form node.old node.new left.new vcn i entry.now)) }
    ensures some { IfOk result (λ out. IsCrowded form node.old (length entry.now) → IsSome out) }
{
    let Some(m) = middle_of(node, form) else {
        return Ok(None);
    };
    let Ok(view) = NodeView::new(node, form) else {
        return Ok(None);
    };
    let below = view.child(m);
    let Some(out) = with_child(alloc, form, view.entry(m), vcn)? else {
        return Ok(None);
    };
    part_at(node, form, m, vcn, below, left);
    let put = if i <= m {
        insert_at(left, form, i, entry)
    } else {
        insert_at(node, form, i - m - 1, entry)
    };
    match put {
        Ok(()) => Ok(Some(out)),
        Err(_) => Ok(None),
    }
}

/// Lets place i lead to another child.
pub fn set_child(node: &mut [u8], form: NodeForm, i: usize, vcn: u64)
    requires place { HasPlace form node.old i }
    requires children { has_children node.old ≡ true }
    ensures ok { Becomes form node.old node.new (λ said. leading said i (Some vcn)) }
    ensures pieces { EditsPieces form node.old node.new (LeadsPiece i) }
{
    let span = span_of(node, form, i);
    put_u64(node, span.behind - 8, vcn);
}

/// Takes entry i out, and lets its place lead to the child that it led to.
pub fn join_at(node: &mut [u8], form: NodeForm, i: usize)
    requires { HasEntry form node.old i }
    ensures ok { Turns form node.old node.new (λ said. leading (without_entry said i) i (child_of_node said i)) }
    ensures pieces { EditsPieces form node.old node.new (λ before now. LeadsPiece i (remove before i) now) }
{
    let below = child_of(node, form, i);
    remove_at(node, form, i);
    if let Some(vcn) = below {
        set_child(node, form, i, vcn);
    }
}

// The child that entry i leads to. Where there is none, the place behind it leads to none either.
fn child_of(node: &[u8], form: NodeForm, i: usize) -> Option<u64>
    requires { HasEntry form node.now i }
    ensures child { (said : Node) → node_in form node.now ≡ Some said → result ≡ child_of_node said i }
    ensures children { is_some result ≡ has_children node.now }
    ensures none { IfNone result ((said : Node) → node_in form node.now ≡ Some said
        → leading (without_entry said i) i (child_of_node said i) ≡ without_entry said i) }
{
    match NodeView::new(node, form) {
        Ok(view) => view.child(i),
        Err(_) => unreachable!(),
    }
}
