//! The root of an index, which grows and shrinks with its entries.
ghost use Rattle.std.specs.Prelude.{◌≡◌, ◌+◌, ◌-◌, ◌<◌, ◌≤◌, ℕ, List, IfSome, IsSome, OnOk, Some, length};
ghost use Rattle.vol_bytes.specs.Field.{SameOutside, u32_at};
ghost use Rattle.ntfs_def.specs.Node.{Node, has_children, node_in};
ghost use Rattle.index_node.specs.Edit.{EditsNode, EditsShort, HasLonger, HasPlace, IsLonger, IsOpened, entries_len, entry_in};
ghost use Rattle.index_node.specs.Edit.{with_entry_at, HoldsRoot, InsertsInRoot, IsDown, IsShortEntry, LeadsDown};

use crate::NodeView;
use crate::edit::{insert_at, put_front};
use crate::parts::new_record;
use crate::written::put_entry;
use ntfs_def::NodeForm;
use std::alloc::AllocError;
use vol_bytes::{put_u32, put_u64};

// Lets the room of a root end with it.
fn widen(root: &mut [u8])
    requires long { 0x20 ≤ length root.old }
    requires short { length root.old < 4096 }
    ensures len { length root.new ≡ length root.old }
    ensures room { u32_at root.new 0x18 ≡ length root.new - 0x10 }
    ensures rest { SameOutside root.old root.new 0x18 0x1C }
{
    let room = root.len() - 0x10;
    put_u32(root, 0x18, room as u32);
}

/// Puts an entry into a root before entry i, or behind all. The root grows by it, and its room ends with it.
///
/// # Errors
///
/// Where there is no memory for it.
pub fn insert_in_root(
    root: &mut Vec<u8>,
    form: NodeForm,
    i: usize,
    entry: &[u8],
) -> Result<(), AllocError>
    requires place { HasPlace form root.old.items i }
    requires entry { IsShortEntry form (has_children root.old.items) entry.now }
    requires short { length root.old.items ≤ 2048 }
    ensures { OnOk result (InsertsInRoot form root.old.items root.new.items i entry.now) }
{
    root.extend_from_slice(entry)?;
    put_wide(root.as_mut_slice(), form, i, entry);
    Ok(())
}

// Puts an entry into a root that was made longer by it.
fn put_wide(root: &mut [u8], form: NodeForm, i: usize, entry: &[u8])
    requires long { 0x20 ≤ length root.old }
    requires short { length root.old < 4096 }
    requires was { HasLonger form root.old i entry.now }
    ensures ok { (old : List ℕ) → IsLonger form root.old old i entry.now
        → EditsShort form old root.new (λ said. with_entry_at said i (entry_in entry.now)) }
    ensures node { (old : List ℕ) → IsLonger form root.old old i entry.now
        → EditsNode form old root.new (λ said. with_entry_at said i (entry_in entry.now)) }
    ensures len { length root.new ≡ length root.old }
{
    widen(root);
    let Ok(()) = insert_at(root, form, i, entry) else {
        unreachable!();
    };
}

/// A new record with the entries of a node, a root or an opened record; none only where the bytes are no node, or hold more
/// than a standard record does.
pub fn root_record(root: &[u8], form: NodeForm, vcn: u64) -> Option<[u8; 4096]>
    ensures holds { IfSome result (λ bytes. HoldsRoot form root.now bytes vcn) }
    ensures some { (said : Node) → node_in form root.now ≡ Some said → entries_len root.now said ≤ 4032 → IsSome result }
    ensures opened { (said : Node) → node_in form root.now ≡ Some said → (own : ℕ) → IsOpened own root.now → IsSome result }
    ensures short { (said : Node) → node_in form root.now ≡ Some said → length root.now ≤ 4064 → IsSome result }
{
    let Ok(view) = NodeView::new(root, form) else {
        return None;
    };
    let count = view.entries();
    let mut record = new_record(vcn, view.child(count));
    match put_front(&mut record, form, root, count) {
        Ok(()) => Some(record),
        Err(_) => None,
    }
}

// The header and the last entry of a root that leads to a record alone, whose number stands in the last eight bytes.
#[rattlefmt::skip]
const DOWN: [u8; 40] = [
    0x10, 0x00, 0x00, 0x00, 0x28, 0x00, 0x00, 0x00, 0x28, 0x00, 0x00, 0x00, 0x01, 0, 0, 0,
    0, 0, 0, 0, 0, 0, 0, 0, 0x18, 0x00, 0x00, 0x00, 0x03, 0x00, 0, 0,
    0, 0, 0, 0, 0, 0, 0, 0,
];

// Lets the bytes of a root, of which the first sixteen stay, lead to this record alone.
fn lead_down(root: &mut [u8], vcn: u64)
    requires { length root.old ≡ 56 }
    ensures { IsDown root.new vcn }
{
    put_entry(root, 16, &DOWN);
    put_u64(root, 0x30, vcn);
}

/// Takes all entries out of a root, and lets it lead to this record. Of its bytes the first sixteen stay.
///
/// # Errors
///
/// Where the root has fewer bytes than such a root has, and there is no memory for them.
pub fn empty_root(root: &mut Vec<u8>, form: NodeForm, vcn: u64) -> Result<(), AllocError>
    ensures { OnOk result (LeadsDown form root.new.items vcn) }
{
    root.resize(56, 0)?;
    lead_down(root.as_mut_slice(), vcn);
    Ok(())
}
