//! The value of a root that grows by an entry.
ghost use Rattle.std.specs.Prelude.{◌≡◌, ◌-◌, ◌<◌, ◌≤◌, ℕ, List, OnOk, false, length, slice_index};
ghost use Rattle.vol_bytes.specs.Field.{SameOutside, u32_at};
ghost use Rattle.ntfs_def.specs.Node.{has_children};
ghost use Rattle.ntfs_def.specs.declared.index.NodeForm.TheVariants.{Names};
ghost use Rattle.index_node.specs.Edit.{EditsShort, HasLonger, HasPlace, IsLonger, IsShortEntry, entry_in, with_entry_at};
ghost use Rattle.index_puts.specs.PutsRoot.{GrowsRoot};

use index_node::insert_at;
use ntfs_def::{NodeForm, index_record, index_root};
use std::alloc::AllocError;
use vol_bytes::put_u32;

// Lets the room of a root end with it.
fn widen(root: &mut [u8])
    requires long { 0x20 ≤ length root.old }
    requires short { length root.old < 4096 }
    ensures len { length root.new ≡ length root.old }
    ensures room { u32_at root.new 0x18 ≡ length root.new - 0x10 }
    ensures rest { SameOutside root.old root.new 0x18 0x1C }
{
    let room = root.len() - index_root::HEADER;
    put_u32(
        root,
        index_root::HEADER + index_record::ROOM_END,
        room as u32,
    );
}

// Puts an entry into a root that was made longer by it.
fn put_wide(root: &mut [u8], place: usize, entry: &[u8])
    requires long { 0x20 ≤ length root.old }
    requires short { length root.old < 4096 }
    requires was { HasLonger Names root.old place entry.now }
    ensures ok { (old : List ℕ) → IsLonger Names root.old old place entry.now
        → EditsShort Names old root.new (λ said. with_entry_at said place (entry_in entry.now)) }
    ensures len { length root.new ≡ length root.old }
    ensures head { (k : ℕ) → k < 16 → slice_index root.new k ≡ slice_index root.old k }
{
    widen(root);
    let Ok(()) = insert_at(root, NodeForm::Names, place, entry) else {
        unreachable!();
    };
}

// Puts an entry, which leads to no child, into a root before an entry, or behind all. The root grows by it, and its room ends with it;
// the fields in front of its node stay.
pub fn grow_root(root: &mut Vec<u8>, place: usize, entry: &[u8]) -> Result<(), AllocError>
    requires place { HasPlace Names root.old.items place }
    requires leaf { has_children root.old.items ≡ false }
    requires entry { IsShortEntry Names false entry.now }
    requires short { length root.old.items ≤ 2048 }
    ensures { OnOk result (GrowsRoot root.old.items root.new.items place entry.now) }
{
    root.extend_from_slice(entry)?;
    put_wide(root.as_mut_slice(), place, entry);
    Ok(())
}
