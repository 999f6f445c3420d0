//! The value of a root that shrinks by an entry.
ghost use Rattle.std.specs.Prelude.{◌≡◌, ◌+◌, ◌-◌, ◌<◌, ◌≤◌, List, Some, false, length, slice_index_or, take};
ghost use Rattle.vol_bytes.specs.Field.{SameOutside, u32_at};
ghost use Rattle.ntfs_def.specs.Node.{Entry, Node, has_children, node_in};
ghost use Rattle.ntfs_def.specs.declared.index.NodeForm.TheVariants.{Names};
ghost use Rattle.index_node.specs.Edit.{HasEntry, item_len};
ghost use Rattle.index_takes.specs.ShrinksRoot.{ShrinksRoot};

use index_node::{NodeView, remove_at};
use ntfs_def::{NodeForm, index_record, index_root};
use vol_bytes::{put_u32, u32_at};

// The bytes of an entry of a root that leads to no record.
fn entry_len(root: &[u8], place: usize) -> usize
    requires entry { HasEntry Names root.now place }
    requires leaf { has_children root.now ≡ false }
    ensures { (said : Node) → node_in Names root.now ≡ Some said
        → (d : Entry) → result ≡ item_len (slice_index_or said.entries place d).item }
{
    let Ok(node) = NodeView::new(root, NodeForm::Names) else {
        unreachable!();
    };
    node.entry(place).len()
}

// Says in the header of a root how many bytes its entries take, with the header of the node, and how many there are for them.
fn tighten(root: &mut [u8], used: usize, room: usize)
    requires long { 0x20 ≤ length root.old }
    requires used { used < 4096 }
    requires room { room < 4096 }
    ensures len { length root.new ≡ length root.old }
    ensures used { u32_at root.new 0x14 ≡ used }
    ensures room { u32_at root.new 0x18 ≡ room }
    ensures rest { SameOutside root.old root.new 0x14 0x1C }
{
    put_u32(
        root,
        index_root::HEADER + index_record::ENTRIES_END,
        used as u32,
    );
    put_u32(
        root,
        index_root::HEADER + index_record::ROOM_END,
        room as u32,
    );
}

// Takes an entry out of a root, and gives how many of its first bytes are the root then.
fn take_from_root(root: &mut [u8], place: usize) -> usize
    requires entry { HasEntry Names root.old place }
    requires leaf { has_children root.old ≡ false }
    requires short { length root.old ≤ 2048 }
    ensures shrinks { ShrinksRoot root.old (take result root.new) place }
    ensures len { length root.new ≡ length root.old }
{
    let len = entry_len(root, place);
    let used = u32_at(root, index_root::HEADER + index_record::ENTRIES_END) as usize - len;
    let short = root.len() - len;
    remove_at(root, NodeForm::Names, place);
    tighten(root, used, short - index_root::HEADER);
    short
}

/// Takes an entry out of a root that leads to no record. The root is shorter by it, and its room ends with it; the fields in front of
/// its node stay.
pub fn shrink_root(root: &mut Vec<u8>, place: usize)
    requires entry { HasEntry Names root.old.items place }
    requires leaf { has_children root.old.items ≡ false }
    requires short { length root.old.items ≤ 2048 }
    ensures { ShrinksRoot root.old.items root.new.items place }
{
    let short = take_from_root(root.as_mut_slice(), place);
    root.truncate(short);
}
