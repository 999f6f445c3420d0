//! The data of an entry of a view index.
//!
//! (Linux-NTFS documentation, "Index Entry" of a view index; Carrier, *File System Forensic Analysis*, chapter 13.)
ghost use Rattle.std.specs.Prelude.{◌≡◌, ◌≤◌, length};
ghost use Rattle.ntfs_def.specs.Node.{IsOwnEntry, child_len, has_child, item_in};
ghost use Rattle.ntfs_def.specs.ViewData.{item_data};
ghost use Rattle.ntfs_def.specs.declared.index.NodeForm.TheVariants.{View};

use tree_model::range;
use vol_bytes::u16_at;

// How many bytes at the end of an entry are the number of its child.
fn child_len(entry: &[u8]) -> usize
    requires { 16 ≤ length entry.now }
    ensures { result ≡ child_len (has_child entry.now 0) }
{
    if u16_at(entry, 0x0C) % 2 == 1 { 8 } else { 0 }
}

// The bytes of an entry behind its key, but for the number of its child.
#[tactic(auto, unfolding(ntfs_def::specs::Node::item_at))]
fn rest_in(entry: &[u8]) -> &[u8]
    requires { IsOwnEntry View entry.now }
    ensures { result.now ≡ (item_in entry.now).rest }
{
    let key = u16_at(entry, 0x0A) as usize;
    let len = u16_at(entry, 0x08) as usize;
    let child = child_len(entry);
    let end = len - child;
    &entry[16 + key..end]
}

/// The data of an entry, whose place and length stand at its bytes 0x00 and 0x02.
pub fn data_in(entry: &[u8]) -> &[u8]
    requires { IsOwnEntry View entry.now }
    ensures { result.now ≡ item_data (item_in entry.now) }
{
    let rest = rest_in(entry);
    let offset = u16_at(entry, 0x00);
    let len = u16_at(entry, 0x02);
    let key = u16_at(entry, 0x0A);
    let from = offset.saturating_sub(16).saturating_sub(key);
    range(rest, u64::from(from), u64::from(len))
}
