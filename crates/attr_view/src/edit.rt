//! The bytes of a record that an edit moves and writes.
ghost use Rattle.std.specs.Prelude.{◌≡◌, ◌<◌, ◌≤◌, ◌+◌, ℕ, length, slice_index};
ghost use Rattle.ntfs_def.specs.Record.{used_size};
ghost use Rattle.attr_view.specs.Edit.{IsInsertedAt, IsRemovedAt, PutsFields, next_id_after};
ghost use Rattle.attr_view.specs.Sizes.{PutsSizes};
ghost use Rattle.attr_view.specs.Values.{PutsBytes};

use crate::RecordHeader;
use ntfs_def::{attribute_header, record_header};
use vol_bytes::{put_u16, put_u32, put_u64, u16_at, u32_at};

/// Moves the bytes from `from` up to `used` to `to`, before or behind where they stand.
pub fn move_bytes(block: &mut [u8], from: usize, used: usize, to: usize)
    requires order { from ≤ used }
    requires inside { used ≤ length block.old }
    requires fits { to + used ≤ length block.old + from }
    ensures len { length block.new ≡ length block.old }
    ensures before { (k : ℕ) → k < to → slice_index block.new k ≡ slice_index block.old k }
    ensures moved { (i j : ℕ) → from ≤ i → i < used → j + from ≡ i + to
        → slice_index block.new j ≡ slice_index block.old i }
    ensures behind { (k : ℕ) → to + used ≤ k + from → slice_index block.new k ≡ slice_index block.old k }
{
    block.copy_within(from..used, to);
}

/// Puts the bytes there.
pub fn put_bytes(block: &mut [u8], at: usize, bytes: &[u8])
    requires { at + length bytes.now ≤ length block.old }
    ensures { PutsBytes block.old block.new bytes.now at }
{
    block[at..at + bytes.len()].copy_from_slice(bytes);
}

// The next attribute id, behind an attribute with this one.
fn next_id_after(next: u16, id: u16) -> u16
    ensures { result ≡ next_id_after next id }
{
    if id == next {
        next.saturating_add(1)
    } else {
        next
    }
}

// Puts an attribute at `at`, and moves what stands from there on behind it.
pub fn insert_bytes(block: &mut [u8], at: usize, bytes: &[u8])
    requires all { length block.old ≡ 1024 }
    requires low { 0x38 ≤ at }
    requires order { at ≤ used_size block.old }
    requires header { 24 ≤ length bytes.now }
    requires fits { used_size block.old + length bytes.now ≤ 1024 }
    ensures { IsInsertedAt block.old block.new bytes.now at }
{
    let used = u32_at(block, record_header::USED_SIZE) as usize;
    let next = next_id_after(
        u16_at(block, record_header::NEXT_ID),
        u16_at(bytes, attribute_header::ID),
    );
    move_bytes(block, at, used, at + bytes.len());
    put_bytes(block, at, bytes);
    put_u32(block, record_header::USED_SIZE, (used + bytes.len()) as u32);
    put_u16(block, record_header::NEXT_ID, next);
}

/// Takes so many bytes at `at` out, and moves what stands behind them in their place.
pub fn remove_bytes(block: &mut [u8], at: usize, gone: usize)
    requires all { length block.old ≡ 1024 }
    requires low { 0x38 ≤ at }
    requires inside { at + gone ≤ used_size block.old }
    requires used { used_size block.old ≤ 1024 }
    ensures { IsRemovedAt block.old block.new at gone }
{
    let used = u32_at(block, record_header::USED_SIZE) as usize;
    move_bytes(block, at + gone, used, at);
    put_u32(block, record_header::USED_SIZE, (used - gone) as u32);
}

// Puts the fields of the header that an owner chooses.
pub fn put_header(block: &mut [u8], header: RecordHeader)
    requires { length block.old ≡ 1024 }
    ensures { PutsFields block.old block.new header }
{
    put_u16(block, record_header::SEQUENCE, header.sequence);
    put_u16(block, record_header::LINKS, header.links);
    put_u16(block, record_header::FLAGS, header.flags);
    put_u64(block, record_header::BASE, header.base);
}

// Puts the real and the initialized size of the non-resident attribute at `at`.
pub fn put_sizes(block: &mut [u8], at: usize, real: u64, initialized: u64)
    requires { at + 64 ≤ length block.old }
    ensures { PutsSizes block.old block.new at real initialized }
{
    put_u64(block, at + attribute_header::REAL, real);
    put_u64(block, at + attribute_header::INITIALIZED, initialized);
}
