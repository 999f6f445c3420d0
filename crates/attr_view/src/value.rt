//! The bytes of a resident attribute that is given another length.
ghost use Rattle.std.specs.Prelude.{◌≡◌, ◌<◌, ◌≤◌, ◌+◌, ℕ, length, slice_index};
ghost use Rattle.vol_bytes.specs.Field.{SameOutside};
ghost use Rattle.ntfs_def.specs.Attribute.{attribute_len};
ghost use Rattle.ntfs_def.specs.Record.{used_size};
ghost use Rattle.attr_view.specs.Values.{IsResizedAt, name_begin, resized_len, value_begin};

use crate::edit::move_bytes;
use ntfs_def::{attribute_header, record_header};
use vol_bytes::{put_u16, put_u32, u16_at, u32_at};

/// Where the value of the attribute at `at` begins once it is given a length.
pub fn value_begin(block: &[u8], at: usize) -> usize
    requires { at + 24 ≤ length block.now }
    ensures begin { result ≡ value_begin block.now at }
    ensures small { result < 65536 }
{
    let begin = u16_at(block, at + attribute_header::VALUE_OFFSET) as usize;
    begin.max(attribute_header::RESIDENT_LEN)
}

/// The bytes of an attribute whose value begins there and has n bytes.
pub fn resized_len(begin: usize, n: usize) -> usize
    requires begin { begin < 65536 }
    requires most { n ≤ 65536 }
    ensures { result ≡ resized_len begin n }
{
    (begin + n + 7) / 8 * 8
}

// Where the name of such an attribute begins.
fn name_begin(block: &[u8], at: usize) -> u16
    requires { at + 24 ≤ length block.now }
    ensures { result ≡ name_begin block.now at }
{
    let begin = u16_at(block, at + attribute_header::NAME_OFFSET);
    if block[at + attribute_header::NAME_LEN] == 0 {
        begin.min(attribute_header::RESIDENT_LEN as u16)
    } else {
        begin
    }
}

// Makes the bytes from `from` up to `to` zero.
fn clear(block: &mut [u8], from: usize, to: usize)
    requires order { from ≤ to }
    requires fits { to ≤ length block.old }
    ensures zeros { (k : ℕ) → from ≤ k → k < to → slice_index block.new k ≡ 0 }
    ensures rest { SameOutside block.old block.new from to }
{
    block[from..to].fill(0);
}

/// Gives the value of the attribute at `at` the length n, in `len` bytes of attribute.
pub fn resize_bytes(block: &mut [u8], at: usize, len: usize, n: usize)
    requires all { length block.old ≡ 1024 }
    requires low { 0x38 ≤ at }
    requires used { used_size block.old ≤ 1024 }
    requires header { 24 ≤ attribute_len block.old at }
    requires inside { at + attribute_len block.old at ≤ used_size block.old }
    requires size { value_begin block.old at + n ≤ len }
    requires fits { used_size block.old + len ≤ 1024 + attribute_len block.old at }
    ensures { IsResizedAt block.old block.new at len n }
{
    let was = u32_at(block, at + attribute_header::LEN) as usize;
    let had = u32_at(block, at + attribute_header::VALUE_LEN) as usize;
    let used = u32_at(block, record_header::USED_SIZE) as usize;
    let begin = value_begin(block, at);
    let name = name_begin(block, at);
    move_bytes(block, at + was, used, at + len);
    clear(block, at + begin + had.min(n), at + len);
    put_u32(block, at + attribute_header::LEN, len as u32);
    put_u16(block, at + attribute_header::NAME_OFFSET, name);
    put_u32(block, at + attribute_header::VALUE_LEN, n as u32);
    put_u16(block, at + attribute_header::VALUE_OFFSET, begin as u16);
    put_u32(block, record_header::USED_SIZE, (used - was + len) as u32);
}
