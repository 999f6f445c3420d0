//! The entry of a new file in its directory.
ghost use Rattle.std.specs.Prelude.{◌≡◌, ◌+◌, ◌<◌, ◌≤◌, ℕ, IfOk, length, slice_index};
ghost use Rattle.vol_bytes.specs.Field.{SameOutside};
ghost use Rattle.ntfs_def.specs.Rounded.{up_to_8};
ghost use Rattle.file_makes.specs.NewBytes.{IsPlainEntry};

use ntfs_def::index_record::{ENTRY_LEN, KEY, KEY_LEN};
use record_bytes::up_to_8;
use std::alloc::{AllocError, Global};
use vol_bytes::{put_u16, put_u64};

// The most bytes of such an entry.
const MOST: usize = 592;

// Puts bytes over others, from byte `at` on.
fn put_over(bytes: &mut [u8], at: usize, piece: &[u8])
    requires { at + length piece.now ≤ length bytes.old }
    ensures here { (j : ℕ) → j < length piece.now → slice_index bytes.new (at + j) ≡ slice_index piece.now j }
    ensures rest { SameOutside bytes.old bytes.new at (at + length piece.now) }
{
    bytes[at..at + piece.len()].copy_from_slice(piece);
}

// Lets bytes that are 0 be the entry of this key.
fn put_entry(entry: &mut [u8], file: u64, key: &[u8])
    requires few { length key.now ≤ 576 }
    requires len { length entry.old ≡ up_to_8 (KEY + length key.now) }
    requires zeros { (k : ℕ) → slice_index entry.old k ≡ 0 }
    ensures { IsPlainEntry file key.now entry.new }
{
    let len = entry.len() as u16;
    put_over(entry, KEY, key);
    put_u64(entry, 0, file);
    put_u16(entry, ENTRY_LEN, len);
    put_u16(entry, KEY_LEN, key.len() as u16);
}

/// The entry of a directory with this key, for the file of this reference. It leads to no child.
///
/// # Errors
///
/// Want of memory alone.
pub fn new_entry(alloc: Global, file: u64, key: &[u8]) -> Result<Vec<u8>, AllocError>
    requires { length key.now ≤ 576 }
    ensures { IfOk result (λ entry. IsPlainEntry file key.now entry.items) }
{
    let mut room = [0; MOST];
    let entry = &mut room[..up_to_8(KEY + key.len())];
    put_entry(entry, file, key);
    Vec::from_slice(alloc, entry)
}
