//! The value of the `$FILE_NAME` of a new file, which is the key of its entry too.
ghost use Rattle.std.specs.Prelude.{◌≡◌, ◌+◌, ◌*◌, ◌<◌, ◌≤◌, ◌∷◌, ℕ, [], IfOk, length, slice_index};
ghost use Rattle.vol_bytes.specs.Field.{SameOutside, u16_at, u32_at, u64_at};
ghost use Rattle.made_edits.specs.Comes.{name_flags};
ghost use Rattle.file_makes.specs.NewBytes.{IsPlainKey};

use crate::standard::ARCHIVE;
use crate::times::put_moment;
use ntfs_def::file_name::{FLAGS, PARENT, TIMES, UNITS, UNITS_LEN};
use std::alloc::{AllocError, Global};
use vol_bytes::{put_u16, put_u32, put_u64};

/// The most bytes of the value of a `$FILE_NAME`: its name has 255 units at most.
pub const MOST: usize = 576;

// The flag of a name that tells a directory.
const DIRECTORY: u32 = 0x1000_0000;

// The flags that the name of a new file tells: its DOS flags, or that it is a directory.
fn name_flags(directory: bool) -> u32
    ensures { result ≡ name_flags directory }
{
    if directory { DIRECTORY } else { ARCHIVE }
}

// Writes what a new name tells before its units into bytes that are 0.
fn put_front(key: &mut [u8], parent: u64, units: u8, directory: bool, moment: u64)
    requires { UNITS ≤ length key.old }
    ensures parent { u64_at key.new 0x00 ≡ parent }
    ensures times { u64_at key.new 0x08 ∷ u64_at key.new 0x10 ∷ u64_at key.new 0x18 ∷ u64_at key.new 0x20 ∷ []
        ≡ moment ∷ moment ∷ moment ∷ moment ∷ [] }
    ensures flags { u32_at key.new 0x38 ≡ name_flags directory }
    ensures units { slice_index key.new 0x40 ≡ units }
    ensures sizes { (k : ℕ) → 0x28 ≤ k → k < 0x38 → slice_index key.new k ≡ slice_index key.old k }
    ensures last { (k : ℕ) → 0x3C ≤ k → k < 0x40 → slice_index key.new k ≡ slice_index key.old k }
    ensures space { slice_index key.new 0x41 ≡ slice_index key.old 0x41 }
    ensures len { length key.new ≡ length key.old }
{
    put_u64(key, PARENT, parent);
    put_moment(key, TIMES, moment);
    put_u32(key, FLAGS, name_flags(directory));
    key[UNITS_LEN] = units;
}

// Writes the units of a name behind its other fields.
fn put_units(key: &mut [u8], name: &[u16])
    requires { UNITS + 2 * length name.now ≤ length key.old }
    ensures units { (k : ℕ) → k < length name.now → u16_at key.new (UNITS + 2 * k) ≡ slice_index name.now k }
    ensures rest { SameOutside key.old key.new UNITS (UNITS + 2 * length name.now) }
{
    'units: for k in 0..name.len() {
        put_u16(key, UNITS + 2 * k, name[k]);
    }
}

// Lets bytes that are 0 be the value of the `$FILE_NAME` of a new file.
fn put_key(key: &mut [u8], parent: u64, name: &[u16], directory: bool, moment: u64)
    requires some { 1 ≤ length name.now }
    requires few { length name.now ≤ 255 }
    requires len { length key.old ≡ UNITS + 2 * length name.now }
    requires zeros { (k : ℕ) → slice_index key.old k ≡ 0 }
    ensures { IsPlainKey directory parent name.now moment key.new }
{
    put_front(key, parent, name.len() as u8, directory, moment);
    put_units(key, name);
}

/// The value of the `$FILE_NAME` of a new file, or of a new directory: a plain name in the directory of this reference.
///
/// # Errors
///
/// Want of memory alone.
pub fn new_key(
    alloc: Global,
    parent: u64,
    name: &[u16],
    directory: bool,
    moment: u64,
) -> Result<Vec<u8>, AllocError>
    requires some { 1 ≤ length name.now }
    requires few { length name.now ≤ 255 }
    ensures { IfOk result (λ key. IsPlainKey directory parent name.now moment key.items) }
{
    let mut room = [0; MOST];
    let key = &mut room[..UNITS + 2 * name.len()];
    put_key(key, parent, name, directory, moment);
    Vec::from_slice(alloc, key)
}
