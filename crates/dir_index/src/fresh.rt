//! The bytes of an entry of a directory that tells anew what it repeats of its file.
ghost use Rattle.std.specs.Prelude.{◌≡◌, ◌⊎◌, ◌+◌, ◌<◌, ◌≤◌, ◌∷◌, [], false, IfNone, IfOk, IfSome, IsTrue, bit_and, bit_or, length};
ghost use Rattle.vol_bytes.specs.Field.{SameOutside, u32_at, u64_at};
ghost use Rattle.ntfs_def.specs.FileName.{is_name_key};
ghost use Rattle.ntfs_def.specs.Node.{IsOwnEntry, child_len, has_child, is_one_entry, item_in};
ghost use Rattle.ntfs_def.specs.declared.index.NodeForm.TheVariants.{Names};
ghost use Rattle.index_node.specs.Edit.{item_len};
ghost use Rattle.dir_index.specs.Refreshed.{IsFreshEntry, RefreshesItem, StandsAlone};
ghost use Rattle.dir_index.specs.Standard.{hidden_flags};

use crate::entry::DuplicatedInformation;
use crate::link::key_in;
use index_node::base_len;
use ntfs_def::file_name::{ALLOCATED, FLAGS, REAL, TIMES, is_name_key};
use ntfs_def::index_record::{ENTRY_FLAGS, ENTRY_LEN, KEY};
use std::alloc::{AllocError, Global};
use tree_model::SHOWN_FLAGS;
use vol_bytes::{Octets, put_u16, put_u32, put_u64, u16_at, u32_at};

/// The most bytes of an entry of an index, apart from its child's number.
const MOST: usize = 632;

// Writes four times into the key of an entry.
fn put_times(entry: &mut [u8], times: &[u64; 4])
    requires { 0x38 ≤ length entry.old }
    ensures times { u64_at entry.new 0x18 ∷ u64_at entry.new 0x20 ∷ u64_at entry.new 0x28 ∷ u64_at entry.new 0x30 ∷ [] ≡ times.now }
    ensures rest { SameOutside entry.old entry.new 0x18 0x38 }
{
    put_u64(entry, KEY + TIMES, times[0]);
    put_u64(entry, KEY + TIMES + 0x08, times[1]);
    put_u64(entry, KEY + TIMES + 0x10, times[2]);
    put_u64(entry, KEY + TIMES + 0x18, times[3]);
}

// Writes the sizes of a stream into the key of an entry, and the DOS flags in place of those that are shown.
fn put_sizes(entry: &mut [u8], told: &DuplicatedInformation)
    requires { 0x4C ≤ length entry.old }
    ensures allocated { u64_at entry.new 0x38 ≡ told.now.allocated }
    ensures real { u64_at entry.new 0x40 ≡ told.now.real }
    ensures flags { u32_at entry.new 0x48 ≡ bit_or (bit_and (u32_at entry.old 0x48) hidden_flags) told.now.flags }
    ensures rest { SameOutside entry.old entry.new 0x38 0x4C }
{
    let hidden = u32_at(entry, KEY + FLAGS) & !u32::from(SHOWN_FLAGS);
    put_u64(entry, KEY + ALLOCATED, told.allocated);
    put_u64(entry, KEY + REAL, told.real);
    put_u32(entry, KEY + FLAGS, hidden | u32::from(told.flags));
}

// Writes what a file tells into the key of an entry that leads to no child.
fn put_told(entry: &mut [u8], told: &DuplicatedInformation)
    requires one { IsTrue (is_one_entry Names false entry.old) }
    requires key { IsTrue (is_name_key (item_in entry.old).key) }
    ensures one { IsTrue (is_one_entry Names false entry.new) }
    ensures long { length entry.new ≡ length entry.old }
    ensures refreshes { RefreshesItem told.now (item_in entry.old) (item_in entry.new) }
{
    put_times(entry, &told.times);
    put_sizes(entry, told);
}

// Lets bytes be an entry without a child that were those of an entry before its child's number.
fn end_entry(bytes: &mut [u8])
    requires some { 16 ≤ length bytes.old }
    requires short { length bytes.old ≤ 632 }
    ensures { StandsAlone bytes.old bytes.new }
{
    let flags = u16_at(bytes, ENTRY_FLAGS) / 2 * 2;
    put_u16(bytes, ENTRY_LEN, bytes.len() as u16);
    put_u16(bytes, ENTRY_FLAGS, flags);
}

// Lets bytes be an entry without its child's number that tells this of its file.
fn put_fresh(bytes: &mut [u8], entry: &[u8], told: &DuplicatedInformation)
    requires one { IsOwnEntry Names entry.now }
    requires key { IsTrue (is_name_key (item_in entry.now).key) }
    requires base { length bytes.old + child_len (has_child entry.now 0) ≡ length entry.now }
    requires short { length bytes.old ≤ 632 }
    ensures { IsFreshEntry told.now (item_in entry.now) bytes.new }
{
    bytes.copy_from_slice(&entry[..bytes.len()]);
    end_entry(bytes);
    put_told(bytes, told);
}

/// The entry without its child's number, telling this of its file; `None` exactly where it is longer than an entry of an index of
/// a volume may be, or has no name.
///
/// # Errors
///
/// Want of memory alone.
pub fn fresh_entry(
    alloc: Global,
    entry: &[u8],
    told: &DuplicatedInformation,
) -> Result<Option<Octets>, AllocError>
    requires { IsOwnEntry Names entry.now }
    ensures fresh { IfOk result (λ found. IfSome found (IsFreshEntry told.now (item_in entry.now))) }
    ensures none { IfOk result (λ found. IfNone found
        ((632 < item_len (item_in entry.now)) ⊎ (is_name_key (item_in entry.now).key ≡ false))) }
{
    let base = base_len(entry);
    if base > MOST || !is_name_key(key_in(entry)) {
        return Ok(None);
    }
    let mut room = [0; MOST];
    let bytes = &mut room[..base];
    put_fresh(bytes, entry, told);
    Ok(Some(Octets::from_vec(Vec::from_slice(alloc, bytes)?)))
}
