//! The tests of the layout of a list.

ghost use Rattle.std.specs.Prelude.{◌≡◌, ◌≤◌, ◌↔◌, IsTrue, IfOk, IfErr, length};
ghost use Rattle.ntfs_def.specs.AttributeList.{HasListEntries, HasListShape, IsListEntry, list_entry_place};
ghost use Rattle.attr_list.specs.View.{Refuses};

use crate::ListNo;
use ntfs_def::list_entry;
use vol_bytes::u16_at;

// The bytes of an entry before its name.
const HEADER: usize = list_entry::NAME;

fn is_entry(bytes: &[u8], at: usize) -> bool
    requires { at ≤ length bytes.now }
    ensures { IsTrue result ↔ IsListEntry bytes.now at }
{
    let room = bytes.len() - at;
    if room < HEADER {
        return false;
    }
    let len = u16_at(bytes, at + list_entry::LEN) as usize;
    let units = bytes[at + list_entry::NAME_LEN] as usize;
    let name = bytes[at + list_entry::NAME_OFFSET] as usize;
    name == HEADER && HEADER + 2 * units <= len && len <= room
}

// How many entries the list has.
pub fn count_of(bytes: &[u8]) -> Result<usize, ListNo>
    ensures ok { IfOk result (HasListShape bytes.now) }
    ensures err { IfErr result (Refuses bytes.now) }
{
    let mut at = 0;
    let mut count = 0;
    while at != bytes.len() {
        if !is_entry(bytes, at) {
            return Err(ListNo::Shape { at });
        }
        at += u16_at(bytes, at + list_entry::LEN) as usize;
        count += 1;
    }
    Ok(count)
}

/// Where entry i stands, behind i others.
pub fn entry_place(bytes: &[u8], i: usize) -> usize
    requires { HasListEntries bytes.now i }
    ensures { result ≡ list_entry_place bytes.now i }
{
    let mut at = 0;
    for k in 0..i {
        at += u16_at(bytes, at + list_entry::LEN) as usize;
    }
    at
}
