//! A new entry as bytes.
ghost use Rattle.std.specs.Prelude.{◌≡◌, ◌≤◌, ◌<◌, ◌+◌, ◌*◌, ◌^◌, ◌++◌, length};
ghost use Rattle.arrayvec.specs.ArrayVec.{array_vec_len};
ghost use Rattle.std.specs.List.{All};
ghost use Rattle.attr_list.specs.Edit.{HasEntryBytes, name_bytes};

use crate::Entry;
use arrayvec::ArrayVec;
use ntfs_def::list_entry;

/// The bytes of an entry: at most a header, 255 units, and what rounds them up to a multiple of 8.
pub type EntryBytes = ArrayVec<u8, 536>;

fn push(bytes: &mut EntryBytes, more: &[u8])
    requires { array_vec_len bytes.old + length more.now ≤ 536 }
    ensures { bytes.new.items ≡ bytes.old.items ++ more.now }
{
    bytes.try_extend_from_slice(more).unwrap();
}

// Each unit in two bytes, the lower first.
fn push_units(bytes: &mut EntryBytes, units: &[u16])
    requires { array_vec_len bytes.old + 2 * length units.now ≤ 536 }
    ensures bytes { bytes.new.items ≡ bytes.old.items ++ name_bytes units.now }
    ensures len { array_vec_len bytes.new ≡ array_vec_len bytes.old + 2 * length units.now }
    ensures fit { All (λ unit. unit < 2 ^ 16) units.now }
{
    for unit in units {
        push(bytes, &unit.to_le_bytes());
    }
}

/// The entry in the layout's order: the header, the name, and zeros up to the next multiple of 8.
pub fn entry_bytes(entry: &Entry) -> EntryBytes
    requires { length entry.now.name ≤ 255 }
    ensures { HasEntryBytes entry.now result.items }
{
    let units = entry.name.as_slice();
    let end = list_entry::NAME + 2 * units.len();
    let len = (end + 7) / 8 * 8;
    let mut bytes = EntryBytes::new();
    push(&mut bytes, &entry.kind.to_le_bytes());
    push(&mut bytes, &(len as u16).to_le_bytes());
    push(&mut bytes, &[units.len() as u8, list_entry::NAME as u8]);
    push(&mut bytes, &entry.first.to_le_bytes());
    push(&mut bytes, &entry.holder.to_le_bytes());
    push(&mut bytes, &entry.id.to_le_bytes());
    push_units(&mut bytes, units);
    push(&mut bytes, &[0; 8][..len - end]);
    bytes
}
