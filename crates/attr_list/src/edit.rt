//! Entries put in and taken out, in the bytes of the list.
ghost use Rattle.std.specs.Prelude.{◌≡◌, ◌≤◌, ◌<◌, ℕ, IfErr, OnErr, OnOk, length, map};
ghost use Rattle.ntfs_def.specs.AttributeList.{HasListShape, list_entries, list_entry_place};
ghost use Rattle.ntfs_def.specs.KeyOrder.{by_numbers, fold_of};
ghost use Rattle.ntfs_def.specs.ListOrder.{entry_order};
ghost use Rattle.ntfs_def.specs.Units.{units_in};
ghost use Rattle.attr_list.specs.Edit.{Inserts, IsPlaceFor, RefusesEntry, Removes, len_with, max_list_len};
ghost use Rattle.attr_list.specs.View.{entry_shown};

use crate::listed::entry_view;
use crate::new_entry::entry_bytes;
use crate::shape::entry_place;
use crate::{Entry, EntryView, ListNo};
use ntfs_def::list_entry;
use std::cmp::Ordering;
use upcase::UpCase;
use vol_bytes::u16_at;

/// The most bytes of a list.
const MAX_LEN: usize = 40_960;

fn compare_folded(upcase: &UpCase, a: &[u8], b: &[u8]) -> Ordering
    ensures { result ≡ by_numbers (map (fold_of upcase.now) (units_in a.now)) (map (fold_of upcase.now) (units_in b.now)) }
{
    let units = (0..a.len() / 2).map(|k| u16_at(a, 2 * k));
    let others = (0..b.len() / 2).map(|k| u16_at(b, 2 * k));
    units
        .map(|unit| upcase.fold(unit))
        .cmp(others.map(|unit| upcase.fold(unit)))
}

fn compare_plain(a: &[u8], b: &[u8]) -> Ordering
    ensures { result ≡ by_numbers (units_in a.now) (units_in b.now) }
{
    let units = (0..a.len() / 2).map(|k| u16_at(a, 2 * k));
    let others = (0..b.len() / 2).map(|k| u16_at(b, 2 * k));
    units.cmp(others)
}

fn compare(upcase: &UpCase, a: EntryView<'_>, b: EntryView<'_>) -> Ordering
    ensures { result ≡ entry_order (fold_of upcase.now) (entry_shown a.entry) (entry_shown b.entry) }
{
    a.kind
        .cmp(&b.kind)
        .then_with(|| compare_folded(upcase, a.name, b.name))
        .then_with(|| compare_plain(a.name, b.name))
        .then_with(|| a.first.cmp(&b.first))
}

// Where the first entry stands that is greater than this one, or the end of the list.
fn place_for(list: &[u8], entry: EntryView<'_>, upcase: &UpCase) -> usize
    requires { HasListShape list.now (length (list_entries list.now)) }
    ensures { (i : ℕ) × IsPlaceFor (fold_of upcase.now) (list_entries list.now) (entry_shown entry.entry) i
        × (result ≡ list_entry_place list.now i) }
{
    let mut at = 0;
    while at != list.len() {
        if compare(upcase, entry_view(list, at), entry).is_gt() {
            break;
        }
        at += u16_at(list, at + list_entry::LEN) as usize;
    }
    at
}

/// Puts an entry into a list, before the first one that is greater by type, name and first cluster, and at the end
/// where none is. Names are ordered by the table of case. An error leaves the list as it was.
///
/// # Errors
///
/// `Long` exactly where more than 40,960 bytes would stand in the list, and else `Memory`.
pub fn insert(list: &mut Vec<u8>, entry: &Entry, upcase: &UpCase) -> Result<(), ListNo>
    requires shape { HasListShape list.old.items (length (list_entries list.old.items)) }
    requires name { length entry.now.name ≤ 255 }
    ensures inserted { OnOk result (Inserts (fold_of upcase.now) entry.now list.old.items list.new.items) }
    ensures fits { OnOk result (len_with list.old.items entry.now ≤ max_list_len) }
    ensures err { IfErr result (RefusesEntry list.old.items entry.now) }
    ensures kept { OnErr result (list.new.items ≡ list.old.items) }
{
    let bytes = entry_bytes(entry);
    if list.len() > MAX_LEN - bytes.len() {
        return Err(ListNo::Long);
    }
    let place = place_for(list, entry_view(&bytes, 0), upcase);
    list.extend_from_slice(&bytes)?;
    list[place..].rotate_right(bytes.len());
    Ok(())
}

/// Takes entry i out of a list. All others stay, byte for byte.
pub fn remove(list: &mut Vec<u8>, i: usize)
    requires shape { HasListShape list.old.items (length (list_entries list.old.items)) }
    requires inside { i < length (list_entries list.old.items) }
    ensures { Removes i list.old.items list.new.items }
{
    let at = entry_place(list, i);
    let len = u16_at(list, at + list_entry::LEN) as usize;
    list.copy_within(at + len.., at);
    list.truncate(list.len() - len);
}
