//! The entries of a list, one after the other.
ghost use Rattle.std.specs.Prelude.{◌≡◌};
ghost use Rattle.ntfs_def.specs.AttributeList.{IsListEntry, list_entry_at};
ghost use Rattle.attr_list.specs.Left.{entries_left};
ghost use Rattle.attr_list.specs.View.{entries_of, entry_shown};

use crate::{Entries, EntryView, ListView};
use ntfs_def::list_entry;
use vol_bytes::{u16_at, u32_at, u64_at};

/// The entry at a place.
pub fn entry_view(bytes: &[u8], at: usize) -> EntryView<'_>
    requires { IsListEntry bytes.now at }
    ensures { entry_shown result ≡ list_entry_at bytes.now at }
{
    let from = at + list_entry::NAME;
    let end = from + 2 * bytes[at + list_entry::NAME_LEN] as usize;
    EntryView {
        kind: u32_at(bytes, at),
        name: &bytes[from..end],
        first: u64_at(bytes, at + list_entry::FIRST),
        holder: u64_at(bytes, at + list_entry::HOLDER),
        id: u16_at(bytes, at + list_entry::ID),
    }
}

impl<'r> ListView<'r> {
    /// The entries in the order of the list, which is gone over once.
    pub fn entries(&self) -> Entries<'r>
        ensures { entries_left result ≡ entries_of self.now }
    {
        Entries {
            bytes: self.bytes,
            count: self.count,
            next: 0,
            at: 0,
        }
    }
}

impl<'r> Iterator for Entries<'r> {
    ghost use Rattle.std.specs.Iterator.{item_count, YieldsFirstBy};
    ghost use Rattle.attr_list.specs.Left.{entries_left};
    ghost use Rattle.attr_list.specs.View.{entry_shown};

    type Item = EntryView<'r>;

    ghost next_gives = { YieldsFirstBy entry_shown entries_left };

    ghost remaining = { item_count entries_left };

    fn next(&mut self) -> Option<EntryView<'r>> {
        if self.next == self.count {
            return None;
        }
        let entry = entry_view(self.bytes, self.at);
        self.next += 1;
        self.at += u16_at(self.bytes, self.at + list_entry::LEN) as usize;
        Some(entry)
    }
}
