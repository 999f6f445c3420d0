//! The records that hold the attributes of a list.
ghost use Rattle.std.specs.Prelude.{◌≡◌};
ghost use Rattle.attr_list.specs.Left.{holders_left};
ghost use Rattle.attr_list.specs.View.{holders_of};

use crate::{Holders, ListView};
use ntfs_def::list_entry;
use vol_bytes::{u16_at, u64_at};

impl<'r> ListView<'r> {
    /// The references in the order of the list, which is gone over once.
    pub fn holders(&self) -> Holders<'r>
        ensures { holders_left result ≡ holders_of self.now }
    {
        Holders {
            bytes: self.bytes,
            count: self.count,
            next: 0,
            at: 0,
        }
    }
}

impl<'r> Iterator for Holders<'r> {
    ghost use Rattle.std.specs.Iterator.{item_count, YieldsFirstBy};
    ghost use Rattle.ntfs_def.specs.Record.{reference_in};
    ghost use Rattle.attr_list.specs.Left.{holders_left};

    type Item = u64;

    ghost next_gives = { YieldsFirstBy reference_in holders_left };

    ghost remaining = { item_count holders_left };

    fn next(&mut self) -> Option<u64> {
        if self.next == self.count {
            return None;
        }
        let holder = u64_at(self.bytes, self.at + list_entry::HOLDER);
        self.next += 1;
        self.at += u16_at(self.bytes, self.at + list_entry::LEN) as usize;
        Some(holder)
    }
}
