//! The attributes of a record, one after the other.
ghost use Rattle.std.specs.Prelude.{◌≡◌};
ghost use Rattle.attr_view.specs.Left.{attributes_left};
ghost use Rattle.attr_view.specs.View.{attributes_of};

use crate::{AttrView, Attributes, RecordView};
use ntfs_def::attribute_header;
use vol_bytes::u32_at;

impl<'r> RecordView<'r> {
    /// The attributes in the order of the record, which is gone over once.
    pub fn attributes(&self) -> Attributes<'r>
        ensures { attributes_left result ≡ attributes_of self.now }
    {
        Attributes {
            block: self.block,
            count: self.count,
            next: 0,
            at: self.place(0),
        }
    }
}

impl<'r> Iterator for Attributes<'r> {
    ghost use Rattle.std.specs.Iterator.{item_count, YieldsFirstBy};
    ghost use Rattle.attr_view.specs.Left.{attributes_left};
    ghost use Rattle.attr_view.specs.View.{attribute_of};

    type Item = AttrView<'r>;

    ghost next_gives = { YieldsFirstBy attribute_of attributes_left };

    ghost remaining = { item_count attributes_left };

    fn next(&mut self) -> Option<AttrView<'r>> {
        if self.next == self.count {
            return None;
        }
        let attribute = AttrView {
            block: self.block,
            at: self.at,
        };
        self.next += 1;
        self.at += u32_at(self.block, attribute.at + attribute_header::LEN) as usize;
        Some(attribute)
    }
}
