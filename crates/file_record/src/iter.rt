//! The attributes of a file, one after the other.
use crate::{FileParts, Held};
use attr_view::{AttrView, Attributes};

/// The attributes of a file, by record and place.
#[derive(Clone, Copy)]
pub struct FileAttributes<'f> {
    // those of the record that is gone over
    here: Option<Attributes<'f>>,
    // and the records that come next
    rest: &'f [Held],
}

impl FileParts {
    ghost use Rattle.std.specs.Prelude.{◌≡◌};
    ghost use Rattle.file_record.specs.Held.{attributes_held};
    ghost use Rattle.file_record.specs.Left.{attributes_left};

    /// All attributes of the file; each record is gone over once.
    pub fn attributes(&self) -> FileAttributes<'_>
        ensures { attributes_left result ≡ attributes_held self.now }
    {
        FileAttributes {
            here: None,
            rest: &self.held,
        }
    }
}

impl<'f> Iterator for FileAttributes<'f> {
    ghost use Rattle.std.specs.Iterator.{item_count, YieldsFirstBy};
    ghost use Rattle.attr_view.specs.View.{attribute_of};
    ghost use Rattle.file_record.specs.Left.{attributes_left};

    type Item = AttrView<'f>;

    ghost next_gives = { YieldsFirstBy attribute_of attributes_left };

    ghost remaining = { item_count attributes_left };

    fn next(&mut self) -> Option<AttrView<'f>> {
        'records: loop {
            if let Some(here) = &mut self.here {
                if let Some(attribute) = here.next() {
                    return Some(attribute);
                }
            }
            let Some((held, rest)) = self.rest.split_first() else {
                return None;
            };
            self.here = Some(held.view().attributes());
            self.rest = rest;
        }
    }
}
