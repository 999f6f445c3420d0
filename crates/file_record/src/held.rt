//! A record of a file, as it is held.
ghost use Rattle.std.specs.Prelude.{◌≡◌, ◌≤◌, length};
ghost use Rattle.ntfs_def.specs.Attribute.{attributes};
ghost use Rattle.ntfs_def.specs.Shape.{HasShape};
ghost use Rattle.attr_view.specs.View.{viewed_block};

use attr_view::RecordView;

/// An opened record that holds parts of a file.
#[derive(Drop)]
pub struct Held {
    pub(crate) number: u64,
    pub(crate) block: [u8; 1024],
    // its attributes
    pub(crate) count: usize,
    ghost shape: { HasShape block count },
}

impl Held {
    /// The number of the record.
    pub fn number(&self) -> u64
        ensures { result ≡ self.now.number }
    {
        self.number
    }

    /// How many attributes it has.
    pub fn count(&self) -> usize
        ensures count { result ≡ length (attributes self.now.block) }
        ensures few { result ≤ 1024 }
    {
        self.count
    }

    /// A view of the record, which is not looked at again.
    pub fn view(&self) -> RecordView<'_>
        ensures { viewed_block result ≡ self.now.block }
    {
        RecordView::again(&self.block, self.count)
    }

    // The same record once more.
    pub(crate) fn again(&self) -> Held
        ensures number { result.number ≡ self.now.number }
        ensures block { result.block ≡ self.now.block }
    {
        Held {
            number: self.number,
            block: self.block,
            count: self.count,
        }
    }
}
