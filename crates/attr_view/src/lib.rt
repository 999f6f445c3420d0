//! Views of an opened file record and of its attributes. They lend the record's bytes and copy none.
#![tactic(auto)]

ghost use Rattle.std.specs.Prelude.{◌≡◌, ◌≤◌, length};
ghost use Rattle.ntfs_def.specs.Attribute.{attribute_place};
ghost use Rattle.ntfs_def.specs.Record.{used_size};
ghost use Rattle.ntfs_def.specs.Shape.{HasShape, IsAttribute};

use thiserror::Error;

mod attribute;
mod edit;
mod find;
mod header;
mod iter;
mod laws;
mod record;
mod record_mut;
mod shape;
mod value;

pub use laws::one_answer;
pub use ntfs_def::Sizes;
pub use record_mut::{RecordHeader, RecordMut};

/// Why a block is refused, or an edit of it.
#[derive(Clone, Copy, Debug, PartialEq, Eq, Error)]
pub enum ViewNo {
    /// The block is no record whose attributes can be read: `at` is the place in it of the first field
    /// of the header that is wrong (0 where the block does not have 1,024 bytes), or else of the first
    /// attribute or end mark.
    #[error("the record has a wrong shape at byte {at}")]
    Shape { at: usize },
    /// The edit takes `need` bytes more, and the record has room for `free`.
    #[error("the record has room for {free} bytes of {need}")]
    Full { need: usize, free: usize },
}

/// A file record whose attributes can be read.
#[derive(Clone, Copy, Debug)]
pub struct RecordView<'r> {
    block: &'r [u8],
    count: usize,
    ghost shape: { HasShape block.now count },
}

/// An attribute of a record.
#[derive(Clone, Copy, Debug)]
pub struct AttrView<'r> {
    block: &'r [u8],
    at: usize,
    ghost size: { length block.now ≡ 1024 },
    ghost used: { used_size block.now ≤ 1024 },
    ghost shape: { IsAttribute block.now at },
}

/// The attributes of a record, in order.
#[derive(Clone, Copy, Debug)]
pub struct Attributes<'r> {
    block: &'r [u8],
    count: usize,
    // The number of the attribute that comes next, and where it stands.
    next: usize,
    at: usize,
    ghost shape: { HasShape block.now count },
    ghost within: { next ≤ count },
    ghost place: { at ≡ attribute_place block.now next },
}
