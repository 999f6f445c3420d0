//! The value of an `$ATTRIBUTE_LIST`: which record holds each attribute of a file that is kept in several records.
//! A view lends the value's bytes, and an edit puts an entry in or takes one out where the value stands.
#![tactic(auto)]

ghost use Rattle.std.specs.Prelude.{◌≡◌, ◌≤◌};
ghost use Rattle.ntfs_def.specs.AttributeList.{HasListShape, list_entry_place};
ghost use Rattle.attr_list.specs.declared.ListNo.TheVariants.{Memory};

mod edit;
mod iter;
mod laws;
mod list;
mod listed;
mod new_entry;
mod shape;

pub use edit::{insert, remove};
pub use laws::{one_answer, order_laws};
use std::alloc::AllocError;
use thiserror::Error;
use vol_bytes::Name;

/// Why a value is refused, or an entry is not given or not put in.
#[derive(Clone, Copy, Debug, PartialEq, Eq, Error)]
pub enum ListNo {
    /// The value is no list: `at` is the place in it of the first entry that breaks the layout.
    #[error("the attribute list has a wrong entry at byte {at}")]
    Shape { at: usize },
    /// More than 40,960 bytes would stand in the list.
    #[error("the attribute list would be longer than 40960 bytes")]
    Long,
    /// There was no memory for the name, or for the longer list.
    #[error("out of memory")]
    Memory,
}

impl From<AllocError> for ListNo {
    ghost from_gives = { λ _ no. no ≡ Memory };

    fn from(_error: AllocError) -> ListNo {
        ListNo::Memory
    }
}

/// An entry of a list: an attribute, or an extent of one, and the record that holds it.
#[derive(Debug, Drop)]
pub struct Entry {
    /// The type, as `0x80` for `$DATA`.
    pub kind: u32,
    pub name: Name,
    /// The number, in the stream, of the extent's first cluster; 0 of a resident attribute.
    pub first: u64,
    /// The whole reference of the record, as it is stored.
    pub holder: u64,
    /// The id of the attribute in that record.
    pub id: u16,
}

/// An entry of a list, or what a list would say of an attribute. It lends the name.
#[derive(Clone, Copy, Debug)]
pub struct EntryView<'r> {
    /// The type, as `0x80` for `$DATA`.
    pub kind: u32,
    /// The bytes of the name, two for each unit, the lower first.
    pub name: &'r [u8],
    /// The number, in the stream, of the extent's first cluster; 0 of a resident attribute.
    pub first: u64,
    /// The whole reference of the record, as it is stored.
    pub holder: u64,
    /// The id of the attribute in that record.
    pub id: u16,
}

/// The value of an `$ATTRIBUTE_LIST` whose entries can be read.
#[derive(Clone, Copy, Debug)]
pub struct ListView<'r> {
    bytes: &'r [u8],
    count: usize,
    ghost shape: { HasListShape bytes.now count },
}

/// The references of the records that hold the attributes of a list, in its order.
#[derive(Clone, Copy, Debug)]
pub struct Holders<'r> {
    bytes: &'r [u8],
    count: usize,
    // The number of the entry that comes next, and where it stands.
    next: usize,
    at: usize,
    ghost shape: { HasListShape bytes.now count },
    ghost within: { next ≤ count },
    ghost place: { at ≡ list_entry_place bytes.now next },
}

/// The entries of a list, in order.
#[derive(Clone, Copy, Debug)]
pub struct Entries<'r> {
    bytes: &'r [u8],
    count: usize,
    // The number of the entry that comes next, and where it stands.
    next: usize,
    at: usize,
    ghost shape: { HasListShape bytes.now count },
    ghost within: { next ≤ count },
    ghost place: { at ≡ list_entry_place bytes.now next },
}
