//! An entry of an `$ATTRIBUTE_LIST`: where its fields stand.
//!
//! Source: Linux-NTFS documentation, attribute $ATTRIBUTE_LIST; Carrier, File System Forensic Analysis, chapter 13.

/// The type of the attribute.
pub const KIND: usize = 0x00;

/// The bytes of the entry.
pub const LEN: usize = 0x04;

/// The length of the attribute's name in units.
pub const NAME_LEN: usize = 0x06;

/// Where the name begins.
pub const NAME_OFFSET: usize = 0x07;

/// The number, in the stream, of the first cluster that the attribute holds.
pub const FIRST: usize = 0x08;

/// The reference of the record that holds the attribute.
pub const HOLDER: usize = 0x10;

/// The id of the attribute in that record.
pub const ID: usize = 0x18;

/// The name.
pub const NAME: usize = 0x1A;
