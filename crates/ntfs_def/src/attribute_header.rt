//! The header of an attribute: where its fields stand, from the attribute on.
//!
//! Source: Linux-NTFS documentation, "Attribute Headers"; Carrier, File System Forensic Analysis, chapter 13, the data
//! structures of an attribute's header, of a resident and of a non-resident attribute.

/// The type.
pub const KIND: usize = 0x00;

/// The bytes of the attribute, with its header.
pub const LEN: usize = 0x04;

/// A byte that is 0 in a resident attribute alone.
pub const NON_RESIDENT: usize = 0x08;

/// The length of the name in units.
pub const NAME_LEN: usize = 0x09;

/// Where the name begins.
pub const NAME_OFFSET: usize = 0x0A;

/// The flags: how it is compressed, encrypted, sparse.
pub const FLAGS: usize = 0x0C;

/// The id.
pub const ID: usize = 0x0E;

/// The bytes of a resident attribute's value.
pub const VALUE_LEN: usize = 0x10;

/// Where the value begins.
pub const VALUE_OFFSET: usize = 0x14;

/// 1 where the value is a key of an index.
pub const INDEXED: usize = 0x16;

/// The number, in the stream, of the first cluster of a non-resident attribute.
pub const FIRST: usize = 0x10;

/// The number of the last one.
pub const LAST: usize = 0x18;

/// Where the run text begins.
pub const RUNS_OFFSET: usize = 0x20;

/// The power of two of clusters that are compressed together.
pub const UNIT: usize = 0x22;

/// The bytes of the clusters that the stream has.
pub const ALLOCATED: usize = 0x28;

/// The bytes of the stream.
pub const REAL: usize = 0x30;

/// The bytes of the stream that were written.
pub const INITIALIZED: usize = 0x38;

/// The bytes of a resident attribute's header.
pub const RESIDENT_LEN: usize = 24;

/// The bytes of a non-resident attribute's header.
pub const NON_RESIDENT_LEN: usize = 64;

/// The bytes of the header of the first extent of a compressed or sparse stream.
pub const COMPRESSED_LEN: usize = 72;
