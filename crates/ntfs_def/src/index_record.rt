//! An index record, the header of a node, and its entries: where their fields stand.
//!
//! Source: Linux-NTFS documentation, "Index Record", "Index Header", "Index Entry"; Carrier, File System Forensic Analysis,
//! chapter 13.

/// How an index record begins.
pub const MARK: &[u8] = b"INDX";

/// The record's own number in the index.
pub const OWN_VCN: usize = 0x10;

/// The index header.
pub const HEADER: usize = 0x18;

/// Where the first entry stands, from the index header on.
pub const FIRST_ENTRY: usize = 0x00;

/// Where the entries end, from the index header on.
pub const ENTRIES_END: usize = 0x04;

/// Where the room for them ends.
pub const ROOM_END: usize = 0x08;

/// The flags of a node, of which bit 0 says that each entry leads to a child.
pub const NODE_FLAGS: usize = 0x0C;

/// The bytes of an index header.
pub const HEADER_LEN: usize = 0x10;

/// An entry's length, from the entry on.
pub const ENTRY_LEN: usize = 0x08;

/// The bytes of its key.
pub const KEY_LEN: usize = 0x0A;

/// Its flags.
pub const ENTRY_FLAGS: usize = 0x0C;

/// Its key.
pub const KEY: usize = 0x10;

/// Where the data stands of an entry of a view index.
pub const DATA_OFFSET: usize = 0x00;

/// The bytes of that data.
pub const DATA_LEN: usize = 0x02;
