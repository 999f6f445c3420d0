//! A block that an update sequence array protects: where the array's place and its count of numbers stand.
//!
//! Source: Linux-NTFS documentation, "Fixup"; Carrier, File System Forensic Analysis, chapter 13.

/// Where the array stands.
pub const ARRAY_PLACE: usize = 0x04;

/// The count of its numbers.
pub const ARRAY_COUNT: usize = 0x06;
