//! The value of an `$INDEX_ROOT`: where its fields stand.
//!
//! Source: Linux-NTFS documentation, attribute $INDEX_ROOT; Carrier, File System Forensic Analysis, chapter 13.

/// The type of the attribute that is indexed: `$FILE_NAME` in a directory.
pub const INDEXED_KIND: usize = 0x00;

/// How keys are compared.
pub const COLLATION: usize = 0x04;

/// The bytes of an index record.
pub const RECORD_SIZE: usize = 0x08;

/// The index header.
pub const HEADER: usize = 0x10;

/// `$I30`, the name of a directory's index, as it is stored.
pub const DIRECTORY_INDEX: &[u8] = b"$\0I\03\00\0";
