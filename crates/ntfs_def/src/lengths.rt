//! The lengths, in bytes, of the blocks of a volume that is read here.
//!
//! Source: Linux-NTFS documentation, file $Boot; Carrier, File System Forensic Analysis, chapter 13, the
//! data structure of the boot sector, which spells them.

/// A file record.
pub const RECORD: usize = 1024;

/// An index record.
pub const INDEX_RECORD: usize = 4096;

/// The table of case: a unit for each unit.
pub const CASE_TABLE: usize = 131_072;
