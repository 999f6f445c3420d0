//! The rules by which the keys of an index are in order, by the numbers that an `$INDEX_ROOT` names them with.
//!
//! Source: Linux-NTFS documentation, attribute `$INDEX_ROOT`, the table of collation rules; Carrier, File System Forensic
//! Analysis, chapter 13.

/// Names, their letters compared by the volume's table of case.
pub const COLLATION_FILE_NAME: u32 = 0x01;

/// Numbers of 32 bits.
pub const COLLATION_NTOFS_ULONG: u32 = 0x10;

/// Hashes of security descriptors, then their ids.
pub const COLLATION_NTOFS_SECURITY_HASH: u32 = 0x12;

/// Numbers of 32 bits, one behind the other.
pub const COLLATION_NTOFS_ULONGS: u32 = 0x13;
