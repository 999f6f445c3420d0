//! The header of a file record: where its fields stand, and its flags.
//!
//! Source: Linux-NTFS documentation, "File Record"; Carrier, File System Forensic Analysis, chapter 13, the data structure of
//! a file record.
ghost use Rattle.std.specs.Prelude.{◌≡◌, ◌≤◌, ◌==◌, ◌/◌, ◌%◌, length};
ghost use Rattle.ntfs_def.specs.Record.{is_in_use};

use vol_bytes::u16_at;

/// How a record begins, in use or not.
pub const MARK: &[u8] = b"FILE";

/// The sequence number.
pub const SEQUENCE: usize = 0x10;

/// The names of the file.
pub const LINKS: usize = 0x12;

/// Where the first attribute stands.
pub const FIRST_ATTRIBUTE: usize = 0x14;

/// The flags: `IN_USE` and `DIRECTORY`.
pub const FLAGS: usize = 0x16;

/// The bytes of the record that are in use.
pub const USED_SIZE: usize = 0x18;

/// The bytes of the record.
pub const ALLOCATED_SIZE: usize = 0x1C;

/// The reference of the base record, 0 in a base record.
pub const BASE: usize = 0x20;

/// The id of the next attribute.
pub const NEXT_ID: usize = 0x28;

/// The number of the record.
pub const NUMBER: usize = 0x2C;

/// Where the update sequence array stands, behind the header.
pub const ARRAY: usize = 0x30;

/// The flag of a record in use.
pub const IN_USE: u16 = 1;

/// The flag of a directory.
pub const DIRECTORY: u16 = 2;

/// Whether the flags of a record are those of a directory.
pub fn is_directory(flags: u16) -> bool
    ensures { result ≡ (flags / 2 % 2 == 1) }
{
    flags / DIRECTORY % 2 == 1
}

/// Whether a block of the table, stored or opened, is a record that is in use: it begins with the
/// mark of a record and says so in its flags.
pub fn is_in_use(block: &[u8]) -> bool
    requires { 24 ≤ length block.now }
    ensures { result ≡ is_in_use block.now }
{
    block.starts_with(MARK) && u16_at(block, FLAGS) % 2 == IN_USE
}
