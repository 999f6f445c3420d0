//! The types of attributes.
//!
//! Source: Linux-NTFS documentation, "Attributes"; Carrier, File System Forensic Analysis, chapter 11,
//! the table of attribute types.

/// `$STANDARD_INFORMATION`: times, DOS flags and the security id.
pub const STANDARD_INFORMATION: u32 = 0x10;

/// `$ATTRIBUTE_LIST`: where the attributes of a file stand that is kept in several records.
pub const ATTRIBUTE_LIST: u32 = 0x20;

/// `$FILE_NAME`: a name of the file in a directory.
pub const FILE_NAME: u32 = 0x30;

/// `$OBJECT_ID`.
pub const OBJECT_ID: u32 = 0x40;

/// `$SECURITY_DESCRIPTOR`.
pub const SECURITY_DESCRIPTOR: u32 = 0x50;

/// `$VOLUME_NAME`: the label.
pub const VOLUME_NAME: u32 = 0x60;

/// `$VOLUME_INFORMATION`: the version and the dirty flag.
pub const VOLUME_INFORMATION: u32 = 0x70;

/// `$DATA`: a stream of the file.
pub const DATA: u32 = 0x80;

/// `$INDEX_ROOT`: the root node of an index.
pub const INDEX_ROOT: u32 = 0x90;

/// `$INDEX_ALLOCATION`: the other nodes of an index.
pub const INDEX_ALLOCATION: u32 = 0xA0;

/// `$BITMAP`: which records of the table, or of an index, are in use.
pub const BITMAP: u32 = 0xB0;

/// `$REPARSE_POINT`.
pub const REPARSE_POINT: u32 = 0xC0;

/// `$EA_INFORMATION`: the sizes of extended attributes.
pub const EA_INFORMATION: u32 = 0xD0;

/// `$EA`: extended attributes.
pub const EA: u32 = 0xE0;

/// `$LOGGED_UTILITY_STREAM`.
pub const LOGGED_UTILITY_STREAM: u32 = 0x100;

/// The mark that ends the attributes of a record.
pub const END: u32 = 0xFFFF_FFFF;
