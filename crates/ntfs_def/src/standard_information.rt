//! The value of a `$STANDARD_INFORMATION`: where its fields stand.
//!
//! Source: Linux-NTFS documentation, attribute $STANDARD_INFORMATION; Carrier, File System Forensic Analysis, chapter 13.

/// When the file was made.
pub const CREATED: usize = 0x00;

/// When its content was changed.
pub const MODIFIED: usize = 0x08;

/// When its record was changed.
pub const RECORD_CHANGED: usize = 0x10;

/// When it was read.
pub const ACCESSED: usize = 0x18;

/// The DOS flags.
pub const FLAGS: usize = 0x20;

/// The security id, which a value of `SHORT_LEN` bytes does not have.
pub const SECURITY: usize = 0x34;

/// The bytes of a value with a security id.
pub const LEN: usize = 72;

/// The bytes of a value without one.
pub const SHORT_LEN: usize = 48;
