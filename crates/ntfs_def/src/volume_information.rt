//! The value of a `$VOLUME_INFORMATION`: where its fields stand.
//!
//! Source: Linux-NTFS documentation, attribute $VOLUME_INFORMATION; Carrier, File System Forensic Analysis, chapter 13.

/// The number of the version before the point.
pub const MAJOR: usize = 0x08;

/// The number behind it.
pub const MINOR: usize = 0x09;

/// The flags, of which bit 0 says that the volume was not closed.
pub const FLAGS: usize = 0x0A;

/// The bytes of the value.
pub const LEN: usize = 12;
