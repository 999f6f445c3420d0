//! The value of a `$REPARSE_POINT`: where its fields stand.
//!
//! Source: Linux-NTFS documentation, attribute $REPARSE_POINT.

/// The tag.
pub const TAG: usize = 0x00;

/// The length of the data.
pub const DATA_LEN: usize = 0x04;

/// The data.
pub const DATA: usize = 0x08;
