//! The value of a `$FILE_NAME`, which is the key of a directory's entry too: where its fields stand.
//!
//! Source: Linux-NTFS documentation, attribute $FILE_NAME; Carrier, File System Forensic Analysis, chapter 13.
ghost use Rattle.std.specs.Prelude.{◌≡◌};
ghost use Rattle.ntfs_def.specs.FileName.{is_name_key};

/// The reference of the directory that has the name.
pub const PARENT: usize = 0x00;

/// Four times: made, changed, record changed, read.
pub const TIMES: usize = 0x08;

/// The bytes of the clusters of the unnamed stream.
pub const ALLOCATED: usize = 0x28;

/// The bytes of the unnamed stream.
pub const REAL: usize = 0x30;

/// The DOS flags.
pub const FLAGS: usize = 0x38;

/// The tag of a reparse point, or the length of extended attributes.
pub const TAG: usize = 0x3C;

/// The length of the name in units.
pub const UNITS_LEN: usize = 0x40;

/// The namespace.
pub const NAMESPACE: usize = 0x41;

/// The units of the name.
pub const UNITS: usize = 0x42;

/// Whether bytes are the value of a `$FILE_NAME` that holds its units, one at least.
pub fn is_name_key(key: &[u8]) -> bool
    ensures { result ≡ is_name_key key.now }
{
    key.len() >= UNITS && key[UNITS_LEN] >= 1 && UNITS + 2 * key[UNITS_LEN] as usize <= key.len()
}
