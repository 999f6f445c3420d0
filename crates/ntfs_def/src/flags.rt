//! What the flags of an attribute say.
ghost use Rattle.std.specs.Prelude.{◌≡◌};
ghost use Rattle.ntfs_def.specs.Flags.{is_packed};

use crate::kinds::INDEX_ROOT;

/// The flag of an encrypted attribute.
pub const ENCRYPTED: u16 = 0x4000;

/// The flag of a sparse attribute.
pub const SPARSE: u16 = 0x8000;

/// Whether an attribute of this type with these flags is compressed or encrypted.
pub fn is_packed(kind: u32, flags: u16) -> bool
    ensures { result ≡ is_packed kind flags }
{
    kind != INDEX_ROOT && (flags % 256 != 0 || flags / ENCRYPTED % 2 == 1)
}
