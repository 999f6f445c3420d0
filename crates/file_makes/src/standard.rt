//! The `$STANDARD_INFORMATION` of a new file.
ghost use Rattle.std.specs.Prelude.{◌≡◌, ℕ, false, length, slice_index};
ghost use Rattle.ntfs_def.specs.StandardInformation.{dos_flags};
ghost use Rattle.session_def.specs.Kept.{is_shown_byte};
ghost use Rattle.made_edits.specs.Calls.{IsNewStandard};
ghost use Rattle.made_edits.specs.Comes.{first_flags};

use crate::times::put_moment;
use ntfs_def::standard_information::{CREATED, FLAGS, LEN, SECURITY};
use vol_bytes::put_u32;

/// The DOS flag of a file that was not archived yet.
pub const ARCHIVE: u32 = 0x20;

// The DOS flags of a new file; a directory has none.
fn first_flags(directory: bool) -> u32
    ensures flags { result ≡ first_flags directory }
{
    if directory { 0 } else { ARCHIVE }
}

// Lets bytes that are 0 be the value of the `$STANDARD_INFORMATION` of a new file.
fn put_standard(value: &mut [u8], moment: u64, security: u32, directory: bool)
    requires len { length value.old ≡ 72 }
    requires zeros { (k : ℕ) → slice_index value.old k ≡ 0 }
    ensures standard { IsNewStandard directory moment security value.new }
    ensures len { length value.new ≡ 72 }
    ensures flags { dos_flags value.new ≡ first_flags directory }
    ensures zeros { (k : ℕ) → is_shown_byte 72 k ≡ false → slice_index value.new k ≡ 0 }
{
    put_moment(value, CREATED, moment);
    put_u32(value, FLAGS, first_flags(directory));
    put_u32(value, SECURITY, security);
}

/// The value of the `$STANDARD_INFORMATION` of a new file, or of a new directory: this moment four times, its DOS flags, and the id of its
/// security descriptor. All else is 0.
pub fn new_standard(moment: u64, security: u32, directory: bool) -> [u8; 72]
    ensures standard { IsNewStandard directory moment security result }
    ensures len { length result ≡ 72 }
    ensures flags { dos_flags result ≡ first_flags directory }
    ensures zeros { (k : ℕ) → is_shown_byte 72 k ≡ false → slice_index result k ≡ 0 }
{
    let mut value = [0; LEN];
    put_standard(&mut value, moment, security, directory);
    value
}
