//! References to records.
//!
//! Source: Linux-NTFS documentation, "File Reference"; Carrier, File System Forensic Analysis, chapter 13.
ghost use Rattle.std.specs.Prelude.{◌≡◌, ◌<◌, ◌+◌, ◌*◌, ◌^◌};
ghost use Rattle.ntfs_def.specs.Record.{reference_in};

/// How many numbers a reference can name: the number of the record stands in its low 48 bits.
pub const NUMBERS: u64 = 1 << 48;

/// The number of the record that a reference names.
pub fn number_in(reference: u64) -> u64
    ensures { result ≡ (reference_in reference).number }
{
    reference % NUMBERS
}

/// The sequence number that the record has to have, from the high 16 bits.
pub fn sequence_in(reference: u64) -> u16
    ensures { result ≡ (reference_in reference).sequence }
{
    (reference / NUMBERS) as u16
}

/// The reference of a record.
pub fn reference_to(number: u64, sequence: u16) -> u64
    requires { number < 2 ^ 48 }
    ensures { result ≡ sequence * 2 ^ 48 + number }
{
    u64::from(sequence) * NUMBERS + number
}
