//! Little-endian numbers in bytes, how every field of an NTFS volume is stored, and names as texts.
#![tactic(auto)]

ghost use Rattle.std.specs.Prelude.{◌≡◌, ◌+◌, ◌≤◌, length};
ghost use Rattle.vol_bytes.specs.Field.{SameOutside, u16_at, u32_at, u64_at};

mod character;
mod laws;
mod letter;
mod reading;
mod small;
mod text;

use byteorder::{ByteOrder, LittleEndian};
pub use character::{FirstText, first_text};
pub use laws::name_text_laws;
pub use reading::units_of_text;
pub use small::{Name, Octets};
pub use text::{TextFault, text_of_units};

/// The number in the two bytes at `at`, the lowest first.
pub fn u16_at(bytes: &[u8], at: usize) -> u16
    requires { at + 2 ≤ length bytes.now }
    ensures { result ≡ u16_at bytes.now at }
{
    LittleEndian::read_u16(&bytes[at..])
}

/// The number in the four bytes at `at`, the lowest first.
pub fn u32_at(bytes: &[u8], at: usize) -> u32
    requires { at + 4 ≤ length bytes.now }
    ensures { result ≡ u32_at bytes.now at }
{
    LittleEndian::read_u32(&bytes[at..])
}

/// The number in the eight bytes at `at`, the lowest first.
pub fn u64_at(bytes: &[u8], at: usize) -> u64
    requires { at + 8 ≤ length bytes.now }
    ensures { result ≡ u64_at bytes.now at }
{
    LittleEndian::read_u64(&bytes[at..])
}

/// Writes a number into the two bytes at `at`, the lowest first. All other bytes stay.
pub fn put_u16(bytes: &mut [u8], at: usize, value: u16)
    requires { at + 2 ≤ length bytes.old }
    ensures value { u16_at bytes.new at ≡ value }
    ensures rest { SameOutside bytes.old bytes.new at (at + 2) }
{
    LittleEndian::write_u16(&mut bytes[at..], value);
}

/// Writes a number into the four bytes at `at`, the lowest first. All other bytes stay.
pub fn put_u32(bytes: &mut [u8], at: usize, value: u32)
    requires { at + 4 ≤ length bytes.old }
    ensures value { u32_at bytes.new at ≡ value }
    ensures rest { SameOutside bytes.old bytes.new at (at + 4) }
{
    LittleEndian::write_u32(&mut bytes[at..], value);
}

/// Writes a number into the eight bytes at `at`, the lowest first. All other bytes stay.
pub fn put_u64(bytes: &mut [u8], at: usize, value: u64)
    requires { at + 8 ≤ length bytes.old }
    ensures value { u64_at bytes.new at ≡ value }
    ensures rest { SameOutside bytes.old bytes.new at (at + 8) }
{
    LittleEndian::write_u64(&mut bytes[at..], value);
}
