//! Hexadecimal digits.
ghost use Rattle.std.specs.Prelude.{◌≡◌, ◌↔◌, IfOk, IsTrue};
ghost use Rattle.cmd_lang.specs.Digits.{ArePairs, is_lower};
ghost use Rattle.cmd_lang.specs.Lines.{Finds};
ghost use Rattle.cmd_lang.specs.Words.{AreDigits, AreFlags, hexadecimal, IsHex, IsHexNumber, IsTag};

use byteorder::{BigEndian, ByteOrder};
use std::alloc::{AllocError, Global};
use tree_model::SHOWN_FLAGS;
use vol_bytes::Octets;

// Whether a byte is a digit, none of them in upper case.
fn is_lower(byte: u8) -> bool
    ensures { result ≡ is_lower byte }
{
    matches!(byte, b'0'..=b'9' | b'a'..=b'f')
}

// Whether a text is pairs of such digits, one at least.
fn are_pairs(text: &[u8]) -> bool
    ensures { IsTrue result ↔ ArePairs text.now }
{
    !text.is_empty() && text.len() % 2 == 0 && text.iter().all(|byte| is_lower(*byte))
}

/// The bytes that a text writes in hexadecimal, one at least.
pub fn read_some_bytes(alloc: Global, text: &[u8]) -> Result<Option<Octets>, AllocError>
    ensures { IfOk result (Finds (AreDigits text.now)) }
{
    if !are_pairs(text) {
        return Ok(None);
    }
    // What is pairs of digits can be decoded, so memory alone is wanting.
    match hex::decode(alloc, text) {
        Ok(bytes) => Ok(Some(Octets::from_vec(bytes))),
        Err(_) => Err(AllocError),
    }
}

/// The bytes that a text writes in hexadecimal, or none as `-`.
pub fn read_bytes(alloc: Global, text: &[u8]) -> Result<Option<Octets>, AllocError>
    ensures { IfOk result (Finds (IsHex text.now)) }
{
    if text == b"-".as_slice() {
        return Ok(Some(Octets::from_vec(Vec::new(alloc))));
    }
    read_some_bytes(alloc, text)
}

/// The eight digits of a tag.
pub fn tag_digits(tag: u32) -> [u8; 8]
    ensures { result ≡ hexadecimal 4 tag }
{
    let mut bytes = [0; 4];
    BigEndian::write_u32(&mut bytes, tag);
    let mut digits = [0; 8];
    hex::encode_to_slice(bytes, &mut digits).unwrap();
    digits
}

/// The four digits of DOS flags.
pub fn flags_digits(flags: u16) -> [u8; 4]
    ensures { result ≡ hexadecimal 2 flags }
{
    let mut bytes = [0; 2];
    BigEndian::write_u16(&mut bytes, flags);
    let mut digits = [0; 4];
    hex::encode_to_slice(bytes, &mut digits).unwrap();
    digits
}

// Whether this is how the tag is written.
fn is_tag(text: &[u8], tag: u32) -> bool
    ensures { IsTrue result ↔ (text.now ≡ hexadecimal 4 tag) }
{
    tag_digits(tag).as_slice() == text
}

// Whether this is how the flags are written.
fn are_flags(text: &[u8], flags: u16) -> bool
    ensures { IsTrue result ↔ (text.now ≡ hexadecimal 2 flags) }
{
    flags_digits(flags).as_slice() == text
}

/// The tag that a text writes.
pub fn read_tag(text: &[u8]) -> Option<u32>
    ensures { Finds (IsTag text.now) result }
{
    let mut bytes = [0; 4];
    if hex::decode_to_slice(text, &mut bytes).is_err() {
        return None;
    }
    let tag = BigEndian::read_u32(&bytes);
    if is_tag(text, tag) { Some(tag) } else { None }
}

// The number that four digits write.
fn read_short_digits(text: &[u8]) -> Option<u16>
    ensures { Finds (IsHexNumber 2 text.now) result }
{
    let mut bytes = [0; 2];
    if hex::decode_to_slice(text, &mut bytes).is_err() {
        return None;
    }
    let flags = BigEndian::read_u16(&bytes);
    if are_flags(text, flags) {
        Some(flags)
    } else {
        None
    }
}

/// The DOS flags that a text writes.
pub fn read_flags(text: &[u8]) -> Option<u16>
    ensures { Finds (AreFlags text.now) result }
{
    let flags = read_short_digits(text)?;
    if flags & SHOWN_FLAGS == flags {
        Some(flags)
    } else {
        None
    }
}
