//! What the items of a new volume hold.
ghost use Rattle.std.specs.Prelude.{◌≡◌, ◌^◌, slice_index};
ghost use Rattle.volume_format.specs.Items.{case_of};

use crate::item::Item;

// The byte at a place, and zero behind the end.
fn byte_at(bytes: &[u8], at: u64) -> u8
    ensures { result ≡ slice_index bytes.now at }
{
    if at < bytes.len() as u64 {
        bytes[at as usize]
    } else {
        0
    }
}

/// Bytes that stand in memory, and zeros behind them.
#[derive(Clone, Copy)]
pub struct Bytes<'a> {
    pub bytes: &'a [u8],
}

impl Item for Bytes<'_> {
    ghost use Rattle.std.specs.Prelude.{slice_index};

    ghost rule = { λ item. slice_index item.bytes.now };

    ghost limit = { λ _. 2 ^ 40 };

    fn byte(&self, at: u64) -> u8 {
        byte_at(self.bytes, at)
    }
}

/// A bitmap of which so many bits are set, from its first on.
#[derive(Clone, Copy)]
pub struct Ones {
    pub count: u64,
}

impl Item for Ones {
    ghost use Rattle.volume_format.specs.Items.{ones_byte};

    ghost rule = { λ item. ones_byte item.count };

    ghost limit = { λ _. 2 ^ 40 };

    fn byte(&self, at: u64) -> u8 {
        let rest = self.count.saturating_sub(8 * at);
        if rest < 8 { (1 << rest) - 1 } else { 0xFF }
    }
}

/// A log in which nothing stands.
#[derive(Clone, Copy)]
pub struct EmptyLog;

impl Item for EmptyLog {
    ghost use Rattle.volume_format.specs.Items.{log_byte};

    ghost rule = { λ _. log_byte };

    ghost limit = { λ _. 2 ^ 40 };

    fn byte(&self, _at: u64) -> u8 {
        0xFF
    }
}

// What a unit is compared as.
fn case_of(unit: u16) -> u16
    ensures { result ≡ case_of unit }
{
    match unit {
        0x61..=0x7A | 0xE0..=0xF6 | 0xF8..=0xFE => unit - 0x20,
        0xFF => 0x178,
        0x3B1..=0x3C1 | 0x3C3..=0x3C9 | 0x430..=0x44F => unit - 0x20,
        0x450..=0x45F => unit - 0x50,
        _ => unit,
    }
}

/// The table of case.
#[derive(Clone, Copy)]
pub struct CaseTable;

impl Item for CaseTable {
    ghost use Rattle.volume_format.specs.Items.{case_byte};
    ghost use Rattle.volume_format.specs.Plan.{case_len};

    ghost rule = { λ _. case_byte };

    ghost limit = { λ _. case_len };

    fn byte(&self, at: u64) -> u8 {
        let folded = case_of((at / 2) as u16);
        if at % 2 == 0 {
            (folded % 256) as u8
        } else {
            (folded / 256) as u8
        }
    }
}

// The bitmap of records: 0 to 11, 24 and 25 are taken.
const RECORD_BITS: [u8; 8] = [0xFF, 0x0F, 0, 0x03, 0, 0, 0, 0];

/// The bitmap of the records of a new volume.
#[derive(Clone, Copy)]
pub struct RecordBits;

impl Item for RecordBits {
    ghost use Rattle.volume_format.specs.Items.{record_bits_byte};

    ghost rule = { λ _. record_bits_byte };

    ghost limit = { λ _. 2 ^ 40 };

    fn byte(&self, at: u64) -> u8 {
        byte_at(&RECORD_BITS, at)
    }
}

// The only security descriptor, behind its header: hash 0x1800, id 256, offset 0, size 40.
#[rattlefmt::skip]
const SECURITY_ENTRY: [u8; 40] = [
    0x00, 0x18, 0x00, 0x00, 0x00, 0x01, 0x00, 0x00,
    0x00, 0x00, 0x00, 0x00, 0x00, 0x00, 0x00, 0x00,
    0x28, 0x00, 0x00, 0x00, 0x01, 0x00, 0x00, 0x80,
    0x00, 0x00, 0x00, 0x00, 0x00, 0x00, 0x00, 0x00,
    0x00, 0x00, 0x00, 0x00, 0x00, 0x00, 0x00, 0x00,
];

// The bytes of a block of security descriptors, behind which its copy stands.
const SECURITY_BLOCK: u64 = 262144;

/// The security descriptors, and their copy.
#[derive(Clone, Copy)]
pub struct Security;

impl Item for Security {
    ghost use Rattle.volume_format.specs.Items.{security_byte};

    ghost rule = { λ _. security_byte };

    ghost limit = { λ _. 2 ^ 40 };

    fn byte(&self, at: u64) -> u8 {
        if at < SECURITY_BLOCK {
            byte_at(&SECURITY_ENTRY, at)
        } else {
            byte_at(&SECURITY_ENTRY, at - SECURITY_BLOCK)
        }
    }
}
