//! Rows of the table of case of a volume that `mkntfs` of ntfs-3g made.

use std::alloc::Global;
use std::test::Fail;
use upcase::UpCase;

// Rows of the table; each other unit is compared as itself here.
fn folded(unit: u16) -> u16 {
    match unit {
        0x61..=0x7A | 0xE0..=0xF6 | 0xF8..=0xFE => unit - 0x20, // Latin
        0xFF => 0x178,
        0x101..=0x12F if unit % 2 == 1 => unit - 1,
        0x250 => 0x2C6F,
        0x3B1..=0x3C1 | 0x3C3..=0x3CB => unit - 0x20, // Greek
        0x430..=0x44F => unit - 0x20, // Cyrillic
        0x450..=0x45F => unit - 0x50,
        0x561..=0x586 => unit - 0x30, // Armenian
        0x1F00..=0x1F07 => unit + 8, // Greek with breathings
        0x24D0..=0x24E9 => unit - 0x1A, // letters in circles
        0x2D00..=0x2D25 => unit - 0x1C60, // Georgian
        0xFF41..=0xFF5A => unit - 0x20, // letters of full width
        _ => unit,
    }
}

/// That table.
pub fn table(alloc: Global) -> Result<UpCase, Fail> {
    let mut bytes = Vec::new(alloc);
    for unit in 0..=u16::MAX {
        for byte in folded(unit).to_le_bytes() {
            bytes.push(byte)?;
        }
    }
    Ok(UpCase::load(alloc, &bytes)?)
}

#[test]
fn units_are_folded(rt: HostRuntime) -> Result<(), Fail> {
    let case = table(rt.alloc())?.share()?;
    for (unit, upper) in [
        (0x61, 0x41),
        (0x42, 0x42),
        (0x5F, 0x5F),
        (0x7A, 0x5A),
        (0xE9, 0xC9),
        (0xFF, 0x178),
        (0x101, 0x100),
        (0x250, 0x2C6F),
        (0x3C2, 0x3C2), // the sigma of a word's end stands for itself
        (0x3C3, 0x3A3),
        (0x451, 0x401),
        (0x2D00, 0x10A0),
        (0xFF41, 0xFF21),
        (0xFFFF, 0xFFFF),
    ] {
        assert_eq!(rt; case.fold(unit), upper, "unit {unit}");
    }
    Ok(())
}
