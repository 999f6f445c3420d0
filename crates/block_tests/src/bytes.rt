//! Little-endian numbers, and names as texts that were worked out by hand.
use std::alloc::Global;
use std::test::Fail;
use vol_bytes::{
    TextFault, put_u16, put_u32, put_u64, text_of_units, u16_at, u32_at, u64_at, units_of_text,
};

#[test]
fn numbers_are_little_endian(rt: HostRuntime) {
    let mut bytes = [0xEE; 16];
    put_u16(&mut bytes, 0, 0x0102);
    put_u32(&mut bytes, 2, 0x0304_0506);
    put_u64(&mut bytes, 7, 0x1112_1314_1516_1718);
    let want = [
        0x02, 0x01, 0x06, 0x05, 0x04, 0x03, 0xEE, 0x18, 0x17, 0x16, 0x15, 0x14, 0x13, 0x12, 0x11,
        0xEE,
    ];
    let read = (u16_at(&want, 1), u32_at(&want, 6), u64_at(&want, 8));
    assert!(rt; bytes == want);
    assert_eq!(rt; read, (0x0601, 0x1617_18EE, 0xEE11_1213_1415_1617));
}

// The last two rows have surrogates without a partner.
const NAMES: [(&[u16], &str); 7] = [
    (&[0x44, 0x41, 0x54, 0x41], "DATA"),
    (&[0x61, 0x20, 0x62], "a%0020b"),
    (&[0x25, 0x2F, 0x3A, 0x7F], "%0025%002F%003A%007F"),
    (&[0xE9, 0x20AC], "é€"),
    (&[0xD83D, 0xDE00], "😀"),
    (&[0xD83D, 0x61], "%D83Da"),
    (&[0xDE00, 0xD83D], "%DE00%D83D"),
];

// Whether units are printed so, and read again.
fn is_spelled(alloc: Global, units: &[u16], text: &[u8]) -> Result<bool, TextFault> {
    let printed = text_of_units(alloc, units)?;
    let name = units_of_text(alloc, text)?;
    Ok(printed.as_slice() == text && name.as_slice() == units)
}

#[test]
fn names_are_printed_and_read(rt: HostRuntime) -> Result<(), TextFault> {
    for (units, text) in NAMES {
        assert!(rt; is_spelled(rt.alloc(), units, text.as_bytes())?, "{text}");
    }
    Ok(())
}

// 255 units: a letter, a pair and a space over and again, and three letters more.
#[test]
fn long_names_are_printed_and_read(rt: HostRuntime) -> Result<(), Fail> {
    let mut units = Vec::new(rt.alloc());
    let mut text = Vec::new(rt.alloc());
    for _ in 0..63 {
        units.extend_from_slice(&[0x61, 0xD83D, 0xDE00, 0x20])?;
        text.extend_from_slice("a😀%0020".as_bytes())?;
    }
    units.extend_from_slice(&[0x62, 0x63, 0x64])?;
    text.extend_from_slice(b"bcd")?;
    assert!(rt; is_spelled(rt.alloc(), &units, &text)?);
    Ok(())
}
