//! Blocks under an update sequence: a record that `ntfscp` stored, and numbers as the Linux drivers count them.
use ntfs_fixup::{FixFault, seal, unseal};
use vol_bytes::{put_u16, u16_at};

// The file record of a file that holds sixty times the text "0123456789", as ntfscp of ntfs-3g stored
// it: its bytes at 0x04, at 0x30 and from 368 to 967, and the ends of its two strides.
fn digits_record() -> [u8; 1024] {
    let mut block = [0; 1024];
    put_u16(&mut block, 0x04, 0x30);
    put_u16(&mut block, 0x06, 3);
    for i in 0..600 {
        block[368 + i] = b'0' + (i % 10) as u8;
    }
    for (at, number) in [(0x30, 4), (0x32, 0x3332), (510, 4), (1022, 4)] {
        put_u16(&mut block, at, number);
    }
    block
}

// The number at a place.
fn number(block: &[u8], at: usize) -> u16 {
    if block.len() >= 2 && at <= block.len() - 2 {
        u16_at(block, at)
    } else {
        0
    }
}

#[test]
fn opens_a_record(rt: HostRuntime) -> Result<(), FixFault> {
    let mut block = digits_record();
    unseal(&mut block)?;
    assert_eq!(rt; (u16_at(&block, 510), u16_at(&block, 1022)), (0x3332, 0));
    seal(&mut block);
    for (at, wanted) in [
        (0x04, 0x30),
        (0x06, 3),
        (0x30, 5),
        (0x32, 0x3332),
        (0x34, 0),
        (510, 5),
        (1022, 5),
    ] {
        assert_eq!(rt; number(&block, at), wanted, "at {at}");
    }
    Ok(())
}

#[test]
fn passes_over_two_numbers(rt: HostRuntime) -> Result<(), FixFault> {
    for (number, next) in [(0, 1), (1, 2), (0xFFFD, 0xFFFE), (0xFFFE, 1), (0xFFFF, 1)] {
        let mut block = digits_record();
        for at in [0x30, 510, 1022] {
            put_u16(&mut block, at, number);
        }
        unseal(&mut block)?;
        seal(&mut block);
        assert_eq!(rt; u16_at(&block, 0x30), next, "after {number}");
    }
    Ok(())
}
