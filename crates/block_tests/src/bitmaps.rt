//! Bitmaps: one that `mkntfs` made, and those of the largest volume.
use cluster_bitmap::Bits;
use std::test::Fail;

// The file `$Bitmap` of a volume of 2 MiB after `mkntfs -F -q -s 512 -c 4096` of ntfs-3g 2022.10.3.
// `ntfsinfo -m` tells 511 clusters and 334 free ones.
#[rattlefmt::skip]
const MADE_BY_MKNTFS: [u8; 64] = [
    0xF7, 0x07, 0x00, 0x00, 0x00, 0x00, 0x00, 0x00, 0xF8, 0xFF, 0xFF, 0xFF, 0xFF, 0xFF, 0xFF, 0xFF,
    0xFF, 0xFF, 0xFF, 0xFF, 0xFF, 0x01, 0x00, 0x00, 0x00, 0x00, 0x00, 0x00, 0x00, 0x00, 0x00, 0x80,
    0xFF, 0xFF, 0xFF, 0xFF, 0xFF, 0xFF, 0xFF, 0xFF, 0x00, 0x00, 0x00, 0x00, 0x00, 0x00, 0x00, 0x00,
    0x00, 0x00, 0x00, 0x00, 0x00, 0x00, 0x00, 0x00, 0x00, 0x00, 0x00, 0x00, 0x00, 0x00, 0x00, 0x80,
];

#[test]
fn reads_a_foreign_bitmap(rt: HostRuntime) -> Result<(), Fail> {
    let bits = Bits::load(rt.alloc(), &MADE_BY_MKNTFS, 511)?;
    let told = (bits.count(), bits.count_free());
    // the free runs begin at 3, 11, 169 and 320, and have 1, 56, 86 and 191 clusters
    let found = [
        bits.find_run(1, 0),
        bits.find_run(57, 0),
        bits.find_run(100, 400),
    ];
    assert!(rt; told == (511, 334) && found == [Some(3), Some(169), Some(400)]);
    Ok(())
}

// Takes a range where it lies below the count and all its flags are free.
fn take_free(bits: &mut Bits, at: u64, len: u64) -> bool {
    let count = bits.count();
    if at > count || len > count - at {
        return false;
    }
    'flags: for k in at..at + len {
        if bits.is_set(k) {
            return false;
        }
    }
    bits.take(at, len);
    true
}

// Gives a range back where it lies below the count and all its flags are taken.
fn give_taken(bits: &mut Bits, at: u64, len: u64) -> bool {
    let count = bits.count();
    if at > count || len > count - at {
        return false;
    }
    'flags: for k in at..at + len {
        if !bits.is_set(k) {
            return false;
        }
    }
    bits.give(at, len);
    true
}

#[test]
fn changes_the_largest_volume(rt: HostRuntime) -> Result<(), Fail> {
    let bytes = vec![in rt.alloc(); 0; 1 << 23]?;
    let mut bits = Bits::load(rt.alloc(), &bytes, 1 << 26)?;
    let taken = take_free(&mut bits, (1 << 26) - 100_001, 100_000);
    let given = give_taken(&mut bits, (1 << 26) - 60_000, 1001);
    let free = bits.count_free();
    assert_eq!(rt; (taken, given, free), (true, true, (1 << 26) - 98_999));
    let found = bits.find_run(1001, (1 << 26) - 100_001);
    assert_eq!(rt; found, Some((1 << 26) - 60_000));
    Ok(())
}
