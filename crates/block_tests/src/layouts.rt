//! Flags of volumes that `mkntfs` of ntfs-3g made, and of the documentation; units.

use ntfs_def::{is_in_use, is_packed, read_units};
use std::alloc::AllocError;

// The first 24 bytes of records 3 ($Volume), 5 (the root) and 16 of a volume of 8 MiB that `mkntfs -F -s 512 -c 4096`
// made; `ntfscat` tells that of their bits in the bitmap of $MFT those of 3 and 5 are set. The last row is the first
// one under the mark that the documentation gives for a record that was found torn.
#[test]
fn records_in_use(rt: HostRuntime) {
    for (block, in_use) in [
        (
            b"FILE\x30\0\x03\0\0\0\0\0\0\0\0\0\x03\0\x01\0\x38\0\x01\0",
            true,
        ),
        (
            b"FILE\x30\0\x03\0\0\0\0\0\0\0\0\0\x05\0\x01\0\x38\0\x03\0",
            true,
        ),
        (
            b"FILE\x30\0\x03\0\0\0\0\0\0\0\0\0\x10\0\0\0\x38\0\0\0",
            false,
        ),
        (
            b"BAAD\x30\0\x03\0\0\0\0\0\0\0\0\0\x03\0\x01\0\x38\0\x01\0",
            false,
        ),
    ] {
        let number = block[0x10];
        assert_eq!(rt; is_in_use(block), in_use, "record {number}");
    }
}

// The first row is the $DATA of a file that `ntfscp` put on a volume of `mkntfs -C`, as `ntfsinfo -v` tells it. The
// others are the documentation's: encrypted, sparse, and the root of a directory whose new files are compressed.
#[test]
fn packed_attributes(rt: HostRuntime) {
    for (kind, flags, packed) in [
        (0x80, 0x0001, true),
        (0x80, 0x4000, true),
        (0x80, 0x8000, false),
        (0x90, 0x0001, false),
    ] {
        assert_eq!(rt; is_packed(kind, flags), packed, "flags {flags} of {kind}");
    }
}

// A long row of units, with an odd byte behind it: the lower byte stands first.
#[test]
fn units_are_read(rt: HostRuntime) -> Result<(), AllocError> {
    let mut bytes = [1; 4097];
    bytes[4095] = 0x80;
    let units = read_units(rt.alloc(), &bytes)?;
    assert!(rt; units.len() == 2048 && units.last() == Some(&0x8001));
    Ok(())
}
