//! The word `label`, on a volume of which record 0 and record 3 stand as a format lays them out.
use laid_volumes::cases::{only_prints, prints};
use laid_volumes::given::{boot_sector, disk_with};
use std::alloc::{AllocError, Global};
use std::test;
use vol_bytes::{put_u16, put_u32, put_u64, u16_at};
use vol_disk::{CallKind, Fail, FailDisk, MemDisk};

const NAME: u8 = 0x60;

const INFORMATION: u8 = 0x70;

// The bytes at which the records 0 and 3 begin.
const RECORDS: [usize; 2] = [8192, 8192 + 3072];

// A byte of the boot sector that is zero as it is.
const ZERO: usize = 0x54;

const TEXT: &str = "label DATA\nversion 3.1\n";

// A resident attribute without a name, with the first 16 bytes of this value.
fn resident(kind: u8, id: u8, value: &[u8]) -> [u8; 40] {
    let len = value.len().min(16);
    let mut attribute = [0; 40];
    attribute[0x00] = kind;
    attribute[0x04] = 40;
    attribute[0x0E] = id;
    attribute[0x10] = len as u8;
    attribute[0x14] = 24;
    attribute[24..24 + len].copy_from_slice(&value[..len]);
    attribute
}

// The version 3.1, in the first so many of its twelve bytes.
fn information(len: usize) -> [u8; 40] {
    let value = [0, 0, 0, 0, 0, 0, 0, 0, 3, 1, 0, 0];
    resident(INFORMATION, 3, &value[..len.min(12)])
}

// A name of 255 units: fifty-one times `a`, a space, a pair of surrogates and a slash.
fn long_name(alloc: Global) -> Result<Vec<u8>, AllocError> {
    let mut attribute = [0; 24].to_vec(alloc)?;
    put_u32(&mut attribute, 0x00, u32::from(NAME));
    put_u32(&mut attribute, 0x04, 536);
    put_u16(&mut attribute, 0x0E, 1);
    put_u32(&mut attribute, 0x10, 510);
    put_u16(&mut attribute, 0x14, 24);
    for _ in 0..51 {
        attribute.extend_from_slice(b"a\0 \0\x3D\xD8\x00\xDE/\0")?;
    }
    attribute.extend_from_slice(b"\0\0")?;
    Ok(attribute)
}

// The stream of the table, 16 clusters from cluster 2 on.
fn table_stream() -> [u8; 72] {
    let mut attribute = [0; 72];
    attribute[0x00] = 0x80;
    attribute[0x04] = 72;
    attribute[0x08] = 1;
    attribute[0x0A] = 0x40;
    attribute[0x18] = 15;
    attribute[0x20] = 0x40;
    put_u64(&mut attribute, 0x28, 65_536);
    put_u64(&mut attribute, 0x30, 65_536);
    put_u64(&mut attribute, 0x38, 65_536);
    attribute[0x40..0x44].copy_from_slice(b"\x11\x10\x02\0");
    attribute
}

// A record of these attributes as it is stored, with update sequence number 1.
fn stored(attributes: &[u8]) -> [u8; 1024] {
    let len = attributes.len().min(960);
    let mut area = [0xFF; 968];
    area[..len].copy_from_slice(&attributes[..len]);
    let mut block = [0; 1024];
    block[..4].copy_from_slice(b"FILE");
    block[0x04] = 0x30;
    block[0x06] = 3;
    block[0x10] = 1;
    block[0x12] = 1;
    block[0x14] = 0x38;
    block[0x16] = 1;
    put_u32(&mut block, 0x18, 0x40 + len as u32);
    block[0x1D] = 4;
    block[0x28] = 4;
    block[0x38..].copy_from_slice(&area);
    block[0x30] = 1;
    for (place, end) in [(0x32, 0x1FE), (0x34, 0x3FE)] {
        let last = u16_at(&block, end);
        put_u16(&mut block, place, last);
        put_u16(&mut block, end, 1);
    }
    block
}

// The volume whose record 3 has these attributes, with the byte at one place zero.
fn volume(alloc: Global, attributes: &[u8], zeroed: usize) -> Result<MemDisk, test::Fail> {
    let mut image = boot_sector(0x44, 0xF4).to_vec(alloc)?;
    image.resize(RECORDS[0], 0)?;
    image.extend_from_slice(&stored(&table_stream()))?;
    image.resize(RECORDS[1], 0)?;
    image.extend_from_slice(&stored(attributes))?;
    image.resize(16_384 * 512, 0)?;
    if let Some(byte) = image.get_mut(zeroed) {
        *byte = 0;
    }
    disk_with(alloc, image)
}

// The volume with this name.
fn named(alloc: Global, name: &[u8]) -> Result<MemDisk, test::Fail> {
    let attributes = [resident(NAME, 1, name), information(12)].concat(alloc)?;
    volume(alloc, &attributes, ZERO)
}

#[test]
fn label_prints_or_refuses(rt: HostRuntime) -> Result<(), test::Fail> {
    let name = resident(NAME, 1, b"D\0A\0T\0A\0");
    let other = resident(NAME, 2, b"O\0T\0H\0E\0R\0");
    let version = information(12);
    let cut = information(11);
    let rows: [(usize, &[[u8; 40]], u8, &str); 8] = [
        (ZERO, &[name, version], 0, TEXT),
        (RECORDS[0], &[name, version], 3, "refused S2 0\n"),
        (RECORDS[1], &[name, version], 3, "refused S3 3\n"),
        (ZERO, &[name], 3, "refused S14 3\n"),
        (ZERO, &[name, cut], 3, "refused S14 3\n"),
        (0x1FE, &[name, version], 3, "refused S1 1\n"),
        (ZERO, &[version], 0, "label\nversion 3.1\n"),
        (ZERO, &[name, other, version], 0, TEXT),
    ];
    for (zeroed, attributes, status, text) in rows {
        let mut disk = volume(rt.alloc(), &attributes.concat(rt.alloc())?, zeroed)?;
        only_prints(rt.alloc(), "label", &mut disk, status, text)?;
    }
    Ok(())
}

// The last row has half a unit too many.
#[test]
fn label_prints_any_name(rt: HostRuntime) -> Result<(), test::Fail> {
    let table: [(&[u8], &str); 8] = [
        (b"D\0A\0T\0A\0", TEXT),
        (b"", "label\nversion 3.1\n"),
        (b"a\0 \0b\0", "label a%0020b\nversion 3.1\n"),
        (
            b"%\0/\0:\0\x7F\0",
            "label %0025%002F%003A%007F\nversion 3.1\n",
        ),
        (b"\xE9\0\xAC\x20", "label é€\nversion 3.1\n"),
        (b"\x3D\xD8\x00\xDE", "label 😀\nversion 3.1\n"),
        (b"\x3D\xD8a\0\x00\xDE", "label %D83Da%DE00\nversion 3.1\n"),
        (b"D\0A\0T\0A\0x", TEXT),
    ];
    for (name, text) in table {
        let mut disk = named(rt.alloc(), name)?;
        only_prints(rt.alloc(), "label", &mut disk, 0, text)?;
    }
    Ok(())
}

#[test]
fn label_prints_a_long_name(rt: HostRuntime) -> Result<(), test::Fail> {
    let mut attributes = long_name(rt.alloc())?;
    attributes.extend_from_slice(&information(12))?;
    let mut text = String::new(rt.alloc());
    text.push_str("label ")?;
    for _ in 0..51 {
        text.push_str("a%0020😀%002F")?;
    }
    text.push_str("\nversion 3.1\n")?;
    let mut disk = volume(rt.alloc(), &attributes, ZERO)?;
    only_prints(rt.alloc(), "label", &mut disk, 0, &text)
}

#[test]
fn label_makes_five_reads(rt: HostRuntime) -> Result<(), test::Fail> {
    for number in 1..=6 {
        let (status, text) = if number == 6 { (0, TEXT) } else { (6, "") };
        let fail = Fail {
            kind: CallKind::Read,
            number,
            lands: false,
        };
        let inner = named(rt.alloc(), b"D\0A\0T\0A\0")?;
        let mut disk = FailDisk::new(inner, vec![in rt.alloc(); fail]?);
        prints(rt.alloc(), "label", &mut disk, status, text)?;
        assert!(rt; disk.inner().writes().is_empty(), "read {number}");
    }
    Ok(())
}
