//! New volumes on a disk of 4,096 sectors. Where things lie was computed by hand from the table of items: the first three
//! items have 8,192, 65,536 and 8 bytes, each rounded up to clusters, and so on.
use std::alloc::{AllocError, Global};
use std::test;
use vol_bytes::Name;
use vol_disk::{CallKind, Fail, FailDisk, MemDisk};
use volume_format::{FormatNo, FormatOptions, format};

const SECTORS: usize = 4096;

// So many sectors, clusters of so many bytes, and a label of so many letters A.
fn options(
    alloc: Global,
    sectors: u64,
    cluster: u32,
    units: usize,
) -> Result<FormatOptions, AllocError> {
    Ok(FormatOptions {
        sectors,
        cluster,
        serial: 0x0123_4567_89AB_CDEF,
        label: Name::from_vec(vec![in alloc; 0x41u16; units]?),
    })
}

// A disk on which each byte is EE, with room for a volume.
fn disk(rt: &HostRuntime) -> Result<MemDisk, AllocError> {
    let mut disk = MemDisk::new(rt.alloc(), vec![in rt.alloc(); 0xEE; 512 * SECTORS]?);
    match disk.reserve(SECTORS) {
        Ok(()) => Ok(disk),
        Err(_) => Err(AllocError),
    }
}

// Whether these bytes stand at a place.
fn has_at(all: &[u8], at: usize, wanted: &[u8]) -> bool {
    at <= all.len() && all[at..].starts_with(wanted)
}

// The cluster size, the number of clusters, and the first clusters of `$MFT` and of its mirror.
const SIZES: [(u32, u64, u64, u64); 4] = [
    (512, 4096, 16, 145),
    (1024, 2048, 8, 73),
    (2048, 1024, 4, 37),
    (4096, 512, 2, 19),
];

// The volume that is made on such a disk, and how many clusters are told.
fn made(rt: &HostRuntime, cluster: u32, units: usize) -> Result<(MemDisk, u64), test::Fail> {
    let mut disk = disk(rt)?;
    let options = options(rt.alloc(), 4096, cluster, units)?;
    let clusters = format(rt.alloc(), &mut disk, &options)?;
    Ok((disk, clusters))
}

// Bytes of each boot sector: the sectors of the volume, the sizes of a record and of an index record, and the serial number.
const BOOT: [(usize, &[u8]); 5] = [
    (0, b"\xEB\x52\x90NTFS    \x00\x02"),
    (0x28, &[0x00, 0x10, 0, 0, 0, 0, 0, 0]),
    (0x40, &[0xF6, 0, 0, 0, 0xF4, 0, 0, 0]),
    (0x48, b"\xEF\xCD\xAB\x89\x67\x45\x23\x01\x00"),
    (0x1FE, b"\x55\xAA\x00"),
];

// Whether a boot sector tells the sectors of a cluster, and where the table and its mirror begin.
fn tells(all: &[u8], cluster: u32, mft: u64, mirror: u64) -> bool {
    has_at(all, 0x0D, &(cluster / 512).to_le_bytes()[..1])
        && has_at(all, 0x30, &mft.to_le_bytes())
        && has_at(all, 0x38, &mirror.to_le_bytes())
}

#[test]
fn boot_sectors_tell_the_volume(rt: HostRuntime) -> Result<(), test::Fail> {
    for (cluster, clusters, mft, mirror) in SIZES {
        let (disk, told) = made(&rt, cluster, 1)?;
        assert_eq!(rt; (told, disk.settles().len()), (clusters, 1));
        let all = disk.contents();
        assert!(rt; tells(all, cluster, mft, mirror), "{cluster}");
        for (at, bytes) in BOOT {
            assert!(rt; has_at(all, at, bytes), "{at}");
        }
    }
    Ok(())
}

// Where items stand: a place, and by how many clusters it is farther; and the bytes there.
const ITEMS: [(usize, usize, &[u8]); 12] = [
    // record 0 and its copy, record 24, and record 26, in which nothing stands
    (8192, 0, b"FILE"),
    (73_728, 1, b"FILE"),
    (8192 + 24 * 1024, 0, b"FILE"),
    (8192 + 26 * 1024, 0, &[0; 1024]),
    // the label in record 3
    (8192 + 3 * 1024 + 0x118, 0, b"A\0A\0A\0A\0"),
    // the bitmap of records, the log, the table of case, the security descriptor, and the root's index record
    (73_728, 0, b"\xFF\x0F\x00\x03\x00\x00\x00\x00\x00"),
    (77_824, 1, b"\xFF\xFF\xFF\xFF"),
    (143_360 + 0xC2, 2, b"\x41\x00\x42\x00"),
    (274_432, 2, b"\x00\x18\x00\x00\x00\x01\x00\x00"),
    (536_576, 2, b"\x00\x18\x00\x00\x00\x01\x00\x00"),
    (536_576, 3, b"INDX"),
    // behind the last item nothing was written
    (540_672 - 2, 3, b"\x01\x00\xEE\xEE"),
];

#[test]
fn items_stand_where_the_table_of_items_says(rt: HostRuntime) -> Result<(), test::Fail> {
    for cluster in [512, 1024, 2048, 4096] {
        let (disk, _) = made(&rt, cluster, 32)?;
        for (at, farther, bytes) in ITEMS {
            let place = at.saturating_add(farther.saturating_mul(cluster as usize));
            assert!(rt; has_at(disk.contents(), place, bytes), "{at}");
        }
    }
    Ok(())
}

// The bits of the clusters of all items are set: 135 of 512 on clusters of 4,096 bytes.
#[test]
fn clusters_of_items_are_taken(rt: HostRuntime) -> Result<(), test::Fail> {
    let (disk, _) = made(&rt, 4096, 1)?;
    assert!(rt; has_at(disk.contents(), 36 * 4096 + 14, b"\xFF\xFF\x7F\x00\x00"));
    Ok(())
}

#[test]
fn options_have_ranges(rt: HostRuntime) -> Result<(), AllocError> {
    for (sectors, cluster, units, wanted) in [
        (2047, 512, 1, false),
        (2048, 512, 1, true),
        (1 << 40, 512, 1, false),
        (4096, 256, 1, false),
        (4096, 511, 1, false),
        (4096, 4096, 1, true),
        (4096, 8192, 1, false),
        (4096, 512, 0, false),
        (4096, 512, 32, true),
        (4096, 512, 33, false),
        (1 << 26, 512, 1, true),
        ((1 << 26) + 1, 512, 1, false),
        ((1 << 27) + 1, 1024, 1, true),
        ((1 << 27) + 2, 1024, 1, false),
        (1 << 29, 4096, 1, true),
        ((1 << 29) + 1, 4096, 1, false),
    ] {
        let options = options(rt.alloc(), sectors, cluster, units)?;
        assert_eq!(rt;
            options.is_in_range(1 << 29),
            wanted,
            "{sectors} {cluster} {units}"
        );
    }
    Ok(())
}

#[test]
fn options_out_of_range_write_nothing(rt: HostRuntime) -> Result<(), AllocError> {
    let mut disk = disk(&rt)?;
    let options = options(rt.alloc(), 4097, 512, 1)?;
    let refused = format(rt.alloc(), &mut disk, &options);
    let calls = (disk.writes().len(), disk.settles().len());
    assert!(rt; refused == Err(FormatNo::Options) && calls == (0, 0));
    Ok(())
}

// What comes where a call of the disk fails, and how many writes were done.
fn failing(
    rt: &HostRuntime,
    options: &FormatOptions,
    kind: CallKind,
    number: u64,
) -> Result<(Result<u64, FormatNo>, usize), AllocError> {
    let fail = Fail {
        kind,
        number,
        lands: false,
    };
    let mut disk = FailDisk::new(disk(rt)?, vec![in rt.alloc(); fail]?);
    let failed = format(rt.alloc(), &mut disk, options);
    Ok((failed, disk.inner().writes().len()))
}

// Each write of all, on clusters of 512 bytes, and the settle.
#[test]
fn each_failing_call_is_the_devices(rt: HostRuntime) -> Result<(), AllocError> {
    let options = options(rt.alloc(), 4096, 512, 1)?;
    for done in 0..1059 {
        let told = failing(&rt, &options, CallKind::Write, done as u64 + 1)?;
        assert!(rt; told == (Err(FormatNo::Device), done), "{done}");
    }
    let told = failing(&rt, &options, CallKind::Settle, 1)?;
    assert!(rt; told == (Err(FormatNo::Device), 1059));
    Ok(())
}
