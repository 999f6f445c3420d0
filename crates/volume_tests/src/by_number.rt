//! The calls that take a file by its number, on a new volume of 4,096 sectors: a name of a directory, all its names, and
//! bytes of a stream; where its mark and its log lie; and the security descriptor of an id. The disk tells nothing of what it
//! holds, so there is nothing to prove of the volume before a call.
ghost use Rattle.std.specs.Prelude.{◌≡◌, IfOk, false};
ghost use Rattle.mft_table.specs.MirrorClusters.{IsMirrorInside};
ghost use Rattle.mft_table.specs.Mft.{is_mft_broken, mounted_of, view};

use dir_index::{DuplicatedInformation, link_of_key, list, lookup, refresh_entry};
use mark_place::{find_flag, find_log};
use mark_write::Span;
use mft_table::Mft;
use mount_check::mount;
use sparse_io::read_at;
use std::alloc::{AllocError, Global};
use std::test;
use view_index::{descriptor, find_security};
use vol_bytes::{Name, Octets, units_of_text};
use vol_disk::{Disk, Failed, MemDisk};
use vol_stage::Stage;
use volume_format::{FormatOptions, format};

const ROOT: u64 = 5;

// A disk of whose contents nothing is told.
#[derive(Drop)]
struct Untold<D: Disk + Drop> {
    inner: D,
}

impl<D: Disk + Drop> Disk for Untold<D> {
    ghost use Rattle.std.specs.Prelude.{None};

    ghost now = { λ disk. None };

    ghost settled = { λ disk. None };

    ghost fenced = { λ disk. None };

    ghost size = { λ disk. D.Disk.size disk.inner };

    ghost faults = { λ disk. D.Disk.faults disk.inner };

    ghost written = { λ disk. D.Disk.written disk.inner };

    ghost fetched = { λ disk. D.Disk.fetched disk.inner };

    ghost late = { λ disk. D.Disk.late disk.inner };

    ghost told_length = { λ disk. tt };

    ghost size_fits = { λ disk. D.Disk.size_fits disk.inner };

    fn sectors(&self) -> u64 {
        self.inner.sectors()
    }

    fn read(&mut self, sector: u64, into: &mut [u8; 512]) -> Result<(), Failed> {
        self.inner.read(sector, into)
    }

    fn write(&mut self, sector: u64, from: &[u8; 512]) -> Result<(), Failed> {
        self.inner.write(sector, from)
    }

    fn barrier(&mut self) -> Result<(), Failed> {
        self.inner.barrier()
    }

    fn settle(&mut self) -> Result<(), Failed> {
        self.inner.settle()
    }
}

// A new volume.
fn volume(alloc: Global) -> Result<Untold<MemDisk>, test::Fail> {
    let mut inner = MemDisk::new(alloc, vec![in alloc; 0; 4096 * 512]?);
    if inner.reserve(4096).is_err() {
        return Err(AllocError.into());
    }
    let mut disk = Untold { inner };
    let options = FormatOptions {
        sectors: 4096,
        cluster: 4096,
        serial: 1,
        label: Name::from_vec(vec![in alloc; 0x41u16; 1]?),
    };
    format(alloc, &mut disk, &options)?;
    Ok(disk)
}

// Its table of records in use.
fn records_on(
    alloc: Global,
    disk: &mut Untold<MemDisk>,
) -> Result<Mft<'_, Untold<MemDisk>>, test::Fail>
    ensures untold { IfOk result (λ mft. (view ⟦<Untold<MemDisk> as Disk>⟧ mft).told ≡ false) }
    ensures mirror { IfOk result (λ mft. IsMirrorInside (mounted_of ⟦<Untold<MemDisk> as Disk>⟧ mft)) }
    ensures sound { IfOk result (λ mft. is_mft_broken ⟦<Untold<MemDisk> as Disk>⟧ mft ≡ false) }
{
    let mounted = mount(alloc, disk)?;
    Ok(Mft::resume(Stage::over(alloc, disk), mounted))
}

// Lets it go again.
fn let_go(mft: Mft<'_, Untold<MemDisk>>) {
    let (stage, _) = mft.into_parts();
    let _ = stage.finish();
}

fn name(alloc: Global, text: &str) -> Result<Name, test::Fail> {
    Ok(units_of_text(alloc, text.as_bytes())?)
}

// The file that a name of the root leads to.
fn child(alloc: Global, disk: &mut Untold<MemDisk>, text: &str) -> Result<Option<u64>, test::Fail> {
    let name = name(alloc, text)?;
    let mut mft = records_on(alloc, disk)?;
    let found = lookup(alloc, &mut mft, ROOT, &name);
    let_go(mft);
    Ok(found?.map(|link| link.child))
}

// The files that the names of the root lead to, in name order.
fn children(alloc: Global, disk: &mut Untold<MemDisk>) -> Result<Vec<u64>, test::Fail> {
    let mut mft = records_on(alloc, disk)?;
    let links = list(alloc, &mut mft, ROOT);
    let_go(mft);
    let mut children = Vec::new(alloc);
    for link in &links? {
        children.push(link.child)?;
    }
    Ok(children)
}

// So many bytes of the table of case from byte `at` on.
fn case(
    alloc: Global,
    disk: &mut Untold<MemDisk>,
    at: u64,
    len: usize,
) -> Result<Octets, test::Fail> {
    let unnamed = Name::from_vec(Vec::new(alloc));
    let mut mft = records_on(alloc, disk)?;
    let bytes = read_at(alloc, &mut mft, 10, &unnamed, at, len);
    let_go(mft);
    Ok(bytes?)
}

// Whether the volume has a security descriptor of an id, and that descriptor.
fn security(
    alloc: Global,
    disk: &mut Untold<MemDisk>,
    id: u32,
) -> Result<(bool, Option<Octets>), test::Fail> {
    let mut mft = records_on(alloc, disk)?;
    let there = find_security(alloc, &mut mft, id);
    let bytes = descriptor(alloc, &mut mft, id);
    let_go(mft);
    Ok((there?, bytes?))
}

const DESCRIPTOR: [u8; 20] = [
    1, 0, 0, 0x80, 0, 0, 0, 0, 0, 0, 0, 0, 0, 0, 0, 0, 0, 0, 0, 0,
];

// A new volume has the descriptor of the id 256, of a revision 1 and the control word 0x8000, and no other.
#[test]
fn a_security_descriptor_is_found(rt: HostRuntime) -> Result<(), test::Fail> {
    let mut disk = volume(rt.alloc())?;
    for (id, wanted) in [
        (256, Some(DESCRIPTOR.as_slice())),
        (0, None),
        (255, None),
        (257, None),
        (u32::MAX, None),
    ] {
        let (there, bytes) = security(rt.alloc(), &mut disk, id)?;
        let told = bytes.as_ref().map(Octets::as_slice);
        assert!(rt; there == wanted.is_some() && told == wanted, "{id}");
    }
    Ok(())
}

#[test]
fn a_name_is_found_in_the_root(rt: HostRuntime) -> Result<(), test::Fail> {
    let mut disk = volume(rt.alloc())?;
    for (text, wanted) in [
        ("$MFTMirr", Some(1)),
        ("$upcase", Some(10)),
        (".", Some(5)),
        ("$MFTMir", None),
        ("~", None),
    ] {
        assert_eq!(rt; child(rt.alloc(), &mut disk, text)?, wanted, "{text}");
    }
    Ok(())
}

#[test]
fn the_root_is_listed(rt: HostRuntime) -> Result<(), test::Fail> {
    let mut disk = volume(rt.alloc())?;
    let listed = children(rt.alloc(), &mut disk)?;
    assert_eq!(rt;
        listed.as_slice(),
        [4, 8, 6, 7, 11, 2, 0, 1, 9, 10, 3, 5].as_slice()
    );
    Ok(())
}

#[test]
fn the_table_of_case_is_read(rt: HostRuntime) -> Result<(), test::Fail> {
    let mut disk = volume(rt.alloc())?;
    let rows: [(u64, usize, &[u8]); 2] = [
        (0xC2, 4, b"\x41\x00\x42\x00"),
        (131_070, 10, b"\xFF\xFF"),
    ];
    for (at, len, wanted) in rows {
        let read = case(rt.alloc(), &mut disk, at, len)?;
        assert_eq!(rt; read.as_slice(), wanted);
    }
    let whole = case(rt.alloc(), &mut disk, 0, 200_000)?;
    assert_eq!(rt; whole.as_slice().len(), 131_072);
    Ok(())
}

fn long_key(alloc: Global) -> Result<Vec<u8>, AllocError> {
    let mut key = Vec::from_slice(alloc, &[5, 0, 0, 0, 0, 0, 5, 0])?;
    key.resize(0x40, 0)?;
    key.extend_from_slice(&[255, 1])?;
    key.resize(66 + 2 * 255, 0x61)?;
    Ok(key)
}

// The longest name there is, by the value of its `$FILE_NAME`.
#[test]
fn a_long_name_is_read(rt: HostRuntime) -> Result<(), test::Fail> {
    let key = long_key(rt.alloc())?;
    let Some(link) = link_of_key(rt.alloc(), &key, 77)? else {
        return Err("no name")?;
    };
    assert_eq!(rt; (link.parent, link.space, link.child), (ROOT, 1, 77));
    assert!(rt; link.name.as_slice() == [0x6161; 255].as_slice());
    Ok(())
}

// The sectors of spans, the first of each and how many.
fn spans_of(alloc: Global, log: &[Span]) -> Result<Vec<(u64, u64)>, AllocError> {
    let mut spans = Vec::new(alloc);
    for span in log {
        spans.push((span.first, span.len))?;
    }
    Ok(spans)
}

// The table begins with cluster 2, its mirror with cluster 19, and the log has the 16 clusters from 20 on, of 8 sectors each: so the
// layout of a new volume says. The flags stand behind the version, which is 3.1.
#[test]
fn the_mark_and_the_log_lie_where_a_new_volume_has_them(rt: HostRuntime) -> Result<(), test::Fail> {
    let mut disk = volume(rt.alloc())?;
    let mut mft = records_on(rt.alloc(), &mut disk)?;
    let flag = find_flag(&mut mft);
    let log = find_log(rt.alloc(), &mut mft);
    let_go(mft);
    let Some(flag) = flag? else {
        return Err("no flag")?;
    };
    assert_eq!(rt; (flag.home, flag.copy), (22, 158));
    for sector in [flag.home, flag.copy] {
        let at = (sector as usize)
            .saturating_mul(512)
            .saturating_add(flag.at);
        let told = disk.inner.contents().get(at.saturating_sub(2)..);
        assert!(rt; told.unwrap_or(&[]).starts_with(&[3, 1, 0, 0]));
    }
    assert_eq!(rt;
        spans_of(rt.alloc(), &log?)?.as_slice(),
        [(160, 128)].as_slice()
    );
    Ok(())
}

// What an entry is to repeat of its file, and the bytes that then stand from 0x08 up to 0x3C of its key: four times, two sizes and
// the flags, each with its lowest byte first. The flags of the system's own files are 6, of which both bits are shown.
const TOLD: DuplicatedInformation = DuplicatedInformation {
    times: [0x0101, 0x0202, 0x0303, 0x0404],
    allocated: 0x0001_0000,
    real: 0xABCD,
    flags: 0x0021,
};

const REPEATED: [u8; 52] = [
    1, 1, 0, 0, 0, 0, 0, 0, 2, 2, 0, 0, 0, 0, 0, 0, 3, 3, 0, 0, 0, 0, 0, 0, 4, 4, 0, 0, 0, 0, 0, 0, // times
    0, 0, 1, 0, 0, 0, 0, 0, 0xCD, 0xAB, 0, 0, 0, 0, 0, 0, 0x21, 0, 0, 0, // sizes and flags
];

// The entry of a name in a directory tells that, on the disk.
fn refresh(
    alloc: Global,
    disk: &mut Untold<MemDisk>,
    dir: u64,
    text: &str,
) -> Result<(), test::Fail> {
    let name = name(alloc, text)?;
    let mut mft = records_on(alloc, disk)?;
    if dir >= mft.mounted().records.count() {
        let_go(mft);
        return Err("no such record")?;
    }
    let done = refresh_entry(alloc, &mut mft, dir, name.as_slice(), &TOLD);
    let written = mft.commit();
    let_go(mft);
    done?;
    written?;
    Ok(())
}

// Whether these bytes stand at a place.
fn has_at(block: &[u8], at: usize, wanted: &[u8]) -> bool {
    match block.get(at..) {
        Some(rest) => rest.starts_with(wanted),
        None => false,
    }
}

// How often a name with that stands in a block, as the value of a `$FILE_NAME`, which begins with a multiple of eight.
fn told_in(block: &[u8], units: &[u8]) -> usize {
    let mut times: usize = 0;
    for place in 0..block.len() / 8 {
        let at = place.saturating_mul(8);
        if has_at(block, at.saturating_add(0x42), units)
            && has_at(block, at.saturating_add(0x08), &REPEATED)
        {
            times = times.saturating_add(1);
        }
    }
    times
}

// The same in all blocks that begin so.
fn told_on(all: &[u8], mark: &[u8], units: &[u8]) -> usize {
    let mut times: usize = 0;
    for block in all.chunks(1024) {
        if block.starts_with(mark) {
            times = times.saturating_add(told_in(block, units));
        }
    }
    times
}

// The names of the root of a new volume stand in a record of its index, `$Bitmap` among the first, and those of `$Extend` in the root
// of its index, which a record of the table holds: so its layout says.
#[test]
fn an_entry_tells_its_file_anew(rt: HostRuntime) -> Result<(), test::Fail> {
    let rows: [(u64, &str, &[u8], &[u8]); 2] = [
        (5, "$Bitmap", b"$\0B\0i\0t\0m\0a\0p\0", b"INDX"),
        (11, "$ObjId", b"$\0O\0b\0j\0I\0d\0", b"FILE"),
    ];
    for (dir, text, units, mark) in rows {
        let mut disk = volume(rt.alloc())?;
        refresh(rt.alloc(), &mut disk, dir, text)?;
        assert_eq!(rt; told_on(disk.inner.contents(), mark, units), 1, "{text}");
        assert_eq!(rt; children(rt.alloc(), &mut disk)?.len(), 12);
    }
    Ok(())
}

#[test]
fn no_entry_of_another_name_is_told(rt: HostRuntime) -> Result<(), test::Fail> {
    let mut disk = volume(rt.alloc())?;
    let before = Octets::from_vec(Vec::from_slice(rt.alloc(), disk.inner.contents())?);
    refresh(rt.alloc(), &mut disk, ROOT, "$mftmirr")?;
    assert!(rt; disk.inner.contents() == before.as_slice());
    Ok(())
}
