use crate::{FrameDisk, RangeFile};
use std::alloc::{AllocError, Global};
use std::fs::{self, OpenOptions};
use std::{env, io};
use vol_disk::{CallKind, Disk, Fail, FailDisk, Failed, MemDisk};

// The sector of a number, which stands in its first two bytes, and 7 behind.
fn numbered_sector(number: u64) -> [u8; 512] {
    let mut bytes = [7; 512];
    bytes[0] = (number % 256) as u8;
    bytes[1] = (number / 256 % 256) as u8;
    bytes
}

// A disk of so many of them.
fn disk_of(alloc: Global, sectors: u64) -> Result<MemDisk, AllocError> {
    let mut bytes = Vec::new(alloc);
    for number in 0..sectors {
        bytes.extend_from_slice(&numbered_sector(number))?;
    }
    let whole = bytes.len() / 512 * 512;
    bytes.truncate(whole);
    Ok(MemDisk::new(alloc, bytes))
}

// A sector that is read, where the disk has it.
fn read<D: Disk>(disk: &mut D, number: u64) -> Result<[u8; 512], Failed> {
    let mut into = [0; 512];
    if number >= disk.sectors() {
        return Err(Failed);
    }
    disk.read(number, &mut into)?;
    Ok(into)
}

// A sector that is written, where the disk has it.
fn write<D: Disk>(disk: &mut D, number: u64, from: &[u8; 512]) -> Result<(), Failed> {
    if number >= disk.sectors() {
        return Err(Failed);
    }
    disk.write(number, from)
}

// Whether a sector is read as that of its number.
fn gives<D: Disk>(disk: &mut D, number: u64) -> bool {
    read(disk, number) == Ok(numbered_sector(number))
}

// Whether each is, from the first to the last and back.
fn gives_numbers<D: Disk>(disk: &mut D, sectors: u64) -> bool {
    (0..sectors).all(|number| gives(disk, number))
        && (0..sectors).rev().all(|number| gives(disk, number))
}

#[test]
fn sectors_are_those_of_the_disk(rt: HostRuntime) -> Result<(), AllocError> {
    for sectors in [1, 8, 9, 127, 1_300] {
        let mut disk = FrameDisk::new(rt.alloc(), disk_of(rt.alloc(), sectors)?)?;
        assert_eq!(rt; disk.sectors(), sectors);
        assert!(rt; gives_numbers(&mut disk, sectors), "{sectors} sectors");
    }
    Ok(())
}

#[test]
fn a_sector_that_was_written_is_read_anew(rt: HostRuntime) -> Result<(), AllocError> {
    let mut inner = disk_of(rt.alloc(), 24)?;
    assert_eq!(rt; inner.reserve(1), Ok(()));
    let mut disk = FrameDisk::new(rt.alloc(), inner)?;
    assert!(rt; gives_numbers(&mut disk, 24));
    assert_eq!(rt; write(&mut disk, 9, &[1; 512]), Ok(()));
    assert!(rt; read(&mut disk, 9) == Ok([1; 512]));
    assert!(rt; gives(&mut disk, 10));

    // The disk inside has no room for a second write.
    assert_eq!(rt; write(&mut disk, 10, &[1; 512]), Err(Failed));
    assert!(rt; gives(&mut disk, 10));
    assert!(rt; disk.inner().writes().len() == 1);
    Ok(())
}

#[test]
fn a_sector_fails_where_it_fails_alone(rt: HostRuntime) -> Result<(), AllocError> {
    let fail = Fail {
        kind: CallKind::Read,
        number: 2,
        lands: false,
    };
    let inner = FailDisk::new(disk_of(rt.alloc(), 16)?, vec![in rt.alloc(); fail]?);
    let mut disk = FrameDisk::new(rt.alloc(), inner)?;
    assert!(rt; gives(&mut disk, 0));
    assert!(rt; read(&mut disk, 1) == Err(Failed));
    assert!(rt; gives_numbers(&mut disk, 16));
    Ok(())
}

#[test]
fn a_file_is_read_by_frames(rt: HostRuntime) -> io::Result<()> {
    let path = env::temp_dir(&rt)?.join(rt.alloc(), "frame_disk_a_file_is_read_by_frames")?;
    fs::write(&rt, path.as_path(), disk_of(rt.alloc(), 300)?.contents())?;
    let file = OpenOptions::new()
        .read(true)
        .write(true)
        .open(&rt, path.as_path())?;
    let mut disk = FrameDisk::new(rt.alloc(), RangeFile::new(file, 301)?)?;
    assert!(rt; gives_numbers(&mut disk, 300));

    // The file ends before the last sector.
    assert!(rt; read(&mut disk, 300) == Err(Failed));
    assert_eq!(rt; write(&mut disk, 5, &[1; 512]), Ok(()));
    assert_eq!(rt; disk.barrier(), Ok(()));
    assert_eq!(rt; disk.settle(), Ok(()));
    assert!(rt; read(&mut disk, 5) == Ok([1; 512]));
    fs::remove_file(&rt, path.as_path())
}
