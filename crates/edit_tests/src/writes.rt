//! Writes over bytes that are there, in whole runs: what they print, where their bytes, times and entries stand, and which sectors are
//! written. The stream of `h` has a cluster, a hole of 16 clusters, and a cluster of which 8 bytes were written.
use laid_volumes::cases::Place::{Entry, Image};
use laid_volumes::cases::{LongRow, Stand, edited_long, fails_safely, leaves};
use laid_volumes::laid_files::volume_with_all;
use laid_volumes::scripts::{Row, add_long, told, writable};
use std::test;
use vol_disk::MemDisk;

const SECTORS: u16 = 2048;

// A long name is that of a packed stream; `a` is a value in its record.
const ROWS: [Row; 33] = [
    ("time 9", "ok\n"),
    ("write /h 4093 616263", "ok\n"),
    ("read /h 4092 6", "data 006162630000\nok\n"),
    ("stat /h", "stat file 1 73000 0020 256 0 9 9 0\nok\n"),
    ("@1 open /H w rwd", "handle 0\nok\n"),
    ("@1 hwrite 0 69631 4142", "no 28 Unbuilt\n"),
    ("@1 hwrite 0 69634 414243444546", "ok\n"),
    ("read /h 69630 12", "data 000030314142434445460000\nok\n"),
    ("@2 hwrite 0 0 41", "no 3 NoHandle\n"),
    ("@2 open /h r rwd", "handle 0\nok\n"),
    ("@2 hwrite 0 0 41", "no 3 NoHandle\n"),
    ("write /h 4095 4142", "no 28 Unbuilt\n"),
    ("write /h 8192 41", "no 28 Unbuilt\n"),
    ("write /h 69641 41", "no 28 Unbuilt\n"),
    ("write /h 1099511627775 4142", "no 19 TooBig\n"),
    ("write /h 0 -", "no 1 Syntax\n"),
    ("write /h:new 0 41", "no 28 Unbuilt\n"),
    ("write /h:x\\y 0 41", "no 9 BadName\n"),
    ("write /d 0 41", "no 10 IsDir\n"),
    ("write /longfilename.txt 0 41", "no 16 Packed\n"),
    ("write /nothing 0 41", "no 4 NotFound\n"),
    ("write /a 4096 41", "no 28 Unbuilt\n"),
    ("@2 close 0", "ok\n"),
    ("@2 open /h r r", "no 22 Shared 1 0\n"),
    ("@1 close 0", "ok\n"),
    ("@2 open /h r r", "handle 0\nok\n"),
    ("write /h 0 41", "no 22 Shared 2 0\n"),
    ("time 10", "ok\n"),
    ("write /h 8192 41", "no 22 Shared 2 0\n"),
    ("write /h 1099511627775 4142", "no 19 TooBig\n"),
    (
        "write /longfilename.txt 1099511627775 4142",
        "no 16 Packed\n",
    ),
    ("stat /h", "stat file 1 73000 0020 256 0 9 9 0\nok\n"),
    ("@2 read /h 0 2", "data 0000\nok\n"),
];

// Bytes of the stream, and what the entry tells: the times of modification and record change, and the flags.
const LEFT: [Stand; 5] = [
    (Image(203 * 4096 - 2), b"b"),
    (Image(203 * 4096 + 9), b"9"),
    (Entry(29, 0, 0x10), &[9]),
    (Entry(29, 0, 0x18), &[9]),
    (Entry(29, 0, 0x38), &[0x20, 0, 0, 0]),
];

#[test]
fn bytes_go_over_bytes(rt: HostRuntime) -> Result<(), test::Fail> {
    let image = volume_with_all(rt.alloc())?;
    leaves(rt.alloc(), SECTORS, &image, &ROWS, &LEFT)
}

// A byte of one sector, a whole one, and a byte of the next, and the lines that read around them.
const LONG: [LongRow; 3] = [
    ("write /h 511 ", 514, "ok\n"),
    ("read /h 510 3", 0, "data 005a5a\nok\n"),
    ("read /h 1023 3", 0, "data 5a5a00\nok\n"),
];

// How often a sector is written.
fn times(disk: &MemDisk, sector: u64) -> usize {
    let mut count = 0_usize;
    for write in disk.writes() {
        if write.sector == sector {
            count = count.saturating_add(1);
        }
    }
    count
}

// The first cluster of the stream is 202.
#[test]
fn each_sector_is_written_once(rt: HostRuntime) -> Result<(), test::Fail> {
    let image = volume_with_all(rt.alloc())?;
    let _ = edited_long(rt.alloc(), SECTORS, &image, &LONG)?;
    let mut disk = writable(rt.alloc(), SECTORS, &image)?;
    let mut script = Vec::new(rt.alloc());
    add_long(&mut script, "write /h 511 ", 514)?;
    let _ = told(rt.alloc(), &mut disk, &script)?;
    for (sector, count) in [(1616, 1), (1617, 1), (1618, 1), (1619, 0)] {
        assert_eq!(rt; times(&disk, sector), count, "{sector}");
    }
    assert_eq!(rt; disk.writes().len(), 17);
    Ok(())
}

// A write over bytes of two sectors.
const WRITE: [Row; 2] = [("time 5", "ok\n"), ("write /h 510 41424344", "ok\n")];

// The mark in two sectors, two of the stream, two of record 29, eight of the root's index, and the mark again: sixteen, and none behind.
#[test]
fn a_write_fails_safely(rt: HostRuntime) -> Result<(), test::Fail> {
    let image = volume_with_all(rt.alloc())?;
    fails_safely(rt.alloc(), &image, &WRITE, &[1, 3, 5, 16], 16)
}
