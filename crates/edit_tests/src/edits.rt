//! The commands that edit, in whole runs: what they print, what stands on the disk behind them, and writes, barriers and settles of the
//! disk failing. The expected text is that of the tables of commands and of refusals, the places of bytes are those of the
//! layouts of `$FILE_NAME` and `$STANDARD_INFORMATION`.
use laid_volumes::cases::Place::{Entry, Image, Record};
use laid_volumes::cases::{Stand, all_stand, edited, leaves, sound};
use laid_volumes::damage::{cut_table, is_marked, put, record, told_at};
use laid_volumes::laid::{key_in, key_in_root};
use laid_volumes::laid_files::{SECTORS, volume_with_all, volume_with_f};
use laid_volumes::scripts::{Row, is_sound, run_rows, writable, wrong_row};
use std::alloc::Global;
use std::test;
use vol_disk::{CallKind, Fail, FailDisk, MemDisk};

// Lines on the volume with one empty file.
const ROWS: [Row; 19] = [
    ("time 5", "ok\n"),
    ("setattr /f 0001", "ok\n"),
    ("stat /f", "stat file 1 0 0001 256 0 0 5 0\nok\n"),
    ("setattr /f 8000", "no 1 Syntax\n"),
    ("setattr /g 0001", "no 4 NotFound\n"),
    ("setattr /f/x 0001", "no 5 NotDir\n"),
    ("setattr /$MFT 0001", "no 7 Hidden\n"),
    ("setattr /. 0001", "no 7 Hidden\n"),
    ("rm /f", "no 28 Unbuilt\n"),
    ("@3 attr /F", "attr 0001\nok\n"),
    ("time 18446744073709551615", "ok\n"),
    ("@15 setattr /F 3127", "ok\n"),
    (
        "stat /f",
        "stat file 1 0 3127 256 0 0 18446744073709551615 0\nok\n",
    ),
    ("time 7", "ok\n"),
    ("setattr /f 0000", "ok\n"),
    ("stat /f", "stat file 1 0 0000 256 0 0 7 0\nok\n"),
    ("setattr / 0002", "ok\n"),
    ("stat /", "stat dir 0 0 0002 256 0 0 7 0\nok\n"),
    ("ls /", "file f\nok\n"),
];

// What the entry tells: the time of record change, and the flags.
const FLAGS_LEFT: [Stand; 2] = [
    (Entry(26, 0, 0x18), &[7]),
    (Entry(26, 0, 0x38), &[0, 0, 0, 0]),
];

#[test]
fn flags_of_a_file_are_set(rt: HostRuntime) -> Result<(), test::Fail> {
    let image = volume_with_f(rt.alloc())?;
    leaves(rt.alloc(), SECTORS, &image, &ROWS, &FLAGS_LEFT)
}

// The image is settled once for each line, and at the end.
#[test]
fn each_line_is_settled_once(rt: HostRuntime) -> Result<(), test::Fail> {
    let mut disk = writable(rt.alloc(), SECTORS, &volume_with_f(rt.alloc())?)?;
    let _ = run_rows(rt.alloc(), &mut disk, &ROWS)?;
    assert_eq!(rt; disk.settles().len(), 20);
    Ok(())
}

// Lines on the volume with a file of each kind: a file of two names, one with a DOS name, one with a hole, and a directory with a
// reparse point.
const KINDS: [Row; 13] = [
    ("time 9", "ok\n"),
    ("setattr /d/b 0002", "ok\n"),
    ("stat /a", "stat file 2 5 0002 256 1 2 9 4\nok\n"),
    ("setattr /LONGFI~1.TXT 0004", "ok\n"),
    ("attr /longfilename.txt", "attr 0004\nok\n"),
    ("setattr /r 0001", "ok\n"),
    ("reparse /r", "reparse a0000003 abcd\nok\n"),
    ("setattr /h 0020", "ok\n"),
    ("stat /h", "stat file 1 73000 0020 256 0 0 9 0\nok\n"),
    ("setattr /r/x 0001", "no 6 Reparse\n"),
    ("setattr /d 0001", "ok\n"),
    ("stat /d", "stat dir 1 0 0001 256 0 0 9 0\nok\n"),
    ("cat /d/b", "data 68656c6c6f\nok\n"),
];

// Flags that are not shown stay: of a file 0x800 of a packed stream, 0x400 of a reparse point, 0x200 of a stream with a hole; of an
// entry that of a directory, and 0x400 where it told that. A second name and a DOS name are told anew too.
// The flags in the record, and what entries tell: the time of record change, and the flags.
const KINDS_LEFT: [Stand; 17] = [
    (Record(26, FLAGS), &[1, 0, 0, 0]),
    (Entry(26, 0, 0x18), &[9]),
    (Entry(26, 0, 0x38), &[1, 0, 0, 0x10]),
    (Record(27, FLAGS), &[2, 0, 0, 0]),
    (Entry(27, 0, 0x18), &[9]),
    (Entry(27, 0, 0x38), &[2, 0, 0, 0]),
    (Record(28, FLAGS), &[4, 8, 0, 0]),
    (Entry(28, 0, 0x18), &[9]),
    (Entry(28, 0, 0x38), &[4, 0, 0, 0]),
    (Entry(28, 1, 0x18), &[9]),
    (Entry(28, 1, 0x38), &[4, 0, 0, 0]),
    (Record(29, FLAGS), &[0x20, 2, 0, 0]),
    (Entry(29, 0, 0x18), &[9]),
    (Entry(29, 0, 0x38), &[0x20, 0, 0, 0]),
    (Record(30, FLAGS), &[1, 4, 0, 0]),
    (Entry(30, 0, 0x18), &[9]),
    (Entry(30, 0, 0x38), &[1, 4, 0, 0x10]),
];

// Where the flags stand in a record: in the value of its first attribute.
const FLAGS: usize = 0x38 + 0x18 + 0x20;

#[test]
fn flags_of_files_of_each_kind_are_set(rt: HostRuntime) -> Result<(), test::Fail> {
    let mut image = volume_with_all(rt.alloc())?;
    let Some(point) = key_in_root(&image, 30, 0) else {
        return Err("an entry is missing")?;
    };
    put(&mut image, point.saturating_add(0x39), &[4]);
    let left = edited(rt.alloc(), 2048, &image, &KINDS)?;
    all_stand(&left, &KINDS_LEFT)?;
    let second = key_in(&left, record(26), record(26) + 1024, 26, 27, 0);
    assert_eq!(rt; told_at(&left, second), Some((9, [2, 0, 0, 0])));
    Ok(())
}

const IN_PART: [Row; 3] = [
    ("setattr /a 0001", "no 28 Unbuilt\n"),
    ("setattr /nothing 0001", "no 4 NotFound\n"),
    ("attr /a", "attr 0021\nok\n"),
];

// On a volume whose table was written in part of a record nothing is edited.
#[test]
fn a_table_written_in_part_is_not_edited(rt: HostRuntime) -> Result<(), test::Fail> {
    let mut image = volume_with_all(rt.alloc())?;
    cut_table(&mut image);
    sound(rt.alloc(), 2048, &image)?;
    assert_eq!(rt; wrong_row(rt.alloc(), 2048, &image, &IN_PART)?, None);
    Ok(())
}

// Two edits: of a file of two names, and of the directory that one of these stands in.
const EDITS: [Row; 3] = [
    ("time 5", "ok\n"),
    ("setattr /a 0001", "ok\n"),
    ("setattr /d 0002", "ok\n"),
];

// The sectors in which the flag stands, in record 3 and in its copy, and one of the log.
const FLAG: u64 = 22;

const FLAG_COPY: u64 = 158;

const LOG: u64 = 179;

const EMPTIED: [Stand; 1] = [(Image(179 * 512 + 7), &[0xFF])];

// Writes by their places, and their sectors.
const IN_ORDER: [(usize, u64); 5] = [
    (0, FLAG),
    (1, FLAG_COPY),
    (2, LOG),
    (25, FLAG_COPY),
    (26, FLAG),
];

// The sector of a write; 0 where there is none.
fn written_at(disk: &MemDisk, i: usize) -> u64 {
    match disk.writes().get(i) {
        Some(write) => write.sector,
        None => 0,
    }
}

// The mark is set in two sectors, the log emptied where it is not, then come two sectors of record 27, two of record 26, whose root has
// `b`, and eight of the record of the root's index; for the second edit two and eight of these; and the mark is cleared in two.
#[test]
fn the_mark_comes_first_and_goes_last(rt: HostRuntime) -> Result<(), test::Fail> {
    let mut image = volume_with_all(rt.alloc())?;
    put(&mut image, LOG as usize * 512 + 7, &[0]);
    leaves(rt.alloc(), 2048, &image, &EDITS, &EMPTIED)?;
    let mut disk = writable(rt.alloc(), 2048, &image)?;
    let _ = run_rows(rt.alloc(), &mut disk, &EDITS)?;
    for (i, sector) in IN_ORDER {
        assert_eq!(rt; written_at(&disk, i), sector, "{i}");
    }
    assert_eq!(rt; disk.writes().len(), 27);
    Ok(())
}

// What `attr` shows of the two files before the edits, and behind them.
const BEFORE: [Row; 2] = [
    ("attr /a", "attr 0021\nok\n"),
    ("attr /d", "attr 0000\nok\n"),
];

const BEHIND: [Row; 2] = [
    ("attr /a", "attr 0001\nok\n"),
    ("attr /d", "attr 0002\nok\n"),
];

// Whether a volume is marked, or whole: sound, and as before the edits, or as behind them, when only the closing failed.
fn is_safe(alloc: Global, image: &[u8]) -> Result<bool, test::Fail> {
    if is_marked(image) {
        return Ok(true);
    }
    Ok(
        is_sound(alloc, 2048, image)?
            && (wrong_row(alloc, 2048, image, &BEFORE)?.is_none()
                || wrong_row(alloc, 2048, image, &BEHIND)?.is_none()),
    )
}

// The status of the edits where one call of the disk fails, and whether what is left is safe.
fn failing_edits(alloc: Global, image: &[u8], fail: Fail) -> Result<(u8, bool), test::Fail> {
    let mut disk = FailDisk::new(writable(alloc, 2048, image)?, vec![in alloc; fail]?);
    let (status, _) = run_rows(alloc, &mut disk, &EDITS)?;
    Ok((status, is_safe(alloc, disk.inner().contents())?))
}

// The edits end with this status where this call fails, and leave a volume that is safe.
fn fails_with(
    alloc: Global,
    image: &[u8],
    kind: CallKind,
    lands: bool,
    number: u64,
    status: u8,
) -> Result<(), test::Fail> {
    let fail = Fail {
        kind,
        number,
        lands,
    };
    if failing_edits(alloc, image, fail)? != (status, true) {
        return Err(number)?;
    }
    Ok(())
}

// Calls of a kind fail, one in each run, and leave a volume that is safe; there are so many of them, and none behind.
fn fails_safely(
    alloc: Global,
    kind: CallKind,
    lands: bool,
    numbers: &[u64],
    calls: u64,
) -> Result<(), test::Fail> {
    let image = volume_with_all(alloc)?;
    for number in numbers {
        fails_with(alloc, &image, kind, lands, *number, 6)?;
    }
    fails_with(alloc, &image, kind, lands, calls.saturating_add(1), 0)
}

// The mark, writes of both edits, and the mark again.
const WRITES: [u64; 8] = [1, 2, 3, 6, 14, 15, 25, 26];

#[test]
fn writes_fail_safely(rt: HostRuntime) -> Result<(), test::Fail> {
    fails_safely(rt.alloc(), CallKind::Write, false, &WRITES, 26)
}

#[test]
fn writes_that_land_fail_safely(rt: HostRuntime) -> Result<(), test::Fail> {
    fails_safely(rt.alloc(), CallKind::Write, true, &WRITES, 26)
}

// Writes are put in order before the first edit is written, and before the mark is cleared; each line is settled, and the end.
#[test]
fn barriers_and_settles_fail_safely(rt: HostRuntime) -> Result<(), test::Fail> {
    fails_safely(rt.alloc(), CallKind::Barrier, false, &[1, 2], 2)?;
    fails_safely(rt.alloc(), CallKind::Settle, false, &[1, 2, 3, 4], 4)
}
