//! `create`: empty files that come under new names, where the record of their directory's index to which the name belongs has room for it,
//! or the root of an index without records.
use laid_volumes::cases::Place::{Entry, Image, Record};
use laid_volumes::cases::{Stand, edited, edited_by, failing_write, leaves};
use laid_volumes::damage::{RECORD_BITS, byte, is_marked, number, put, record, stands};
use laid_volumes::laid::{
    LaidName, ROOT_RECORD, begin_file, end_file, lay_in_root, lay_index, lay_name, lay_standard,
};
use laid_volumes::laid_streams::{LARGE, ONE, volume_with};
use laid_volumes::made::{made_on, volume};
use laid_volumes::scripts::{Row, add_long, is_sound, wrong_row};
use std::alloc::Global;
use std::test;

const SECTORS: u16 = 2048;

// On a new volume of 16,384 sectors.
const NAMES: [Row; 42] = [
    ("create /_", "ok\n"),
    ("create /B", "ok\n"),
    ("create /a", "ok\n"),
    ("ls /", "file a\nfile B\nfile _\nok\n"),
    ("df", "df 2048 1913 64 35\nok\n"),
    ("create /A", "no 13 Exists\n"),
    ("create /$MFT", "no 13 Exists\n"),
    ("create /", "no 13 Exists\n"),
    ("create /a?", "no 9 BadName\n"),
    ("create /a.", "no 9 BadName\n"),
    ("create /x/y", "no 4 NotFound\n"),
    ("create /a/y", "no 5 NotDir\n"),
    ("create /$Extend/y", "no 7 Hidden\n"),
    ("create /a%0020b", "ok\n"),
    ("ls /", "file a\nfile a%0020b\nfile B\nfile _\nok\n"),
    ("create /\u{E9}", "ok\n"),
    ("create /\u{C9}", "no 13 Exists\n"),
    ("time 1000", "ok\n"),
    ("create /f", "ok\n"),
    (
        "stat /f",
        "stat file 1 0 0020 256 1000 1000 1000 1000\nok\n",
    ),
    ("stat /", "stat dir 0 0 0006 256 0 1000 1000 0\nok\n"),
    ("streams /f", "stream 0\nok\n"),
    ("links /f", "link 0 /f\nok\n"),
    ("create /F", "no 13 Exists\n"),
    ("cat /f/x", "no 5 NotDir\n"),
    ("cat /f:s", "no 11 NoStream\n"),
    ("write /f 0 68656c6c6f", "ok\n"),
    ("cat /f", "data 68656c6c6f\nok\n"),
    (
        "stat /f",
        "stat file 1 5 0020 256 1000 1000 1000 1000\nok\n",
    ),
    ("truncate /f 0", "ok\n"),
    ("cat /f", "data -\nok\n"),
    ("truncate /f 3", "ok\n"),
    ("cat /f", "data 000000\nok\n"),
    ("objid /f", "objid -\nok\n"),
    ("setattr /f 0001", "ok\n"),
    ("attr /f", "attr 0001\nok\n"),
    ("setsec /f 300", "no 18 NoSecurity\n"),
    ("@1 open /f r r", "handle 0\nok\n"),
    ("@2 write /f 0 00", "no 22 Shared 1 0\n"),
    ("@1 close 0", "ok\n"),
    ("@2 write /f 0 00", "ok\n"),
    ("@1 hread 0 0 1", "no 3 NoHandle\n"),
];

#[test]
fn files_come_under_new_names(rt: HostRuntime) -> Result<(), test::Fail> {
    let image = made_on(rt.alloc(), 16_384, "format 16384 4096 1 DATA")?;
    let _ = edited(rt.alloc(), 16_384, &image, &NAMES)?;
    Ok(())
}

const NEW: [Row; 2] = [("time 7", "ok\n"), ("create /n", "ok\n")];

// Where the record of the root's index stands on a new volume.
const ROOT_INDEX: usize = 134 * 4096;

// The four times of the moment.
const TIMES: [u8; 32] = [
    7, 0, 0, 0, 0, 0, 0, 0, 7, 0, 0, 0, 0, 0, 0, 0, 7, 0, 0, 0, 0, 0, 0, 0, 7, 0, 0, 0, 0, 0, 0, 0,
];

// The value of the name: record 5 with its sequence number, the four times, no bytes and none allocated, the flags, one unit of no
// namespace, and that unit.
const PARENT: [u8; 8] = [5, 0, 0, 0, 0, 0, 5, 0];

const REST: [u8; 28] = [
    0, 0, 0, 0, 0, 0, 0, 0, 0, 0, 0, 0, 0, 0, 0, 0, 0x20, 0, 0, 0, 0, 0, 0, 0, 1, 0, b'n', 0,
];

// Types of attributes.
const STANDARD_INFORMATION: u8 = 0x10;

const FILE_NAME: u8 = 0x30;

const DATA: u8 = 0x80;

// Where the values of the first two attributes stand.
const STANDARD: usize = 0x38 + 0x18;

const NAME_VALUE: usize = STANDARD + 96;

// Record 26 is the first that is free. Its attributes have 96, 96 and 24 bytes, and the end behind them 8.
const NEW_LEFT: [Stand; 19] = [
    (Image(RECORD_BITS + 3), &[0x07]),
    (Record(26, 0), b"FILE"),
    (Record(26, 0x10), &[1, 0, 1, 0, 0x38, 0, 1, 0]),
    (Record(26, 0x18), &[0x18, 1]),
    (Record(26, 0x28), &[3, 0]),
    (Record(26, 0x2C), &[26, 0]),
    (Record(26, 0x38), &[STANDARD_INFORMATION, 0]),
    (Record(26, STANDARD), &TIMES),
    (Record(26, STANDARD + 0x20), &[0x20, 0]),
    (Record(26, STANDARD + 0x34), &[0, 1]),
    (Record(26, 0x38 + 96), &[FILE_NAME, 0]),
    (Record(26, NAME_VALUE), &PARENT),
    (Record(26, NAME_VALUE + 8), &TIMES),
    (Record(26, NAME_VALUE + 40), &REST),
    (Record(26, 0x38 + 96 + 96), &[DATA, 0]),
    (Record(26, 0x38 + 96 + 96 + 0x10), &[0, 0]),
    (Entry(26, 0, 0), &PARENT),
    (Entry(26, 0, 8), &TIMES),
    (Entry(26, 0, 40), &REST),
];

#[test]
fn records_and_entries_tell_the_file(rt: HostRuntime) -> Result<(), test::Fail> {
    let image = volume(rt.alloc())?;
    leaves(rt.alloc(), SECTORS, &image, &NEW, &NEW_LEFT)
}

// The times of the root: when it was made, modified, its record changed, and when it was read.
const ROOT_TIMES: [u8; 32] = [
    0, 0, 0, 0, 0, 0, 0, 0, 7, 0, 0, 0, 0, 0, 0, 0, 7, 0, 0, 0, 0, 0, 0, 0, 0, 0, 0, 0, 0, 0, 0, 0,
];

// Where the key begins of the entry of the root, which is in the root.
fn root_key(image: &[u8]) -> usize {
    for at in ROOT_INDEX..ROOT_INDEX + 4096 {
        if stands(image, at, &PARENT) && stands(image, at + 16, &PARENT) {
            return at + 16;
        }
    }
    0
}

#[test]
fn the_entry_of_the_root_tells_its_times(rt: HostRuntime) -> Result<(), test::Fail> {
    let left = edited(rt.alloc(), SECTORS, &volume(rt.alloc())?, &NEW)?;
    assert!(rt; stands(&left, root_key(&left).saturating_add(8), &ROOT_TIMES));
    Ok(())
}

// What a path shows behind the edit.
const BEHIND: [Row; 1] = [("attr /n", "attr 0020\nok\n")];

// Whether an edit of which this write fails leaves a volume marked.
fn marks(
    alloc: Global,
    image: &[u8],
    edit: &[Row],
    number: u64,
    lands: bool,
) -> Result<bool, test::Fail> {
    let (status, left) = failing_write(alloc, image, edit, number, lands)?;
    Ok(status == 6 && is_marked(&left))
}

/// The first write of an edit, of so many in all, that fails and does not leave the volume as it was to be left: as it was where the first
/// one does not land, marked, and whole with this behind the edit where the last one has landed.
pub fn wrong_write(
    alloc: Global,
    image: &[u8],
    edit: &[Row],
    writes: u64,
    behind: &[Row],
) -> Result<Option<u64>, test::Fail> {
    let (status, left) = failing_write(alloc, image, edit, 1, false)?;
    if status != 6 || left.as_slice() != image {
        return Ok(Some(0));
    }
    for number in 1..writes {
        let landed = marks(alloc, image, edit, number, true)?;
        let lost = marks(alloc, image, edit, number.saturating_add(1), false)?;
        if !landed || !lost {
            return Ok(Some(number));
        }
    }
    for (number, wanted) in [(writes, 6), (writes.saturating_add(1), 0)] {
        let (status, left) = failing_write(alloc, image, edit, number, true)?;
        let whole = is_sound(alloc, SECTORS, &left)?
            && wrong_row(alloc, SECTORS, &left, behind)?.is_none();
        if status != wanted || is_marked(&left) || !whole {
            return Ok(Some(number));
        }
    }
    Ok(None)
}

// The mark is set in two sectors; then come one of the bitmap of records, two of record 26, two of record 5, and eight of the record of the
// root's index; and the mark is cleared in two, of which record 3 comes last.
const WRITES: u64 = 17;

#[test]
fn a_failing_write_leaves_a_volume_marked_or_whole(rt: HostRuntime) -> Result<(), test::Fail> {
    let image = volume(rt.alloc())?;
    let wrong = wrong_write(rt.alloc(), &image, &NEW, WRITES, &BEHIND)?;
    assert_eq!(rt; wrong, None);
    Ok(())
}

// Thirteen writes of 32,768 bytes leave 16 of 120 free clusters, the next one 9 and the last one 8. The index of the root is two deep, so
// the new entry has five levels: one index record for each, one cluster for the attribute list of the directory and one for that of the
// file, and one for each of these two, are 9. None of them is taken.
const FILLED_TOLD: &[u8] = b"ok\nok\nok\nok\nok\nok\nok\nok\nok\nok\nok\nok\nok\nok\n\
    df 256 9 64 37\nok\nok\ndf 256 9 64 36\nok\nok\ndf 256 8 64 36\nok\nno 26 NoRoom 9 8\n\
    df 256 8 64 36\nok\n";

fn filling(alloc: Global) -> Result<Vec<u8>, test::Fail> {
    let mut script = Vec::new(alloc);
    for line in LARGE.iter().take(13) {
        add_long(&mut script, line, 32_768)?;
    }
    add_long(&mut script, "write /k 430074 ", 28_672)?;
    script.extend_from_slice(b"df\ncreate /n\ndf\n")?;
    add_long(&mut script, "write /k 458746 ", 4096)?;
    script.extend_from_slice(b"df\ncreate /o\ndf\n")?;
    Ok(script)
}

#[test]
fn room_is_asked_for_to_the_cluster(rt: HostRuntime) -> Result<(), test::Fail> {
    let image = volume_with(rt.alloc(), ONE, &[135], b"")?;
    let script = filling(rt.alloc())?;
    let _ = edited_by(rt.alloc(), SECTORS, &image, &script, FILLED_TOLD)?;
    Ok(())
}

// A directory without names, whose index has no records.
const D: LaidName = LaidName {
    file: 26,
    parent: (ROOT_RECORD, ROOT_RECORD),
    space: 0,
    letters: "d",
    is_dir: true,
};

fn volume_with_directory(alloc: Global) -> Result<Vec<u8>, test::Fail> {
    let mut image = volume(alloc)?;
    let at = begin_file(&mut image, 26, 1, true);
    let at = lay_standard(&mut image, at, [0; 4], 0);
    let at = lay_name(alloc, &mut image, at, 1, &D)?;
    let at = lay_index(alloc, &mut image, at, 2, &[])?;
    end_file(&mut image, 26, at);
    lay_in_root(alloc, &mut image, &[D])?;
    Ok(image)
}

const SMALL: [Row; 15] = [
    ("time 9", "ok\n"),
    ("create /d/n", "ok\n"),
    ("create /d/N", "no 13 Exists\n"),
    ("create /d/B", "ok\n"),
    ("create /d/n/n", "no 5 NotDir\n"),
    ("create /d/x.", "no 9 BadName\n"),
    ("mkdir /e", "ok\n"),
    ("ls /d", "file B\nfile n\nok\n"),
    ("stat /d/n", "stat file 1 0 0020 256 9 9 9 9\nok\n"),
    ("stat /d", "stat dir 1 0 0000 256 0 9 9 0\nok\n"),
    ("links /d/n", "link 0 /d/n\nok\n"),
    ("write /d/n 0 6869", "ok\n"),
    ("cat /d/N", "data 6869\nok\n"),
    ("setattr /d/B 0001", "ok\n"),
    ("attr /d/B", "attr 0001\nok\n"),
];

// Where the value of the root stands in the record of that directory, behind a header of 56 bytes, attributes of 96 and 96, and one of 24
// with a name of 4 units.
const INDEX_VALUE: usize = 0x38 + 96 + 96 + 32;

// The root has an entry of 88 bytes for each name, behind 16 bytes, 16 of its node and before 16 of the last entry: 208 are in use.
const SMALL_LEFT: [Stand; 4] = [
    (Record(26, INDEX_VALUE + 20), &[208, 0]),
    (Record(26, INDEX_VALUE + 24), &[208, 0]),
    (Record(26, INDEX_VALUE + 32), &[28, 0]),
    (Record(26, INDEX_VALUE + 32 + 88), &[27, 0]),
];

#[test]
fn names_come_into_a_root_without_records(rt: HostRuntime) -> Result<(), test::Fail> {
    let image = volume_with_directory(rt.alloc())?;
    leaves(rt.alloc(), SECTORS, &image, &SMALL, &SMALL_LEFT)
}

// The node of the record of the root's index begins behind 24 bytes, and tells the bytes up to the end of its entries, and all that it has.
const NODE: usize = ROOT_INDEX + 0x18;

// The entry of a name has 16 bytes of its own, 66 and two for each unit of the name, up to a multiple of 8.
fn entry_len(units: usize) -> usize {
    (82 + 2 * units.min(255) + 7) / 8 * 8
}

// A line that makes a file under a name of so many units, and what it answers.
fn add_create(
    lines: &mut (Vec<u8>, Vec<u8>),
    dir: &[u8],
    units: usize,
    letter: u8,
    reply: &[u8],
) -> Result<(), test::Fail> {
    let (script, wanted) = lines;
    script.extend_from_slice(b"create ")?;
    script.extend_from_slice(dir)?;
    for _ in 1..units {
        script.push(letter)?;
    }
    script.extend_from_slice(&[letter, b'\n'])?;
    wanted.extend_from_slice(reply)?;
    Ok(())
}

// So many names of as many units, one that is a unit too long for what is left, one that fills it, and one more.
fn filled_with(
    alloc: Global,
    dir: &[u8],
    names: usize,
    units: usize,
    room: usize,
) -> Result<(Vec<u8>, Vec<u8>), test::Fail> {
    let mut lines = (Vec::new(alloc), Vec::new(alloc));
    for letter in b"abcdefghi".iter().take(names) {
        add_create(&mut lines, dir, units, *letter, b"ok\n")?;
    }
    let left = room.saturating_sub(names.saturating_mul(entry_len(units)));
    let fits = left.saturating_sub(82) / 2;
    add_create(
        &mut lines,
        dir,
        fits.saturating_add(1),
        b'm',
        b"no 28 Unbuilt\n",
    )?;
    add_create(&mut lines, dir, fits, b'm', b"ok\n")?;
    add_create(&mut lines, dir, 1, b'z', b"no 28 Unbuilt\n")?;
    Ok(lines)
}

#[test]
fn names_come_as_long_as_there_is_room(rt: HostRuntime) -> Result<(), test::Fail> {
    let alloc = rt.alloc();
    let image = volume_with_directory(alloc)?;
    let in_record = number(&image, NODE + 8).saturating_sub(number(&image, NODE + 4));
    let beside_root = 1024usize.saturating_sub(number(&image, record(26) + 0x18));
    for (dir, names, units, room) in [
        (b"/".as_slice(), 9, 102, in_record),
        (b"/d/".as_slice(), 6, 1, beside_root),
    ] {
        let (script, wanted) = filled_with(alloc, dir, names, units, room)?;
        let _ = edited_by(alloc, SECTORS, &image, &script, &wanted)?;
    }
    Ok(())
}

// A name of 255 units comes, and none of 256.
#[test]
fn the_longest_name_has_255_units(rt: HostRuntime) -> Result<(), test::Fail> {
    let mut script = Vec::new(rt.alloc());
    for units in [256, 255] {
        script.extend_from_slice(b"create /")?;
        for _ in 0..units {
            script.push(b'n')?;
        }
        script.push(b'\n')?;
    }
    let image = volume(rt.alloc())?;
    let _ = edited_by(rt.alloc(), SECTORS, &image, &script, b"no 9 BadName\nok\n")?;
    Ok(())
}

// Record 0 gets an attribute of type 100 behind its others, so that 40 bytes are free, and so does its copy. Its value are the zeros that
// stood there, with the last two bytes of the first sector, which the update sequence has.
fn pad_first_record(image: &mut [u8]) {
    for at in [record(0), MIRROR] {
        let used = number(image, at + 0x18);
        let id = byte(image, at + 0x28);
        let end = (at + used).saturating_sub(8);
        let len = (1024usize - 40).saturating_sub(used);
        put(image, end, &[0, 1, 0, 0]);
        put(image, end + 4, &len.to_le_bytes()[..4]);
        put(image, end + 8, &[0, 0, 0x18, 0, 0, 0, id, 0]);
        put(image, end + 16, &len.saturating_sub(24).to_le_bytes()[..4]);
        put(image, end + 20, &[0x18, 0, 0, 0]);
        put(image, end + len, &[0xFF, 0xFF, 0xFF, 0xFF, 0, 0, 0, 0]);
        put(image, at + 0x18, &(used + len).to_le_bytes()[..4]);
        put(image, at + 0x28, &[id.saturating_add(1)]);
    }
}

// Where the copies of the first records begin on a new volume.
const MIRROR: usize = 19 * 4096;

const FULL: [Row; 2] = [
    ("df", "df 2048 1913 64 8\nok\n"),
    ("create /z", "no 25 MftFull 97 40\n"),
];

// Thirty files of two letters.
fn thirty(alloc: Global) -> Result<Vec<u8>, test::Fail> {
    let mut script = Vec::new(alloc);
    for tens in b"abc" {
        for ones in b"0123456789" {
            script.extend_from_slice(b"create /")?;
            script.extend_from_slice(&[*tens, *ones, b'\n'])?;
        }
    }
    Ok(script)
}

const THIRTY_TOLD: &[u8] =
    b"ok\nok\nok\nok\nok\nok\nok\nok\nok\nok\nok\nok\nok\nok\nok\nok\nok\nok\nok\nok\n\
    ok\nok\nok\nok\nok\nok\nok\nok\nok\nok\n";

// Thirty files leave eight records free, of 27 that a file might need: 7 clusters of the table, and 2, for each of which 9 bytes of record
// 0 are wanted, beside 16.
#[test]
fn the_table_has_to_have_room_to_grow(rt: HostRuntime) -> Result<(), test::Fail> {
    let image = made_on(rt.alloc(), 16_384, "format 16384 4096 1 DATA")?;
    let script = thirty(rt.alloc())?;
    let mut image = edited_by(rt.alloc(), 16_384, &image, &script, THIRTY_TOLD)?;
    pad_first_record(&mut image);
    leaves(rt.alloc(), 16_384, &image, &FULL, &[])
}
