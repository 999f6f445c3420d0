//! Edits of values in their records, in whole runs: streams that are punched, cut and removed, and security ids that are set. `a` has five
//! bytes in its record, two more in its stream `s`, and another name in `d`.
use laid_volumes::cases::Place::{Entry, Record};
use laid_volumes::cases::{Stand, fails_safely, leaves, sound};
use laid_volumes::damage::{put, record};
use laid_volumes::laid::{
    LaidName, ROOT_RECORD, Value, begin_file, end_file, lay_in_root, lay_name, lay_value,
};
use laid_volumes::laid_files::volume_with_all;
use laid_volumes::made::volume;
use laid_volumes::scripts::{Row, wrong_row};
use std::alloc::Global;
use std::test;

const SECTORS: u16 = 2048;

// `h` has clusters, `longfilename.txt` is packed, `d` is a directory.
const PUNCHES: [Row; 25] = [
    ("time 9", "ok\n"),
    ("punch /a 1 2", "ok\n"),
    ("cat /a", "data 6800006c6f\nok\n"),
    ("stat /a", "stat file 2 5 0021 256 1 9 9 4\nok\n"),
    ("punch /d/b 4 1000", "ok\n"),
    ("cat /a", "data 6800006c00\nok\n"),
    ("punch /a 5 1", "ok\n"),
    ("punch /a 0 0", "ok\n"),
    ("cat /a", "data 6800006c00\nok\n"),
    ("time 10", "ok\n"),
    ("punch /a:S 0 1", "ok\n"),
    ("cat /a:s", "data 0062\nok\n"),
    ("stat /a", "stat file 2 5 0021 256 1 10 10 4\nok\n"),
    ("punch /x:s19 1 32768", "ok\n"),
    ("cat /x:s19", "data 6c000000\nok\n"),
    ("punch /a:t 0 1", "no 11 NoStream\n"),
    ("punch /d 0 1", "no 10 IsDir\n"),
    ("punch /longfilename.txt 0 32769", "no 16 Packed\n"),
    ("punch /nothing 0 1", "no 4 NotFound\n"),
    ("punch /h 0 1", "no 28 Unbuilt\n"),
    ("punch /a 0 32769", "no 19 TooBig\n"),
    ("punch /a 1099511627776 1", "no 19 TooBig\n"),
    ("@2 open /a:s r r", "handle 0\nok\n"),
    ("punch /a 0 32769", "no 19 TooBig\n"),
    ("punch /d/b 0 1", "no 22 Shared 2 0\n"),
];

// What the entry tells: the times of modification and record change, and the flags.
const PUNCHED_LEFT: [Stand; 3] = [
    (Entry(27, 0, 0x10), &[10]),
    (Entry(27, 0, 0x18), &[10]),
    (Entry(27, 0, 0x38), &[0x21, 0, 0, 0]),
];

#[test]
fn values_are_punched(rt: HostRuntime) -> Result<(), test::Fail> {
    let image = volume_with_all(rt.alloc())?;
    leaves(rt.alloc(), SECTORS, &image, &PUNCHES, &PUNCHED_LEFT)
}

// `x` has many streams, all empty but the last.
const CUTS: [Row; 29] = [
    ("time 9", "ok\n"),
    ("truncate /a 5", "ok\n"),
    ("stat /a", "stat file 2 5 0021 256 1 9 9 4\nok\n"),
    ("time 10", "ok\n"),
    ("truncate /d/b 2", "ok\n"),
    ("cat /a", "data 6865\nok\n"),
    ("stat /a", "stat file 2 2 0021 256 1 10 10 4\nok\n"),
    ("truncate /a 4097", "no 28 Unbuilt\n"),
    ("truncate /a:new 0", "no 28 Unbuilt\n"),
    ("truncate /a:x\\y 0", "no 9 BadName\n"),
    ("truncate /d 0", "no 10 IsDir\n"),
    ("truncate /longfilename.txt 0", "no 16 Packed\n"),
    ("truncate /h 73729", "no 28 Unbuilt\n"),
    ("truncate /a 1099511627777", "no 19 TooBig\n"),
    ("truncate /a:s 0", "ok\n"),
    ("streams /a", "stream 2\nstream 0 s\nok\n"),
    ("time 11", "ok\n"),
    ("rmstream /a:S", "ok\n"),
    ("streams /a", "stream 2\nok\n"),
    ("stat /a", "stat file 2 2 0021 256 1 11 11 4\nok\n"),
    ("rmstream /a:s", "no 11 NoStream\n"),
    ("rmstream /nothing:s", "no 4 NotFound\n"),
    ("rmstream /x:s03", "ok\n"),
    ("cat /x:s03", "no 11 NoStream\n"),
    ("cat /x:s19", "data 6c617374\nok\n"),
    ("truncate /x:s19 0", "ok\n"),
    ("@2 open /x r r", "handle 0\nok\n"),
    ("truncate /x:s19 0", "no 22 Shared 2 0\n"),
    ("rmstream /x:s19", "no 22 Shared 2 0\n"),
];

// And here the real size.
const CUT_LEFT: [Stand; 4] = [
    (Entry(27, 0, 0x10), &[11]),
    (Entry(27, 0, 0x18), &[11]),
    (Entry(27, 0, 0x30), &[2]),
    (Entry(27, 0, 0x38), &[0x21, 0, 0, 0]),
];

#[test]
fn values_are_cut_and_removed(rt: HostRuntime) -> Result<(), test::Fail> {
    let image = volume_with_all(rt.alloc())?;
    leaves(rt.alloc(), SECTORS, &image, &CUTS, &CUT_LEFT)
}

// The volume has the descriptor 256 alone.
const IDS: [Row; 12] = [
    ("time 9", "ok\n"),
    ("stat /a", "stat file 2 5 0021 0 1 2 3 4\nok\n"),
    ("setsec /d/b 256", "ok\n"),
    ("stat /a", "stat file 2 5 0021 256 1 2 9 4\nok\n"),
    ("sec /a", "sec 256\nok\n"),
    ("setsec /a 257", "no 18 NoSecurity\n"),
    ("setsec /nothing 257", "no 4 NotFound\n"),
    ("setsec /$MFT 256", "no 7 Hidden\n"),
    ("time 10", "ok\n"),
    ("setsec /d 256", "ok\n"),
    ("stat /d", "stat dir 1 0 0000 256 0 0 10 0\nok\n"),
    ("cat /a", "data 68656c6c6f\nok\n"),
];

// Where the id stands in a record: in the value of its first attribute.
const ID: usize = 0x38 + 0x18 + 0x34;

const IDS_LEFT: [Stand; 3] = [
    (Record(27, ID), &[0, 1]),
    (Entry(27, 0, 0x18), &[9]),
    (Entry(27, 0, 0x38), &[0x21, 0, 0, 0]),
];

#[test]
fn security_ids_are_set(rt: HostRuntime) -> Result<(), test::Fail> {
    let mut image = volume_with_all(rt.alloc())?;
    put(&mut image, record(27) + ID, &[0, 0, 0, 0]);
    leaves(rt.alloc(), SECTORS, &image, &IDS, &IDS_LEFT)
}

const K: LaidName = LaidName {
    file: 26,
    parent: (ROOT_RECORD, ROOT_RECORD),
    space: 0,
    letters: "k",
    is_dir: false,
};

// A volume with a file whose `$STANDARD_INFORMATION` has 48 bytes, as older systems made it.
fn volume_with_short(alloc: Global) -> Result<Vec<u8>, test::Fail> {
    let mut image = volume(alloc)?;
    let at = begin_file(&mut image, 26, 1, false);
    let standard = Value {
        kind: 0x10,
        id: 0,
        name: "",
        value: &[0; 48],
    };
    let at = lay_value(&mut image, at, standard);
    let at = lay_name(alloc, &mut image, at, 1, &K)?;
    end_file(&mut image, 26, at);
    lay_in_root(alloc, &mut image, &[K])?;
    Ok(image)
}

const WITHOUT_PLACE: [Row; 3] = [
    ("setsec /k 257", "no 18 NoSecurity\n"),
    ("setsec /k 256", "no 28 Unbuilt\n"),
    ("stat /k", "stat file 1 0 0000 0 0 0 0 0\nok\n"),
];

#[test]
fn an_id_without_a_place_is_not_set(rt: HostRuntime) -> Result<(), test::Fail> {
    let image = volume_with_short(rt.alloc())?;
    sound(rt.alloc(), SECTORS, &image)?;
    assert_eq!(rt;
        wrong_row(rt.alloc(), SECTORS, &image, &WITHOUT_PLACE)?,
        None
    );
    Ok(())
}

// An edit of each kind, each at a moment of its own.
const EDITS: [Row; 8] = [
    ("time 5", "ok\n"),
    ("punch /a 0 5", "ok\n"),
    ("time 6", "ok\n"),
    ("setsec /a 256", "ok\n"),
    ("time 7", "ok\n"),
    ("truncate /a 1", "ok\n"),
    ("time 8", "ok\n"),
    ("rmstream /a:s", "ok\n"),
];

// The mark in two sectors; of each edit two sectors of record 27, two of record 26, whose root has `b`, and eight of the root's index; and
// the mark again: fifty-two, and none behind.
#[test]
fn edits_of_values_fail_safely(rt: HostRuntime) -> Result<(), test::Fail> {
    let image = volume_with_all(rt.alloc())?;
    let numbers = [1, 3, 4, 15, 27, 28, 39, 40, 50, 52];
    fails_safely(rt.alloc(), &image, &EDITS, &numbers, 52)
}
