//! `mkdir`: directories that come under new names, and what comes into them.
use laid_volumes::cases::Place::Record;
use laid_volumes::cases::{Stand, all_stand, edited, edited_by};
use laid_volumes::damage::{number, record};
use laid_volumes::made::{made_by, made_on};
use laid_volumes::scripts::Row;
use std::test;

// On a new volume of 16,384 sectors.
const NAMES: [Row; 26] = [
    ("mkdir /d", "ok\n"),
    ("mkdir /D", "no 13 Exists\n"),
    ("create /d", "no 13 Exists\n"),
    ("mkdir /", "no 13 Exists\n"),
    ("mkdir /a?", "no 9 BadName\n"),
    ("mkdir /x/y", "no 4 NotFound\n"),
    ("mkdir /$Extend/y", "no 7 Hidden\n"),
    ("ls /d", "ok\n"),
    ("time 1000", "ok\n"),
    ("mkdir /d/e", "ok\n"),
    ("stat /d", "stat dir 1 0 0000 256 0 1000 1000 0\nok\n"),
    (
        "stat /d/e",
        "stat dir 1 0 0000 256 1000 1000 1000 1000\nok\n",
    ),
    ("create /d/e/f", "ok\n"),
    ("mkdir /d/e/f/g", "no 5 NotDir\n"),
    ("write /d/e/f 0 68656c6c6f", "ok\n"),
    ("cat /d/e/f", "data 68656c6c6f\nok\n"),
    (
        "stat /d/e/f",
        "stat file 1 5 0020 256 1000 1000 1000 1000\nok\n",
    ),
    ("ls /", "dir d\nok\n"),
    ("ls /d", "dir e\nok\n"),
    ("ls /d/e", "file f\nok\n"),
    ("links /d/e", "link 0 /d/e\nok\n"),
    ("streams /d/e", "ok\n"),
    ("write /d/e 0 00", "no 10 IsDir\n"),
    ("setattr /d/e 0002", "ok\n"),
    ("attr /d/e", "attr 0002\nok\n"),
    ("df", "df 2048 1913 64 35\nok\n"),
];

#[test]
fn directories_come_under_new_names(rt: HostRuntime) -> Result<(), test::Fail> {
    let image = made_on(rt.alloc(), 16_384, "format 16384 4096 1 DATA")?;
    let _ = edited(rt.alloc(), 16_384, &image, &NAMES)?;
    Ok(())
}

// The name of the index, `$I30`, in the place behind the header of its attribute, which tells four units.
const INDEX_NAME: [u8; 8] = *b"$\0I\03\00\0";

// The root of the index: it indexes names, which it orders by their rule, and its records have 4,096 bytes; behind that, its node has its
// first entry 16 bytes from its front, 32 bytes in use with the last entry, room for no more, and no children; that entry has 16 bytes, and
// says that it is the last.
const ROOT: [u8; 12] = [0x30, 0, 0, 0, 1, 0, 0, 0, 0, 0x10, 0, 0];

const NODE: [u8; 32] = [
    16, 0, 0, 0, 32, 0, 0, 0, 32, 0, 0, 0, 0, 0, 0, 0, 0, 0, 0, 0, 0, 0, 0, 0, 16, 0, 0, 0, 2, 0,
    0, 0,
];

// Where the third attribute of record 26 stands, behind a header of 56 bytes and two of 96.
const BODY: usize = 0x38 + 96 + 96;

// Where its value stands.
const VALUE: usize = BODY + 24 + 8;

const LEFT: [Stand; 16] = [
    (Record(26, 0x10), &[1, 0, 1, 0]),
    (Record(26, 0x16), &[3, 0]),
    // 0x38 + 96 + 96 + 80 + 8
    (Record(26, 0x18), &[0x50, 1]),
    (Record(26, 0x28), &[3, 0]),
    (Record(26, 0x38 + 24 + 0x20), &[0, 0]),
    (Record(26, 0x38 + 24 + 0x34), &[0, 1]),
    (Record(26, 0x38 + 96 + 24 + 0x38), &[0, 0]),
    (Record(26, 0x38 + 96 + 24 + 0x3A), &[0, 0x10]),
    (Record(26, BODY), &[0x90, 0]),
    (Record(26, BODY + 4), &[80, 0]),
    (Record(26, BODY + 8), &[0, 4]),
    (Record(26, BODY + 0x0E), &[1, 0]),
    (Record(26, BODY + 0x10), &[48, 0]),
    (Record(26, BODY + 24), &INDEX_NAME),
    (Record(26, VALUE), &ROOT),
    (Record(26, VALUE + 16), &NODE),
];

// On each size of clusters, of which a record of the index has so many.
#[test]
fn records_tell_the_directory(rt: HostRuntime) -> Result<(), test::Fail> {
    for (words, clusters) in [
        ("format 2048 512 1 DATA", 8),
        ("format 2048 1024 1 DATA", 4),
        ("format 2048 2048 1 DATA", 2),
        ("format 2048 4096 1 DATA", 1),
    ] {
        let image = made_by(rt.alloc(), words)?;
        let left = edited(rt.alloc(), 2048, &image, &[("mkdir /d", "ok\n")])?;
        all_stand(&left, &LEFT)?;
        assert_eq!(rt; number(&left, record(26) + VALUE + 12), clusters);
    }
    Ok(())
}

// A directory under the longest name: its record has room for a short one yet.
#[test]
fn the_longest_name_leaves_room(rt: HostRuntime) -> Result<(), test::Fail> {
    let mut script = Vec::new(rt.alloc());
    for (word, rest) in [
        (b"mkdir /".as_slice(), b"\n".as_slice()),
        (b"create /".as_slice(), b"/f\n".as_slice()),
    ] {
        script.extend_from_slice(word)?;
        for _ in 0..255 {
            script.push(b'n')?;
        }
        script.extend_from_slice(rest)?;
    }
    let image = made_on(rt.alloc(), 16_384, "format 16384 4096 1 DATA")?;
    let _ = edited_by(rt.alloc(), 16_384, &image, &script, b"ok\nok\n")?;
    Ok(())
}
