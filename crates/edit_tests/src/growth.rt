//! Values that get longer in their records, in whole runs: bytes written into them and behind them, lengths that are set, and the room that
//! such an edit asks for.
use laid_volumes::cases::Place::Entry;
use laid_volumes::cases::{Stand, fails_safely, leaves};
use laid_volumes::damage::{CLUSTER_BITS, set_bit};
use laid_volumes::laid::{
    Extent, LaidName, ROOT_RECORD, Value, begin_file, end_file, lay_extent, lay_in_root, lay_name,
    lay_standard, lay_value,
};
use laid_volumes::laid_files::volume_with_all;
use laid_volumes::made::volume;
use laid_volumes::scripts::Row;
use std::alloc::Global;
use std::test;

const SECTORS: u16 = 2048;

// `a` has five bytes, and two more in its stream `s`. The record of `x` has 96 bytes left, and its last stream has four, which move into a
// cluster with 94; `s03` has none, and so does not.
const ROWS: [Row; 38] = [
    ("time 9", "ok\n"),
    ("write /a 1 4142", "ok\n"),
    ("cat /a", "data 6841426c6f\nok\n"),
    ("stat /a", "stat file 2 5 0021 256 1 9 9 4\nok\n"),
    ("time 10", "ok\n"),
    ("write /d/b 4 434445", "ok\n"),
    ("cat /a", "data 6841426c434445\nok\n"),
    ("write /a 9 46", "ok\n"),
    ("cat /a", "data 6841426c434445000046\nok\n"),
    ("stat /a", "stat file 2 10 0021 256 1 10 10 4\nok\n"),
    ("truncate /a 12", "ok\n"),
    ("cat /a", "data 6841426c4344450000460000\nok\n"),
    ("write /a:S 2 63", "ok\n"),
    ("cat /a:s", "data 616263\nok\n"),
    ("cat /a", "data 6841426c4344450000460000\nok\n"),
    ("truncate /x:s19 94", "ok\n"),
    ("write /x:s19 93 41", "no 28 Unbuilt\n"),
    ("truncate /x:s19 93", "ok\n"),
    ("read /x:s19 0 6", "data 6c6173740000\nok\n"),
    ("truncate /x:s03 200", "no 28 Unbuilt\n"),
    ("truncate /x:s19 1", "ok\n"),
    ("write /x:s03 2 41", "ok\n"),
    ("cat /x:s03", "data 000041\nok\n"),
    ("write /a 4096 41", "no 28 Unbuilt\n"),
    ("write /a:t 0 41", "no 28 Unbuilt\n"),
    ("write /a:x\\y 0 41", "no 9 BadName\n"),
    ("write /a 1099511627776 41", "no 19 TooBig\n"),
    ("time 11", "ok\n"),
    ("@1 open /a:s rw rwd", "handle 0\nok\n"),
    ("@1 hwrite 0 4 7a", "ok\n"),
    ("@1 hread 0 0 9", "data 616263007a\nok\n"),
    ("@1 hwrite 0 4096 7a", "no 28 Unbuilt\n"),
    ("@2 open /a r r", "no 22 Shared 1 0\n"),
    ("@1 close 0", "ok\n"),
    ("@2 open /a r r", "handle 0\nok\n"),
    ("write /a 4096 41", "no 22 Shared 2 0\n"),
    ("streams /a", "stream 12\nstream 5 s\nok\n"),
    ("stat /a", "stat file 2 12 0021 256 1 11 11 4\nok\n"),
];

// What the entry tells: the time of record change, the real size, and the flags.
const LEFT: [Stand; 3] = [
    (Entry(27, 0, 0x18), &[11]),
    (Entry(27, 0, 0x30), &[12]),
    (Entry(27, 0, 0x38), &[0x21, 0, 0, 0]),
];

#[test]
fn values_grow(rt: HostRuntime) -> Result<(), test::Fail> {
    let image = volume_with_all(rt.alloc())?;
    leaves(rt.alloc(), SECTORS, &image, &ROWS, &LEFT)
}

// Names in the root.
const BIG: LaidName = LaidName {
    file: 27,
    parent: (ROOT_RECORD, ROOT_RECORD),
    space: 0,
    letters: "big",
    is_dir: false,
};

const K: LaidName = LaidName {
    file: 26,
    parent: (ROOT_RECORD, ROOT_RECORD),
    space: 0,
    letters: "k",
    is_dir: false,
};

// The clusters that a new volume leaves: all behind the first 135.
const FIRST_FREE: u8 = 135;

/// A volume with a small file, `k`, and one whose stream lies in clusters, which are not taken yet.
pub fn volume_with_big(alloc: Global, stream: Extent) -> Result<Vec<u8>, test::Fail> {
    let mut image = volume(alloc)?;
    let at = begin_file(&mut image, 26, 1, false);
    let at = lay_standard(&mut image, at, [0; 4], 0x20);
    let at = lay_name(alloc, &mut image, at, 1, &K)?;
    let hello = Value {
        kind: 0x80,
        id: 2,
        name: "",
        value: b"hello",
    };
    let at = lay_value(&mut image, at, hello);
    end_file(&mut image, 26, at);
    let at = begin_file(&mut image, 27, 1, false);
    let at = lay_standard(&mut image, at, [0; 4], 0x20);
    let at = lay_name(alloc, &mut image, at, 1, &BIG)?;
    let at = lay_extent(&mut image, at, stream);
    end_file(&mut image, 27, at);
    lay_in_root(alloc, &mut image, &[BIG, K])?;
    Ok(image)
}

/// The same, where that stream has all clusters from 135 on but the last ones, so many.
pub fn volume_with_left(alloc: Global, left: u8) -> Result<Vec<u8>, test::Fail> {
    let behind = 0u8.wrapping_sub(left);
    let count = behind.wrapping_sub(FIRST_FREE);
    let bytes = u64::from(count).saturating_mul(4096);
    let all = Extent {
        id: 2,
        flags: 0,
        covered: u64::from(count),
        owned: u64::from(count),
        real: bytes,
        initialized: bytes,
        runs: &[0x21, count, FIRST_FREE, 0, 0],
    };
    let mut image = volume_with_big(alloc, all)?;
    for cluster in FIRST_FREE..behind {
        set_bit(&mut image, CLUSTER_BITS, cluster);
    }
    Ok(image)
}

// A stream of five bytes may come to own one cluster, and the attribute list of its file two: three are asked for, which are not free.
const REFUSED: [Row; 6] = [
    ("write /k 0 41", "no 26 NoRoom 3 2\n"),
    ("truncate /k 6", "no 26 NoRoom 3 2\n"),
    ("truncate /k 4096", "no 26 NoRoom 3 2\n"),
    ("write /big 0 41", "ok\n"),
    ("truncate /k 3", "ok\n"),
    ("cat /k", "data 68656c\nok\n"),
];

const GRANTED: [Row; 8] = [
    ("write /k 5 41", "ok\n"),
    ("truncate /k 7", "ok\n"),
    ("cat /k", "data 68656c6c6f4100\nok\n"),
    ("truncate /k 4097", "no 28 Unbuilt\n"),
    ("truncate /k 4096", "ok\n"),
    ("read /k 4 4", "data 6f410000\nok\n"),
    ("read /k 4094 9", "data 0000\nok\n"),
    ("df", "df 256 2 64 36\nok\n"),
];

#[test]
fn room_is_asked_for(rt: HostRuntime) -> Result<(), test::Fail> {
    for (left, rows) in [(2, REFUSED.as_slice()), (3, GRANTED.as_slice())] {
        let image = volume_with_left(rt.alloc(), left)?;
        leaves(rt.alloc(), SECTORS, &image, rows, &[])?;
    }
    Ok(())
}

// A value that gets longer twice, by a write and by its length.
const EDITS: [Row; 4] = [
    ("time 5", "ok\n"),
    ("write /a 5 4142", "ok\n"),
    ("time 6", "ok\n"),
    ("truncate /a 9", "ok\n"),
];

// The mark in two sectors; of each edit two sectors of record 27, two of record 26, whose root has `b`, and eight of the root's index; and
// the mark again: twenty-eight, and none behind.
#[test]
fn growth_fails_safely(rt: HostRuntime) -> Result<(), test::Fail> {
    let image = volume_with_all(rt.alloc())?;
    let numbers = [1, 3, 4, 15, 16, 26, 28];
    fails_safely(rt.alloc(), &image, &EDITS, &numbers, 28)
}
