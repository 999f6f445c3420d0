//! The room for streams in clusters that get longer, in whole runs: clusters that are free one behind the other or not, the bytes that are
//! left in a record, and writes failing. The stream of `k` has cluster 135 of a new volume.
use laid_volumes::cases::{LongRow, edited_long, fails_safely, leaves, sound};
use laid_volumes::damage::{CLUSTER_BITS, set_bit};
use laid_volumes::laid::{
    Extent, LaidName, ROOT_RECORD, begin_file, end_file, lay_extent, lay_in_root, lay_name,
    lay_standard,
};
use laid_volumes::laid_streams::{ONE, volume_with};
use laid_volumes::scripts::Row;
use std::alloc::Global;
use std::test;

const SECTORS: u16 = 2048;

// A name in the root.
const Z: LaidName = LaidName {
    file: 27,
    parent: (ROOT_RECORD, ROOT_RECORD),
    space: 0,
    letters: "z",
    is_dir: false,
};

// A volume with `k`, and a file `z` that has so many clusters from one on.
fn volume_filled(alloc: Global, from: u8, count: u8) -> Result<Vec<u8>, test::Fail> {
    let mut image = volume_with(alloc, ONE, &[135], b"")?;
    let at = begin_file(&mut image, 27, 1, false);
    let at = lay_standard(&mut image, at, [0; 4], 0x20);
    let at = lay_name(alloc, &mut image, at, 1, &Z)?;
    let bytes = u64::from(count).saturating_mul(4096);
    let stream = Extent {
        id: 2,
        flags: 0,
        covered: u64::from(count),
        owned: u64::from(count),
        real: bytes,
        initialized: bytes,
        runs: &[0x21, count, from, 0, 0],
    };
    let at = lay_extent(&mut image, at, stream);
    end_file(&mut image, 27, at);
    for i in 0..count {
        set_bit(&mut image, CLUSTER_BITS, from.wrapping_add(i));
    }
    lay_in_root(alloc, &mut image, &[Z])?;
    Ok(image)
}

// The attribute list of `k` may take two clusters; what ends within the stream asks for no room.
const NONE_LEFT: [Row; 15] = [
    ("df", "df 256 0 64 36\nok\n"),
    ("write /k 4090 4142", "ok\n"),
    ("write /k 4092 414243", "no 26 NoRoom 2 0\n"),
    ("truncate /k 4095", "no 26 NoRoom 2 0\n"),
    ("truncate /k 4097", "no 28 Unbuilt\n"),
    ("write /k 4092 4142434445", "no 26 NoRoom 3 0\n"),
    ("write /k 4093 4142434445", "no 28 Unbuilt\n"),
    ("@1 open /k w rwd", "handle 0\nok\n"),
    ("@1 hwrite 0 4092 4344", "ok\n"),
    ("@1 hwrite 0 4094 45", "no 26 NoRoom 2 0\n"),
    ("@1 hwrite 0 4094 454647", "no 26 NoRoom 3 0\n"),
    ("@2 open /k r r", "no 22 Shared 1 0\n"),
    ("@1 close 0", "ok\n"),
    ("truncate /k 4093", "ok\n"),
    ("read /k 4089 99", "data 00414243\nok\n"),
];

const TWO_LEFT: [Row; 8] = [
    ("df", "df 256 2 64 36\nok\n"),
    ("write /k 4090 4142434445", "ok\n"),
    ("truncate /k 4096", "ok\n"),
    ("write /k 4095 4647", "no 26 NoRoom 3 2\n"),
    ("@2 open /k r r", "handle 0\nok\n"),
    ("write /k 4095 4647", "no 22 Shared 2 0\n"),
    ("read /k 4089 99", "data 00414243444500\nok\n"),
    ("df", "df 256 2 64 36\nok\n"),
];

const THREE_LEFT: [Row; 6] = [
    ("df", "df 256 3 64 36\nok\n"),
    ("write /k 4090 41424344454647", "ok\n"),
    ("df", "df 256 2 64 36\nok\n"),
    ("write /k 4097 48", "ok\n"),
    ("read /k 4095 99", "data 464748\nok\n"),
    ("stat /k", "stat file 1 4098 0020 256 0 0 0 0\nok\n"),
];

#[test]
fn clusters_are_asked_for(rt: HostRuntime) -> Result<(), test::Fail> {
    for (count, rows) in [
        (120, NONE_LEFT.as_slice()),
        (118, TWO_LEFT.as_slice()),
        (117, THREE_LEFT.as_slice()),
    ] {
        let image = volume_filled(rt.alloc(), 136, count)?;
        leaves(rt.alloc(), SECTORS, &image, rows, &[])?;
    }
    Ok(())
}

// Six clusters are free, 136 to 138 and the last three. Four more are not one behind the other; three are, and then three are left.
const IN_PIECES: [LongRow; 7] = [
    ("df", 0, "df 256 6 64 36\nok\n"),
    ("write /k 4090 ", 12_295, "no 28 Unbuilt\n"),
    ("write /k 0 ", 16_385, "no 28 Unbuilt\n"),
    ("write /k 4090 ", 12_294, "ok\n"),
    ("df", 0, "df 256 3 64 36\nok\n"),
    ("write /k 16384 ", 4097, "no 26 NoRoom 4 3\n"),
    ("stat /k", 0, "stat file 1 16384 0020 256 0 0 0 0\nok\n"),
];

#[test]
fn clusters_lie_one_behind_the_other(rt: HostRuntime) -> Result<(), test::Fail> {
    let image = volume_filled(rt.alloc(), 139, 114)?;
    sound(rt.alloc(), SECTORS, &image)?;
    let _ = edited_long(rt.alloc(), SECTORS, &image, &IN_PIECES)?;
    Ok(())
}

// A value `s` of so many bytes leaves so many in the record, of 1024: its header, the other attributes and the end take 376.
const CROWDED: [Row; 5] = [
    ("write /k 4090 41424344454647", "no 28 Unbuilt\n"),
    ("write /k 4090 414243444546", "ok\n"),
    ("write /k 4096 47", "no 28 Unbuilt\n"),
    ("stat /k", "stat file 1 4096 0020 256 0 0 0 0\nok\n"),
    ("read /k 4089 99", "data 00414243444546\nok\n"),
];

const WITH_ROOM: [Row; 3] = [
    ("write /k 4090 41424344454647", "ok\n"),
    ("read /k 4089 99", "data 0041424344454647\nok\n"),
    ("read /k:s 623 99", "data 00\nok\n"),
];

#[test]
fn a_run_is_told_in_24_bytes(rt: HostRuntime) -> Result<(), test::Fail> {
    let alloc = rt.alloc();
    for (len, rows) in [(625, CROWDED.as_slice()), (624, WITH_ROOM.as_slice())] {
        let image = volume_with(alloc, ONE, &[135], &vec![in alloc; 0; len]?)?;
        leaves(alloc, SECTORS, &image, rows, &[])?;
    }
    Ok(())
}

// Bytes in the last cluster and a new one, and a length in that one.
const EDITS: [Row; 4] = [
    ("time 5", "ok\n"),
    ("write /k 4090 41424344454647", "ok\n"),
    ("time 6", "ok\n"),
    ("truncate /k 4099", "ok\n"),
];

// The mark in two sectors; of the write one of the bitmap of clusters and two of the stream, and of each edit two of record 26 and eight of
// the root's index; and the mark again: twenty-seven, and none behind.
#[test]
fn a_longer_stream_fails_safely(rt: HostRuntime) -> Result<(), test::Fail> {
    let image = volume_with(rt.alloc(), ONE, &[135], b"")?;
    let numbers = [1, 3, 4, 5, 6, 7, 8, 15, 16, 18, 25, 27];
    fails_safely(rt.alloc(), &image, &EDITS, &numbers, 27)
}
