//! Small streams that move into clusters, in whole runs: bytes that the record of their file has no room for, over them and behind them.
use crate::growth::{volume_with_big, volume_with_left};
use crate::longer::STREAM;
use laid_volumes::cases::Place::{Image, Record};
use laid_volumes::cases::{LongRow, Stand, all_stand, edited_long, sound};
use laid_volumes::damage::{CLUSTER_BITS, put, set_bit};
use laid_volumes::laid::{Extent, own};
use laid_volumes::made::volume;
use std::alloc::Global;
use std::test;

const SECTORS: u16 = 2048;

// An empty file gets 4,000 bytes, which no record has room for, and later more behind them: one cluster, and two behind it.
const NEW: [LongRow; 11] = [
    ("time 9", 0, "ok\n"),
    ("create /n", 0, "ok\n"),
    ("df", 0, "df 256 121 64 37\nok\n"),
    ("write /n 0 ", 4000, "ok\n"),
    ("df", 0, "df 256 120 64 37\nok\n"),
    ("read /n 3998 99", 0, "data 5a5a\nok\n"),
    ("stat /n", 0, "stat file 1 4000 0020 256 9 9 9 9\nok\n"),
    ("write /n 4000 ", 8192, "ok\n"),
    ("df", 0, "df 256 118 64 37\nok\n"),
    ("read /n 12190 99", 0, "data 5a5a\nok\n"),
    ("stat /n", 0, "stat file 1 12192 0020 256 9 9 9 9\nok\n"),
];

const NEW_LEFT: [Stand; 2] = [
    // the clusters 135 to 137, with those of a new volume
    (Image(CLUSTER_BITS + 16), &[0xFF, 0x03]),
    (Image(135 * 4096), b"ZZZZ"),
];

#[test]
fn an_empty_file_moves(rt: HostRuntime) -> Result<(), test::Fail> {
    let left = edited_long(rt.alloc(), SECTORS, &volume(rt.alloc())?, &NEW)?;
    all_stand(&left, &NEW_LEFT)
}

// Bytes over those of the stream, which is `hello`: two clusters of the last four. Those that begin behind its end are another way.
const OVER: [LongRow; 9] = [
    ("time 9", 0, "ok\n"),
    ("write /k 7000 ", 1, "no 28 Unbuilt\n"),
    ("write /k 2 ", 4095, "ok\n"),
    ("df", 0, "df 256 2 64 36\nok\n"),
    ("read /k 0 5", 0, "data 68655a5a5a\nok\n"),
    ("read /k 4095 99", 0, "data 5a5a\nok\n"),
    ("stat /k", 0, "stat file 1 4097 0020 256 0 9 9 0\nok\n"),
    ("write /k 4097 ", 1, "ok\n"),
    ("stat /k", 0, "stat file 1 4098 0020 256 0 9 9 0\nok\n"),
];

const OVER_LEFT: [Stand; 8] = [
    (Image(252 * 4096), b"heZZZZ"),
    (Image(253 * 4096), b"ZZ"),
    // its attribute: in clusters, the last one, where its runs stand, and the three sizes, 8,192 and twice 4,098
    (Record(26, STREAM + 8), &[1]),
    (Record(26, STREAM + 0x18), &[1, 0]),
    (Record(26, STREAM + 0x20), &[0x40, 0]),
    (Record(26, STREAM + 0x28), &[0x00, 0x20]),
    (
        Record(26, STREAM + 0x30),
        &[0x02, 0x10, 0, 0, 0, 0, 0, 0, 0x02, 0x10],
    ),
    (Record(26, STREAM + 0x40), &[0x21, 2, 252, 0, 0]),
];

#[test]
fn bytes_over_a_value_move_it(rt: HostRuntime) -> Result<(), test::Fail> {
    let mut image = volume_with_left(rt.alloc(), 4)?;
    put(&mut image, 252 * 4096, b"oldold");
    put(&mut image, 253 * 4096, b"old");
    let left = edited_long(rt.alloc(), SECTORS, &image, &OVER)?;
    all_stand(&left, &OVER_LEFT)
}

// Four clusters are free, as the bytes and an attribute list need, but not five.
const ROOM: [LongRow; 3] = [
    ("write /k 5 ", 8192, "no 26 NoRoom 5 4\n"),
    ("write /k 5 ", 8000, "ok\n"),
    ("df", 0, "df 256 2 64 36\nok\n"),
];

// Five are, no three of which lie one behind the other. One is enough for fewer bytes, by a handle.
const APART: [LongRow; 6] = [
    ("write /k 5 ", 8188, "no 28 Unbuilt\n"),
    ("@1 open /k rw rwd", 0, "handle 0\nok\n"),
    ("@1 hwrite 0 5 ", 4091, "ok\n"),
    ("@1 hread 0 0 6", 0, "data 68656c6c6f5a\nok\n"),
    ("@1 close 0", 0, "ok\n"),
    ("df", 0, "df 256 4 64 36\nok\n"),
];

// The clusters 135 to 247, and then 249, 251 and 253.
const TAKEN: Extent = Extent {
    id: 2,
    flags: 0,
    covered: 116,
    owned: 116,
    real: 116 * 4096,
    initialized: 116 * 4096,
    runs: &[0x21, 113, 135, 0, 0x11, 1, 114, 0x11, 1, 2, 0x11, 1, 2, 0],
};

fn volume_apart(alloc: Global) -> Result<Vec<u8>, test::Fail> {
    let mut image = volume_with_big(alloc, TAKEN)?;
    for cluster in 135..248 {
        set_bit(&mut image, CLUSTER_BITS, cluster);
    }
    own(&mut image, &[249, 251, 253]);
    sound(alloc, SECTORS, &image)?;
    Ok(image)
}

#[test]
fn room_for_a_value_that_moves(rt: HostRuntime) -> Result<(), test::Fail> {
    let image = volume_with_left(rt.alloc(), 4)?;
    edited_long(rt.alloc(), SECTORS, &image, &ROOM)?;
    let left = edited_long(rt.alloc(), SECTORS, &volume_apart(rt.alloc())?, &APART)?;
    all_stand(&left, &[(Image(248 * 4096), b"helloZ")])
}
