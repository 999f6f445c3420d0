//! Streams in clusters of other kinds that get longer, in whole runs: ones with a hole, an empty one, and one with a name.
use crate::clusters::volume_with_named;
use crate::longer::STREAM;
use laid_volumes::cases::Place::{Image, Record};
use laid_volumes::cases::{LongRow, Stand, all_stand, edited_long, leaves};
use laid_volumes::laid_files::volume_with_all;
use laid_volumes::scripts::Row;
use std::test;

const SECTORS: u16 = 2048;

// Where the runs of a stream with holes stand in its attribute.
const RUNS: usize = 0x48;

// The stream of `h` has a cluster, a hole of 16, and cluster 203 with 8 bytes.
const HOLED: [LongRow; 7] = [
    ("time 9", 0, "ok\n"),
    ("write /h 69640 ", 4096, "ok\n"),
    ("df", 0, "df 256 116 64 32\nok\n"),
    ("read /h 69636 6", 0, "data 343536375a5a\nok\n"),
    ("read /h 69630 2", 0, "data 0000\nok\n"),
    ("read /h 73730 99", 0, "data 5a5a5a5a5a5a\nok\n"),
    ("stat /h", 0, "stat file 1 73736 0020 256 0 9 9 0\nok\n"),
];

// The last run is 68 clusters before the one in front of it, and three clusters are its own.
const HOLED_LEFT: [Stand; 3] = [
    (Record(29, STREAM + 0x20), &[0x48, 0]),
    (
        Record(29, STREAM + RUNS),
        &[0x21, 1, 202, 0, 1, 16, 0x11, 1, 1, 0x11, 1, 0xBC, 0],
    ),
    (Record(29, STREAM + 0x40), &[0x00, 0x30]),
];

#[test]
fn a_stream_with_a_hole_gets_longer(rt: HostRuntime) -> Result<(), test::Fail> {
    let image = volume_with_all(rt.alloc())?;
    all_stand(
        &edited_long(rt.alloc(), SECTORS, &image, &HOLED)?,
        &HOLED_LEFT,
    )
}

// Where its last cluster went, one comes behind the hole; where all went, one is the first.
const CUT_BEFORE: [Row; 12] = [
    ("truncate /h 69632", "ok\n"),
    ("df", "df 256 118 64 32\nok\n"),
    ("write /h 69632 4142", "ok\n"),
    ("read /h 69630 99", "data 00004142\nok\n"),
    ("df", "df 256 117 64 32\nok\n"),
    ("truncate /h 0", "ok\n"),
    ("df", "df 256 119 64 32\nok\n"),
    ("write /h 1 41", "no 28 Unbuilt\n"),
    ("write /h 0 4344", "ok\n"),
    ("write /h 2 45", "ok\n"),
    ("cat /h", "data 434445\nok\n"),
    ("df", "df 256 118 64 32\nok\n"),
];

const BETWEEN: [Stand; 1] = [(
    Record(29, STREAM + RUNS),
    &[0x21, 1, 202, 0, 1, 16, 0x11, 1, 0xBD, 0],
)];

const LEFT: [Stand; 1] = [(Record(29, STREAM + RUNS), &[0x21, 1, 135, 0, 0])];

#[test]
fn a_stream_that_was_cut_gets_longer(rt: HostRuntime) -> Result<(), test::Fail> {
    let image = volume_with_all(rt.alloc())?;
    leaves(rt.alloc(), SECTORS, &image, &CUT_BEFORE[..5], &BETWEEN)?;
    leaves(rt.alloc(), SECTORS, &image, &CUT_BEFORE, &LEFT)
}

// Its own bytes stay as they were.
const NAMED: [LongRow; 4] = [
    ("time 9", 0, "ok\n"),
    ("write /k:S 5000 ", 3193, "ok\n"),
    ("streams /k", 0, "stream 5\nstream 8193 s\nok\n"),
    ("stat /k", 0, "stat file 1 5 0020 256 0 9 9 0\nok\n"),
];

// Behind the five bytes, which take 32; two clusters from 207 on, and one 72 before these.
const NAMED_LEFT: [Stand; 2] = [
    (
        Record(26, STREAM + 32 + 80),
        &[0x21, 2, 207, 0, 0x11, 1, 0xB8, 0],
    ),
    (Image(135 * 4096), &[0x5A]),
];

#[test]
fn a_named_stream_gets_longer(rt: HostRuntime) -> Result<(), test::Fail> {
    let image = volume_with_named(rt.alloc())?;
    all_stand(
        &edited_long(rt.alloc(), SECTORS, &image, &NAMED)?,
        &NAMED_LEFT,
    )
}
