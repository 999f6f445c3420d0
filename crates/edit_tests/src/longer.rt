//! Streams in clusters that get longer, in whole runs: by bytes over those that were written and right behind them, into the last cluster
//! and into new ones, and by lengths that end in the last cluster.
use laid_volumes::cases::Place::{Entry, Image, Record};
use laid_volumes::cases::{LongRow, Stand, all_stand, edited, edited_by, edited_long, sound};
use laid_volumes::damage::{CLUSTER_BITS, put};
use laid_volumes::laid::Extent;
use laid_volumes::laid_streams::{LARGE, ONE, volume_with};
use laid_volumes::scripts::{Row, add_long};
use std::alloc::Global;
use std::test;

const SECTORS: u16 = 2048;

/// Where the unnamed stream stands in the record of a file with one name of one letter: behind two attributes of 96 bytes.
pub const STREAM: usize = 0x38 + 96 + 96;

// Where its runs stand in its attribute, as it was laid.
const RUNS: usize = 0x48;

// 8188 bytes in the clusters 137 and 138, of which 8180 were written.
const TWO: Extent = Extent {
    id: 2,
    flags: 0,
    covered: 2,
    owned: 2,
    real: 8188,
    initialized: 8180,
    runs: &[0x21, 2, 137, 0, 0],
};

// Behind the bytes that were written, and in clusters that are free, stand old ones, which no stream shows.
fn volume_with_two(alloc: Global) -> Result<Vec<u8>, test::Fail> {
    let mut image = volume_with(alloc, TWO, &[137, 138], b"")?;
    put(&mut image, 138 * 4096 + 4082, b"uvoldoldoldold");
    for cluster in [135, 139, 140] {
        put(&mut image, cluster * 4096, b"oldoldold");
    }
    Ok(image)
}

// `df` tells the clusters, those that are free, the records, and those that are free.
const ROWS: [Row; 40] = [
    ("time 9", "ok\n"),
    ("df", "df 256 119 64 37\nok\n"),
    ("read /k 8178 99", "data 75760000000000000000\nok\n"),
    ("write /k 8181 41", "no 28 Unbuilt\n"),
    ("write /k 8180 4142", "ok\n"),
    ("read /k 8178 99", "data 75764142000000000000\nok\n"),
    ("stat /k", "stat file 1 8188 0020 256 0 9 9 0\nok\n"),
    ("time 10", "ok\n"),
    ("truncate /k 8193", "no 28 Unbuilt\n"),
    ("truncate /k 8190", "ok\n"),
    ("read /k 8178 99", "data 757641420000000000000000\nok\n"),
    ("stat /k", "stat file 1 8190 0020 256 0 10 10 0\nok\n"),
    ("write /k 8182 434445464748494a4b", "ok\n"),
    ("read /k 8178 99", "data 75764142434445464748494a4b\nok\n"),
    ("stat /k", "stat file 1 8191 0020 256 0 10 10 0\nok\n"),
    ("df", "df 256 119 64 37\nok\n"),
    ("write /k 8189 5a5b5c5d5e", "ok\n"),
    ("df", "df 256 118 64 37\nok\n"),
    ("read /k 8187 99", "data 48495a5b5c5d5e\nok\n"),
    ("stat /k", "stat file 1 8194 0020 256 0 10 10 0\nok\n"),
    ("time 11", "ok\n"),
    ("@1 open /k rw rwd", "handle 0\nok\n"),
    ("@1 hwrite 0 8194 6667", "ok\n"),
    ("@1 hwrite 0 8197 41", "no 28 Unbuilt\n"),
    ("@1 hread 0 8192 99", "data 5d5e6667\nok\n"),
    ("@1 close 0", "ok\n"),
    ("@2 open /k r r", "handle 0\nok\n"),
    ("write /k 8196 41", "no 22 Shared 2 0\n"),
    ("write /k 8197 41", "no 22 Shared 2 0\n"),
    ("truncate /k 12289", "no 22 Shared 2 0\n"),
    ("truncate /k 1099511627777", "no 19 TooBig\n"),
    ("@2 close 0", "ok\n"),
    ("truncate /k 12289", "no 28 Unbuilt\n"),
    ("truncate /k 12288", "ok\n"),
    ("read /k 8194 4", "data 66670000\nok\n"),
    ("truncate /k 8195", "ok\n"),
    ("write /k 8195 68", "ok\n"),
    ("read /k 8192 99", "data 5d5e6668\nok\n"),
    ("df", "df 256 118 64 37\nok\n"),
    ("stat /k", "stat file 1 8196 0020 256 0 11 11 0\nok\n"),
];

// The rest of the third cluster, and two more. Of the clusters before 137 only 136 is free now, so they come behind those of the stream.
const TWO_MORE: [LongRow; 5] = [
    ("time 12", 0, "ok\n"),
    ("write /k 8196 ", 8192, "ok\n"),
    ("read /k 8194 4", 0, "data 66685a5a\nok\n"),
    ("read /k 16384 99", 0, "data 5a5a5a5a\nok\n"),
    ("df", 0, "df 256 116 64 37\nok\n"),
];

const TWO_LEFT: [Stand; 15] = [
    (Image(138 * 4096 + 4082), b"uvABCDEFGHIZ[\\"),
    (Image(135 * 4096), b"]^fhZZ"),
    (Image(139 * 4096), b"ZZZZZZZZZ"),
    (Image(140 * 4096), b"ZZZZ"),
    // the clusters 137 to 140, and 135 with all before it
    (Image(CLUSTER_BITS + 16), &[0xFF, 0x1E]),
    // two clusters from 137 on, one 2 before these, and two 4 behind that one
    (
        Record(26, STREAM + RUNS),
        &[0x21, 2, 137, 0, 0x11, 1, 0xFE, 0x11, 2, 4, 0],
    ),
    // the last cluster, and the three sizes: 20,480 and twice 16,388
    (Record(26, STREAM + 0x18), &[4, 0]),
    (Record(26, STREAM + 0x28), &[0x00, 0x50]),
    (Record(26, STREAM + 0x30), &[0x04, 0x40]),
    (Record(26, STREAM + 0x38), &[0x04, 0x40]),
    // the entry: the time of record change, both sizes and the flags
    (Entry(26, 0, 0x18), &[12]),
    (Entry(26, 0, 0x28), &[0x00, 0x50]),
    (Entry(26, 0, 0x30), &[0x04, 0x40]),
    (Entry(26, 0, 0x38), &[0x20, 0, 0, 0]),
    (Record(26, STREAM + 0x20), &[0x48, 0]),
];

#[test]
fn streams_in_clusters_get_longer(rt: HostRuntime) -> Result<(), test::Fail> {
    let image = volume_with_two(rt.alloc())?;
    sound(rt.alloc(), SECTORS, &image)?;
    let image = edited(rt.alloc(), SECTORS, &image, &ROWS)?;
    let left = edited_long(rt.alloc(), SECTORS, &image, &TWO_MORE)?;
    all_stand(&left, &TWO_LEFT)
}

// Of 120 free clusters eight are left then, which do for six more.
const LARGE_TOLD: &[u8] = b"ok\nok\nok\nok\nok\nok\nok\nok\nok\nok\nok\nok\nok\nok\n\
    df 256 8 64 37\nok\nno 26 NoRoom 10 8\nok\ndf 256 2 64 37\nok\nno 26 NoRoom 3 2\n\
    stat file 1 487424 0020 256 0 0 0 0\nok\ndata 005a\nok\ndata 5a5a\nok\n";

// The script of `LARGE`, then of one write more that asks for too much, and of the rest of the room.
fn large_script(alloc: Global) -> Result<Vec<u8>, test::Fail> {
    let mut script = Vec::new(alloc);
    for line in LARGE {
        add_long(&mut script, line, 32_768)?;
    }
    for (line, count) in [
        ("df", 0),
        ("write /k 462842 ", 32_768),
        ("write /k 462842 ", 24_582),
        ("df", 0),
        ("write /k 487424 41", 0),
        ("stat /k", 0),
        ("read /k 4089 2", 0),
        ("read /k 487422 99", 0),
    ] {
        add_long(&mut script, line, count)?;
    }
    Ok(script)
}

const LARGE_LEFT: [Stand; 6] = [
    (
        Record(26, STREAM + RUNS),
        &[0x21, 1, 135, 0, 0x11, 8, 1, 0x11, 8, 8, 0x11, 8, 8],
    ),
    (Record(26, STREAM + RUNS + 46), &[0x11, 6, 8, 0]),
    // 487,424 bytes
    (
        Record(26, STREAM + 0x28),
        &[0x00, 0x70, 0x07, 0, 0, 0, 0, 0],
    ),
    (Record(26, STREAM + 0x20), &[0x48, 0]),
    // the clusters up to 253, and the last byte of the stream
    (Image(CLUSTER_BITS + 31), &[0x3F]),
    (Image(254 * 4096 - 1), &[0x5A]),
];

#[test]
fn large_writes_take_runs(rt: HostRuntime) -> Result<(), test::Fail> {
    let image = volume_with(rt.alloc(), ONE, &[135], b"")?;
    let script = large_script(rt.alloc())?;
    let left = edited_by(rt.alloc(), SECTORS, &image, &script, LARGE_TOLD)?;
    all_stand(&left, &LARGE_LEFT)
}
