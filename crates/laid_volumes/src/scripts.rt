//! Scripts, run on a disk in memory: rows of lines and replies, what a script prints, and runs of which one call of the disk fails.
use crate::given::{AMPLE, run, sink_of};
use crate::made::{disk_of, disk_on};
use edge::run_shell;
use std::alloc::{AllocError, Global};
use std::test;
use vol_disk::{CallKind, Disk, Fail, FailDisk, MemDisk, MemSink, MemSource, Sink, Source};

/// More than any text here is long, but for that of a whole reading.
pub const TEXT_ROOM: usize = 4096;

// More than any text here is long.
const READING_ROOM: usize = 70_000;

/// A line of a script, and its reply.
pub type Row = (&'static str, &'static str);

/// A source of these bytes, whose call of this number fails; 0 is none.
pub fn source_of(alloc: Global, text: &[u8], fails: u64) -> Result<MemSource, AllocError> {
    Ok(MemSource::new(text.to_vec(alloc)?, vec![in alloc; fails]?))
}

/// The status of `run`.
pub fn run_on<D: Disk, S: Source, K: Sink>(
    alloc: Global,
    disk: &mut D,
    script: &mut S,
    out: &mut K,
) -> Result<u8, AllocError> {
    let words = vec![in alloc; "run".to_string(alloc)?]?;
    Ok(run_shell(alloc, &words, disk, script, out))
}

/// A disk of 2,048 sectors with these contents, and room for its settles.
pub fn settling(alloc: Global, image: &[u8]) -> Result<MemDisk, test::Fail> {
    let mut disk = disk_of(alloc, image)?;
    disk.reserve(64)?;
    Ok(disk)
}

/// The status of a script on a disk of which one call fails, and what is printed.
pub fn failing(
    alloc: Global,
    image: &[u8],
    script: &[u8],
    kind: CallKind,
    number: u64,
) -> Result<(u8, MemSink), test::Fail> {
    let fail = Fail {
        kind,
        number,
        lands: false,
    };
    let mut disk = FailDisk::new(settling(alloc, image)?, vec![in alloc; fail]?);
    let mut source = source_of(alloc, script, 0)?;
    let mut out = sink_of(alloc, TEXT_ROOM, 0)?;
    let status = run_on(alloc, &mut disk, &mut source, &mut out)?;
    Ok((status, out))
}

/// What a script prints, if it ends well and writes nothing.
pub fn replies(
    alloc: Global,
    sectors: u16,
    image: &[u8],
    script: &[u8],
) -> Result<Option<MemSink>, test::Fail> {
    let mut disk = disk_on(alloc, sectors, image)?;
    disk.reserve(100)?;
    let mut source = source_of(alloc, script, 0)?;
    let mut out = sink_of(alloc, READING_ROOM, 0)?;
    let status = run_on(alloc, &mut disk, &mut source, &mut out)?;
    Ok(if status == 0 && disk.writes().is_empty() {
        Some(out)
    } else {
        None
    })
}

/// The script of some lines.
pub fn script_of(alloc: Global, rows: &[Row]) -> Result<Vec<u8>, test::Fail> {
    let mut script = Vec::new(alloc);
    for (line, _) in rows {
        script.extend_from_slice(line.as_bytes())?;
        script.push(b'\n')?;
    }
    Ok(script)
}

/// The first of some lines, run as one script, that is not answered as its row says.
pub fn wrong_row(
    alloc: Global,
    sectors: u16,
    image: &[u8],
    rows: &[Row],
) -> Result<Option<&'static str>, test::Fail> {
    let script = script_of(alloc, rows)?;
    let Some(out) = replies(alloc, sectors, image, &script)? else {
        return Ok(Some("the end"));
    };
    first_wrong(alloc, out.bytes(), rows)
}

// The first of some lines whose reply does not come next in a text.
fn first_wrong(
    alloc: Global,
    printed: &[u8],
    rows: &[Row],
) -> Result<Option<&'static str>, test::Fail> {
    let mut text = Vec::new(alloc);
    for (line, reply) in rows {
        text.extend_from_slice(reply.as_bytes())?;
        if !printed.starts_with(&text) {
            return Ok(Some(*line));
        }
    }
    Ok(if printed.len() == text.len() {
        None
    } else {
        Some("behind the last")
    })
}

/// Whether `check` prints that a volume is sound.
pub fn is_sound(alloc: Global, sectors: u16, image: &[u8]) -> Result<bool, test::Fail> {
    let mut disk = disk_on(alloc, sectors, image)?;
    let mut out = sink_of(alloc, AMPLE, 0)?;
    let status = run(alloc, "check", &mut disk, &mut out)?;
    Ok(status == 0 && out.bytes() == b"sound\n".as_slice())
}

/// Puts a line behind a script that ends in so many bytes 5A.
pub fn add_long(script: &mut Vec<u8>, line: &str, count: u16) -> Result<(), AllocError> {
    script.extend_from_slice(line.as_bytes())?;
    for _ in 0..count {
        script.extend_from_slice(b"5a")?;
    }
    script.push(b'\n')?;
    Ok(())
}

/// The status of a script, and what it prints.
pub fn told(alloc: Global, disk: &mut MemDisk, script: &[u8]) -> Result<(u8, MemSink), test::Fail> {
    let mut source = source_of(alloc, script, 0)?;
    let mut out = sink_of(alloc, TEXT_ROOM, 0)?;
    let status = run_on(alloc, disk, &mut source, &mut out)?;
    Ok((status, out))
}

/// A disk with these contents, and room for all that is written here.
pub fn writable(alloc: Global, sectors: u16, image: &[u8]) -> Result<MemDisk, test::Fail> {
    let mut disk = disk_on(alloc, sectors, image)?;
    disk.reserve(2000)?;
    Ok(disk)
}

/// The status of a script on a disk, and the first of its lines that is not answered as its row says.
pub fn run_rows<D: Disk>(
    alloc: Global,
    disk: &mut D,
    rows: &[Row],
) -> Result<(u8, Option<&'static str>), test::Fail> {
    let mut source = source_of(alloc, &script_of(alloc, rows)?, 0)?;
    let mut out = sink_of(alloc, TEXT_ROOM, 0)?;
    let status = run_on(alloc, disk, &mut source, &mut out)?;
    Ok((status, first_wrong(alloc, out.bytes(), rows)?))
}
