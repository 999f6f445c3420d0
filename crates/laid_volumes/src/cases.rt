//! Whole runs as data: words and what they print, rows on an image, what stands in the image that they leave, and writes that fail. A
//! case that goes wrong is an error that says which words, row, place or write it is, so a test has nothing to assert beside it.
use crate::damage::{is_marked, record, stands};
use crate::given::{AMPLE, run, sink_of};
use crate::laid::key_in_root;
use crate::scripts::{Row, add_long, is_sound, run_rows, told, writable};
use std::alloc::Global;
use std::test;
use vol_disk::{CallKind, Disk, Fail, FailDisk, MemDisk};

// The sectors of a volume of which a write fails.
const SECTORS: u16 = 2048;

/// A byte of the image, or of a record; or one from the key on of the entry of the root that is of a file, and there the k-th from 0 on.
#[derive(Clone, Copy, Debug)]
pub enum Place {
    Image(usize),
    Record(u8, usize),
    Entry(u8, usize, usize),
}

/// A place, and the bytes that stand there.
pub type Stand = (Place, &'static [u8]);

/// A line that ends in so many bytes 5A, and its reply.
pub type LongRow = (&'static str, u16, &'static str);

// The byte of the image at a place; none where there is no such entry.
fn byte_at(image: &[u8], place: Place) -> usize {
    match place {
        Place::Image(at) => at,
        Place::Record(n, at) => record(n).saturating_add(at),
        Place::Entry(file, k, at) => match key_in_root(image, file, k) {
            Some(key) => key.saturating_add(at),
            None => usize::MAX,
        },
    }
}

/// These bytes stand at their places.
pub fn all_stand(image: &[u8], rows: &[Stand]) -> Result<(), test::Fail> {
    for (place, bytes) in rows {
        if !stands(image, byte_at(image, *place), bytes) {
            return Err(*place)?;
        }
    }
    Ok(())
}

/// A volume is sound.
pub fn sound(alloc: Global, sectors: u16, image: &[u8]) -> Result<(), test::Fail> {
    if is_sound(alloc, sectors, image)? {
        Ok(())
    } else {
        Err("the volume is not sound")?
    }
}

/// Words on a disk end with this status, and print this text.
pub fn prints<D: Disk>(
    alloc: Global,
    words: &str,
    disk: &mut D,
    status: u8,
    text: &str,
) -> Result<(), test::Fail> {
    let mut out = sink_of(alloc, AMPLE, 0)?;
    let got = run(alloc, words, disk, &mut out)?;
    if got != status || out.bytes() != text.as_bytes() {
        return Err((words.to_string(alloc)?, got))?;
    }
    Ok(())
}

/// The same, and nothing is written or settled.
pub fn only_prints(
    alloc: Global,
    words: &str,
    disk: &mut MemDisk,
    status: u8,
    text: &str,
) -> Result<(), test::Fail> {
    prints(alloc, words, disk, status, text)?;
    if !disk.writes().is_empty() || !disk.settles().is_empty() {
        return Err(words.to_string(alloc)?)?;
    }
    Ok(())
}

/// The sound volume that rows leave, which are answered as they say.
pub fn edited(
    alloc: Global,
    sectors: u16,
    image: &[u8],
    rows: &[Row],
) -> Result<Vec<u8>, test::Fail> {
    let mut disk = writable(alloc, sectors, image)?;
    let ended = run_rows(alloc, &mut disk, rows)?;
    if ended != (0, None) {
        return Err(ended)?;
    }
    sound(alloc, sectors, disk.contents())?;
    Ok(disk.contents().to_vec(alloc)?)
}

/// The sound volume that a script leaves, which prints this text.
pub fn edited_by(
    alloc: Global,
    sectors: u16,
    image: &[u8],
    script: &[u8],
    text: &[u8],
) -> Result<Vec<u8>, test::Fail> {
    let mut disk = writable(alloc, sectors, image)?;
    let (status, out) = told(alloc, &mut disk, script)?;
    if status != 0 || out.bytes() != text {
        return Err("the script is answered otherwise")?;
    }
    sound(alloc, sectors, disk.contents())?;
    Ok(disk.contents().to_vec(alloc)?)
}

/// The same of lines with many bytes.
pub fn edited_long(
    alloc: Global,
    sectors: u16,
    image: &[u8],
    rows: &[LongRow],
) -> Result<Vec<u8>, test::Fail> {
    let mut script = Vec::new(alloc);
    let mut text = Vec::new(alloc);
    for (line, count, reply) in rows {
        add_long(&mut script, line, *count)?;
        text.extend_from_slice(reply.as_bytes())?;
    }
    edited_by(alloc, sectors, image, &script, &text)
}

/// Rows on a sound volume are answered as they say, and leave a sound one in which these bytes stand.
pub fn leaves(
    alloc: Global,
    sectors: u16,
    image: &[u8],
    rows: &[Row],
    left: &[Stand],
) -> Result<(), test::Fail> {
    sound(alloc, sectors, image)?;
    all_stand(&edited(alloc, sectors, image, rows)?, left)
}

/// The status of rows on a volume where one write fails, and what is left.
pub fn failing_write(
    alloc: Global,
    image: &[u8],
    rows: &[Row],
    number: u64,
    lands: bool,
) -> Result<(u8, Vec<u8>), test::Fail> {
    let fail = Fail {
        kind: CallKind::Write,
        number,
        lands,
    };
    let mut disk = FailDisk::new(writable(alloc, SECTORS, image)?, vec![in alloc; fail]?);
    let (status, _) = run_rows(alloc, &mut disk, rows)?;
    Ok((status, disk.inner().contents().to_vec(alloc)?))
}

// Where this write fails, the status is this one, and what is left is marked, or sound.
fn fails_with(
    alloc: Global,
    image: &[u8],
    rows: &[Row],
    number: u64,
    status: u8,
) -> Result<(), test::Fail> {
    let (got, left) = failing_write(alloc, image, rows, number, false)?;
    if got != status || !(is_marked(&left) || is_sound(alloc, SECTORS, &left)?) {
        return Err(number)?;
    }
    Ok(())
}

/// Rows of so many writes: where one of these fails, they end with status 6, and what is left is marked, or sound; no write is behind the
/// last.
pub fn fails_safely(
    alloc: Global,
    image: &[u8],
    rows: &[Row],
    numbers: &[u64],
    writes: u64,
) -> Result<(), test::Fail> {
    for number in numbers {
        fails_with(alloc, image, rows, *number, 6)?;
    }
    fails_with(alloc, image, rows, writes.saturating_add(1), 0)
}
