//! Volumes that the word `format` makes, and disks with their contents.
use crate::given::{AMPLE, run, sink_of};
use check_records::check_records;
use mft_table::MountNo;
use std::alloc::{AllocError, Global};
use std::test;
use vol_disk::{CallKind, Fail, FailDisk, MemDisk};

const SECTORS: u16 = 2048;

/// The volume of so many sectors that these words make.
pub fn made_on(alloc: Global, sectors: u16, words: &str) -> Result<Vec<u8>, test::Fail> {
    let mut disk = MemDisk::new(alloc, vec![in alloc; 0; usize::from(sectors) * 512]?);
    disk.reserve(2000)?;
    let mut out = sink_of(alloc, AMPLE, 0)?;
    let _ = run(alloc, words, &mut disk, &mut out)?;
    Ok(disk.contents().to_vec(alloc)?)
}

/// The volume of 2,048 sectors that these words make.
pub fn made_by(alloc: Global, words: &str) -> Result<Vec<u8>, test::Fail> {
    made_on(alloc, SECTORS, words)
}

/// The volume, as it was made.
pub fn volume(alloc: Global) -> Result<Vec<u8>, test::Fail> {
    made_by(alloc, "format 2048 4096 1 DATA")
}

/// A disk of so many sectors with these contents.
pub fn disk_on(alloc: Global, sectors: u16, image: &[u8]) -> Result<MemDisk, AllocError> {
    let mut contents = image.to_vec(alloc)?;
    contents.resize(usize::from(sectors) * 512, 0)?;
    Ok(MemDisk::new(alloc, contents))
}

/// A disk of 2,048 sectors with these contents.
pub fn disk_of(alloc: Global, image: &[u8]) -> Result<MemDisk, AllocError> {
    disk_on(alloc, SECTORS, image)
}

/// Why the volume is refused, if it is; writes are told as a failing device.
pub fn refusal(alloc: Global, image: &[u8]) -> Result<Option<MountNo>, test::Fail> {
    let mut disk = disk_of(alloc, image)?;
    let refusal = match check_records(alloc, &mut disk) {
        Ok(_) => None,
        Err(no) => Some(no),
    };
    if !disk.writes().is_empty() {
        return Ok(Some(MountNo::Device));
    }
    Ok(refusal)
}

/// A disk of 2,048 sectors with these contents, of which one read fails.
pub fn failing_disk(
    alloc: Global,
    image: &[u8],
    number: u64,
) -> Result<FailDisk<MemDisk>, AllocError> {
    let fail = Fail {
        kind: CallKind::Read,
        number,
        lands: false,
    };
    Ok(FailDisk::new(disk_of(alloc, image)?, vec![in alloc; fail]?))
}
