//! The image as a disk, and the standard streams beside it.
ghost use Rattle.std.specs.Prelude.{◌≡◌, ◌/◌, ◌^◌, ◌<◌};

use frame_disk::{FrameDisk, RangeFile};
use shell::Access;
use std::alloc::Global;
use std::fs::{File, OpenOptions};
use std::io::{ErrorKind, Seek, SeekFrom};
use std::os::unix::fs::FileTypeExt;
use std::rt::Files;
use std::{fs, io};
use thiserror::Error;
use vol_disk::SECTOR;

/// Why there is no disk over the image.
#[derive(Debug, Drop, Error)]
pub enum ImageFault {
    #[error("cannot be opened, even for reading alone: {0}")]
    Unreadable(io::Error),
    #[error("cannot be opened for reading and writing: {0}")]
    Unwritable(io::Error),
    #[error("cannot be held open twice: {0}")]
    Single(io::Error),
    #[error("cannot be read, since there is no memory for what is kept of it")]
    Memory,
    #[error("does not tell its length: {0}; a file or a block device is wanted, and no pipe")]
    Endless(io::Error),
}

/// The image as a disk, which is read by frames.
#[derive(Drop)]
pub struct Image {
    pub disk: FrameDisk<RangeFile>,
    /// Whether it was opened for writing too.
    pub is_writable: bool,
}

/// Takes the descriptors of standard streams that were closed, so that the image gets none of them. As
/// long as the files live, a read of such a stream is at its end, and a write fails.
///
/// # Errors
///
/// That of opening `/dev/null`.
pub fn hold_streams<R: Files<File = File>>(rt: &R) -> io::Result<[File; 3]> {
    Ok([
        File::open(rt, "/dev/null")?,
        File::open(rt, "/dev/null")?,
        File::open(rt, "/dev/null")?,
    ])
}

// Whether opening failed because the file may not be written.
fn is_write_refused(kind: ErrorKind) -> bool {
    matches!(
        kind,
        ErrorKind::PermissionDenied | ErrorKind::ReadOnlyFilesystem
    )
}

// Whether the path leads to a file or a block device. Opening a pipe for reading waits for its writer.
fn has_end<R: Files>(rt: &R, image: &str) -> bool {
    match fs::metadata(rt, image) {
        Ok(metadata) => metadata.is_file() || metadata.file_type().is_block_device(),
        Err(_) => false,
    }
}

// Opens the image for reading and writing, and for reading alone where only writing is refused and no
// volume is to be made. Tells whether it may be written.
fn open_file<R: Files<File = File>>(
    rt: &R,
    image: &str,
    access: Access,
) -> Result<(File, bool), ImageFault> {
    match OpenOptions::new().read(true).write(true).open(rt, image) {
        Ok(file) => Ok((file, true)),
        Err(error) if access == Access::Formats || !is_write_refused(error.kind()) => {
            Err(ImageFault::Unwritable(error))
        }
        Err(error) if !has_end(rt, image) => Err(ImageFault::Unwritable(error)),
        Err(_) => match File::open(rt, image) {
            Ok(file) => Ok((file, false)),
            Err(error) => Err(ImageFault::Unreadable(error)),
        },
    }
}

// The whole sectors in so many bytes.
fn sectors_in(length: u64) -> u64
    ensures sectors { result ≡ length / 512 }
    ensures fits { result < 2 ^ 55 }
{
    length / SECTOR as u64
}

// A disk of so many sectors over a file.
fn disk_over(alloc: Global, file: File, sectors: u64) -> Result<FrameDisk<RangeFile>, ImageFault>
    requires { sectors < 2 ^ 55 }
{
    let ranges = match RangeFile::new(file, sectors) {
        Ok(ranges) => ranges,
        Err(error) => return Err(ImageFault::Single(error)),
    };
    match FrameDisk::new(alloc, ranges) {
        Ok(disk) => Ok(disk),
        Err(_) => Err(ImageFault::Memory),
    }
}

/// The image as a disk of its whole sectors. A block device tells its length like a file, by its end.
///
/// # Errors
///
/// `Unwritable` and `Unreadable` where the image cannot be opened as `access` asks, `Endless` where its
/// length cannot be told, `Single` where the system gives no second handle of it, and `Memory`.
pub fn open_image<R: Files<File = File> + AllocGlobal>(
    rt: &R,
    image: &str,
    access: Access,
) -> Result<Image, ImageFault> {
    let (mut file, is_writable) = open_file(rt, image, access)?;
    match file.seek(SeekFrom::End(0)) {
        Ok(length) => Ok(Image {
            disk: disk_over(rt.alloc(), file, sectors_in(length))?,
            is_writable,
        }),
        Err(error) => Err(ImageFault::Endless(error)),
    }
}
