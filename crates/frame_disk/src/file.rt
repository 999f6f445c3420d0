//! A file as a disk whose sectors can be read many at once.
ghost use Rattle.std.specs.Prelude.{◌≡◌, ◌<◌, ◌^◌, IfOk};
ghost use Rattle.vol_disk.specs.FileDisks.{sectors_of};

use crate::RangeDisk;
use std::fs::File;
use std::io;
use std::os::unix::fs::FileExt;
use vol_disk::{Disk, Failed, FileDisk, SECTOR};

/// A file as a disk, with a second handle of it by which sectors that lie behind one another are read in one call.
#[derive(Drop)]
pub struct RangeFile {
    disk: FileDisk,
    file: File,
    ghost few: { sectors_of disk < 2 ^ 55 },
}

impl RangeFile {
    /// The first `sectors` sectors of the file, which is to be open for reading and writing.
    ///
    /// # Errors
    ///
    /// That of a second handle of the file.
    pub fn new(file: File, sectors: u64) -> io::Result<RangeFile>
        requires { sectors < 2 ^ 55 }
        ensures size { IfOk result (λ ranges. ⟦<RangeFile as Disk>⟧.size ranges ≡ sectors) }
        ensures faults { IfOk result (λ ranges. ⟦<RangeFile as Disk>⟧.faults ranges ≡ 0) }
    {
        let second = file.try_clone()?;
        Ok(RangeFile {
            disk: FileDisk::new(file, sectors),
            file: second,
        })
    }
}

impl Disk for RangeFile {
    ghost now = { λ file. ⟦<FileDisk as Disk>⟧.now file.disk };

    ghost settled = { λ file. ⟦<FileDisk as Disk>⟧.settled file.disk };

    ghost fenced = { λ file. ⟦<FileDisk as Disk>⟧.fenced file.disk };

    ghost size = { λ file. ⟦<FileDisk as Disk>⟧.size file.disk };

    ghost faults = { λ file. ⟦<FileDisk as Disk>⟧.faults file.disk };

    ghost written = { λ file. ⟦<FileDisk as Disk>⟧.written file.disk };

    ghost fetched = { λ file. ⟦<FileDisk as Disk>⟧.fetched file.disk };

    ghost late = { λ file. ⟦<FileDisk as Disk>⟧.late file.disk };

    ghost told_length = { λ _. tt };

    ghost size_fits = { λ file. file.few };

    fn sectors(&self) -> u64 {
        self.disk.sectors()
    }

    fn read(&mut self, sector: u64, into: &mut [u8; 512]) -> Result<(), Failed> {
        self.disk.read(sector, into)
    }

    fn write(&mut self, sector: u64, from: &[u8; 512]) -> Result<(), Failed> {
        self.disk.write(sector, from)
    }

    fn barrier(&mut self) -> Result<(), Failed> {
        self.disk.barrier()
    }

    fn settle(&mut self) -> Result<(), Failed> {
        self.disk.settle()
    }
}

impl RangeDisk for RangeFile {
    /// Reads by the second handle.
    fn read_range(&mut self, first: u64, into: &mut [u8]) -> bool {
        let at = first * SECTOR as u64;
        self.file.read_exact_at(into, at).is_ok()
    }
}
