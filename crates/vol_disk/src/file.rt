//! A disk over a file or a block device.
ghost use Rattle.std.specs.Prelude.{◌≡◌, ◌*◌, ◌^◌, ◌<◌, ◌≤◌, None, OnOk, OnErr, IsOk, IsTrue, IsFalse, is_ok};
ghost use Rattle.vol_disk.specs.Counting.{after_call};

use crate::counts::Counts;
use crate::{Disk, Failed, SECTOR};
use std::fs::File;
use std::os::unix::fs::FileExt;

/// A file as a disk. It tells no contents: that a file gives what was last written is trusted.
#[derive(Drop)]
pub struct FileDisk {
    file: File,
    sectors: u64,
    // Nothing was written since the last synchronisation.
    is_synced: bool,
    counts: Counts,
    ghost few: { sectors < 2 ^ 55 },
}

impl FileDisk {
    ghost use Rattle.vol_disk.specs.FileDisks.{is_synced_of};

    /// The first `sectors` sectors of the file, which is to be open for reading and writing.
    pub fn new(file: File, sectors: u64) -> FileDisk
        requires { sectors < 2 ^ 55 }
        ensures size { ⟦<FileDisk as Disk>⟧.size result ≡ sectors }
        ensures now { ⟦<FileDisk as Disk>⟧.now result ≡ None }
        ensures settled { ⟦<FileDisk as Disk>⟧.settled result ≡ None }
        ensures faults { ⟦<FileDisk as Disk>⟧.faults result ≡ 0 }
        ensures written { ⟦<FileDisk as Disk>⟧.written result ≡ 0 }
        ensures fetched { ⟦<FileDisk as Disk>⟧.fetched result ≡ 0 }
        ensures late { ⟦<FileDisk as Disk>⟧.late result ≡ 0 }
        ensures synced { IsTrue (is_synced_of result) }
    {
        FileDisk {
            file,
            sectors,
            is_synced: true,
            counts: Counts::default(),
        }
    }

    // Synchronises the file where something was written since the last time.
    fn sync(&mut self) -> Result<(), Failed>
        ensures synced { OnOk result (IsTrue self.new.is_synced) }
        ensures unsynced { OnErr result (self.new.is_synced ≡ self.old.is_synced) }
        ensures idle { IsTrue self.old.is_synced → IsOk result }
        ensures sectors { self.new.sectors ≡ self.old.sectors }
        ensures counts { self.new.counts ≡ after_call (is_ok result) self.old.counts }
        ensures faults { self.old.counts.faults ≤ self.new.counts.faults }
    {
        if self.is_synced {
            return Ok(());
        }
        match self.file.sync_all() {
            Ok(()) => {
                self.is_synced = true;
                Ok(())
            }
            Err(_) => Err(self.counts.fail()),
        }
    }
}

// Where a sector begins in the file.
fn offset_of(sector: u64) -> u64
    requires { sector < 2 ^ 55 }
    ensures { result ≡ 512 * sector }
{
    sector * SECTOR as u64
}

impl Disk for FileDisk {
    ghost use Rattle.vol_disk.specs.Counting.{after_read, after_write};
    ghost use Rattle.vol_disk.specs.FileDisks.{file_counts, is_synced_of, sectors_of};

    ghost now = { λ _. None };

    ghost settled = { λ _. None };

    ghost fenced = { λ _. None };

    ghost size = { λ disk. disk.sectors };

    ghost faults = { λ disk. disk.counts.faults };

    ghost written = { λ disk. disk.counts.written };

    ghost fetched = { λ disk. disk.counts.fetched };

    ghost late = { λ disk. disk.counts.late };

    ghost told_length = { λ _. tt };

    ghost size_fits = { λ disk. disk.few };

    fn sectors(&self) -> u64 {
        self.sectors
    }

    fn read(&mut self, sector: u64, into: &mut [u8; 512]) -> Result<(), Failed>
        requires { sector < sectors_of self.old }
        ensures size { sectors_of self.new ≡ sectors_of self.old }
        ensures kept { OnErr result (into.new ≡ into.old) }
        ensures synced { is_synced_of self.new ≡ is_synced_of self.old }
        ensures counts { file_counts self.new ≡ after_read (is_ok result) (file_counts self.old) }
        ensures fetched { (file_counts self.old).fetched ≤ (file_counts self.new).fetched }
        ensures faults { (file_counts self.old).faults ≤ (file_counts self.new).faults }
    {
        self.counts.fetch();
        let mut bytes = [0; SECTOR];
        match self.file.read_exact_at(&mut bytes, offset_of(sector)) {
            Ok(()) => {
                *into = bytes;
                Ok(())
            }
            Err(_) => Err(self.counts.fail()),
        }
    }

    fn write(&mut self, sector: u64, from: &[u8; 512]) -> Result<(), Failed>
        requires { sector < sectors_of self.old }
        ensures size { sectors_of self.new ≡ sectors_of self.old }
        ensures unsynced { IsFalse (is_synced_of self.new) }
        ensures counts { file_counts self.new ≡ after_write (is_ok result) (file_counts self.old) }
        ensures rises { ((file_counts self.old).written ≤ (file_counts self.new).written)
            × ((file_counts self.old).late ≤ (file_counts self.new).late) }
        ensures faults { (file_counts self.old).faults ≤ (file_counts self.new).faults }
    {
        self.counts.begin_write();
        self.is_synced = false;
        match self.file.write_all_at(from, offset_of(sector)) {
            Ok(()) => {
                self.counts.end_write();
                Ok(())
            }
            Err(_) => Err(self.counts.fail()),
        }
    }

    /// Synchronises the file, unless nothing was written since that was last done.
    fn barrier(&mut self) -> Result<(), Failed>
        ensures synced { OnOk result (IsTrue (is_synced_of self.new)) }
        ensures unsynced { OnErr result (is_synced_of self.new ≡ is_synced_of self.old) }
        ensures idle { IsTrue (is_synced_of self.old) → IsOk result }
        ensures size { sectors_of self.new ≡ sectors_of self.old }
        ensures counts { file_counts self.new ≡ after_call (is_ok result) (file_counts self.old) }
        ensures faults { (file_counts self.old).faults ≤ (file_counts self.new).faults }
    {
        self.sync()
    }

    /// The same as a barrier.
    fn settle(&mut self) -> Result<(), Failed>
        ensures synced { OnOk result (IsTrue (is_synced_of self.new)) }
        ensures unsynced { OnErr result (is_synced_of self.new ≡ is_synced_of self.old) }
        ensures idle { IsTrue (is_synced_of self.old) → IsOk result }
        ensures size { sectors_of self.new ≡ sectors_of self.old }
        ensures counts { file_counts self.new ≡ after_call (is_ok result) (file_counts self.old) }
        ensures faults { (file_counts self.old).faults ≤ (file_counts self.new).faults }
    {
        self.sync()
    }
}
