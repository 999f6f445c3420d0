//! Sectors that lie behind one another, read in one call.
ghost use Rattle.std.specs.Prelude.{◌≡◌, ◌+◌, ◌*◌, ◌%◌, ◌≤◌, length, true};
ghost use Rattle.vol_disk.specs.Contents.{IsTold};
ghost use Rattle.frame_disk.specs.Ranges.{HasSectors};

use vol_disk::{Disk, FailDisk, MemDisk, SECTOR};

/// A disk of which sectors that lie behind one another can be asked for in one call.
pub trait RangeDisk: Disk {
    /// Tries to read the sectors from `first` on that fill `into`, and tells whether they were read. Where they were not, what then stands
    /// in `into` is not told, and no fault is counted: whoever asked reads the sector that is wanted alone. It changes nothing on the disk.
    fn read_range(&mut self, first: u64, into: &mut [u8]) -> bool
        requires whole { length into.old % 512 ≡ 0 }
        requires within { 512 * first + length into.old ≤ 512 * Self.size self.old }
        ensures read { result ≡ true → IsTold (Self.now self.old) → HasSectors (Self.now self.old) first into.new }

        ensures now { Self.now self.new ≡ Self.now self.old }
        ensures settled { Self.settled self.new ≡ Self.settled self.old }
        ensures fenced { Self.fenced self.new ≡ Self.fenced self.old }
        ensures size { Self.size self.new ≡ Self.size self.old }
        ensures faults { Self.faults self.new ≡ Self.faults self.old }
        ensures written { Self.written self.new ≡ Self.written self.old }
        ensures fetched { Self.fetched self.new ≡ Self.fetched self.old }
        ensures late { Self.late self.new ≡ Self.late self.old };
}

impl RangeDisk for MemDisk {
    /// Gives the sectors, always.
    fn read_range(&mut self, first: u64, into: &mut [u8]) -> bool {
        let at = first as usize * SECTOR;
        into.copy_from_slice(&self.contents()[at..at + into.len()]);
        true
    }
}

impl<D: Disk> RangeDisk for FailDisk<D> {
    /// Gives none: of such a disk each sector is asked for alone, so that its plan decides.
    fn read_range(&mut self, _first: u64, _into: &mut [u8]) -> bool {
        false
    }
}
