//! The counts that a disk keeps of its calls.
ghost use Rattle.std.specs.Prelude.{◌≡◌, ◌<◌, ◌≤◌};

use crate::Failed;

/// Each count stands still at its last value.
#[derive(Clone, Copy, Debug, Default, PartialEq, Eq)]
pub struct Counts {
    pub faults: u64,
    pub written: u64,
    pub fetched: u64,
    pub late: u64,
}

impl Counts {
    ghost use Rattle.vol_disk.specs.Count.{next_count};

    /// Notes that a call fails, and gives what it answers.
    pub fn fail(&mut self) -> Failed
        ensures faults { self.new ≡ record self.old { faults = next_count self.old.faults } }
        ensures rises { self.old.faults ≤ self.new.faults }
    {
        self.faults = self.faults.saturating_add(1);
        Failed
    }

    /// Notes a read that is asked for.
    pub fn fetch(&mut self)
        ensures fetched { self.new ≡ record self.old { fetched = next_count self.old.fetched } }
        ensures rises { self.old.fetched ≤ self.new.fetched }
    {
        self.fetched = self.fetched.saturating_add(1);
    }

    /// Notes a write that is asked for.
    pub fn begin_write(&mut self)
        ensures on_time { self.old.faults ≡ 0 → self.new ≡ self.old }
        ensures late { 0 < self.old.faults → self.new ≡ record self.old { late = next_count self.old.late } }
        ensures rises { self.old.late ≤ self.new.late }
    {
        if self.faults > 0 {
            self.late = self.late.saturating_add(1);
        }
    }

    /// Notes a write that succeeds.
    pub fn end_write(&mut self)
        ensures written { self.new ≡ record self.old { written = next_count self.old.written } }
        ensures rises { self.old.written ≤ self.new.written }
    {
        self.written = self.written.saturating_add(1);
    }
}
