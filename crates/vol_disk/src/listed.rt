//! The calls of a stream that are to fail.
ghost use Rattle.std.specs.Prelude.{◌≡◌, ◌↔◌, ◌≤◌, Contains, IsTrue};
ghost use Rattle.vol_disk.specs.Count.{next_count};

use crate::Failed;

/// The numbers of the calls that are to fail, the first call having number 1, and the counts of
/// those made and of those that failed.
#[derive(Drop)]
pub struct Listed {
    pub numbers: Vec<u64>,
    pub calls: u64,
    pub faults: u64,
}

impl Listed {
    /// Counts a call, and tells whether it is listed.
    pub fn is_next(&mut self) -> bool
        ensures listed { IsTrue result ↔ Contains self.old.numbers.items (next_count self.old.calls) }
        ensures calls { self.new ≡ record self.old { calls = next_count self.old.calls } }
    {
        self.calls = self.calls.saturating_add(1);
        self.numbers.contains(&self.calls)
    }

    /// Notes that the call fails, and gives what it answers.
    pub fn fail(&mut self) -> Failed
        ensures faults { self.new ≡ record self.old { faults = next_count self.old.faults } }
        ensures rises { self.old.faults ≤ self.new.faults }
    {
        self.faults = self.faults.saturating_add(1);
        Failed
    }
}
