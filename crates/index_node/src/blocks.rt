//! The records of an index, as its tree reads them.
ghost use Rattle.std.specs.Prelude.{◌≡◌, ℕ, ◌+◌, ◌≤◌, Option, List, Some, IsSome, MatchResult, OnErr, OnOk};
ghost use Rattle.vol_disk.specs.Contents.{WhereTold};
ghost use Rattle.vol_disk.specs.Count.{next_count};
ghost use Rattle.index_node.specs.Blocks.{CountsNo};

use thiserror::Error;

/// Why a call on the records of an index fails.
#[derive(Clone, Copy, Debug, PartialEq, Eq, Error)]
pub enum BlockNo {
    /// The disk failed; the count of faults rose.
    #[error("the device failed")]
    Device,
    /// There is no room for a record; the count of calls without room rose.
    #[error("no room for an index record")]
    NoRoom,
    /// There was no memory.
    #[error("out of memory")]
    Memory,
}

/// The index records of one index of a file, by their numbers (VCNs).
///
/// What they hold is told where the disk tells its contents. Where it does not, only the counts and the causes are
/// known, and a read may give any bytes.
pub trait Blocks {
    /// The opened record at each number, none where there is none.
    ghost records: { Self → Option (ℕ → Option (List ℕ)) };

    /// What stays the same, from one state to another, where nothing but reads stands between them.
    ghost only_reads: { Self → Self → Type 0 };

    /// The reads of records that were asked for.
    ghost reads: { Self → ℕ };

    /// At most the sectors that were asked for.
    ghost fetched: { Self → ℕ };

    /// The records that were taken.
    ghost taken: { Self → ℕ };

    /// The calls of the disk that failed.
    ghost faults: { Self → ℕ };

    /// The calls that found no room.
    ghost full: { Self → ℕ };

    /// What its records are told from can be read.
    ghost ready: { Self → Type 0 };

    /// Reads a record, opened. No record changes.
    ///
    /// # Errors
    ///
    /// `Device` where the disk failed, and `Memory` where it did not. Never `NoRoom`. `into` is then as before.
    fn read(&mut self, vcn: u64, into: &mut [u8; 4096]) -> Result<(), BlockNo>
        requires ready { ready self.old }
        requires there { WhereTold (records self.old) (λ record_at. IsSome (record_at vcn)) }
        ensures read { OnOk result (WhereTold (records self.old) (λ record_at. record_at vcn ≡ Some into.new)) }
        ensures kept { OnErr result (into.new ≡ into.old) }

        ensures ready { ready self.new }
        ensures records { records self.new ≡ records self.old }
        ensures only_reads { only_reads self.old self.new }
        ensures reads { reads self.new ≡ next_count (reads self.old) }
        ensures fetched { fetched self.new ≤ fetched self.old + 8 }
        ensures taken { taken self.new ≡ taken self.old }
        ensures full { full self.new ≡ full self.old }

        ensures faults { MatchResult result (λ _. faults self.new ≡ faults self.old)
            (CountsNo (faults self.old) (faults self.new)) };

    ghost only_reads_itself: { (it : Self) → only_reads it it };

    ghost only_reads_on: { (a b c : Self) → only_reads a b → only_reads b c → only_reads a c };
}
