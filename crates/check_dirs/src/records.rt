//! The index records of one index, of which any may be missing.
ghost use Rattle.std.specs.Prelude.{◌≡◌, ℕ, ◌+◌, ◌≤◌, List, Option, IfOk, MatchResult};
ghost use Rattle.vol_disk.specs.Contents.{WhereTold};
ghost use Rattle.index_store.specs.IndexRecords.{Fetches};
ghost use Rattle.check_dirs.specs.Records.{CountsNo};

use crate::CheckNo;

/// The index records of one index, by their numbers (VCNs), as a check meets them: at a number there is one, or none.
///
/// Which there are is told where the disk tells its contents. Where it does not, only the counts and the causes are
/// known.
pub trait IndexRecords {
    /// The opened record at each number. There is none where the index has no record at that number, where a part of
    /// it lies in a hole, where it does not open, where it has another number, and where its bit is clear.
    ghost records: { Self → Option (ℕ → Option (List ℕ)) };

    /// What stays the same, from one state to another, where nothing but fetches stands between them.
    ghost only_reads: { Self → Self → Type 0 };

    /// At most the sectors that were asked for.
    ghost fetched: { Self → ℕ };

    /// The calls of the disk that failed.
    ghost faults: { Self → ℕ };

    /// What its records are told from can be read.
    ghost ready: { Self → Type 0 };

    /// Reads the record at a number, opened; `false` where there is none, and what `into` has then is not said.
    ///
    /// # Errors
    ///
    /// `Device` where the disk failed, and `Memory` where it did not.
    fn fetch(&mut self, vcn: u64, into: &mut [u8; 4096]) -> Result<bool, CheckNo>
        requires { ready self.old }
        ensures found { IfOk result (λ found. WhereTold (records self.old) (λ record_at. Fetches (record_at vcn) found into.new)) }

        ensures records { records self.new ≡ records self.old }
        ensures ready { ready self.new }
        ensures only_reads { only_reads self.old self.new }
        ensures fetched { fetched self.new ≤ fetched self.old + 9 }

        ensures faults { MatchResult result (λ _. faults self.new ≡ faults self.old)
            (CountsNo (faults self.old) (faults self.new)) };

    ghost only_reads_itself: { (it : Self) → only_reads it it };

    ghost only_reads_on: { (a b c : Self) → only_reads a b → only_reads b c → only_reads a c };
}
