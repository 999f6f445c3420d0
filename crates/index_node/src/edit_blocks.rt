//! The records of an index, as its tree edits them.
ghost use Rattle.std.specs.Prelude.{◌≡◌, ℕ, ◌+◌, ◌≤◌, List, IfOk, IsSome, MatchResult, OnErr, OnOk, Option, Some};
ghost use Rattle.vol_disk.specs.Contents.{WhereTold};
ghost use Rattle.vol_disk.specs.Count.{next_count};
ghost use Rattle.index_node.specs.Edit.{IsOpened};
ghost use Rattle.index_node.specs.Blocks.{CountsNo};
ghost use Rattle.index_node.specs.EditBlocks.{CountsTakeNo, Edits, Gives, Takes, Writes};
ghost use Rattle.index_node.specs.Sealed.{HasArrayApart};

use crate::{BlockNo, Blocks};

/// The index records of one index, which can be written.
///
/// After a call that failed, nothing is told of the records, and they are not ready: whoever lent them gives up what was
/// staged. What `edits` says holds whatever was answered.
pub trait WriteBlocks: Blocks {
    /// What stays the same, from one state to another, where nothing but reads and edits of these records stands between
    /// them, whatever they answered.
    ghost edits: { Self → Self → Type 0 };

    /// At most the records that were written.
    ghost written: { Self → ℕ };

    /// Puts the bytes into a record, its update sequence array aside, which stands apart from its header and its entries, as
    /// that of a node does (`sealed_nodes`). No other record changes.
    ///
    /// # Errors
    ///
    /// `Device` where the disk failed, and `Memory` where it did not. Never `NoRoom`.
    fn write(&mut self, vcn: u64, from: &[u8; 4096]) -> Result<(), BlockNo>
        requires ready { Self.ready self.old }
        requires there { WhereTold (Self.records self.old) (λ r. IsSome (r vcn)) }
        requires opened { WhereTold (Self.records self.old) (λ r. IsOpened vcn from.now) }
        requires apart { HasArrayApart from.now }
        ensures done { OnOk result (Edits (Self.records self.old) (Self.records self.new) (Writes vcn from.now)) }
        ensures ready { OnOk result (Self.ready self.new) }

        ensures edits { edits self.old self.new }
        ensures reads { Self.reads self.new ≡ Self.reads self.old }
        ensures written { written self.new ≤ written self.old + 1 }
        ensures taken { Self.taken self.new ≡ Self.taken self.old }
        ensures full { Self.full self.new ≡ Self.full self.old }
        ensures faults { MatchResult result (λ _. Self.faults self.new ≡ Self.faults self.old)
            (CountsNo (Self.faults self.old) (Self.faults self.new)) };

    /// Each record is one that was opened, under its own number.
    ghost opened_records: { (it : Self) (r : ℕ → Option (List ℕ)) → Self.records it ≡ Some r
        → (vcn : ℕ) (bytes : List ℕ) → r vcn ≡ Some bytes → IsOpened vcn bytes };

    ghost written_reads: { (a b : Self) → Self.only_reads a b → written b ≡ written a };

    ghost edits_reads: { (a b : Self) → Self.only_reads a b → edits a b };

    ghost edits_on: { (a b c : Self) → edits a b → edits b c → edits a c };
}

/// The index records of one index, which can be written, taken and given back.
///
/// What a call that failed leaves is told as little as of `WriteBlocks`.
pub trait EditBlocks: WriteBlocks {
    /// Makes a record of a number that was none. No other record changes.
    ///
    /// # Errors
    ///
    /// `NoRoom` only where the count of calls without room rose, `Device` where the disk failed, and `Memory`.
    fn take(&mut self) -> Result<u64, BlockNo>
        requires ready { Self.ready self.old }
        ensures done { IfOk result (λ vcn. Edits (Self.records self.old) (Self.records self.new) (Takes vcn)) }
        ensures ready { OnOk result (Self.ready self.new) }

        ensures edits { Self.edits self.old self.new }
        ensures reads { Self.reads self.new ≡ Self.reads self.old }
        ensures written { Self.written self.new ≤ Self.written self.old + 1 }
        ensures taken { MatchResult result (λ _. Self.taken self.new ≡ next_count (Self.taken self.old))
            (λ _. Self.taken self.new ≡ Self.taken self.old) }
        ensures counts { MatchResult result (λ _. (Self.faults self.new ≡ Self.faults self.old) × (Self.full self.new
            ≡ Self.full self.old))
            (CountsTakeNo (Self.faults self.old) (Self.faults self.new) (Self.full self.old) (Self.full self.new)) };

    /// Takes a record away. No other record changes.
    ///
    /// # Errors
    ///
    /// `Device` where the disk failed, and `Memory` where it did not. Never `NoRoom`.
    fn give(&mut self, vcn: u64) -> Result<(), BlockNo>
        requires ready { Self.ready self.old }
        requires there { WhereTold (Self.records self.old) (λ r. IsSome (r vcn)) }
        ensures done { OnOk result (Edits (Self.records self.old) (Self.records self.new) (Gives vcn)) }
        ensures ready { OnOk result (Self.ready self.new) }

        ensures edits { Self.edits self.old self.new }
        ensures reads { Self.reads self.new ≡ Self.reads self.old }
        ensures written { Self.written self.new ≡ Self.written self.old }
        ensures taken { Self.taken self.new ≡ Self.taken self.old }
        ensures full { Self.full self.new ≡ Self.full self.old }
        ensures faults { MatchResult result (λ _. Self.faults self.new ≡ Self.faults self.old)
            (CountsNo (Self.faults self.old) (Self.faults self.new)) };
}
