//! Records noted as bits, and the clause on the bitmap of records, S9, decided a piece of the stored bitmap at a time.
ghost use Rattle.std.specs.Prelude.{◌≡◌, ◌+◌, ◌-◌, ◌*◌, ◌^◌, ◌<◌, ◌≤◌, ℕ, None, Some, IfOk, length};
ghost use Rattle.ntfs_def.specs.declared.records.TheConstants.{FIRST_ORDINARY};
ghost use Rattle.list_laws.specs.Bits.{bit_in};
ghost use Rattle.volume_def.specs.BitmapClauses.{HasRecordBits, MeetsRecordBits, record_bits};
ghost use Rattle.volume_def.specs.Files.{Record, Records};
ghost use Rattle.volume_def.specs.Values.{value_on};
ghost use Rattle.volume_def.specs.View.{VolumeView};
ghost use Rattle.list_laws.specs.BitRanges.{IsLeastWithin, IsPieceOf};
ghost use Rattle.list_laws.specs.Least.{IsLeastBelow, IsLeastFailing};
ghost use Rattle.record_notes.specs.Used.{AllUsedNote, UsedNote, records_noted};

use crate::bits::{first_difference, set_bit};
use crate::used::Used;
use ntfs_def::records::FIRST_ORDINARY;
use std::alloc::{AllocError, Global};

// The first bit of a piece that differs from that of the bits, without the bits of the system's own records, which fill bytes.
fn first_ordinary_difference(bits: &[u8], piece: &[u8], from: usize) -> Option<u64>
    requires { length bits.now ≤ 2 ^ 32 }
    ensures { IsLeastWithin (λ k. FIRST_ORDINARY ≤ k → k < 8 * length bits.now
        → bit_in piece.now (k - 8 * from) ≡ bit_in bits.now k) (8 * from) (8 * (from + length piece.now)) result }
{
    let skipped = ((FIRST_ORDINARY / 8) as usize)
        .saturating_sub(from)
        .min(piece.len());
    first_difference(bits, &piece[skipped..], from + skipped)
}

impl Used {
    /// No record is noted yet, of a table of so many.
    ///
    /// # Errors
    ///
    /// There was no memory for a bit for each record.
    pub fn new(alloc: Global, count: u64) -> Result<Used, AllocError>
        requires { count ≤ 2 ^ 22 }
        ensures none { IfOk result (λ used. (records : Records) → UsedNote records 0 used) }
        ensures count { IfOk result (λ used. records_noted used ≡ count) }
    {
        let bits = vec![in alloc; 0u8; (count / 8 + 1) as usize]?;
        Ok(Used { bits, count })
    }

    /// Notes record n as in use.
    pub fn note(&mut self, n: u64)
        requires { n < records_noted self.old }
        ensures count { records_noted self.new ≡ records_noted self.old }
        ensures noted { (records : Records) (here : Record) → records.record_at n ≡ Some here
            → UsedNote records n self.old → UsedNote records (n + 1) self.new }
    {
        set_bit(&mut self.bits, n);
    }

    /// The bytes of a bitmap with a bit for each record: those to be compared.
    pub fn bitmap_len(&self) -> u64
        ensures whole { records_noted self.now ≤ 8 * result }
        ensures few { 8 * result < records_noted self.now + 8 }
    {
        self.count.div_ceil(8)
    }

    /// The first record whose bit differs from whether it is in use, in a piece of the stored bitmap that begins with byte
    /// `from`, where the bits of those before it are right. Where the bitmap ends the piece goes on with zeros. The bits of the
    /// first 24 records, which are the system's own, are not looked at.
    pub fn first_wrong_bit(&self, piece: &[u8], from: usize) -> Option<u64>
        ensures { (view : VolumeView) → AllUsedNote view self.now → HasRecordBits view
            → IsPieceOf (value_on view (record_bits view)) from piece.now
            → IsLeastBelow (MeetsRecordBits view) (8 * from) None
            → IsLeastBelow (MeetsRecordBits view) (8 * (from + length piece.now)) result }
    {
        let Some(record) = first_ordinary_difference(&self.bits, piece, from) else {
            return None;
        };
        if record >= self.count {
            return None;
        }
        Some(record)
    }
}

/// The clause on the bitmap of records holds where it holds of the
/// bits of all records, and record 24 breaks it where there is no such bitmap.
pub fn used_laws()
    ensures end { (view : VolumeView) (end : ℕ) → HasRecordBits view → view.layout.count ≤ end
        → IsLeastBelow (MeetsRecordBits view) end None → IsLeastFailing (MeetsRecordBits view) None }
    ensures without { (view : VolumeView) → ¬ (HasRecordBits view) → IsLeastFailing (MeetsRecordBits view) (Some FIRST_ORDINARY) }
{}
