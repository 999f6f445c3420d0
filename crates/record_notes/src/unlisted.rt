//! The clause on extents, S6, over files that stand in one record, as a pass over the table notes them.
ghost use Rattle.std.specs.Prelude.{◌≡◌, ◌↔◌, ℕ, ◌+◌, Some, IfOk, IsFalse, IsTrue, OnOk, unwrap_or};
ghost use Rattle.volume_def.specs.ExtentsClause.{MeetsExtents};
ghost use Rattle.volume_def.specs.Files.{Records, record_of, records_of};
ghost use Rattle.volume_def.specs.ListsClause.{MeetsLists};
ghost use Rattle.volume_def.specs.View.{VolumeView};
ghost use Rattle.attr_view.specs.View.{viewed_block};
ghost use Rattle.record_notes.specs.Heads.{EndsAtCount};
ghost use Rattle.list_laws.specs.Least.{IsLeastFailing};
ghost use Rattle.record_notes.specs.Unlisted.{AreUnlistedAlone, IsUnlistedWhole, MeetsListed, UnlistedNote, bytes_noted, is_unlisted};

use crate::least::least_of;
use attr_view::RecordView;
use file_clauses::has_whole_extents;
use std::alloc::{AllocError, Global};

/// The first base record without an attribute list that breaks the clause on extents.
#[derive(Clone, Copy, Debug)]
pub struct UnlistedFiles {
    // The bytes of a cluster.
    cluster_bytes: u64,
    first_wrong: Option<u64>,
}

// Whether a record is a base record without an attribute list.
fn is_unlisted(view: &RecordView<'_>) -> bool
    ensures { (n : ℕ) → result ≡ is_unlisted (record_of n (viewed_block view.now)) }
{
    view.header().base == 0 && !view.has_list()
}

// Whether a record, if it is a base record without a list, holds whole attributes.
fn is_unlisted_whole(
    alloc: Global,
    n: u64,
    cluster_bytes: u64,
    view: &RecordView<'_>,
) -> Result<bool, AllocError>
    ensures { IfOk result (λ whole. IsTrue whole ↔ IsUnlistedWhole cluster_bytes n (record_of n (viewed_block view.now))) }
{
    if !is_unlisted(view) {
        return Ok(true);
    }
    let whole = has_whole_extents(alloc, n, cluster_bytes, view)?;
    Ok(whole)
}

// The first number that breaks a clause, with one number more.
fn first_with(first: Option<u64>, n: u64, holds: bool) -> Option<u64>
    ensures holds { IsTrue holds → result ≡ first }
    ensures breaks { IsFalse holds → result ≡ Some (unwrap_or first n) }
{
    if holds {
        first
    } else {
        Some(first.unwrap_or(n))
    }
}

impl UnlistedFiles {
    /// Of no record yet, on a volume with clusters of so many bytes.
    pub fn new(cluster_bytes: u64) -> UnlistedFiles
        ensures none { (records : Records) → UnlistedNote records 0 result }
        ensures bytes { bytes_noted result ≡ cluster_bytes }
    {
        UnlistedFiles {
            cluster_bytes,
            first_wrong: None,
        }
    }

    /// Notes record `n`, which is in use.
    ///
    /// # Errors
    ///
    /// Want of memory alone.
    pub fn note(&mut self, alloc: Global, n: u64, view: &RecordView<'_>) -> Result<(), AllocError>
        ensures noted { OnOk result ((records : Records) → records.record_at n ≡ Some (record_of n (viewed_block view.now))
            → UnlistedNote records n self.old → UnlistedNote records (n + 1) self.new) }
        ensures bytes { bytes_noted self.new ≡ bytes_noted self.old }
    {
        let whole = is_unlisted_whole(alloc, n, self.cluster_bytes, view)?;
        let first = first_with(self.first_wrong, n, whole);
        self.first_wrong = first;
        Ok(())
    }

    /// The least file that breaks the clause on extents, once all records are noted: `listed` is the least of those with an
    /// attribute list. A file without one has one record, as the clause on lists asks.
    pub fn first_wrong_file(&self, listed: Option<u64>) -> Option<u64>
        ensures volume { (view : VolumeView) → ((n : ℕ) → MeetsLists view n)
            → UnlistedNote (records_of view) view.layout.count self.now
            → IsLeastFailing (MeetsListed (records_of view) (bytes_noted self.now)) listed
            → IsLeastFailing (MeetsExtents (records_of view) (bytes_noted self.now)) result }
        ensures records { (records : Records) → EndsAtCount records
            → UnlistedNote records records.count self.now → AreUnlistedAlone records
            → IsLeastFailing (MeetsListed records (bytes_noted self.now)) listed
            → IsLeastFailing (MeetsExtents records (bytes_noted self.now)) result }
    {
        least_of(self.first_wrong, listed)
    }
}
