//! All that a pass over the table notes.
ghost use Rattle.std.specs.Prelude.{◌≡◌, ◌+◌, ◌<◌, ◌≤◌, ◌^◌, ℕ, Some, None, IfOk, OnOk, unwrap_or};
ghost use Rattle.volume_def.specs.AttributesClause.{MeetsAttributes};
ghost use Rattle.volume_def.specs.Files.{Records, record_of};
ghost use Rattle.attr_view.specs.View.{viewed_block};
ghost use Rattle.record_notes.specs.Facts.{FactsNote, RightNote, SameVolume, records_known};
ghost use Rattle.record_notes.specs.Heads.{EndsAtCount};
ghost use Rattle.list_laws.specs.Least.{IsLeastFailing};
ghost use Rattle.record_notes.specs.Owners.{clusters_noted};
ghost use Rattle.record_notes.specs.Streams.{HasPlaces};
ghost use Rattle.record_notes.specs.Unlisted.{bytes_noted};

use crate::names::file_of;
use crate::{Heads, LongStreams, Names, Owners, SpreadFiles, Streams, UnlistedFiles, Used};
use attr_view::RecordView;
use file_clauses::is_right_record;
use std::alloc::{AllocError, Global};

/// What a pass over the table notes of its records.
#[derive(Debug, Drop)]
pub struct Facts {
    // The first record whose attributes are wrong. Of such a record nothing else is noted.
    first_wrong: Option<u64>,
    pub unlisted: UnlistedFiles,
    pub owners: Owners,
    pub used: Used,
    pub heads: Heads,
    pub names: Names,
    pub spread: SpreadFiles,
    pub streams: Streams,
    pub long: LongStreams,
}

impl Facts {
    /// Of no record yet, of a volume of so many clusters of these bytes, and so many records.
    ///
    /// # Errors
    ///
    /// Want of memory alone.
    pub fn new(
        alloc: Global,
        cluster_bytes: u64,
        clusters: u64,
        count: u64,
    ) -> Result<Facts, AllocError>
        requires some { 0 < cluster_bytes }
        requires clusters { clusters ≤ 2 ^ 26 }
        requires records { count ≤ 2 ^ 22 }
        ensures none { IfOk result (λ facts. (records : Records) → FactsNote records 0 facts) }
        ensures records { IfOk result (λ facts. records_known facts ≡ count) }
        ensures clusters { IfOk result (λ facts. clusters_noted facts.owners ≡ clusters) }
        ensures cluster_bytes { IfOk result (λ facts. bytes_noted facts.unlisted ≡ cluster_bytes) }
        ensures streams { IfOk result (λ facts. HasPlaces clusters count cluster_bytes facts.streams) }
    {
        let owners = Owners::new(alloc, clusters)?;
        let used = Used::new(alloc, count)?;
        let streams = Streams::new(alloc, cluster_bytes, clusters, count)?;
        Ok(Facts {
            first_wrong: None,
            unlisted: UnlistedFiles::new(cluster_bytes),
            owners,
            used,
            heads: Heads::new(alloc),
            names: Names::new(alloc),
            spread: SpreadFiles::new(alloc),
            streams,
            long: LongStreams::new(),
        })
    }

    // Notes record `n`, which is in use and has right attributes.
    fn note_right(&mut self, alloc: Global, n: u64, view: &RecordView<'_>) -> Result<(), AllocError>
        requires { n < records_known self.old }
        ensures noted { OnOk result ((records : Records) → records.record_at n ≡ Some (record_of n (viewed_block view.now))
            → MeetsAttributes records n → RightNote records n self.old → RightNote records (n + 1) self.new) }
        ensures kept { self.new.first_wrong ≡ self.old.first_wrong }
        ensures same { SameVolume self.old self.new }
    {
        let file = file_of(n, view);
        self.unlisted.note(alloc, n, view)?;
        self.owners.note(alloc, file, view)?;
        self.used.note(n);
        self.heads.note(view)?;
        self.names.note(n, view)?;
        self.spread.note(n, view)?;
        self.streams.note(alloc, file, view)?;
        self.long.note(n, view);
        Ok(())
    }

    // Notes that record `n` is wrong.
    fn note_wrong(&mut self, n: u64)
        ensures wrong { self.new.first_wrong ≡ Some (unwrap_or self.old.first_wrong n) }
        ensures same { SameVolume self.old self.new }
    {
        self.first_wrong = Some(self.first_wrong.unwrap_or(n));
    }

    /// Notes record `n`, which is in use.
    ///
    /// # Errors
    ///
    /// Want of memory alone.
    pub fn note(&mut self, alloc: Global, n: u64, view: &RecordView<'_>) -> Result<(), AllocError>
        requires { n < records_known self.old }
        ensures noted { OnOk result ((records : Records) → records.record_at n ≡ Some (record_of n (viewed_block view.now))
            → FactsNote records n self.old → FactsNote records (n + 1) self.new) }
        ensures same { SameVolume self.old self.new }
    {
        if !is_right_record(n, view) {
            self.note_wrong(n);
            return Ok(());
        }
        self.note_right(alloc, n, view)?;
        Ok(())
    }

    /// Notes that the next record is not in use.
    ///
    /// # Errors
    ///
    /// Want of memory alone.
    pub fn note_unused(&mut self) -> Result<(), AllocError>
        ensures noted { OnOk result ((records : Records) (n : ℕ) → records.record_at n ≡ None
            → FactsNote records n self.old → FactsNote records (n + 1) self.new) }
        ensures same { SameVolume self.old self.new }
    {
        self.heads.note_unused()?;
        Ok(())
    }

    /// The least record that breaks the clause on attributes, once all records are noted.
    pub fn first_wrong_record(&self) -> Option<u64>
        ensures { (records : Records) → EndsAtCount records → FactsNote records records.count self.now
            → IsLeastFailing (MeetsAttributes records) result }
    {
        self.first_wrong
    }
}
