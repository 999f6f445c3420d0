//! Where the first clusters of a stream lie. The first part that holds a cluster tells its place, whichever parts hold it too.
ghost use Rattle.std.specs.Prelude.{◌≡◌, ◌+◌, ◌-◌, ◌^◌, ◌<◌, ◌≤◌, ℕ, IfOk, length, slice_index};
ghost use Rattle.ntfs_def.specs.Runs.{spot_of, total_clusters};
ghost use Rattle.ntfs_def.specs.declared.run_text.Spot.TheVariants.{Outside};
ghost use Rattle.record_notes.specs.Skips.{NotesRuns, first_spot, noted_at};

use crate::streams::Spots;
use data_runs::RunList;
use file_clauses::clusters_of;
use ntfs_def::Spot;
use std::alloc::{AllocError, Global};

impl Spots {
    /// Of the first so many clusters, of which nothing is noted.
    ///
    /// # Errors
    ///
    /// There was no memory for them.
    pub fn new(alloc: Global, count: u64) -> Result<Spots, AllocError>
        requires { count ≤ 2 ^ 32 }
        ensures count { IfOk result (λ spots. length spots.spots.items ≡ count) }
        ensures none { IfOk result (λ spots. (k : ℕ) → noted_at spots.spots.items k ≡ Outside) }
    {
        let spots = vec![in alloc; Spot::Outside; count as usize]?;
        let skips = vec![in alloc; 0; count as usize]?;
        Ok(Spots { spots, skips })
    }

    /// Where a cluster lies; `Outside` past the last that is noted.
    pub fn at(&self, vcn: u64) -> Spot
        ensures { result ≡ noted_at self.now.spots.items vcn }
    {
        match self.spots.get(vcn as usize) {
            Some(spot) => *spot,
            None => Spot::Outside,
        }
    }

    // How many places from this one on are noted for sure.
    fn skip_at(&self, at: usize) -> usize
        ensures { result ≡ slice_index self.now.skips.items at }
    {
        self.skips.get(at).copied().unwrap_or(0)
    }

    // Notes where the cluster at a place lies, by runs that begin with cluster `first` and hold it; gives the place with which
    // to go on. Places that are noted are passed over, and are told to be so of more at once the next time.
    fn note_at(&mut self, at: usize, first: u64, runs: &RunList) -> usize
        requires inside { at < length self.old.spots.items }
        requires begun { first ≤ at }
        requires held { at < first + total_clusters runs.now }
        ensures on { at < result }
        ensures noted { NotesRuns self.old.spots.items self.new.spots.items runs.now first at result }
    {
        let skip = self.skip_at(at);
        if skip > 0 {
            self.skips[at] = skip + self.skip_at(at + skip);
            return at + skip;
        }
        self.spots[at] = runs.spot(at as u64 - first);
        self.skips[at] = 1;
        at + 1
    }

    /// Notes where the clusters of runs lie, which begin with cluster `first` of the stream, as far as they are not noted.
    pub fn note_runs(&mut self, first: u64, runs: &RunList)
        ensures len { length self.new.spots.items ≡ length self.old.spots.items }
        ensures held { (k : ℕ) → k < length self.old.spots.items → first ≤ k
            → noted_at self.new.spots.items k ≡ first_spot (noted_at self.old.spots.items k) (spot_of runs.now (k - first)) }
        ensures before { (k : ℕ) → k < first → noted_at self.new.spots.items k ≡ noted_at self.old.spots.items k }
    {
        if first >= self.spots.len() as u64 {
            return;
        }
        let end = first
            .saturating_add(clusters_of(runs))
            .min(self.spots.len() as u64) as usize;
        let mut at = first as usize;
        'places: while at < end {
            at = self.note_at(at, first, runs);
        }
    }
}
