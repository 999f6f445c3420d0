//! What the parts of a stream have in common, a part at a time.
ghost use Rattle.std.specs.Prelude.{◌≡◌, ◌↔◌, ◌+◌, ◌-◌, ◌^◌, [], All, IsSome, IsTrue, min};
ghost use Rattle.ntfs_def.specs.Runs.{total_clusters};
ghost use Rattle.record_notes.specs.Streams.{TellsPlaces};

use crate::streams::Placement;
use data_runs::{Run, RunList};
use file_clauses::clusters_of;

// Whether no run is a hole.
fn have_no_hole(runs: &[Run]) -> bool
    ensures { IsTrue result ↔ All (λ run. IsSome run.lcn) runs.now }
{
    runs.iter().all(|run| run.lcn.is_some())
}

impl Placement {
    /// Of no part yet.
    pub fn new() -> Placement
        ensures { TellsPlaces [] result }
    {
        Placement {
            placed: true,
            in_clusters: true,
            covered: 0,
        }
    }

    /// One more part, which has these runs.
    pub fn note_runs(&mut self, runs: &RunList)
        ensures placed { IsTrue self.new.placed ↔ IsTrue self.old.placed × All (λ run. IsSome run.lcn) runs.now }
        ensures in_clusters { self.new.in_clusters ≡ self.old.in_clusters }
        ensures covered { self.new.covered ≡ min (2 ^ 64 - 1) (self.old.covered + total_clusters runs.now) }
    {
        self.placed &= have_no_hole(runs.runs());
        self.covered = self.covered.saturating_add(clusters_of(runs));
    }
}
