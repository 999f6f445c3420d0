//! Runs noted as bits.
ghost use Rattle.std.specs.Prelude.{◌≡◌, ◌+◌, ◌^◌, ◌<◌, ◌≤◌, ℕ, List, [], ◌∷◌, ◌++◌, IfOk, OnOk, min, flat_map};
ghost use Rattle.ntfs_def.specs.Runs.{EndsInReach, IsRunList};
ghost use Rattle.attr_view.specs.View.{attribute_of, attributes_of};
ghost use Rattle.ntfs_def.specs.declared.run_text.Run.{Run};
ghost use Rattle.record_notes.specs.Owners.{CountsNote, RunsNote, attribute_runs, inside, noted_end, runs_of_text};

use crate::bits::fill;
use crate::owners::OwnedClusters;
use attr_view::{AttrView, RecordView};
use data_runs::{Run, read_runs};
use std::alloc::{AllocError, Global};

impl OwnedClusters {
    /// No cluster of so many is owned.
    pub fn new(alloc: Global, clusters: u64) -> Result<OwnedClusters, AllocError>
        requires { clusters ≤ 2 ^ 26 }
        ensures none { IfOk result (λ owned. RunsNote [] owned) }
        ensures clusters { IfOk result (λ owned. owned.clusters ≡ clusters) }
    {
        let bits = vec![in alloc; 0u8; (clusters / 8 + 1) as usize]?;
        Ok(OwnedClusters {
            bits,
            clusters,
            least: None,
        })
    }

    // The clusters whose bits mean something: those of the volume below the least bad one.
    fn noted_end(&self) -> u64
        ensures { result ≡ noted_end self.now.clusters self.now.least }
    {
        match self.least {
            None => self.clusters,
            Some(least) => least.min(self.clusters),
        }
    }

    // One more owner of the clusters from `from` up to `end`, which the volume has. Those from the least bad one on are
    // passed over, so that each cluster is marked once, whatever the runs.
    fn note_inside(&mut self, from: u64, end: u64)
        requires end { end ≤ self.old.clusters }
        ensures clusters { self.new.clusters ≡ self.old.clusters }
        ensures noted { (times : ℕ → ℕ) → CountsNote times self.old → CountsNote (λ k. times k + inside from end k) self.new }
    {
        let end = end.min(self.noted_end());
        let found = fill(&mut self.bits, from, end);
        self.least = found.or(self.least);
    }

    // And of those that it does not have.
    fn note_past(&mut self, from: u64, end: u64)
        ensures clusters { self.new.clusters ≡ self.old.clusters }
        ensures noted { (times : ℕ → ℕ) → CountsNote (λ k. times k + inside from (min end self.old.clusters) k) self.old
            → CountsNote (λ k. times k + inside from end k) self.new }
    {
        if from < end && end > self.clusters {
            let first = from.max(self.clusters);
            self.least = Some(self.least.unwrap_or(first).min(first));
        }
    }

    // One more owner of the clusters of a run.
    fn note_run(&mut self, run: &Run)
        requires { EndsInReach run.now.len run.now.lcn }
        ensures clusters { self.new.clusters ≡ self.old.clusters }
        ensures noted { (runs : List Run) → RunsNote runs self.old → RunsNote (runs ++ run.now ∷ []) self.new }
    {
        let Some(lcn) = run.lcn else {
            return;
        };
        let end = lcn + run.len;
        self.note_inside(lcn, end.min(self.clusters));
        self.note_past(lcn, end);
    }

    // One more owner of the clusters of these runs.
    fn note_runs(&mut self, list: &[Run])
        requires { IsRunList list.now }
        ensures clusters { self.new.clusters ≡ self.old.clusters }
        ensures noted { (runs : List Run) → RunsNote runs self.old → RunsNote (runs ++ list.now) self.new }
    {
        for run in list {
            self.note_run(run);
        }
    }

    // One more owner of the clusters that a run text means.
    fn note_text(&mut self, alloc: Global, text: &[u8]) -> Result<(), AllocError>
        ensures clusters { self.new.clusters ≡ self.old.clusters }
        ensures noted { OnOk result ((runs : List Run) → RunsNote runs self.old → RunsNote (runs ++ runs_of_text text.now) self.new) }
    {
        let Some(list) = read_runs(alloc, text)? else {
            return Ok(());
        };
        self.note_runs(list.runs());
        Ok(())
    }

    // One more owner of the clusters of an attribute.
    fn note_attribute(&mut self, alloc: Global, attribute: &AttrView<'_>) -> Result<(), AllocError>
        ensures clusters { self.new.clusters ≡ self.old.clusters }
        ensures noted { OnOk result ((runs : List Run) → RunsNote runs self.old
            → RunsNote (runs ++ attribute_runs (attribute_of attribute.now)) self.new) }
    {
        let Some(text) = attribute.runs() else {
            return Ok(());
        };
        self.note_text(alloc, text)?;
        Ok(())
    }

    /// One more owner of the clusters of all attributes of a record.
    pub fn note_record(&mut self, alloc: Global, view: &RecordView<'_>) -> Result<(), AllocError>
        ensures clusters { self.new.clusters ≡ self.old.clusters }
        ensures noted { OnOk result ((runs : List Run) → RunsNote runs self.old
            → RunsNote (runs ++ flat_map attribute_runs (attributes_of view.now)) self.new) }
    {
        for attribute in view.attributes() {
            self.note_attribute(alloc, &attribute)?;
        }
        Ok(())
    }
}
