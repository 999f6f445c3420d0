//! Records noted, and the clause on owners decided.
ghost use Rattle.std.specs.Prelude.{◌≡◌, ◌↔◌, ◌+◌, ◌^◌, ◌≤◌, ◌&&◌, ◌==◌, ℕ, [], None, Some, IfOk, IsTrue, OnOk, flat_map};
ghost use Rattle.std.specs.Str.{bytes_eq};
ghost use Rattle.ntfs_def.specs.declared.kinds.TheConstants.{DATA};
ghost use Rattle.attr_view.specs.View.{attribute_of, attributes_of, viewed_block};
ghost use Rattle.volume_def.specs.Coverage.{has_cluster, times_covered};
ghost use Rattle.volume_def.specs.Files.{Records, file_of, record_of};
ghost use Rattle.volume_def.specs.OwnersClause.{MeetsOwners};
ghost use Rattle.list_laws.specs.Least.{IsLeastFailing};
ghost use Rattle.record_notes.specs.Owners.{OwnersNote, attribute_runs, clusters_noted, unnamed_data_runs};

use crate::owners::{OwnedClusters, Owners};
use crate::streams::is_unnamed;
use attr_view::{AttrView, RecordView};
use data_runs::{Run, read_runs};
use ntfs_def::kinds::DATA;
use ntfs_def::records::BOOT;
use std::alloc::{AllocError, Global};

fn has_first_cluster(run: &Run) -> bool
    ensures { result ≡ has_cluster 0 run.now }
{
    match run.lcn {
        None => false,
        Some(lcn) => lcn == 0 && run.len > 0,
    }
}

fn cover_first_cluster(runs: &[Run]) -> bool
    ensures { IsTrue result ↔ (1 ≤ times_covered runs.now 0) }
{
    for run in runs {
        if has_first_cluster(run) {
            return true;
        }
    }
    false
}

// Whether an attribute has cluster 0.
fn owns_first_cluster(alloc: Global, attribute: &AttrView<'_>) -> Result<bool, AllocError>
    ensures { IfOk result (λ owns. IsTrue owns ↔ (1 ≤ times_covered (attribute_runs (attribute_of attribute.now)) 0)) }
{
    let Some(text) = attribute.runs() else {
        return Ok(false);
    };
    let Some(list) = read_runs(alloc, text)? else {
        return Ok(false);
    };
    let owns = cover_first_cluster(list.runs());
    Ok(owns)
}

fn is_unnamed_data(attribute: &AttrView<'_>) -> bool
    ensures { result ≡ (((attribute_of attribute.now).kind == DATA) && bytes_eq (attribute_of attribute.now).name []) }
{
    is_unnamed(attribute, DATA)
}

// Whether the unnamed $DATA of a record has cluster 0.
fn data_owns_first_cluster(alloc: Global, view: &RecordView<'_>) -> Result<bool, AllocError>
    ensures { IfOk result (λ owns. IsTrue owns ↔ (1 ≤ times_covered (flat_map unnamed_data_runs (attributes_of view.now)) 0)) }
{
    for attribute in view.attributes() {
        if is_unnamed_data(&attribute) {
            let owns = owns_first_cluster(alloc, &attribute)?;
            if owns {
                return Ok(true);
            }
        }
    }
    Ok(false)
}

impl Owners {
    /// No record is noted yet, of a volume of so many clusters.
    ///
    /// # Errors
    ///
    /// There was no memory for a bit for each cluster.
    pub fn new(alloc: Global, clusters: u64) -> Result<Owners, AllocError>
        requires { clusters ≤ 2 ^ 26 }
        ensures none { IfOk result (λ owners. (records : Records) → OwnersNote records 0 owners) }
        ensures clusters { IfOk result (λ owners. clusters_noted owners ≡ clusters) }
    {
        let owned = OwnedClusters::new(alloc, clusters)?;
        Ok(Owners { owned, boot: false })
    }

    /// Notes the owners of clusters that a record in use gives, of this file.
    ///
    /// # Errors
    ///
    /// There was no memory for the runs of an attribute.
    pub fn note(
        &mut self,
        alloc: Global,
        file: u64,
        view: &RecordView<'_>,
    ) -> Result<(), AllocError>
        ensures clusters { clusters_noted self.new ≡ clusters_noted self.old }
        ensures noted { OnOk result ((records : Records) (n : ℕ) → records.record_at n ≡ Some (record_of n (viewed_block view.now))
            → file_of n (record_of n (viewed_block view.now)) ≡ file
            → OwnersNote records n self.old → OwnersNote records (n + 1) self.new) }
    {
        self.owned.note_record(alloc, view)?;
        if file != BOOT {
            return Ok(());
        }
        let owns = data_owns_first_cluster(alloc, view)?;
        self.boot |= owns;
        Ok(())
    }

    /// The least cluster that breaks the clause on owners, S7.
    pub fn first_wrong_cluster(&self) -> Option<u64>
        ensures { (records : Records) → OwnersNote records records.count self.now
            → IsLeastFailing (MeetsOwners records (clusters_noted self.now)) result }
    {
        if !self.boot {
            return Some(0);
        }
        self.owned.least
    }
}
