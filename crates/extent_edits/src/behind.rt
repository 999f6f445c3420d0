//! The runs behind a cluster of a stream.
ghost use Rattle.std.specs.Prelude.{◌≡◌, ◌<◌, ◌≤◌, IfOk, drop};
ghost use Rattle.data_runs.specs.Left.{without_first};
ghost use Rattle.ntfs_def.specs.Runs.{EndsInReach, IsRunList, clusters_of, total_clusters};

use data_runs::{Run, RunList};
use std::alloc::{AllocError, Global};

// The run without its first clusters.
fn without_first(run: &Run, clusters: u64) -> Run
    requires inside { clusters < run.now.len }
    requires reach { EndsInReach run.now.len run.now.lcn }
    ensures { result ≡ without_first run.now clusters }
{
    Run {
        len: run.len - clusters,
        lcn: run.lcn.map(|lcn| lcn + clusters),
    }
}

/// The runs behind the first `count` clusters of a stream: what is left of the run that holds cluster `count`, and all behind it.
///
/// # Errors
///
/// Want of memory alone.
pub fn runs_behind(alloc: Global, runs: &RunList, count: u64) -> Result<Vec<Run>, AllocError>
    ensures clusters { IfOk result (λ behind. clusters_of behind.items ≡ drop count (clusters_of runs.now)) }
    ensures list { IfOk result (λ behind. IsRunList behind.items) }
    ensures few { IfOk result (λ behind. total_clusters behind.items ≤ total_clusters runs.now) }
{
    let mut behind = Vec::new(alloc);
    let mut inside = count;
    'runs: for run in runs.runs() {
        if inside < run.len {
            behind.push(without_first(run, inside))?;
            inside = 0;
        } else {
            inside -= run.len;
        }
    }
    Ok(behind)
}
