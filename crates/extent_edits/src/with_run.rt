//! The runs of a stream with one more behind them.
ghost use Rattle.std.specs.Prelude.{◌≡◌, ◌+◌, ◌++◌, ◌^◌, ◌<◌, ◌≤◌, [], ◌∷◌, IfNone, IfOk, IfSome, OnOk};
ghost use Rattle.std.specs.Option.{option_to_list};
ghost use Rattle.ntfs_def.specs.Runs.{EndsInReach, total_clusters};
ghost use Rattle.extent_edits.specs.Extended.{IsNewRun};

use data_runs::{Run, RunList};
use std::alloc::{AllocError, Global};

/// The most clusters that the runs of a stream can have.
const MOST_CLUSTERS: u64 = 1 << 62;

// Puts a run behind the others.
fn put_behind(runs: &mut RunList, run: Run) -> Result<(), AllocError>
    requires one { IsNewRun run }
    requires total { total_clusters runs.old + run.len ≤ 2 ^ 62 }
    ensures { OnOk result (runs.new ≡ runs.old ++ run ∷ []) }
{
    match runs.append(run) {
        Ok(()) => Ok(()),
        Err(_) => Err(AllocError),
    }
}

// The same runs once more.
fn copy_of(alloc: Global, runs: &RunList) -> Result<RunList, AllocError>
    ensures { IfOk result (λ copy. copy ≡ runs.now) }
{
    let mut copy = RunList::new(alloc);
    'runs: for run in runs.runs() {
        put_behind(&mut copy, *run)?;
    }
    Ok(copy)
}

/// The runs of a stream with one more behind them, where one is given; none are joined. `None` where they are too many clusters to be told.
///
/// # Errors
///
/// Want of memory alone.
pub fn runs_with(
    alloc: Global,
    runs: &RunList,
    run: Option<Run>,
) -> Result<Option<RunList>, AllocError>
    requires { IfSome run IsNewRun }
    ensures some { IfOk result (λ found. IfSome found (λ all. all ≡ runs.now ++ option_to_list run)) }
    ensures none { IfOk result (λ found. IfNone found (2 ^ 62 < total_clusters runs.now + total_clusters (option_to_list run))) }
{
    let mut all = copy_of(alloc, runs)?;
    let Some(run) = run else {
        return Ok(Some(all));
    };
    if MOST_CLUSTERS - all.total_clusters() < run.len {
        return Ok(None);
    }
    put_behind(&mut all, run)?;
    Ok(Some(all))
}
