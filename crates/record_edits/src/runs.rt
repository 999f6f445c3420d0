//! Runs that an edit names, the owners of their clusters, and the bits that follow.
ghost use Rattle.std.specs.Prelude.{◌≡◌, ◌+◌, ◌<◌, ◌≤◌, ◌++◌, ℕ, Bool, List, Some, None, [], ◌∷◌, count_by, drop, false, is_some, length};
ghost use Rattle.std.specs.Prelude.{slice_get, sum_by, take, true};
ghost use Rattle.ntfs_def.specs.Runs.{clusters_of, run_clusters};
ghost use Rattle.ntfs_def.specs.declared.run_text.Run.{Run};
ghost use Rattle.volume_def.specs.Edits.{EditsAt};
ghost use Rattle.volume_def.specs.Files.{Part, Records, part_runs};
ghost use Rattle.volume_def.specs.OwnersClause.{times_owned};
ghost use Rattle.edit_def.specs.Purses.{run_size};
ghost use Rattle.record_edits.specs.Owners.{FollowsRuns, NamesRightly, one_of, times_at, times_in};

/// The runs of an edit are named rightly where clusters come, each once, on the volume and without an owner (`come`), and where
/// some go (`go`), on a volume where no cluster has two owners.
pub fn runs_named()
    ensures come { (old new : Records) (clusters n : ℕ) (was now : List Part) (more : ℕ → ℕ) → EditsAt old new n was now
        → ((c : ℕ) → times_owned old c ≤ 1) → ((c : ℕ) → times_in now c ≡ times_in was c + more c) → ((c : ℕ) → more c ≤ 1)
        → ((c : ℕ) → 1 ≤ more c → (c < clusters) × (times_owned old c ≡ 0)) → NamesRightly old clusters was now }
    ensures go { (old new : Records) (clusters n : ℕ) (was now : List Part) (less : ℕ → ℕ) → EditsAt old new n was now
        → ((c : ℕ) → times_owned old c ≤ 1) → ((c : ℕ) → times_in was c ≡ times_in now c + less c)
        → NamesRightly old clusters was now }
{}

/// The bits follow where those of the clusters that come were set, and no other (`come`), and where those of the clusters that go were
/// cleared (`go`).
pub fn bits_followed()
    ensures come { (before after : List Bool) (was now : List Part) (more : ℕ → ℕ) → length after ≡ length before
        → ((c : ℕ) → times_in now c ≡ times_in was c + more c)
        → ((c : ℕ) → c < length before → 1 ≤ more c → slice_get after c ≡ Some true)
        → ((c : ℕ) → more c ≡ 0 → slice_get after c ≡ slice_get before c) → FollowsRuns before after was now }
    ensures go { (before after : List Bool) (was now : List Part) (less : ℕ → ℕ) → length after ≡ length before
        → ((c : ℕ) → times_in was c ≡ times_in now c + less c)
        → ((c : ℕ) → c < length before → 1 ≤ less c → slice_get after c ≡ Some false)
        → ((c : ℕ) → less c ≡ 0 → slice_get after c ≡ slice_get before c) → FollowsRuns before after was now }
{}

/// Which clusters come to an extent, or go: those of a run put where there was a hole (`filled`), those in whose place a hole is made
/// (`emptied`), and those behind the end of a list that is cut (`cut`).
pub fn extent_changed()
    ensures filled { (a b : Part) (at : ℕ) (run : Run) → clusters_of (part_runs b)
        ≡ take at (clusters_of (part_runs a)) ++ (run_clusters run ++ drop (at + run.len) (clusters_of (part_runs a)))
        → ((c : ℕ) → times_at (take run.len (drop at (clusters_of (part_runs a)))) c ≡ 0) → (c : ℕ)
        → times_in (b ∷ []) c ≡ times_in (a ∷ []) c + one_of run c }
    ensures emptied { (a b : Part) (at len : ℕ) → clusters_of (part_runs b)
        ≡ take at (clusters_of (part_runs a))
        ++ (run_clusters (record { len = len; lcn = None }) ++ drop (at + len) (clusters_of (part_runs a))) → (c : ℕ)
        → times_in (a ∷ []) c ≡ times_in (b ∷ []) c + times_at (take len (drop at (clusters_of (part_runs a)))) c }
    ensures cut { (a b : Part) (n : ℕ) → clusters_of (part_runs b) ≡ take n (clusters_of (part_runs a)) → (c : ℕ)
        → times_in (a ∷ []) c ≡ times_in (b ∷ []) c + times_at (drop n (clusters_of (part_runs a))) c }
{}

/// How many clusters runs own after one of them was put in the place of as many clusters (`put`), and after they were cut (`cut`).
pub fn clusters_owned()
    ensures put { (old new : List Run) (at : ℕ) (run : Run)
        → clusters_of new ≡ take at (clusters_of old) ++ (run_clusters run ++ drop (at + run.len) (clusters_of old))
        → sum_by run_size new + count_by is_some (take run.len (drop at (clusters_of old))) ≡ sum_by run_size old + run_size run }
    ensures cut { (old new : List Run) (n : ℕ) → clusters_of new ≡ take n (clusters_of old)
        → sum_by run_size new + count_by is_some (drop n (clusters_of old)) ≡ sum_by run_size old }
{}
