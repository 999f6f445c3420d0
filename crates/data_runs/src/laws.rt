//! Laws of the written form of runs, of a run behind others, and of what is left of one.
ghost use Rattle.std.specs.Prelude.{◌≡◌, ℕ, ◌+◌, ◌<◌, ◌≤◌, ◌↔◌, List, [], ◌∷◌, ◌++◌, Some, None};
ghost use Rattle.std.specs.Option.{option_map};
ghost use Rattle.ntfs_def.specs.declared.run_text.Run.{Run};
ghost use Rattle.ntfs_def.specs.Runs.{IsRunList, MeansRuns, spot_in, spot_of, total_clusters};
ghost use Rattle.ntfs_def.specs.declared.run_text.Spot.TheVariants.{Outside};
ghost use Rattle.data_runs.specs.Left.{run_left};
ghost use Rattle.data_runs.specs.Written.{IsWritten};

/// The laws of the written form. A list of runs within the limits has one, no list has two, and what
/// is written means the list again, whatever follows it.
pub fn written_run_laws()
    ensures some { (runs : List Run) → IsRunList runs → (text : List ℕ) × IsWritten runs text }
    ensures one { (runs : List Run) (text other : List ℕ) → IsWritten runs text → IsWritten runs other → text ≡ other }
    ensures again { (runs : List Run) (text rest : List ℕ) → IsRunList runs → IsWritten runs text → MeansRuns (text ++ rest) runs }
{}

/// What a run behind others changes. Each cluster of the others lies where it lay, and those of the
/// run, which come next, lie in it; all later ones are outside.
pub fn appended_spots()
    ensures before { (runs : List Run) (run : Run) (vcn : ℕ) → vcn < total_clusters runs
        → spot_of (runs ++ run ∷ []) vcn ≡ spot_of runs vcn }
    ensures inside { (runs : List Run) (run : Run) (vcn n : ℕ) → n < run.len → vcn ≡ total_clusters runs + n
        → spot_of (runs ++ run ∷ []) vcn ≡ spot_in (Some (option_map (λ lcn. lcn + n) run.lcn)) }
    ensures behind { (runs : List Run) (run : Run) (vcn : ℕ) → total_clusters runs + run.len ≤ vcn
        → spot_of (runs ++ run ∷ []) vcn ≡ Outside }
{}

/// What is left of a run tells where the clusters from there on lie. It has a cluster, and its clusters
/// are the next ones of the stream; where nothing is left, all are outside.
pub fn left_laws()
    ensures some { (runs : List Run) (run : Run) (vcn : ℕ) → run_left runs vcn ≡ Some run → 0 < run.len }
    ensures inside { (runs : List Run) (run : Run) (vcn k : ℕ) → run_left runs vcn ≡ Some run → k < run.len
        → spot_of runs (vcn + k) ≡ spot_in (Some (option_map (λ lcn. lcn + k) run.lcn)) }
    ensures none { (runs : List Run) (vcn : ℕ) → run_left runs vcn ≡ None ↔ total_clusters runs ≤ vcn }
    ensures behind { (runs : List Run) (vcn k : ℕ) → run_left runs vcn ≡ None → spot_of runs (vcn + k) ≡ Outside }
{}
