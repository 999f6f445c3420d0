//! Laws of the length of run texts.
ghost use Rattle.std.specs.Prelude.{◌≡◌, ◌⊎◌, ◌+◌, ◌<◌, ◌≤◌, All, List, None, ℕ, length};
ghost use Rattle.ntfs_def.specs.Runs.{EndsInReach, IsRunList, MeansRuns, clusters_of, spot_of, total_clusters};
ghost use Rattle.ntfs_def.specs.declared.run_text.Run.{Run};
ghost use Rattle.ntfs_def.specs.declared.run_text.Spot.TheVariants.{Hole};
ghost use Rattle.data_runs.specs.Pieces.{AreApart, with_run};
ghost use Rattle.data_runs.specs.Written.{IsWritten};
ghost use Rattle.run_texts.specs.Text.{high_lengths, most_longer, text_bytes};

/// How long the written form of a run list is.
pub fn text_length()
    ensures { (runs : List Run) (text : List ℕ) → IsRunList runs → IsWritten runs text → length text ≡ text_bytes 0 runs }
{}

/// Of all run lists with the same clusters the one of which no two neighbours are one has the shortest text.
pub fn joined_text()
    ensures { (old new : List Run) → IsRunList old → IsRunList new → AreApart new → clusters_of new ≡ clusters_of old
        → (was now : List ℕ) → IsWritten old was → IsWritten new now → length now ≤ length was }
{}

/// A run in place of as many clusters, from a hole on, or a hole in place of any, makes the text `most_longer` bytes longer at most,
/// where neighbours that are one are joined.
pub fn longer_text()
    ensures { (old new : List Run) (at : ℕ) (run : Run) → IsRunList old → IsRunList new → AreApart new
        → at + run.len ≤ total_clusters old → EndsInReach run.len run.lcn → (run.lcn ≡ None) ⊎ (spot_of old at ≡ Hole)
        → clusters_of new ≡ with_run (clusters_of old) at run → (was now : List ℕ) → IsWritten old was → IsWritten new now
        → length now ≤ length was + most_longer }
{}

/// A text that is stored, in whichever numbers, is as long as the written form of its runs at least, but for a byte for each run whose
/// length has its top bit set there, which the written form keeps clear (`least`); so many are these at most (`most`). By it are bounded
/// the text of a list with the same clusters of which no two neighbours are one (`joined`), and that of one where a run is put in place of
/// others, as in `longer_text` (`longer`).
pub fn stored_text()
    ensures least { (runs : List Run) (text written : List ℕ) → All (λ byte. byte < 256) text → MeansRuns text runs
        → IsWritten runs written → length written ≤ length text + high_lengths text runs }
    ensures most { (text : List ℕ) (runs : List Run) → high_lengths text runs ≤ length runs }
    ensures joined { (old new : List Run) (text now : List ℕ) → All (λ byte. byte < 256) text → MeansRuns text old → IsRunList new
        → AreApart new → clusters_of new ≡ clusters_of old → IsWritten new now → length now ≤ length text + high_lengths text old }
    ensures longer { (old new : List Run) (at : ℕ) (run : Run) (text now : List ℕ) → All (λ byte. byte < 256) text → MeansRuns text old
        → IsRunList new → AreApart new → at + run.len ≤ total_clusters old → EndsInReach run.len run.lcn
        → (run.lcn ≡ None) ⊎ (spot_of old at ≡ Hole) → clusters_of new ≡ with_run (clusters_of old) at run → IsWritten new now
        → length now ≤ length text + high_lengths text old + most_longer }
{}
