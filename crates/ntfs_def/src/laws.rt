//! Laws with nothing to run: of run texts, and of what the layout of a record means where its bytes are
//! elsewhere, or differ where they mean nothing.
ghost use Rattle.std.specs.Prelude.{◌≡◌, ◌⊎◌, ◌↔◌, ℕ, List, Some, None};
ghost use Rattle.ntfs_def.specs.Attribute.{attribute_at, attribute_len, attributes};
ghost use Rattle.ntfs_def.specs.Fixup.{bare_of};
ghost use Rattle.ntfs_def.specs.Moved.{IsMoved};
ghost use Rattle.ntfs_def.specs.Record.{header_of, is_in_use};
ghost use Rattle.ntfs_def.specs.declared.run_text.Run.{Run};
ghost use Rattle.ntfs_def.specs.Runs.{FirstBadRun, IsRunList, MeansRuns, RunRule, runs_in};
ghost use Rattle.ntfs_def.specs.Shape.{HasShape, IsWhole};
ghost use Rattle.vol_bytes.specs.Field.{SameOutside};

/// An attribute whose bytes stand at another place, or in another block, is the same attribute. A
/// record that differs in its update sequence array alone, such as its bare block, says the same.
pub fn record_laws()
    ensures moved { (old new : List ℕ) (from to : ℕ) → IsWhole old from → IsMoved old new from to (attribute_len old from)
        → attribute_at new to ≡ attribute_at old from }
    ensures whole { (old new : List ℕ) (from to : ℕ) → IsWhole old from → IsMoved old new from to (attribute_len old from)
        → IsWhole new to }

    ensures shape { (old new : List ℕ) (count : ℕ) → HasShape old count → SameOutside old new 0x30 0x36 → HasShape new count }
    ensures attributes { (old new : List ℕ) (count : ℕ) → HasShape old count → SameOutside old new 0x30 0x36
        → attributes new ≡ attributes old }
    ensures header { (old new : List ℕ) (count : ℕ) → HasShape old count → SameOutside old new 0x30 0x36
        → header_of new ≡ header_of old }
    ensures in_use { (old new : List ℕ) (count : ℕ) → HasShape old count → SameOutside old new 0x30 0x36
        → is_in_use new ≡ is_in_use old }
    ensures bare { (block : List ℕ) (count : ℕ) → HasShape block count → SameOutside block (bare_of block) 0x30 0x36 }
{}

/// The laws of run texts. A text means a list of runs or has a first bad run, and never both. The list
/// is one, and keeps to the limits; the first bad run is one, and so is the rule that it breaks first.
/// The function of a text gives the list that it means, and none exactly where a bad run comes.
pub fn run_text_laws()
    ensures either { (text : List ℕ)
        → ((runs : List Run) × MeansRuns text runs) ⊎ ((rule : RunRule) × (place : ℕ) × FirstBadRun text rule place) }
    ensures one { (text : List ℕ) (xs ys : List Run) → MeansRuns text xs → MeansRuns text ys → xs ≡ ys }
    ensures list { (text : List ℕ) (runs : List Run) → MeansRuns text runs → IsRunList runs }
    ensures first { (text : List ℕ) (rule other : RunRule) (place there : ℕ)
        → FirstBadRun text rule place → FirstBadRun text other there → (rule ≡ other) × (place ≡ there) }
    ensures never_both { (text : List ℕ) (runs : List Run) (rule : RunRule) (place : ℕ)
        → MeansRuns text runs → FirstBadRun text rule place → ⊥ }
    ensures function { (text : List ℕ) (runs : List Run) → (runs_in text ≡ Some runs) ↔ MeansRuns text runs }
    ensures function_none { (text : List ℕ)
        → (runs_in text ≡ None) ↔ ((rule : RunRule) × (place : ℕ) × FirstBadRun text rule place) }
{}
