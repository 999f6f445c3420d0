//! Laws of ranges of flags, with nothing to run.
ghost use Rattle.std.specs.Prelude.{◌≡◌, ◌⊎◌, ◌+◌, ◌<◌, ◌≤◌, ℕ, Bool, List, Some, count_by, false, length, not, slice_get, true};
ghost use Rattle.cluster_bitmap.specs.Flags.{IsFree, IsTaken, with_given, with_taken};

/// What becomes of flags of which a range is taken: those inside it are taken, all others stay, and as
/// many fewer are free as the range has.
pub fn taken_range_laws()
    ensures inside { (flags : List Bool) (at len k : ℕ) → at + len ≤ length flags → at ≤ k → k < at + len
        → slice_get (with_taken flags at len) k ≡ Some true }
    ensures outside { (flags : List Bool) (at len k : ℕ) → at + len ≤ length flags → (k < at) ⊎ (at + len ≤ k)
        → slice_get (with_taken flags at len) k ≡ slice_get flags k }
    ensures free { (flags : List Bool) (at len : ℕ) → at + len ≤ length flags → IsFree flags at len
        → count_by not (with_taken flags at len) + len ≡ count_by not flags }
{}

/// What becomes of flags of which a range is given back: those inside it are free, all others stay, and as
/// many more are free as the range has.
pub fn given_range_laws()
    ensures inside { (flags : List Bool) (at len k : ℕ) → at + len ≤ length flags → at ≤ k → k < at + len
        → slice_get (with_given flags at len) k ≡ Some false }
    ensures outside { (flags : List Bool) (at len k : ℕ) → at + len ≤ length flags → (k < at) ⊎ (at + len ≤ k)
        → slice_get (with_given flags at len) k ≡ slice_get flags k }
    ensures free { (flags : List Bool) (at len : ℕ) → at + len ≤ length flags → IsTaken flags at len
        → count_by not (with_given flags at len) ≡ count_by not flags + len }
{}
