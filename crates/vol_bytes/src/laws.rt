//! Laws of name texts, with nothing to run.
ghost use Rattle.std.specs.Prelude.{◌≡◌, ◌<◌, ℕ, All, List, length};
ghost use Rattle.vol_bytes.specs.NameText.{IsNameText, name_text};

/// A text stands for one name at most, and is the printed form of one at most. The printed form of a
/// name stands for it.
pub fn name_text_laws()
    ensures one_name { (text units other : List ℕ) → IsNameText text units → IsNameText text other → units ≡ other }
    ensures one_printed { (units other : List ℕ) → All (λ unit. unit < 0x10000) units → All (λ unit. unit < 0x10000) other
        → name_text units ≡ name_text other → units ≡ other }
    ensures printed { (units : List ℕ) → All (λ unit. unit < 0x10000) units → 0 < length units
        → IsNameText (name_text units) units }
{}
