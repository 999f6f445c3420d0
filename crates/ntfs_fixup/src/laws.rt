//! What the definitions of opened and sealed blocks mean together.
ghost use Rattle.std.specs.Prelude.{◌≡◌, ◌⊎◌, ◌+◌, ◌%◌, ◌<◌, ◌≤◌, ℕ, All, List, slice_index};
ghost use Rattle.vol_bytes.specs.Field.{SameOutside};
ghost use Rattle.ntfs_def.specs.Fixup.{HasArray, IsSealed, Opens, Seals, array_end, array_place, bare_of, opened_of, sequence_number};
ghost use Rattle.ntfs_fixup.specs.FixFault.{Refuses};
ghost use Rattle.ntfs_fixup.specs.declared.FixFault.{FixFault};

/// A block has one answer: stored, it opens to one block, or it is refused with one fault; and it is
/// sealed to one row of bytes.
pub fn one_answer()
    ensures opened { (stored a b : List ℕ) → Opens stored a → Opens stored b → a ≡ b }
    ensures fault { (stored : List ℕ) (a b : FixFault) → Refuses stored a → Refuses stored b → a ≡ b }
    ensures sealed { (block a b : List ℕ) → HasArray block → All (λ byte. byte < 256) a → All (λ byte. byte < 256) b
        → Seals block a → Seals block b → a ≡ b }
    ensures either { (stored : List ℕ) (fault : FixFault) → IsSealed stored → Refuses stored fault → ⊥ }
{}

/// A sealed block opens, to the same bytes outside the array, and can be sealed again.
pub fn sealed_opens()
    ensures opens { (block stored opened : List ℕ) → Seals block stored → Opens stored opened
        → SameOutside block opened (array_place block) (array_end block) }
    ensures bare { (block stored opened : List ℕ) → HasArray block → Seals block stored → Opens stored opened
        → bare_of opened ≡ bare_of block }
    ensures array { (stored opened : List ℕ) → Opens stored opened → HasArray opened }
    ensures number { (stored opened : List ℕ) → Opens stored opened → sequence_number opened ≡ sequence_number stored }
{}

/// An edit behind the first eight bytes keeps the array, and is the same edit of the bare block.
pub fn edited_alike()
    ensures array { (old new : List ℕ) (from to : ℕ) → 8 ≤ from → HasArray old → SameOutside old new from to → HasArray new }
    ensures bare { (old new : List ℕ) (from to : ℕ) → 8 ≤ from → SameOutside old new from to
        → SameOutside (bare_of old) (bare_of new) from to }
{}

/// One byte of a stored block that lies outside the array, and at no stride's end, is that byte of the
/// opened block, and no other depends on it. So a flag is set without sealing the block anew.
pub fn patched_alike()
    ensures sealed { (stored new : List ℕ) (k : ℕ) → IsSealed stored → SameOutside stored new k (k + 1) → 8 ≤ k
        → (k < array_place stored) ⊎ (array_end stored ≤ k) → k % 512 < 510 → IsSealed new }
    ensures others { (stored new : List ℕ) (k : ℕ) → IsSealed stored → SameOutside stored new k (k + 1) → 8 ≤ k
        → (k < array_place stored) ⊎ (array_end stored ≤ k) → k % 512 < 510
        → SameOutside (opened_of stored) (opened_of new) k (k + 1) }
    ensures byte { (stored new : List ℕ) (k : ℕ) → IsSealed stored → SameOutside stored new k (k + 1) → 8 ≤ k
        → (k < array_place stored) ⊎ (array_end stored ≤ k) → k % 512 < 510
        → slice_index (opened_of new) k ≡ slice_index new k }
{}
