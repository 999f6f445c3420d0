//! Laws with nothing to run.
ghost use Rattle.std.specs.Prelude.{◌≡◌, ◌<◌, ◌⊎◌, ℕ, List, Some, length, slice_get};
ghost use Rattle.ntfs_def.specs.AttributeList.{HasListShape, list_entries, list_entry_at, list_entry_place};
ghost use Rattle.ntfs_def.specs.ListOrder.{AreInOrder};
ghost use Rattle.attr_list.specs.Edit.{Inserts, Removes};
ghost use Rattle.attr_list.specs.View.{Refuses};

use crate::{Entry, ListNo};

/// A value has one answer. Either it is a list, with one number of entries, and its list has as many, each at
/// the place that the layout gives it; or one refusal says which entry is the first bad one.
pub fn one_answer()
    ensures count { (value : List ℕ) (m n : ℕ) → HasListShape value m → HasListShape value n → m ≡ n }
    ensures all { (value : List ℕ) (count : ℕ) → HasListShape value count → length (list_entries value) ≡ count }
    ensures each { (value : List ℕ) (count i : ℕ) → HasListShape value count → i < count →
        slice_get (list_entries value) i ≡ Some (list_entry_at value (list_entry_place value i)) }
    ensures refusal { (value : List ℕ) (one other : ListNo) → Refuses value one → Refuses value other → one ≡ other }
    ensures either { (value : List ℕ) →
        HasListShape value (length (list_entries value)) ⊎ ((refusal : ListNo) × Refuses value refusal) }
    ensures never_both { (value : List ℕ) (count : ℕ) (refusal : ListNo) →
        HasListShape value count → Refuses value refusal → ⊥ }
{}

/// A list in order stays in order where an entry is put in at its place, and where one is taken out.
pub fn order_laws()
    ensures inserted { (fold : ℕ → ℕ) (entry : Entry) (old new : List ℕ) → Inserts fold entry old new
        → AreInOrder fold (list_entries old) → AreInOrder fold (list_entries new) }
    ensures removed { (fold : ℕ → ℕ) (i : ℕ) (old new : List ℕ) → i < length (list_entries old) → Removes i old new
        → AreInOrder fold (list_entries old) → AreInOrder fold (list_entries new) }
{}
