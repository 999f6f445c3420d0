//! Laws with nothing to run.
ghost use Rattle.std.specs.Prelude.{◌≡◌, ◌<◌, ℕ, List, Some, length, slice_get};
ghost use Rattle.ntfs_def.specs.Attribute.{attribute_at, attribute_place, attributes};
ghost use Rattle.ntfs_def.specs.Shape.{HasShape};
ghost use Rattle.attr_view.specs.View.{Refuses};

use crate::ViewNo;

/// A block has one answer. Either it has the shape, with one number of attributes,
/// and its list has as many, each at the place that the layout gives it; or one refusal says where it fails first.
pub fn one_answer()
    ensures count { (block : List ℕ) (m n : ℕ) → HasShape block m → HasShape block n → m ≡ n }
    ensures all { (block : List ℕ) (count : ℕ) → HasShape block count → length (attributes block) ≡ count }
    ensures each { (block : List ℕ) (count i : ℕ) → HasShape block count → i < count →
        slice_get (attributes block) i ≡ Some (attribute_at block (attribute_place block i)) }
    ensures refusal { (block : List ℕ) (one other : ViewNo) → Refuses block one → Refuses block other → one ≡ other }
    ensures either { (block : List ℕ) (count : ℕ) (refusal : ViewNo) → HasShape block count → Refuses block refusal → ⊥ }
{}
