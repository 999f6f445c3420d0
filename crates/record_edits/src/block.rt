//! An edit of one block of the table, and an attribute that stands whole in it.
ghost use Rattle.std.specs.Prelude.{◌≡◌, ◌*◌, ℕ, IfSome, IsSome, IsTrue, List, [], ◌∷◌};
ghost use Rattle.ntfs_def.specs.Attribute.{Attribute};
ghost use Rattle.ntfs_def.specs.Fixup.{opened_of};
ghost use Rattle.volume_def.specs.Edits.{EditsAt};
ghost use Rattle.volume_def.specs.ExtentsClause.{AreAttribute, BeginsAt, FitExtents, has_sizes};
ghost use Rattle.volume_def.specs.Files.{Part, content_extent, content_value, file_of, part_clusters, parts_at, record_of, records_of};
ghost use Rattle.volume_def.specs.View.{VolumeView};
ghost use Rattle.volume_edits.specs.Rewritten.{EditsBlock};
ghost use Rattle.edit_def.specs.Kept.{Key};
ghost use Rattle.record_edits.specs.RecordEdit.{AllHave, parts_made};

/// An edit of one block is one of the records (`records`). Where the attribute has all of its parts in this record, it has those that come
/// (`whole`).
pub fn edited_block()
    ensures records { (old new : VolumeView) (n : ℕ) (stored : List ℕ) (was now : List Attribute) → EditsBlock old new n stored was now
        → EditsAt (records_of old) (records_of new) n (parts_made n was) (parts_made n now) }
    ensures whole { (old new : VolumeView) (n : ℕ) (stored : List ℕ) (was now : List Attribute) → EditsBlock old new n stored was now
        → (key : Key) → file_of n (record_of n (opened_of (old.block n))) ≡ key.file → AllHave key was → AllHave key now
        → parts_at old key.file key.kind key.name ≡ parts_made n was
        → parts_at new key.file key.kind key.name ≡ parts_made n now }
{}

/// One part is an attribute: a value (`value`), or an extent from cluster 0 on whose sizes fit what it covers (`extent`).
pub fn one_part()
    ensures value { (size f : ℕ) (part : Part) → IsSome (content_value part.content) → AreAttribute size f (part ∷ []) }
    ensures extent { (size f : ℕ) (part : Part) → BeginsAt 0 part
        → (IsTrue (has_sizes f part) → IfSome (content_extent part.content) (λ extent.
        extent.sizes.first ≡ 0 → FitExtents (part_clusters part * size) part.flags extent.sizes)) → AreAttribute size f (part ∷ []) }
{}
