//! Attributes of one record that came, went, were replaced, or were written: edits of an attribute.
ghost use Rattle.std.specs.Prelude.{ℕ, IsSome, List, [], ◌∷◌};
ghost use Rattle.ntfs_def.specs.Attribute.{attribute_at, value_of};
ghost use Rattle.volume_def.specs.Files.{Part, content_value, records_of};
ghost use Rattle.volume_def.specs.OwnersClause.{MeetsOwners};
ghost use Rattle.volume_def.specs.View.{VolumeView};
ghost use Rattle.edit_def.specs.Kept.{Key};
ghost use Rattle.edit_def.specs.Marks.{Marks};
ghost use Rattle.file_record.specs.Attributes.{InsertsAttribute, RemovesAttribute, ReplacesAttribute, ResizesAttribute};
ghost use Rattle.file_record.specs.Sizes.{WritesSizes};
ghost use Rattle.file_record.specs.Written.{WritesBytes};
ghost use Rattle.record_calls.specs.Edits.{FollowsEdit, IsEdit, IsRightEdit};

/// An attribute that came, went, was put in another's place, or was given another length, is an edit of it, where it is one of a file that
/// may be edited, the record is right then (`IsRightEdit`), and owners and bits follow (`FollowsEdit`).
pub fn attributes_edited()
    ensures inserted { (key : Key) (old new : VolumeView) (before after : Marks) (n i : ℕ) (attr : List ℕ)
        → (e : InsertsAttribute old new n i attr) → IsRightEdit key old n e.stored [] (attribute_at attr 0 ∷ [])
        → FollowsEdit old before after n [] (attribute_at attr 0 ∷ [])
        → IsEdit key old new before after n e.stored [] (attribute_at attr 0 ∷ []) }
    ensures removed { (key : Key) (old new : VolumeView) (before after : Marks) (n i : ℕ) → (e : RemovesAttribute old new n i)
        → IsRightEdit key old n e.stored (e.was ∷ []) [] → FollowsEdit old before after n (e.was ∷ []) []
        → IsEdit key old new before after n e.stored (e.was ∷ []) [] }
    ensures replaced { (key : Key) (old new : VolumeView) (before after : Marks) (n i : ℕ) (attr : List ℕ)
        → (e : ReplacesAttribute old new n i attr) → IsRightEdit key old n e.stored (e.was ∷ []) (attribute_at attr 0 ∷ [])
        → FollowsEdit old before after n (e.was ∷ []) (attribute_at attr 0 ∷ [])
        → IsEdit key old new before after n e.stored (e.was ∷ []) (attribute_at attr 0 ∷ []) }
    ensures resized { (key : Key) (old new : VolumeView) (before after : Marks) (n i len : ℕ) → (e : ResizesAttribute old new n i len)
        → IsRightEdit key old n e.stored (e.was ∷ []) (e.now ∷ []) → FollowsEdit old before after n (e.was ∷ []) (e.now ∷ [])
        → IsEdit key old new before after n e.stored (e.was ∷ []) (e.now ∷ []) }
{}

/// The same of values, which have no clusters: no owner changes, and no bit. So it is with bytes written into a value (`written`).
pub fn values_edited()
    ensures inserted { (key : Key) (old new : VolumeView) (marks : Marks) (n i : ℕ) (attr : List ℕ)
        → (e : InsertsAttribute old new n i attr) → IsSome (value_of (attribute_at attr 0).body)
        → IsRightEdit key old n e.stored [] (attribute_at attr 0 ∷ [])
        → IsEdit key old new marks marks n e.stored [] (attribute_at attr 0 ∷ []) }
    ensures removed { (key : Key) (old new : VolumeView) (marks : Marks) (n i : ℕ) → (e : RemovesAttribute old new n i)
        → IsSome (value_of e.was.body) → IsRightEdit key old n e.stored (e.was ∷ []) []
        → IsEdit key old new marks marks n e.stored (e.was ∷ []) [] }
    ensures replaced { (key : Key) (old new : VolumeView) (marks : Marks) (n i : ℕ) (attr : List ℕ)
        → (e : ReplacesAttribute old new n i attr) → IsSome (value_of e.was.body) → IsSome (value_of (attribute_at attr 0).body)
        → IsRightEdit key old n e.stored (e.was ∷ []) (attribute_at attr 0 ∷ [])
        → IsEdit key old new marks marks n e.stored (e.was ∷ []) (attribute_at attr 0 ∷ []) }
    ensures resized { (key : Key) (old new : VolumeView) (marks : Marks) (n i len : ℕ) → (e : ResizesAttribute old new n i len)
        → IsSome (value_of e.was.body) → IsRightEdit key old n e.stored (e.was ∷ []) (e.now ∷ [])
        → IsEdit key old new marks marks n e.stored (e.was ∷ []) (e.now ∷ []) }
    ensures written { (key : Key) (old new : VolumeView) (marks : Marks) (part : Part) (at : ℕ) (from : List ℕ)
        → (e : WritesBytes old new part at from) → IsSome (content_value part.content)
        → IsRightEdit key old part.holder e.stored (e.was ∷ []) (e.now ∷ [])
        → IsEdit key old new marks marks part.holder e.stored (e.was ∷ []) (e.now ∷ []) }
{}

/// The sizes of a stream that were set are an edit of it: its runs stay, and so do owners and bits.
pub fn sizes_edited()
    ensures { (key : Key) (old new : VolumeView) (marks : Marks) (part : Part) (real initialized : ℕ)
        → (e : WritesSizes old new part real initialized) → ((c : ℕ) → MeetsOwners (records_of old) old.layout.clusters c)
        → IsRightEdit key old part.holder e.stored (e.was ∷ []) (e.now ∷ [])
        → IsEdit key old new marks marks part.holder e.stored (e.was ∷ []) (e.now ∷ []) }
{}
