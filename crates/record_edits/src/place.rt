//! Bytes written in place, and the flush of the bitmaps.
ghost use Rattle.std.specs.Prelude.{◌≡◌, ℕ, Bool, List, false};
ghost use Rattle.volume_def.specs.Files.{parts_at};
ghost use Rattle.volume_def.specs.Values.{spot_at};
ghost use Rattle.volume_def.specs.View.{VolumeView};
ghost use Rattle.volume_edits.specs.Clusters.{WritesStream};
ghost use Rattle.edit_def.specs.Account.{nothing};
ghost use Rattle.edit_def.specs.Edited.{Edited, StoresBits};
ghost use Rattle.edit_def.specs.Kept.{Key, key_of, same_key};
ghost use Rattle.edit_def.specs.Marks.{IsEditable, Marks, StoresMarks};
ghost use Rattle.edit_def.specs.Places.{KeepsBits};
ghost use Rattle.record_edits.specs.Between.{IsReady};
ghost use Rattle.record_edits.specs.InPlace.{NamesNoRoom, WritesInPlace, is_bits_key};

/// Bytes written into clusters of attributes that are neither lists nor those in which room is kept, or into clusters without an owner,
/// are a call that costs nothing (`edited`), and leave what the next one needs (`ready`). Those written into the clusters of a
/// stream are so written (`stream`).
pub fn edited_place()
    ensures edited { (changed : Key → Bool) (old new : VolumeView) → WritesInPlace changed old new → (marks : Marks) → IsReady old marks
        → NamesNoRoom changed → Edited changed nothing old new marks marks }
    ensures ready { (changed : Key → Bool) (old new : VolumeView) → WritesInPlace changed old new → (marks : Marks) → IsReady old marks
        → NamesNoRoom changed → IsReady new marks }
    ensures stream { (old new : VolumeView) (f kind : ℕ) (name : List ℕ) (at : ℕ) (bytes : List ℕ)
        → WritesStream old new (spot_at (parts_at old f kind name)) at bytes → WritesInPlace (same_key (key_of f kind name)) old new }
{}

/// The bitmaps written in their clusters, where bits that stand for nothing stay, are a call that names nothing and costs nothing
/// (`edited`), and leave what the next one needs (`ready`). Where they store the bits in memory, the clauses on both hold (`stored`).
pub fn edited_flush()
    ensures edited { (old new : VolumeView) → WritesInPlace is_bits_key old new → KeepsBits old new → (marks : Marks) → IsReady old marks
        → Edited (λ key. false) nothing old new marks marks }
    ensures ready { (old new : VolumeView) → WritesInPlace is_bits_key old new → KeepsBits old new → (marks : Marks) → IsReady old marks
        → IsReady new marks }
    ensures stored { (view : VolumeView) (marks : Marks) → IsEditable view marks → StoresMarks view marks → StoresBits view }
{}
