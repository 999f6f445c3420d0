//! The calls that write in place are rewrites, with nothing to run.
ghost use Rattle.std.specs.Prelude.{ℕ, Contains, List, length};
ghost use Rattle.volume_def.specs.Files.{Part, parts, parts_at, records_of};
ghost use Rattle.volume_def.specs.Values.{spot_at};
ghost use Rattle.volume_def.specs.View.{VolumeView};
ghost use Rattle.volume_edits.specs.Clusters.{ChangesStream};
ghost use Rattle.file_record.specs.Written.{HoldsBytes, WritesBytes};
ghost use Rattle.session_def.specs.EditDefKept.{key_of, same_key};
ghost use Rattle.in_place.specs.InPlace.{Rewrites};

/// Bytes that are written into a value of a file rewrite that attribute (`written`), and so do bytes that are written into the clusters of
/// one (`streamed`).
pub fn rewrites_by_calls()
    ensures written { (old new : VolumeView) (part : Part) (at : ℕ) (from : List ℕ) (f : ℕ) → WritesBytes old new part at from
        → Contains (parts (records_of old) f) part → HoldsBytes at (length from) part
        → Rewrites (same_key (key_of f part.kind part.name)) old new }
    ensures streamed { (old new : VolumeView) (f kind : ℕ) (name : List ℕ) → ChangesStream old new (spot_at (parts_at old f kind name))
        → Rewrites (same_key (key_of f kind name)) old new }
{}
