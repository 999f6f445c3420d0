//! Laws with nothing to run: what a volume is where bytes went over bytes of a stream.
ghost use Rattle.std.specs.Prelude.{◌≡◌, ◌%◌, ◌<◌, ℕ, Contains, IsTrue, List, length, slice_index, true};
ghost use Rattle.ntfs_def.specs.declared.kinds.TheConstants.{DATA};
ghost use Rattle.volume_def.specs.Coverage.{IsApart};
ghost use Rattle.volume_def.specs.Files.{Part, parts, parts_at, records_of};
ghost use Rattle.volume_def.specs.Table.{cluster_bytes};
ghost use Rattle.volume_def.specs.View.{VolumeView};
ghost use Rattle.volume_edits.specs.Clusters.{IsWritable, OverwritesStream};
ghost use Rattle.tree_model.specs.StreamRoom.{goes_over, parts_named};
ghost use Rattle.tree_model.specs.declared.tree.Node.{Node};
ghost use Rattle.edit_def.specs.Kept.{AreTellable, told_of};
ghost use Rattle.in_place.specs.Unnamed.{CanSet};
ghost use Rattle.stream_overwrites.specs.Overwritten.{FindsPlain, GoesOverValue, IsOverwritten};

/// Where bytes went over bytes of a stream of a file that is shown, on a sound volume whose contents are told and whose clusters lie apart,
/// it is sound still, and reads as before but for those bytes.
pub fn overwritten()
    ensures { (old new : VolumeView) (f : ℕ) (node : Node) (asked name : List ℕ) (at : ℕ) (bytes held : List ℕ) → IsTrue old.told
        → CanSet old f node → FindsPlain old f node asked name held → OverwritesStream old new f name at bytes
        → IsOverwritten old new f node asked name at bytes held }
{}

/// The same where the stream is a value.
pub fn value_overwritten()
    ensures { (old new : VolumeView) (f : ℕ) (node : Node) (asked name : List ℕ) (at : ℕ) (bytes held : List ℕ) → IsTrue old.told
        → CanSet old f node → FindsPlain old f node asked name held → GoesOverValue old new f name at bytes
        → IsOverwritten old new f node asked name at bytes held }
{}

/// Bytes that go over bytes of such a stream may be written in place, where the table and its mirror lie apart.
pub fn over_in_place()
    ensures { (view : VolumeView) (f : ℕ) (node : Node) (asked name held : List ℕ) (at len : ℕ) → IsApart view.layout
        → CanSet view f node → (finds : FindsPlain view f node asked name held)
        → goes_over (cluster_bytes view.layout) (parts_named view f finds.stream.name) at len ≡ true
        → IsWritable view (parts_at view f DATA name) at len }
{}

/// Names of two bytes a unit, each below 256, as those of a file that is held, can be told apart by their units.
pub fn tellable_names()
    ensures { (view : VolumeView) (f : ℕ) → ((part : Part) → Contains (parts (records_of view) f) part
        → (length part.name % 2 ≡ 0) × ((k : ℕ) → slice_index part.name k < 256)) → AreTellable (told_of view f) }
{}
