//! The calls by which a stream moves into clusters.
ghost use Rattle.std.specs.Prelude.{◌<◌, ◌≤◌, ℕ, List, [], ◌∷◌, Some, length, sum_by};
ghost use Rattle.ntfs_def.specs.declared.kinds.TheConstants.{DATA};
ghost use Rattle.ntfs_def.specs.declared.run_text.Run.{Run};
ghost use Rattle.volume_def.specs.Files.{parts_at};
ghost use Rattle.volume_def.specs.Table.{cluster_bytes};
ghost use Rattle.volume_def.specs.View.{VolumeView};
ghost use Rattle.tree_model.specs.StreamRoom.{new_clusters};
ghost use Rattle.tree_model.specs.Streams.{resized, written};
ghost use Rattle.tree_model.specs.declared.tree.Node.{Node};
ghost use Rattle.edit_def.specs.Purses.{run_size};
ghost use Rattle.in_place_owed.specs.Below.{CanSet};
ghost use Rattle.stream_overwrites.specs.Below.{IsInOneRecord};
ghost use Rattle.stream_overwrites.specs.Overwritten.{FindsPlain};
ghost use Rattle.value_edits.specs.ValueEdits.{EndsBy, PutsGiving, count_by_length, gained_by_length, gained_by_write};
ghost use Rattle.moved_streams.specs.MovedStreams.{MovesStream};

/// Of a file that is shown and has no attribute list, a stream that is a value, which shows the bytes that it had (`FindsPlain`). Where it
/// moved into a run behind a write that began within it, or right behind it, it has the bytes that the machine writes, and gained the
/// clusters alone that these touch, or the old value does (`written`). Where it moved with the bytes that it had, and more that count as
/// zeros, it has what the machine makes of them where it gives them that length; it gained the clusters alone that the old value touches,
/// and none behind its end (`lengthened`). Neither takes more clusters than the machine counts (`few_written`, `few_lengthened`).
pub fn moved_calls()
    ensures written { (old new : VolumeView) (f i from : ℕ) (node : Node) (asked name held bytes : List ℕ) (run : Run)
        → CanSet old f node → IsInOneRecord old f → FindsPlain old f node asked name held
        → MovesStream old new f i name run (length (written from bytes held)) (written from bytes held)
        → from ≤ length held → 0 < length bytes
        → PutsGiving old new f name (Some (written from bytes held))
        (gained_by_write (cluster_bytes old.layout) (parts_at old f DATA name) from (length bytes)) [] (run ∷ []) }
    ensures few_written { (old new : VolumeView) (f i from : ℕ) (node : Node) (asked name held bytes : List ℕ) (run : Run)
        → CanSet old f node → FindsPlain old f node asked name held
        → MovesStream old new f i name run (length (written from bytes held)) (written from bytes held)
        → from ≤ length held → 0 < length bytes
        → sum_by run_size (run ∷ []) ≤ new_clusters (cluster_bytes old.layout) (parts_at old f DATA name) from (length bytes) }
    ensures lengthened { (old new : VolumeView) (f i size : ℕ) (node : Node) (asked name held : List ℕ) (run : Run)
        → CanSet old f node → IsInOneRecord old f → FindsPlain old f node asked name held
        → MovesStream old new f i name run size held → length held < size
        → PutsGiving old new f name (Some (resized size held))
        (gained_by_length (cluster_bytes old.layout) (parts_at old f DATA name) (length held) size) [] (run ∷ [])
        × EndsBy new f name size }
    ensures few_lengthened { (old new : VolumeView) (f i size : ℕ) (node : Node) (asked name held : List ℕ) (run : Run)
        → CanSet old f node → FindsPlain old f node asked name held → MovesStream old new f i name run size held → length held < size
        → sum_by run_size (run ∷ []) ≤ count_by_length (cluster_bytes old.layout) (parts_at old f DATA name) (length held) size }
{}
