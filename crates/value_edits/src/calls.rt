//! The calls that edit a stream: a value, or one extent in clusters.
ghost use Rattle.std.specs.Option.{option_to_list};
ghost use Rattle.std.specs.Prelude.{◌≡◌, ◌+◌, ◌^◌, ◌≤◌, ℕ, List, [], ◌∷◌, None, Option, Some, drop, length, max};
ghost use Rattle.attr_view.specs.Values.{with_length};
ghost use Rattle.ntfs_def.specs.Rounded.{clusters_for};
ghost use Rattle.ntfs_def.specs.Runs.{clusters_of, total_clusters};
ghost use Rattle.ntfs_def.specs.declared.kinds.TheConstants.{DATA};
ghost use Rattle.ntfs_def.specs.declared.run_text.Run.{Run};
ghost use Rattle.volume_def.specs.Coverage.{times_covered};
ghost use Rattle.volume_def.specs.Files.{part_of, part_runs, parts_at};
ghost use Rattle.volume_def.specs.Table.{cluster_bytes};
ghost use Rattle.volume_def.specs.View.{VolumeView};
ghost use Rattle.tree_model.specs.StreamRoom.{touches};
ghost use Rattle.tree_model.specs.Streams.{resized, written};
ghost use Rattle.tree_model.specs.declared.tree.Node.{Node};
ghost use Rattle.extent_edits.specs.Attributes.{ChangesValue, RemovesAttribute, with_bytes_at};
ghost use Rattle.record_edits.specs.Given.{GivesBack};
ghost use Rattle.stream_overwrites.specs.Below.{IsInOneRecord};
ghost use Rattle.extent_edits.specs.Cut.{CutsExtent};
ghost use Rattle.extent_edits.specs.Extended.{ExtendsExtent};
ghost use Rattle.in_place_owed.specs.Below.{CanSet};
ghost use Rattle.stream_overwrites.specs.Overwritten.{FindsPlain};
ghost use Rattle.value_edits.specs.ValueEdits.{EndsBy, IsStreamOf, IsStreamValue, PutsGiving, WritesBehind, no_gain};

/// Of a file that is shown and has no attribute list, a stream that is a value has other bytes where it was changed so (`changed`): those
/// that the machine makes of them where it was given another length (`resized`), or bytes were put in (`written`). It is gone where it was
/// taken out (`removed`). It lies in no cluster then (`ends`).
pub fn value_calls()
    ensures changed { (old new : VolumeView) (f i : ℕ) (change : List ℕ → List ℕ) (node : Node) (asked name held : List ℕ)
        → (e : ChangesValue old new f i change) → CanSet old f node → FindsPlain old f node asked name held → IsInOneRecord old f
        → IsStreamValue name e.was → PutsGiving old new f name (Some (change held)) no_gain [] [] }
    ensures ends { (old new : VolumeView) (f i : ℕ) (change : List ℕ → List ℕ) (node : Node) (name : List ℕ) (size : ℕ)
        → (e : ChangesValue old new f i change) → CanSet old f node → IsInOneRecord old f → IsStreamValue name e.was
        → EndsBy new f name size }
    ensures resized { (len : ℕ) (held : List ℕ) → with_length len held ≡ resized len held }
    ensures written { (at : ℕ) (bytes held : List ℕ) → with_bytes_at at bytes held ≡ written at bytes held }
    ensures removed { (old new : VolumeView) (f i : ℕ) (node : Node) (name : List ℕ) → (e : RemovesAttribute old new f i)
        → CanSet old f node → IsInOneRecord old f → IsStreamValue name e.was → PutsGiving old new f name None no_gain [] [] }
{}

/// Of such a file, a stream in clusters, one attribute. Where it was taken out, and its clusters were given back before, each as often as
/// it had it, it is gone (`removed`). Where it was cut behind so many bytes, and the clusters behind its end were given back before, it has
/// the bytes that the machine makes of those that it had, and no cluster behind them (`cut`); so where it got longer within its last
/// cluster (`lengthened`). Where a run was taken, or none, then bytes were put into its clusters and those of the run, over what was
/// written or right behind it, and it got the run, it has those that the machine writes, and gained the clusters alone that they touch
/// (`written`).
pub fn extent_calls()
    ensures removed { (old mid new : VolumeView) (f i : ℕ) (node : Node) (name : List ℕ) (given : List Run) → GivesBack old mid given
        → (e : RemovesAttribute mid new f i) → CanSet old f node → IsInOneRecord old f → IsStreamOf name e.was
        → parts_at old f DATA name ≡ part_of f e.was ∷ []
        → ((c : ℕ) → times_covered given c ≡ times_covered (part_runs (part_of f e.was)) c)
        → PutsGiving old new f name None no_gain given [] }
    ensures cut { (old mid new : VolumeView) (f i size : ℕ) (node : Node) (asked name held : List ℕ) (given : List Run)
        → GivesBack old mid given → (e : CutsExtent mid new f i size) → CanSet old f node → FindsPlain old f node asked name held
        → IsInOneRecord old f → IsStreamOf name e.was → parts_at old f DATA name ≡ part_of f e.was ∷ []
        → clusters_of given ≡ drop (clusters_for size (cluster_bytes old.layout)) (clusters_of e.cut.can.runs)
        → PutsGiving old new f name (Some (resized size held)) no_gain given [] × EndsBy new f name size }
    ensures lengthened { (old new : VolumeView) (f i size initialized : ℕ) (node : Node) (asked name held : List ℕ)
        → (e : ExtendsExtent old new f i size initialized None) → CanSet old f node → FindsPlain old f node asked name held
        → IsInOneRecord old f → IsStreamOf name e.was → parts_at old f DATA name ≡ part_of f e.was ∷ []
        → initialized ≡ e.extended.can.extent.sizes.initialized → e.extended.can.extent.sizes.real ≤ size → size ≤ 2 ^ 40
        → clusters_for size (cluster_bytes old.layout) ≡ total_clusters e.extended.can.runs
        → PutsGiving old new f name (Some (resized size held)) no_gain [] [] × EndsBy new f name size }
    ensures written { (old flagged mid new : VolumeView) (f i : ℕ) (node : Node) (asked name held : List ℕ) (run : Option Run)
        (from real initialized : ℕ) (bytes : List ℕ) → (e : ExtendsExtent mid new f i real initialized run) → CanSet old f node
        → FindsPlain old f node asked name held → IsInOneRecord old f → IsStreamOf name e.was
        → parts_at old f DATA name ≡ part_of f e.was ∷ [] → WritesBehind old flagged mid e.extended.can.runs run from bytes
        → from ≤ e.extended.can.extent.sizes.initialized → real ≡ max e.extended.can.extent.sizes.real (from + length bytes)
        → initialized ≡ max e.extended.can.extent.sizes.initialized (from + length bytes)
        → PutsGiving old new f name (Some (written from bytes held)) (touches (cluster_bytes old.layout) from (length bytes)) []
        (option_to_list run) }
{}
