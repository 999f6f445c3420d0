//! Laws with nothing to run: what a volume is where one stream of a file was edited.
ghost use Rattle.std.specs.Prelude.{ℕ, Bool, IsTrue, List, Option, sum_by};
ghost use Rattle.ntfs_def.specs.declared.kinds.TheConstants.{DATA};
ghost use Rattle.volume_def.specs.Sound.{IsSound};
ghost use Rattle.volume_def.specs.View.{VolumeView};
ghost use Rattle.tree_model.specs.declared.tree.Node.{Node};
ghost use Rattle.edit_def.specs.Edited.{Edited};
ghost use Rattle.edit_def.specs.Kept.{Key, key_of, same_key};
ghost use Rattle.edit_def.specs.Marks.{AreRight, Marks};
ghost use Rattle.edit_def.specs.Purses.{run_size};
ghost use Rattle.in_place_owed.specs.Below.{CanSet, LiesApart};
ghost use Rattle.stream_overwrites.specs.Overwritten.{FindsPlain};
ghost use Rattle.value_edits.specs.ValueEdits.{EditsAlone, IsEdited, PutsValue, node_with, only_clusters};

/// Where one stream of a file was edited alone, on a sound volume whose contents are told and whose clusters lie apart, this is a call that
/// names that attribute and takes the clusters that the stream got, with the bits in memory that are right then.
pub fn edited_alone()
    ensures { (key : Key) (gains : ℕ → Bool) (old new : VolumeView) (before after : Marks) → IsTrue old.told → IsSound old → LiesApart old
        → AreRight new after → (e : EditsAlone key gains old new)
        → Edited (same_key key) (only_clusters (sum_by run_size e.taken)) old new before after }
{}

/// Where a stream of a file that is shown has other bytes then, or went, the volume is sound, and reads as before but for the stream.
pub fn stream_put()
    ensures { (old new : VolumeView) (f : ℕ) (node : Node) (asked name held : List ℕ) (bytes : Option (List ℕ)) (gains : ℕ → Bool)
        → IsTrue old.told → CanSet old f node → FindsPlain old f node asked name held → PutsValue old new f name bytes gains
        → IsEdited (key_of f DATA name) gains old new (node_with old asked bytes node) }
{}
