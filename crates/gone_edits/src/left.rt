//! What is left alone where a file went with its one name.
ghost use Rattle.std.specs.Prelude.{ℕ};
ghost use Rattle.ntfs_def.specs.FileName.{FileName};
ghost use Rattle.volume_def.specs.View.{VolumeView};
ghost use Rattle.mft_table.specs.declared.mounted.Mounted.{Mounted};
ghost use Rattle.tree_model.specs.declared.tree.Node.{Node};
ghost use Rattle.edit_def.specs.Marks.{AreRight};
ghost use Rattle.record_calls.specs.Marks.{marks_of};
ghost use Rattle.gone_edits.specs.Beside.{KeepsRest};
ghost use Rattle.gone_edits.specs.Goes.{CanGo, GoesUnder};
ghost use Rattle.gone_edits.specs.Left.{LeavesRest};

/// All that such a file leaves alone: other records, of that of the directory the header, other files and indexes, clusters and values but
/// for those of the bitmap of records and of the directory's index, and the log. The record counts as one that was freed.
pub fn left_gone()
    ensures { (old new : VolumeView) (was now : Mounted) (n dir : ℕ) (file parent : Node) (name : FileName)
        → CanGo old n dir file parent name → AreRight old (marks_of was) → GoesUnder old new was now n dir name
        → LeavesRest old new n dir }
{}

/// And beside that: streams gain no cluster, names of other files keep their values, all indexes their headers, records and bits, and `$R`
/// and `$O` their keys; the directory has one entry less, that of the file.
pub fn rest_gone()
    ensures { (old new : VolumeView) (was now : Mounted) (n dir : ℕ) (file parent : Node) (name : FileName)
        → CanGo old n dir file parent name → AreRight old (marks_of was) → GoesUnder old new was now n dir name
        → KeepsRest old new n dir name }
{}
