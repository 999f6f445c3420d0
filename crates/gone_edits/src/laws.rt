//! What the volume is where a file went with its one name.
ghost use Rattle.std.specs.Prelude.{ℕ};
ghost use Rattle.ntfs_def.specs.FileName.{FileName};
ghost use Rattle.volume_def.specs.View.{VolumeView};
ghost use Rattle.mft_table.specs.declared.mounted.Mounted.{Mounted};
ghost use Rattle.mft_table.specs.HeldTables.{AreStored};
ghost use Rattle.tree_model.specs.declared.tree.Node.{Node};
ghost use Rattle.edit_def.specs.Marks.{AreRight};
ghost use Rattle.record_calls.specs.Marks.{marks_of};
ghost use Rattle.gone_edits.specs.Goes.{CanGo, GoesUnder};
ghost use Rattle.gone_edits.specs.Gone.{IsGone, IsGoneByCalls};

/// Where a file may go, with the bits in memory right, a file that goes is the calls of a removal: it loses its one name, and its node goes;
/// and they are one edit that takes nothing.
pub fn gone_calls()
    ensures { (old new : VolumeView) (was now : Mounted) (n dir : ℕ) (file parent : Node) (name : FileName)
        → CanGo old n dir file parent name → AreRight old (marks_of was) → GoesUnder old new was now n dir name
        → IsGoneByCalls old new (marks_of was) (marks_of now) n dir name }
{}

/// Where the stored bits are those in memory too, the volume is sound then, its stored bits are those in memory, attributes of the directory
/// can be set, and it reads as before but without the link and the node.
pub fn gone()
    ensures { (old new : VolumeView) (was now : Mounted) (n dir : ℕ) (file parent : Node) (name : FileName)
        → CanGo old n dir file parent name → AreRight old (marks_of was) → GoesUnder old new was now n dir name
        → AreStored old was.clusters was.records was.upcase → IsGone old new was now n dir parent name }
{}
