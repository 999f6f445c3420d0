//! What is left alone where a file came under a name.
ghost use Rattle.std.specs.Prelude.{◌≡◌, ℕ, Bool, List, length};
ghost use Rattle.volume_def.specs.View.{VolumeView};
ghost use Rattle.mft_table.specs.declared.mounted.Mounted.{Mounted};
ghost use Rattle.tree_model.specs.declared.tree.Node.{Node};
ghost use Rattle.edit_def.specs.Marks.{AreRight};
ghost use Rattle.root_puts.specs.Marks.{marks_of};
ghost use Rattle.root_puts.specs.Calls.{IsNewStandard};
ghost use Rattle.made_edits.specs.Beside.{IsFreshFile, IsPlainStandard, KeepsRest};
ghost use Rattle.made_edits.specs.Comes.{CanMake, ComesUnder, IsNewKey};
ghost use Rattle.made_edits.specs.Left.{LeavesRest};

/// All that such a file leaves alone: other records, of that of the directory the header, other files and indexes, clusters and values but
/// for those of the bitmap of records and of the directory's index, and the log. The record counts as one that was taken, and headers come
/// rightly.
pub fn left_made()
    ensures { (old new : VolumeView) (was now : Mounted) (dir n : ℕ) (node : Node) (units standard key : List ℕ) (moment security : ℕ)
        (directory : Bool) → CanMake old dir node units → AreRight old (marks_of was) → IsNewKey old directory dir units moment key
        → IsNewStandard directory moment security standard → length standard ≡ 72
        → ComesUnder directory old new was now n dir standard key
        → LeavesRest old new n dir }
{}

/// And beside that: streams gain no cluster, names of other files keep their values, all indexes their headers, records and bits, and `$R`
/// and `$O` their keys; the directory has one entry more, which is current (`rest`). Where the value of its `$STANDARD_INFORMATION` is
/// plain, the file is a new one as it is to be, and so is its name (`fresh`).
pub fn rest_made()
    ensures rest { (old new : VolumeView) (was now : Mounted) (dir n : ℕ) (node : Node) (units standard key : List ℕ) (moment security : ℕ)
        (directory : Bool) → CanMake old dir node units → AreRight old (marks_of was) → IsNewKey old directory dir units moment key
        → IsNewStandard directory moment security standard → length standard ≡ 72
        → ComesUnder directory old new was now n dir standard key
        → KeepsRest directory old new n dir standard key }
    ensures fresh { (old new : VolumeView) (n dir : ℕ) (units standard key : List ℕ) (moment : ℕ) (directory : Bool)
        → IsNewKey old directory dir units moment key → IsPlainStandard directory standard
        → KeepsRest directory old new n dir standard key → IsFreshFile directory new n key }
{}
