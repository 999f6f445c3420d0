//! What the volume is where a file came under a name.
ghost use Rattle.std.specs.Prelude.{◌≡◌, ℕ, Bool, List, length};
ghost use Rattle.volume_def.specs.View.{VolumeView};
ghost use Rattle.mft_table.specs.declared.mounted.Mounted.{Mounted};
ghost use Rattle.mft_table.specs.HeldTables.{AreStored};
ghost use Rattle.tree_model.specs.Facts.{TellsFacts};
ghost use Rattle.tree_model.specs.Reading.{read};
ghost use Rattle.tree_model.specs.Refusals.{Facts};
ghost use Rattle.tree_model.specs.Step.{IsFresh};
ghost use Rattle.tree_model.specs.declared.tree.Node.{Node};
ghost use Rattle.edit_def.specs.Marks.{AreRight};
ghost use Rattle.root_puts.specs.Marks.{marks_of};
ghost use Rattle.root_puts.specs.Calls.{IsNewStandard};
ghost use Rattle.made_edits.specs.Comes.{CanMake, ComesUnder, IsNewKey};
ghost use Rattle.made_edits.specs.Made.{IsMade, IsMadeByCalls};

/// Where a name may come, with the bits in memory right, a file that comes under it is two calls: the machine's new node comes, and gets
/// the name; and both are one edit that takes a record and three parts, of a directory one that has a name.
pub fn made_calls()
    ensures { (old new : VolumeView) (was now : Mounted) (dir n : ℕ) (node : Node) (units standard key : List ℕ) (moment security : ℕ)
        (directory : Bool) → CanMake old dir node units → AreRight old (marks_of was) → IsNewKey old directory dir units moment key
        → IsNewStandard directory moment security standard → length standard ≡ 72
        → ComesUnder directory old new was now n dir standard key
        → IsMadeByCalls directory old new (marks_of was) (marks_of now) n dir units moment security }
{}

/// Where the stored bits are those in memory too, the volume is sound then, its stored bits are those in memory, attributes of the
/// directory can be set, and it reads as before but for the node and its link (`made`). The machine may choose that number (`fresh`).
pub fn made()
    ensures made { (old new : VolumeView) (was now : Mounted) (dir n : ℕ) (node : Node) (units standard key : List ℕ) (moment security : ℕ)
        (directory : Bool) → CanMake old dir node units → AreRight old (marks_of was) → IsNewKey old directory dir units moment key
        → IsNewStandard directory moment security standard → length standard ≡ 72
        → ComesUnder directory old new was now n dir standard key
        → AreStored old was.clusters was.records was.upcase → IsMade directory old new was now n dir node units moment security }
    ensures fresh { (facts : Facts) (old new : VolumeView) (was now : Mounted) (dir n : ℕ) (node : Node) (units : List ℕ)
        (moment security : ℕ) (directory : Bool) → TellsFacts old facts → IsMade directory old new was now n dir node units moment security
        → IsFresh facts (read old) n }
{}
