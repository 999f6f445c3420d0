//! Where a volume stands between calls.
ghost use Rattle.std.specs.Prelude.{◌≡◌, ◌≢◌, ◌≤◌, ℕ, Bool, List, [], Option, false, true};
ghost use Rattle.ntfs_def.specs.FileName.{FileName};
ghost use Rattle.ntfs_def.specs.declared.kinds.TheConstants.{DATA};
ghost use Rattle.ntfs_def.specs.declared.records.TheConstants.{EXTEND, FIRST_ORDINARY, UPCASE};
ghost use Rattle.volume_def.specs.Files.{records_of};
ghost use Rattle.volume_def.specs.LinksClause.{MeetsLinks};
ghost use Rattle.volume_def.specs.Sound.{IsSound};
ghost use Rattle.volume_def.specs.View.{VolumeView};
ghost use Rattle.tree_model.specs.Tree.{Tree};
ghost use Rattle.tree_model.specs.declared.tree.Node.{Node};
ghost use Rattle.edit_def.specs.Account.{Wants};
ghost use Rattle.edit_def.specs.Edited.{Edited, StoresBits};
ghost use Rattle.edit_def.specs.Kept.{Key, key_of};
ghost use Rattle.edit_def.specs.Marks.{Marks};
ghost use Rattle.edit_def.specs.Names.{HasNoNames, KeepsNames, is_directory_in};
ghost use Rattle.reading_edits.specs.Steps.{LeavesShown};
ghost use Rattle.command_edits.specs.Between.{IsBetween, IsSoundButBits, StandsAs};
ghost use Rattle.command_edits.specs.Calls.{AddsLink, DropsLink, DropsNode, MakesNode, RefreshesEntry, SetsNode};
ghost use Rattle.command_edits.specs.Keys.{NamesNoIndex, no_key};

/// Between calls a volume is sound but for the stored bitmaps once the clause on links holds (`whole`), and one that is sound so is between
/// calls (`part`). With the bits stored it is sound (`stored`), and a sound one is so whatever is stored (`sound`).
pub fn sound_between()
    ensures whole { (view : VolumeView) → IsBetween view → ((n : ℕ) → MeetsLinks (records_of view) n) → IsSoundButBits view }
    ensures part { (view : VolumeView) → IsSoundButBits view → IsBetween view }
    ensures stored { (view : VolumeView) → IsSoundButBits view → StoresBits view → IsSound view }
    ensures sound { (view : VolumeView) → IsSound view → IsSoundButBits view }
{}

/// All clauses hold between calls still, but the one on links: after a file got a name in a directory other than $Extend (`adds`), lost one
/// (`drops`), or had an entry told anew (`refreshes`); and after a file came (`makes`), went in which no name stood (`goes`), or was set
/// (`sets`).
pub fn calls_between()
    ensures adds { (wants : Wants) (old new : VolumeView) (before after : Marks) (f : ℕ) (name : FileName)
        → AddsLink wants old new before after f name → IsBetween old → is_directory_in (records_of old) name.parent ≡ true
        → name.parent.number ≢ EXTEND → IsBetween new }
    ensures drops { (wants : Wants) (old new : VolumeView) (before after : Marks) (f : ℕ) (name : FileName)
        → DropsLink wants old new before after f name → IsBetween old → IsBetween new }
    ensures refreshes { (wants : Wants) (old new : VolumeView) (before after : Marks) (f : ℕ) (name : FileName)
        → RefreshesEntry wants old new before after f name → IsBetween old → IsBetween new }
    ensures makes { (wants : Wants) (old new : VolumeView) (before after : Marks) (f : ℕ) (directory : Bool) (node : Node)
        → MakesNode wants old new before after f directory node → IsBetween old → IsBetween new }
    ensures goes { (wants : Wants) (old new : VolumeView) (before after : Marks) (f : ℕ) → DropsNode wants old new before after f
        → IsBetween old → FIRST_ORDINARY ≤ f → HasNoNames (records_of old) f → IsBetween new }
    ensures sets { (wants : Wants) (old new : VolumeView) (before after : Marks) (f : ℕ) (times : List ℕ) (flags : ℕ) (security : Option ℕ)
        → SetsNode wants old new before after f times flags security → IsBetween old → IsBetween new }
{}

/// A call that leaves all names, and names nothing that the tree shows, nor an index or the table of case, leaves a volume where it stands
/// (`quiet`); so does one that names nothing but room, as bits that are stored (`stored`).
pub fn quiet_calls()
    ensures quiet { (changed : Key → Bool) (wants : Wants) (old new : VolumeView) (before after : Marks)
        → Edited changed wants old new before after → ((g : ℕ) → KeepsNames (records_of old) (records_of new) g)
        → changed (key_of UPCASE DATA []) ≡ false → NamesNoIndex changed → LeavesShown changed old → (tree : Tree) → StandsAs old tree
        → StandsAs new tree }
    ensures stored { (wants : Wants) (old new : VolumeView) (before after : Marks) → Edited no_key wants old new before after
        → ((g : ℕ) → KeepsNames (records_of old) (records_of new) g) → (tree : Tree) → StandsAs old tree → StandsAs new tree }
{}
