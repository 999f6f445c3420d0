//! Whole commands.
ghost use Rattle.std.specs.Prelude.{◌≡◌, ℕ, List, None, Some, false, true};
ghost use Rattle.ntfs_def.specs.FileName.{FileName};
ghost use Rattle.volume_def.specs.View.{VolumeView};
ghost use Rattle.tree_model.specs.Effects.{tree_after};
ghost use Rattle.tree_model.specs.Reading.{link_for};
ghost use Rattle.tree_model.specs.Subjects.{Located, Machine, NameIn};
ghost use Rattle.tree_model.specs.declared.command.Command.TheVariants as c;
ghost use Rattle.edit_def.specs.Account.{Wants};
ghost use Rattle.edit_def.specs.Marks.{Marks};
ghost use Rattle.command_edits.specs.Between.{StandsAs};
ghost use Rattle.command_edits.specs.Commands.{DoesLink, DoesMake, DoesMove, DoesRemove, DoesSet, DoesUnlink};

/// Where a volume is sound but for the stored bitmaps and reads as the machine's tree, it is and does so after the calls of a command that
/// gives a name: `create`, `mkdir` and `ln`.
pub fn names_given()
    ensures create { (m : Machine) (wants : Wants) (old new : VolumeView) (before after : Marks) (f : ℕ) (name : FileName)
        → StandsAs old m.tree → (at : Located) → at.new ≡ NameIn name.parent.number name.units → (path : List (List ℕ))
        → DoesMake m wants old new before after f false name → StandsAs new (tree_after m (c.Create path) at f) }
    ensures mkdir { (m : Machine) (wants : Wants) (old new : VolumeView) (before after : Marks) (f : ℕ) (name : FileName)
        → StandsAs old m.tree → (at : Located) → at.new ≡ NameIn name.parent.number name.units → (path : List (List ℕ))
        → DoesMake m wants old new before after f true name → StandsAs new (tree_after m (c.Mkdir path) at f) }
    ensures ln { (m : Machine) (wants : Wants) (old new : VolumeView) (before after : Marks) (at : Located) (name : FileName)
        → StandsAs old m.tree → at.new ≡ NameIn name.parent.number name.units → (path target : List (List ℕ)) (file : ℕ)
        → DoesLink m wants old new before after at.file name → StandsAs new (tree_after m (c.Ln path target) at file) }
{}

/// So it does after those of a command that takes names away: `rm` of the last one (`rm_last`) or of another one (`rm_other`), `rmdir`, and
/// `mv`, which then gives one.
pub fn names_taken()
    ensures rm_last { (m : Machine) (wants : Wants) (old new : VolumeView) (before after : Marks) (f : ℕ) (name : FileName)
        → StandsAs old m.tree → DoesRemove m wants old new before after f name → (at : Located) → at.link ≡ Some (link_for f name)
        → (path : List (List ℕ)) (file : ℕ) → StandsAs new (tree_after m (c.Rm path) at file) }
    ensures rm_other { (m : Machine) (wants : Wants) (old new : VolumeView) (before after : Marks) (f : ℕ) (name : FileName)
        → StandsAs old m.tree → DoesUnlink m wants old new before after f name → (at : Located) → at.link ≡ Some (link_for f name)
        → (path : List (List ℕ)) (file : ℕ) → StandsAs new (tree_after m (c.Rm path) at file) }
    ensures rmdir { (m : Machine) (wants : Wants) (old new : VolumeView) (before after : Marks) (f : ℕ) (name : FileName)
        → StandsAs old m.tree → DoesRemove m wants old new before after f name → (at : Located) → at.link ≡ Some (link_for f name)
        → (path : List (List ℕ)) (file : ℕ) → StandsAs new (tree_after m (c.Rmdir path) at file) }
    ensures mv { (m : Machine) (wants : Wants) (old new : VolumeView) (before after : Marks) (at : Located) (name fresh : FileName)
        → StandsAs old m.tree → at.link ≡ Some (link_for at.file name) → at.new ≡ NameIn fresh.parent.number fresh.units
        → (path target : List (List ℕ)) (file : ℕ) → DoesMove m wants old new before after at.file name fresh
        → StandsAs new (tree_after m (c.Mv path target) at file) }
{}

/// And after those of `setattr` and `setsec`.
pub fn files_set()
    ensures setattr { (m : Machine) (wants : Wants) (old new : VolumeView) (before after : Marks) (at : Located) → StandsAs old m.tree
        → (path : List (List ℕ)) (file flags : ℕ) → DoesSet m wants old new before after at.file (Some flags) None
        → StandsAs new (tree_after m (c.Setattr path flags) at file) }
    ensures setsec { (m : Machine) (wants : Wants) (old new : VolumeView) (before after : Marks) (at : Located) → StandsAs old m.tree
        → (path : List (List ℕ)) (file id : ℕ) → DoesSet m wants old new before after at.file None (Some id)
        → StandsAs new (tree_after m (c.Setsec path id) at file) }
{}
