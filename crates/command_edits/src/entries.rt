//! What whole commands keep of directories, and that entries which were told anew tell what their files do.
ghost use Rattle.std.specs.Prelude.{◌≡◌, ◌≢◌, ℕ, Bool, List, Option, false, true};
ghost use Rattle.ntfs_def.specs.FileName.{FileName};
ghost use Rattle.volume_def.specs.IndexesClause.{IsDirectoryIndex};
ghost use Rattle.volume_def.specs.View.{VolumeView};
ghost use Rattle.tree_model.specs.Subjects.{Machine};
ghost use Rattle.edit_def.specs.Account.{Wants};
ghost use Rattle.edit_def.specs.Marks.{Marks};
ghost use Rattle.session_def.specs.Named.{is_one_of};
ghost use Rattle.command_edits.specs.Between.{IsBetween};
ghost use Rattle.command_edits.specs.Calls.{RefreshesEntries};
ghost use Rattle.command_edits.specs.Commands.{DoesLink, DoesMake, DoesMove, DoesRemove, DoesSet, DoesUnlink};
ghost use Rattle.command_edits.specs.KeptBy.{AreEntriesOf, EntriesCurrent, KeepsOtherEntries, is_told};

/// Of each directory the entries are there still, as they were, but for those of these files: the one that the command is about, and those
/// whose entries are told anew. Of a file that comes or goes nothing is said.
pub fn entries_kept()
    ensures make { (files : List ℕ) (dir f : ℕ) → is_one_of files f ≡ true → (m : Machine) (wants : Wants) (old new : VolumeView)
        (before after : Marks) → IsBetween old → (directory : Bool) (name : FileName)
        → (x : DoesMake m wants old new before after f directory name) → dir ≢ f → AreEntriesOf files x.ends.entries
        → KeepsOtherEntries files old new dir }
    ensures link { (files : List ℕ) (dir f : ℕ) → is_one_of files f ≡ true → (m : Machine) (wants : Wants) (old new : VolumeView)
        (before after : Marks) → IsBetween old → (name : FileName) → (x : DoesLink m wants old new before after f name)
        → AreEntriesOf files x.ends.entries → KeepsOtherEntries files old new dir }
    ensures remove { (files : List ℕ) (dir f : ℕ) → is_one_of files f ≡ true → (m : Machine) (wants : Wants) (old new : VolumeView)
        (before after : Marks) → IsBetween old → (name : FileName) → (x : DoesRemove m wants old new before after f name) → dir ≢ f
        → AreEntriesOf files x.ends.entries → KeepsOtherEntries files old new dir }
    ensures unlink { (files : List ℕ) (dir f : ℕ) → is_one_of files f ≡ true → (m : Machine) (wants : Wants) (old new : VolumeView)
        (before after : Marks) → IsBetween old → (name : FileName) → (x : DoesUnlink m wants old new before after f name)
        → AreEntriesOf files x.ends.entries → KeepsOtherEntries files old new dir }
    ensures move_to { (files : List ℕ) (dir f : ℕ) → is_one_of files f ≡ true → (m : Machine) (wants : Wants) (old new : VolumeView)
        (before after : Marks) → IsBetween old → (name fresh : FileName) → (x : DoesMove m wants old new before after f name fresh)
        → AreEntriesOf files x.ends.entries → KeepsOtherEntries files old new dir }
    ensures set { (files : List ℕ) (dir f : ℕ) → is_one_of files f ≡ true → (m : Machine) (wants : Wants) (old new : VolumeView)
        (before after : Marks) → IsBetween old → (flags security : Option ℕ) → (x : DoesSet m wants old new before after f flags security)
        → AreEntriesOf files x.entries → KeepsOtherEntries files old new dir }
{}

/// Once entries of names were told anew, one after another, each of them that is of a file that is shown tells what its file does: a later
/// one leaves an earlier one so.
pub fn entries_current()
    ensures { (entries : List (ℕ × FileName)) (old new : VolumeView) (before after : Marks) → RefreshesEntries entries old new before after
        → IsBetween old → (dir : ℕ) → IsDirectoryIndex old dir → EntriesCurrent (is_told entries dir (λ units. false)) new dir }
{}
