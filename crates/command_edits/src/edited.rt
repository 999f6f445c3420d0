//! Whole commands as one edit.
ghost use Rattle.std.specs.Prelude.{◌≡◌, ◌||◌, ℕ, Bool, Option, false, true};
ghost use Rattle.ntfs_def.specs.FileName.{FileName};
ghost use Rattle.volume_def.specs.View.{VolumeView};
ghost use Rattle.tree_model.specs.Subjects.{Located, Machine};
ghost use Rattle.tree_model.specs.Tree.{Tree};
ghost use Rattle.tree_model.specs.declared.command.Command.{Command};
ghost use Rattle.edit_def.specs.Account.{Wants};
ghost use Rattle.edit_def.specs.Edited.{Edited};
ghost use Rattle.edit_def.specs.Kept.{Key};
ghost use Rattle.edit_def.specs.Marks.{Marks};
ghost use Rattle.session_def.specs.Named.{has_entry_of, is_changed_key, is_one_of, is_own_key, timed};
ghost use Rattle.command_edits.specs.Commands.{DoesLink, DoesMake, DoesMove, DoesRemove, DoesSet, DoesUnlink};
ghost use Rattle.command_edits.specs.Keys.{AreToldIn, is_command_key, is_key_of, is_name_key_of};

/// All calls of a command are one edit within its bill. It names what `own` has, all of a file that comes or goes and of another one its
/// names, the $STANDARD_INFORMATION of `files`, the file and the directories that are set, and the indexes of `dirs`, the directories in
/// which entries come, go, or are told anew.
pub fn commands_edited()
    ensures make { (own : Key → Bool) (files dirs : ℕ → Bool) (m : Machine) (wants : Wants) (old new : VolumeView) (before after : Marks)
        (f : ℕ) (directory : Bool) (name : FileName) → (x : DoesMake m wants old new before after f directory name)
        → ((key : Key) → own key ≡ false → is_key_of f key ≡ false) → files name.parent.number ≡ true → dirs name.parent.number ≡ true
        → AreToldIn dirs x.ends.entries → Edited (is_command_key own files dirs) wants old new before after }
    ensures link { (own : Key → Bool) (files dirs : ℕ → Bool) (m : Machine) (wants : Wants) (old new : VolumeView) (before after : Marks)
        (f : ℕ) (name : FileName) → (x : DoesLink m wants old new before after f name)
        → ((key : Key) → own key ≡ false → is_name_key_of f key ≡ false) → files f ≡ true → files name.parent.number ≡ true
        → dirs name.parent.number ≡ true → AreToldIn dirs x.ends.entries
        → Edited (is_command_key own files dirs) wants old new before after }
    ensures remove { (own : Key → Bool) (files dirs : ℕ → Bool) (m : Machine) (wants : Wants) (old new : VolumeView) (before after : Marks)
        (f : ℕ) (name : FileName) → (x : DoesRemove m wants old new before after f name)
        → ((key : Key) → own key ≡ false → is_key_of f key ≡ false) → files name.parent.number ≡ true → dirs name.parent.number ≡ true
        → AreToldIn dirs x.ends.entries → Edited (is_command_key own files dirs) wants old new before after }
    ensures unlink { (own : Key → Bool) (files dirs : ℕ → Bool) (m : Machine) (wants : Wants) (old new : VolumeView) (before after : Marks)
        (f : ℕ) (name : FileName) → (x : DoesUnlink m wants old new before after f name)
        → ((key : Key) → own key ≡ false → is_name_key_of f key ≡ false) → files f ≡ true → files name.parent.number ≡ true
        → dirs name.parent.number ≡ true → AreToldIn dirs x.ends.entries
        → Edited (is_command_key own files dirs) wants old new before after }
    ensures move_to { (own : Key → Bool) (files dirs : ℕ → Bool) (m : Machine) (wants : Wants) (old new : VolumeView) (before after : Marks)
        (f : ℕ) (name fresh : FileName) → (x : DoesMove m wants old new before after f name fresh)
        → ((key : Key) → own key ≡ false → is_name_key_of f key ≡ false) → files f ≡ true → files name.parent.number ≡ true
        → files fresh.parent.number ≡ true → dirs name.parent.number ≡ true → dirs fresh.parent.number ≡ true
        → AreToldIn dirs x.ends.entries → Edited (is_command_key own files dirs) wants old new before after }
    ensures set { (own : Key → Bool) (files dirs : ℕ → Bool) (m : Machine) (wants : Wants) (old new : VolumeView) (before after : Marks)
        (f : ℕ) (flags security : Option ℕ) → (x : DoesSet m wants old new before after f flags security) → files f ≡ true
        → AreToldIn dirs x.entries → Edited (is_command_key own files dirs) wants old new before after }
{}

/// That is no more than a session lets the command change, where the files are those of which it sets a time, and the directories have an
/// entry of one of them, before or behind it.
pub fn edited_inside()
    ensures { (view : VolumeView) (before next : Tree) (command : Command) (at : Located) (made : ℕ) (key : Key)
        → is_changed_key view before next command at made key ≡ false
        → is_command_key (is_own_key before command at made) (is_one_of (timed command at made))
        (λ dir. has_entry_of before (timed command at made) dir || has_entry_of next (timed command at made) dir) key ≡ false }
{}
