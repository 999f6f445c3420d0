//! What whole commands keep of files.
ghost use Rattle.std.specs.Prelude.{◌≡◌, ◌≢◌, ◌==◌, ◌&&◌, ℕ, [], Bool, Option, Some, false, is_some, map, option_map};
ghost use Rattle.ntfs_def.specs.FileName.{FileName};
ghost use Rattle.ntfs_def.specs.declared.kinds.TheConstants.{STANDARD_INFORMATION};
ghost use Rattle.volume_def.specs.FileNames.{names_of};
ghost use Rattle.volume_def.specs.Files.{parts_at, records_of};
ghost use Rattle.volume_def.specs.View.{VolumeView};
ghost use Rattle.tree_model.specs.Bill.{has_short_standard};
ghost use Rattle.tree_model.specs.Reading.{link_for};
ghost use Rattle.tree_model.specs.Subjects.{Machine};
ghost use Rattle.edit_def.specs.Account.{Wants};
ghost use Rattle.edit_def.specs.Marks.{Marks};
ghost use Rattle.edit_def.specs.Names.{KeepsNames, KeepsOthers, Numbers, gone_names, numbers_at};
ghost use Rattle.session_def.specs.Kept.{KeepsNamesBut, KeepsStandard};
ghost use Rattle.command_edits.specs.Between.{IsBetween};
ghost use Rattle.command_edits.specs.Commands.{DoesLink, DoesMake, DoesMove, DoesRemove, DoesSet, DoesUnlink};

/// All files but the one that a command is about are there still, or not, with their sequence numbers, their counts of links and their
/// names; where a file is set this one too.
pub fn others_kept()
    ensures make { (m : Machine) (wants : Wants) (old new : VolumeView) (before after : Marks) (f : ℕ) (directory : Bool) (name : FileName)
        → DoesMake m wants old new before after f directory name → KeepsOthers (records_of old) (records_of new) f }
    ensures link { (m : Machine) (wants : Wants) (old new : VolumeView) (before after : Marks) (f : ℕ) (name : FileName)
        → DoesLink m wants old new before after f name → KeepsOthers (records_of old) (records_of new) f }
    ensures remove { (m : Machine) (wants : Wants) (old new : VolumeView) (before after : Marks) (f : ℕ) (name : FileName)
        → DoesRemove m wants old new before after f name → KeepsOthers (records_of old) (records_of new) f }
    ensures unlink { (m : Machine) (wants : Wants) (old new : VolumeView) (before after : Marks) (f : ℕ) (name : FileName)
        → DoesUnlink m wants old new before after f name → KeepsOthers (records_of old) (records_of new) f }
    ensures move_to { (m : Machine) (wants : Wants) (old new : VolumeView) (before after : Marks) (f : ℕ) (name fresh : FileName)
        → DoesMove m wants old new before after f name fresh → KeepsOthers (records_of old) (records_of new) f }
    ensures set { (m : Machine) (wants : Wants) (old new : VolumeView) (before after : Marks) (f : ℕ) (flags security : Option ℕ)
        → DoesSet m wants old new before after f flags security → (g : ℕ) → KeepsNames (records_of old) (records_of new) g }
{}

/// A file that gets one more name, loses one of several, or moves, has the sequence number that it had.
pub fn sequences_kept()
    ensures link { (m : Machine) (wants : Wants) (old new : VolumeView) (before after : Marks) (f : ℕ) (name : FileName)
        → DoesLink m wants old new before after f name → option_map (λ (n : Numbers). n.sequence) (numbers_at (records_of new) f)
        ≡ option_map (λ (n : Numbers). n.sequence) (numbers_at (records_of old) f) }
    ensures unlink { (m : Machine) (wants : Wants) (old new : VolumeView) (before after : Marks) (f : ℕ) (name : FileName)
        → DoesUnlink m wants old new before after f name → option_map (λ (n : Numbers). n.sequence) (numbers_at (records_of new) f)
        ≡ option_map (λ (n : Numbers). n.sequence) (numbers_at (records_of old) f) }
    ensures move_to { (m : Machine) (wants : Wants) (old new : VolumeView) (before after : Marks) (f : ℕ) (name fresh : FileName)
        → DoesMove m wants old new before after f name fresh → option_map (λ (n : Numbers). n.sequence) (numbers_at (records_of new) f)
        ≡ option_map (λ (n : Numbers). n.sequence) (numbers_at (records_of old) f) }
{}

/// The names of a file have the values that they had, but for those that went (`remove`, `unlink`, `move_to`); of one that comes or goes
/// nothing is said.
pub fn values_kept()
    ensures make { (m : Machine) (wants : Wants) (old new : VolumeView) (before after : Marks) (f g : ℕ) (directory : Bool)
        (name : FileName) → DoesMake m wants old new before after f directory name → g ≢ f → KeepsNamesBut [] old new g }
    ensures link { (m : Machine) (wants : Wants) (old new : VolumeView) (before after : Marks) (f g : ℕ) (name : FileName)
        → DoesLink m wants old new before after f name → KeepsNamesBut [] old new g }
    ensures remove { (m : Machine) (wants : Wants) (old new : VolumeView) (before after : Marks) (f g : ℕ) (name : FileName)
        → DoesRemove m wants old new before after f name → g ≢ f
        → KeepsNamesBut (map (link_for f) (gone_names (names_of (records_of old) f) name)) old new g }
    ensures unlink { (m : Machine) (wants : Wants) (old new : VolumeView) (before after : Marks) (f g : ℕ) (name : FileName)
        → DoesUnlink m wants old new before after f name
        → KeepsNamesBut (map (link_for f) (gone_names (names_of (records_of old) f) name)) old new g }
    ensures move_to { (m : Machine) (wants : Wants) (old new : VolumeView) (before after : Marks) (f g : ℕ) (name fresh : FileName)
        → DoesMove m wants old new before after f name fresh
        → KeepsNamesBut (map (link_for f) (gone_names (names_of (records_of old) f) name)) old new g }
    ensures set { (m : Machine) (wants : Wants) (old new : VolumeView) (before after : Marks) (f g : ℕ) (flags security : Option ℕ)
        → DoesSet m wants old new before after f flags security → KeepsNamesBut [] old new g }
{}

/// Of $STANDARD_INFORMATION of a file that is there what the tree does not show stays, with the attribute's own flags; a value that has no
/// place for a security id may be lengthened where one is set.
pub fn standards_kept()
    ensures make { (m : Machine) (wants : Wants) (old new : VolumeView) (before after : Marks) (f g : ℕ) → IsBetween old
        → (numbers : Numbers) → numbers_at (records_of old) g ≡ Some numbers → (directory : Bool) (name : FileName)
        → DoesMake m wants old new before after f directory name → g ≢ f
        → KeepsStandard false (parts_at old g STANDARD_INFORMATION []) (parts_at new g STANDARD_INFORMATION []) }
    ensures link { (m : Machine) (wants : Wants) (old new : VolumeView) (before after : Marks) (f g : ℕ) → IsBetween old
        → (numbers : Numbers) → numbers_at (records_of old) g ≡ Some numbers → (name : FileName)
        → DoesLink m wants old new before after f name
        → KeepsStandard false (parts_at old g STANDARD_INFORMATION []) (parts_at new g STANDARD_INFORMATION []) }
    ensures remove { (m : Machine) (wants : Wants) (old new : VolumeView) (before after : Marks) (f g : ℕ) → IsBetween old
        → (numbers : Numbers) → numbers_at (records_of old) g ≡ Some numbers → (name : FileName)
        → DoesRemove m wants old new before after f name → g ≢ f
        → KeepsStandard false (parts_at old g STANDARD_INFORMATION []) (parts_at new g STANDARD_INFORMATION []) }
    ensures unlink { (m : Machine) (wants : Wants) (old new : VolumeView) (before after : Marks) (f g : ℕ) → IsBetween old
        → (numbers : Numbers) → numbers_at (records_of old) g ≡ Some numbers → (name : FileName)
        → DoesUnlink m wants old new before after f name
        → KeepsStandard false (parts_at old g STANDARD_INFORMATION []) (parts_at new g STANDARD_INFORMATION []) }
    ensures move_to { (m : Machine) (wants : Wants) (old new : VolumeView) (before after : Marks) (f g : ℕ) → IsBetween old
        → (numbers : Numbers) → numbers_at (records_of old) g ≡ Some numbers → (name fresh : FileName)
        → DoesMove m wants old new before after f name fresh
        → KeepsStandard false (parts_at old g STANDARD_INFORMATION []) (parts_at new g STANDARD_INFORMATION []) }
    ensures set { (m : Machine) (wants : Wants) (old new : VolumeView) (before after : Marks) (f g : ℕ) → IsBetween old
        → (numbers : Numbers) → numbers_at (records_of old) g ≡ Some numbers → (flags security : Option ℕ)
        → DoesSet m wants old new before after f flags security
        → KeepsStandard ((g == f) && (is_some security && has_short_standard old f)) (parts_at old g STANDARD_INFORMATION [])
        (parts_at new g STANDARD_INFORMATION []) }
{}
