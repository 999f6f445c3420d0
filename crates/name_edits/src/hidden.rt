//! Which files are hidden.
ghost use Rattle.std.specs.Prelude.{◌≡◌, ◌≤◌, ℕ, [], false};
ghost use Rattle.ntfs_def.specs.FileName.{FileName};
ghost use Rattle.ntfs_def.specs.declared.records.TheConstants.{FIRST_ORDINARY};
ghost use Rattle.volume_def.specs.FileNames.{names_of};
ghost use Rattle.volume_def.specs.Files.{Records, records_of};
ghost use Rattle.volume_def.specs.View.{VolumeView};
ghost use Rattle.tree_model.specs.Hidden.{is_hidden, leads_to_system};
ghost use Rattle.edit_def.specs.Names.{ComesUnnamed, GetsName, GoesUnnamed, HasRightBases, KeepsNames, LosesName, Numbers};

/// Whether a file is hidden does not go with the size of the table: a walk up that is longer than the table tells the same.
pub fn hidden_longer()
    ensures { (view : VolumeView) → HasRightBases (records_of view) → (steps f : ℕ) → view.layout.count ≤ steps
        → leads_to_system (records_of view) steps f ≡ is_hidden (records_of view) f }
{}

/// A file from record 24 on that has no name is shown.
pub fn unnamed_shown()
    ensures { (records : Records) (f : ℕ) → FIRST_ORDINARY ≤ f → names_of records f ≡ [] → is_hidden records f ≡ false }
{}

/// All files that were hidden are so still, and no other one, after a call by which the table lost no record, and no name came or went
/// (`kept`), a file got a name in a directory that is shown (`gets`), lost one there (`loses`), came without a name (`comes`), or went
/// without one (`goes`).
pub fn hidden_kept()
    ensures kept { (old new : VolumeView) → HasRightBases (records_of old) → old.layout.count ≤ new.layout.count
        → ((g : ℕ) → KeepsNames (records_of old) (records_of new) g)
        → (f : ℕ) → is_hidden (records_of new) f ≡ is_hidden (records_of old) f }
    ensures gets { (old new : VolumeView) → HasRightBases (records_of old) → old.layout.count ≤ new.layout.count
        → (g : ℕ) (name : FileName) → GetsName (records_of old) (records_of new) g name
        → is_hidden (records_of old) name.parent.number ≡ false
        → (f : ℕ) → is_hidden (records_of new) f ≡ is_hidden (records_of old) f }
    ensures loses { (old new : VolumeView) → HasRightBases (records_of old) → old.layout.count ≤ new.layout.count
        → (g : ℕ) (name : FileName) → LosesName (records_of old) (records_of new) g name
        → is_hidden (records_of old) name.parent.number ≡ false
        → (f : ℕ) → is_hidden (records_of new) f ≡ is_hidden (records_of old) f }
    ensures comes { (old new : VolumeView) → HasRightBases (records_of old) → old.layout.count ≤ new.layout.count
        → (g : ℕ) (now : Numbers) → ComesUnnamed (records_of old) (records_of new) g now
        → (f : ℕ) → is_hidden (records_of new) f ≡ is_hidden (records_of old) f }
    ensures goes { (old new : VolumeView) → HasRightBases (records_of old) → old.layout.count ≤ new.layout.count
        → (g : ℕ) (was : Numbers) → GoesUnnamed (records_of old) (records_of new) g was
        → (f : ℕ) → is_hidden (records_of new) f ≡ is_hidden (records_of old) f }
{}
