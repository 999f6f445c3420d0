//! The clauses on references and on links behind a whole command.
ghost use Rattle.std.specs.Prelude.{◌≡◌, ◌≢◌, ◌≤◌, ℕ, Some, count_by, false, length, true};
ghost use Rattle.ntfs_def.specs.FileName.{FileName};
ghost use Rattle.ntfs_def.specs.declared.records.TheConstants.{ROOT};
ghost use Rattle.volume_def.specs.FileNames.{is_dos, is_not_dos, names_of};
ghost use Rattle.volume_def.specs.Files.{records_of};
ghost use Rattle.volume_def.specs.LinksClause.{MeetsLinks};
ghost use Rattle.volume_def.specs.ReferencesClause.{MeetsReferences};
ghost use Rattle.volume_def.specs.View.{VolumeView};
ghost use Rattle.tree_model.specs.Cases.{lies_in};
ghost use Rattle.tree_model.specs.Hidden.{is_hidden};
ghost use Rattle.tree_model.specs.Reading.{read};
ghost use Rattle.edit_def.specs.Names.{HasNoNames, HasRightBases, Numbers, gone_names, is_directory_in, numbers_at};
ghost use Rattle.name_edits.specs.Commands.{LinksFile, CreatesFile, MovesFile, RemovesFile, UnlinksFile};

/// From a volume that meets them, the clauses on references and on links hold behind a command whose calls keep the part on extension
/// records, as all calls do. New names are no DOS names and stand in directories; the names that go are those that go with one that is no
/// DOS name. A file that gets a further name, or loses one of several, is no directory (`linked`, `unlinked`); in one that goes no name
/// stands (`removed`); one that moves does so to a directory that is shown and, where it is a directory, does not lie in it (`moved`).
pub fn commands_kept()
    ensures made { (old new : VolumeView) (f : ℕ) → ((n : ℕ) → MeetsReferences (records_of old) n)
        → ((n : ℕ) → MeetsLinks (records_of old) n) → HasRightBases (records_of new) → (name : FileName)
        → CreatesFile (records_of old) (records_of new) f name → is_dos name ≡ false → is_directory_in (records_of old) name.parent ≡ true
        → (n : ℕ) → MeetsReferences (records_of new) n × MeetsLinks (records_of new) n }
    ensures linked { (old new : VolumeView) (f : ℕ) → ((n : ℕ) → MeetsReferences (records_of old) n)
        → ((n : ℕ) → MeetsLinks (records_of old) n) → HasRightBases (records_of new) → (name : FileName)
        → LinksFile (records_of old) (records_of new) f name → is_dos name ≡ false → is_directory_in (records_of old) name.parent ≡ true
        → ((numbers : Numbers) → numbers_at (records_of old) f ≡ Some numbers → numbers.directory ≡ false)
        → (n : ℕ) → MeetsReferences (records_of new) n × MeetsLinks (records_of new) n }
    ensures unlinked { (old new : VolumeView) (f : ℕ) → ((n : ℕ) → MeetsReferences (records_of old) n)
        → ((n : ℕ) → MeetsLinks (records_of old) n) → HasRightBases (records_of new) → (name : FileName) → is_dos name ≡ false
        → UnlinksFile (records_of old) (records_of new) f (gone_names (names_of (records_of old) f) name)
        → 2 ≤ count_by is_not_dos (names_of (records_of old) f)
        → ((numbers : Numbers) → numbers_at (records_of old) f ≡ Some numbers → numbers.directory ≡ false)
        → (n : ℕ) → MeetsReferences (records_of new) n × MeetsLinks (records_of new) n }
    ensures removed { (old new : VolumeView) (f : ℕ) → ((n : ℕ) → MeetsReferences (records_of old) n)
        → ((n : ℕ) → MeetsLinks (records_of old) n) → HasRightBases (records_of new) → (name : FileName) → is_dos name ≡ false
        → RemovesFile (records_of old) (records_of new) f (gone_names (names_of (records_of old) f) name) → f ≢ ROOT
        → HasNoNames (records_of old) f → (n : ℕ) → MeetsReferences (records_of new) n × MeetsLinks (records_of new) n }
    ensures moved { (old new : VolumeView) (f : ℕ) → ((n : ℕ) → MeetsReferences (records_of old) n)
        → ((n : ℕ) → MeetsLinks (records_of old) n) → HasRightBases (records_of new) → (name : FileName) → is_dos name ≡ false
        → (fresh : FileName) → MovesFile (records_of old) (records_of new) f (gone_names (names_of (records_of old) f) name) fresh
        → f ≢ ROOT → is_dos fresh ≡ false → is_directory_in (records_of old) fresh.parent ≡ true
        → is_hidden (records_of old) fresh.parent.number ≡ false
        → ((numbers : Numbers) → numbers_at (records_of old) f ≡ Some numbers → numbers.directory ≡ true
        → lies_in (read old) (length (read old).links) f fresh.parent.number ≡ false)
        → (n : ℕ) → MeetsReferences (records_of new) n × MeetsLinks (records_of new) n }
{}
