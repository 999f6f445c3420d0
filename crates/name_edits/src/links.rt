//! The clause on links, once a command is done.
ghost use Rattle.std.specs.Prelude.{◌≡◌, ◌≢◌, ◌≤◌, ◌+◌, ◌∷◌, ℕ, Bool, List, [], Some, None, count_by, false, length, true};
ghost use Rattle.list_laws.specs.SameItems.{SameItems};
ghost use Rattle.ntfs_def.specs.FileName.{FileName};
ghost use Rattle.ntfs_def.specs.declared.records.TheConstants.{ROOT};
ghost use Rattle.volume_def.specs.FileNames.{is_dos, is_not_dos, names_of};
ghost use Rattle.volume_def.specs.Files.{Records, records_of};
ghost use Rattle.volume_def.specs.LinksClause.{MeetsLinks, ReachesRoot};
ghost use Rattle.volume_def.specs.ReferencesClause.{MeetsReferences};
ghost use Rattle.volume_def.specs.View.{VolumeView};
ghost use Rattle.tree_model.specs.Cases.{lies_in};
ghost use Rattle.tree_model.specs.Hidden.{is_hidden};
ghost use Rattle.tree_model.specs.Reading.{read};
ghost use Rattle.edit_def.specs.Names.{DropsNames, HasRightNames, KeepsNames, Numbers, StandRightly, is_directory_in, numbers_at};
ghost use Rattle.name_edits.specs.Renamed.{ChangesNames};

/// What the clause on links asks of a file, by what its base record tells: of its names (`names`), of a directory other than the root a way
/// there (`rooted`), and that the root is one (`root`). Together these are the clause (`whole`).
pub fn link_parts()
    ensures names { (records : Records) (f : ℕ) (numbers : Numbers) → MeetsLinks records f → numbers_at records f ≡ Some numbers
        → HasRightNames f numbers (names_of records f) }
    ensures rooted { (records : Records) (f : ℕ) (numbers : Numbers) → MeetsLinks records f → numbers_at records f ≡ Some numbers
        → f ≢ ROOT → numbers.directory ≡ true → ReachesRoot records f }
    ensures root { (records : Records) → MeetsLinks records ROOT
        → (numbers : Numbers) × (numbers_at records ROOT ≡ Some numbers) × (numbers.directory ≡ true) }
    ensures whole { (view : VolumeView) (f : ℕ)
        → ((numbers : Numbers) → numbers_at (records_of view) f ≡ Some numbers → HasRightNames f numbers (names_of (records_of view) f))
        → ((numbers : Numbers) → numbers_at (records_of view) f ≡ Some numbers → f ≢ ROOT → numbers.directory ≡ true
        → ReachesRoot (records_of view) f)
        → (f ≡ ROOT → (numbers : Numbers) × (numbers_at (records_of view) ROOT ≡ Some numbers) × (numbers.directory ≡ true))
        → MeetsLinks (records_of view) f }
{}

/// The clause on links holds again after a command that left all names (`same`), and after one by which the names of one file changed,
/// where it holds of that file (`changed`): all others keep what it asks, and their way to the root. It holds of a file that came with one
/// name, no DOS name, in a directory (`made`, for `create` and `mkdir`); of one that is no directory and got such a name (`linked`, for
/// `ln`), or lost names of one directory, of which it keeps some (`unlinked`, for `rm` of one of several); where the file went (`gone`, for
/// `rm` of the last one and `rmdir`); and of one that lost names, one of them no DOS name, and got one in a directory that is shown and, as
/// the machine finds by walking up, does not lie in it (`moved`, for `mv`).
pub fn links_kept()
    ensures same { (old new : VolumeView) → ((n : ℕ) → MeetsReferences (records_of old) n) → ((n : ℕ) → MeetsLinks (records_of old) n)
        → StandRightly (records_of new) → ((f : ℕ) → KeepsNames (records_of old) (records_of new) f) → (n : ℕ)
        → MeetsLinks (records_of new) n }
    ensures changed { (old new : VolumeView) (f : ℕ) → ChangesNames old new f
        → ((numbers : Numbers) → numbers_at (records_of new) f ≡ Some numbers → HasRightNames f numbers (names_of (records_of new) f))
        → ((numbers : Numbers) → numbers_at (records_of new) f ≡ Some numbers → numbers.directory ≡ true → ReachesRoot (records_of new) f)
        → (n : ℕ) → MeetsLinks (records_of new) n }
    ensures made { (old new : VolumeView) (f : ℕ) → ChangesNames old new f → (name : FileName) (sequence : ℕ) (directory : Bool)
        → numbers_at (records_of old) f ≡ None → is_dos name ≡ false → is_directory_in (records_of old) name.parent ≡ true
        → SameItems (name ∷ []) (names_of (records_of new) f)
        → numbers_at (records_of new) f ≡ Some (record { sequence = sequence; links = 1; directory = directory })
        → (n : ℕ) → MeetsLinks (records_of new) n }
    ensures linked { (old new : VolumeView) (f : ℕ) → ChangesNames old new f → (name : FileName) (was : Numbers)
        → numbers_at (records_of old) f ≡ Some was → was.directory ≡ false → is_dos name ≡ false
        → SameItems (name ∷ names_of (records_of old) f) (names_of (records_of new) f)
        → numbers_at (records_of new) f ≡ Some (record was { links = was.links + 1 }) → (n : ℕ) → MeetsLinks (records_of new) n }
    ensures unlinked { (old new : VolumeView) (f : ℕ) → ChangesNames old new f → (dir : ℕ) (gone : List FileName) (now : Numbers)
        → numbers_at (records_of old) f ≡ Some (record now { links = now.links + length gone }) → now.directory ≡ false
        → DropsNames dir gone (names_of (records_of old) f) (names_of (records_of new) f)
        → 1 ≤ length (names_of (records_of new) f) → numbers_at (records_of new) f ≡ Some now → (n : ℕ) → MeetsLinks (records_of new) n }
    ensures gone { (old new : VolumeView) (f : ℕ) → ChangesNames old new f → numbers_at (records_of new) f ≡ None
        → (n : ℕ) → MeetsLinks (records_of new) n }
    ensures moved { (old new : VolumeView) (f : ℕ) → ChangesNames old new f
        → (dir : ℕ) (gone left : List FileName) (name : FileName) (now : Numbers)
        → numbers_at (records_of old) f ≡ Some (record now { links = now.links + length gone })
        → DropsNames dir gone (names_of (records_of old) f) left → count_by is_not_dos gone ≡ 1 → is_dos name ≡ false
        → SameItems (name ∷ left) (names_of (records_of new) f) → is_directory_in (records_of old) name.parent ≡ true
        → is_hidden (records_of old) name.parent.number ≡ false
        → (now.directory ≡ true → lies_in (read old) (length (read old).links) f name.parent.number ≡ false)
        → numbers_at (records_of new) f ≡ Some (record now { links = now.links + 1 }) → (n : ℕ) → MeetsLinks (records_of new) n }
{}
