//! The clause on references, and names one call after another.
ghost use Rattle.std.specs.Prelude.{◌≡◌, ◌≢◌, ◌∷◌, ℕ, List, [], Some, false, true};
ghost use Rattle.ntfs_def.specs.FileName.{FileName};
ghost use Rattle.ntfs_def.specs.Record.{Reference};
ghost use Rattle.volume_def.specs.Files.{Records, records_of};
ghost use Rattle.volume_def.specs.ReferencesClause.{MeetsReferences};
ghost use Rattle.volume_def.specs.View.{VolumeView};
ghost use Rattle.tree_model.specs.Cases.{has_links};
ghost use Rattle.tree_model.specs.Reading.{read};
ghost use Rattle.edit_def.specs.Names.{ComesUnnamed, GetsName, GoesUnnamed, HasNoNames, HasRightBases, KeepsNames, KeepsOthers};
ghost use Rattle.edit_def.specs.Names.{LosesName, LosesNames, Numbers, StandRightly, is_directory_in, numbers_at};

/// The clause on references is two parts, that of extension records (`bases`) and that of names (`stand`); both together are the clause
/// (`whole`).
pub fn reference_parts()
    ensures bases { (records : Records) → ((n : ℕ) → MeetsReferences records n) → HasRightBases records }
    ensures stand { (records : Records) → ((n : ℕ) → MeetsReferences records n) → StandRightly records }
    ensures whole { (view : VolumeView) → HasRightBases (records_of view) → StandRightly (records_of view) → (n : ℕ)
        → MeetsReferences (records_of view) n }
{}

/// The clause on references holds still after a call that keeps its part on extension records, as every call does, and by which no name
/// came or went (`kept`), a file got a name in a directory (`gets`), lost one (`loses`), came without a name (`comes`), or went without
/// one, where no name stood in it (`goes`).
pub fn references_kept()
    ensures kept { (old new : VolumeView) → ((n : ℕ) → MeetsReferences (records_of old) n) → HasRightBases (records_of new)
        → ((f : ℕ) → KeepsNames (records_of old) (records_of new) f) → (n : ℕ) → MeetsReferences (records_of new) n }
    ensures gets { (old new : VolumeView) → ((n : ℕ) → MeetsReferences (records_of old) n) → HasRightBases (records_of new)
        → (f : ℕ) (name : FileName) → GetsName (records_of old) (records_of new) f name
        → is_directory_in (records_of old) name.parent ≡ true → (n : ℕ) → MeetsReferences (records_of new) n }
    ensures loses { (old new : VolumeView) → ((n : ℕ) → MeetsReferences (records_of old) n) → HasRightBases (records_of new)
        → (f : ℕ) (name : FileName) → LosesName (records_of old) (records_of new) f name → (n : ℕ) → MeetsReferences (records_of new) n }
    ensures comes { (old new : VolumeView) → ((n : ℕ) → MeetsReferences (records_of old) n) → HasRightBases (records_of new)
        → (f : ℕ) (now : Numbers) → ComesUnnamed (records_of old) (records_of new) f now → (n : ℕ) → MeetsReferences (records_of new) n }
    ensures goes { (old new : VolumeView) → ((n : ℕ) → MeetsReferences (records_of old) n) → HasRightBases (records_of new)
        → (f : ℕ) (was : Numbers) → GoesUnnamed (records_of old) (records_of new) f was → HasNoNames (records_of old) f → (n : ℕ)
        → MeetsReferences (records_of new) n }
{}

/// Where no name stands: in a directory in which the tree shows no link and hides none (`empty`), and in a file that is no directory
/// (`file`). None stands there still after a file lost names (`lost`).
pub fn no_names()
    ensures empty { (view : VolumeView) (dir : ℕ) → HasRightBases (records_of view) → has_links (read view) dir ≡ false
        → HasNoNames (records_of view) dir }
    ensures file { (records : Records) (f : ℕ) (numbers : Numbers) → StandRightly records → numbers_at records f ≡ Some numbers
        → numbers.directory ≡ false → HasNoNames records f }
    ensures lost { (old new : Records) (f dir : ℕ) (gone : List FileName) → LosesNames old new f gone → HasNoNames old dir
        → HasNoNames new dir }
{}

/// Calls one after another. Names that stay do so over two calls (`kept`), of all files but one too (`others`). A file has lost names where
/// it lost none (`none`), where it lost one and then those (`more`), and where it lost them behind a call by which all names stayed
/// (`between`); directories are directories still (`directories`).
pub fn names_in_turn()
    ensures kept { (old mid new : Records) (f : ℕ) → KeepsNames old mid f → KeepsNames mid new f → KeepsNames old new f }
    ensures others { (old mid new : Records) (f : ℕ) → KeepsOthers old mid f → KeepsOthers mid new f → KeepsOthers old new f }
    ensures none { (records : Records) (f : ℕ) (now : Numbers) → numbers_at records f ≡ Some now → LosesNames records records f [] }
    ensures more { (old mid new : Records) (f : ℕ) (name : FileName) (gone : List FileName) → LosesName old mid f name
        → LosesNames mid new f gone → LosesNames old new f (name ∷ gone) }
    ensures between { (old mid new : Records) (f : ℕ) (gone : List FileName) → ((g : ℕ) → KeepsNames old mid g)
        → LosesNames mid new f gone → LosesNames old new f gone }
    ensures directories { (old new : Records) (f : ℕ) (gone : List FileName) → LosesNames old new f gone → (reference : Reference)
        → is_directory_in old reference ≡ true → is_directory_in new reference ≡ true }
{}
