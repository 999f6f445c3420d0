//! What a file is that comes.
ghost use Rattle.std.specs.Prelude.{◌≡◌, ◌≤◌, ◌∷◌, ℕ, List, [], Some, false, true};
ghost use Rattle.ntfs_def.specs.declared.records.TheConstants.{FIRST_ORDINARY};
ghost use Rattle.volume_def.specs.FileNames.{names_of};
ghost use Rattle.volume_def.specs.Files.{parts, records_of};
ghost use Rattle.volume_def.specs.View.{VolumeView};
ghost use Rattle.tree_model.specs.Effects.{new_node};
ghost use Rattle.tree_model.specs.Reading.{node_at};
ghost use Rattle.edit_def.specs.Names.{Numbers, numbers_at};
ghost use Rattle.reading_edits.specs.NewFiles.{data_part, root_part, standard_part};
ghost use Rattle.reading_edits.specs.Steps.{with_standard};

/// A file from record 24 on that has no name and these attributes is a new node of the machine, with the times, the flags and the security
/// id that its $STANDARD_INFORMATION tells: a plain one with an empty stream (`file`), and a directory (`directory`).
pub fn new_nodes()
    ensures file { (view : VolumeView) (f : ℕ) (numbers : Numbers) → numbers_at (records_of view) f ≡ Some numbers → FIRST_ORDINARY ≤ f
        → names_of (records_of view) f ≡ [] → (id next : ℕ) (standard : List ℕ) → numbers.directory ≡ false
        → parts (records_of view) f ≡ standard_part f id standard ∷ data_part f next ∷ []
        → node_at view f ≡ Some (with_standard standard (new_node false 0 0)) }
    ensures directory { (view : VolumeView) (f : ℕ) (numbers : Numbers) → numbers_at (records_of view) f ≡ Some numbers
        → FIRST_ORDINARY ≤ f → names_of (records_of view) f ≡ [] → (id next : ℕ) (standard root : List ℕ) → numbers.directory ≡ true
        → parts (records_of view) f ≡ standard_part f id standard ∷ root_part f next root ∷ []
        → node_at view f ≡ Some (with_standard standard (new_node true 0 0)) }
{}
