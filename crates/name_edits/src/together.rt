//! Which names go together.
ghost use Rattle.std.specs.Prelude.{◌≡◌, ◌≢◌, ◌≤◌, ◌++◌, ℕ, Contains, List, [], Some, count_by, false, length, map, true};
ghost use Rattle.list_laws.specs.SameItems.{SameItems};
ghost use Rattle.ntfs_def.specs.FileName.{FileName};
ghost use Rattle.ntfs_def.specs.declared.records.TheConstants.{ROOT};
ghost use Rattle.volume_def.specs.FileNames.{is_dos, is_not_dos, names_of};
ghost use Rattle.volume_def.specs.Files.{records_of};
ghost use Rattle.volume_def.specs.IndexesClause.{IsDirectoryIndex};
ghost use Rattle.volume_def.specs.View.{VolumeView};
ghost use Rattle.tree_model.specs.Drops.{is_last_name, is_link};
ghost use Rattle.tree_model.specs.Reading.{link_for, node_at, read};
ghost use Rattle.tree_model.specs.declared.tree.Node.{Node};
ghost use Rattle.edit_def.specs.Names.{ArePaired, DropsNames, Numbers, gone_names, numbers_at};
ghost use Rattle.name_edits.specs.Dropped.{AreDropped};

/// The names that go with one that is no DOS name, of all names of a file whose DOS names are paired: they stand in its directory, and what
/// is left has a long name there or no DOS name (`drops`); one of them is no DOS name (`one`), so where the file has two such, some name is
/// left (`some`), and where it has no other such, none (`all`).
pub fn names_gone()
    ensures drops { (all left : List FileName) (name : FileName) → is_dos name ≡ false → SameItems (gone_names all name ++ left) all
        → ArePaired all → DropsNames name.parent.number (gone_names all name) all left }
    ensures one { (all : List FileName) (name : FileName) → is_dos name ≡ false → count_by is_not_dos (gone_names all name) ≡ 1 }
    ensures some { (all left : List FileName) (name : FileName) → is_dos name ≡ false → SameItems (gone_names all name ++ left) all
        → 2 ≤ count_by is_not_dos all → 1 ≤ length left }
    ensures all { (all left : List FileName) (name : FileName) → is_dos name ≡ false → SameItems (gone_names all name ++ left) all
        → ArePaired all → Contains all name → count_by is_not_dos all ≡ 1 → left ≡ [] }
{}

/// By the index of a directory, where it is right, a file has no name twice there (`once`); and the names that go with one, of a file that
/// is shown, are the links of which the machine says so (`dropped`). Where the machine takes one that is no DOS name for the last, it is
/// the only such name (`last`), and where not there is another one (`other`).
pub fn names_dropped()
    ensures once { (view : VolumeView) (f : ℕ) (name : FileName) (numbers : Numbers) → numbers_at (records_of view) f ≡ Some numbers
        → IsDirectoryIndex view name.parent.number
        → count_by (λ (n : FileName). is_link (link_for f name) (link_for f n)) (names_of (records_of view) f) ≤ 1 }
    ensures dropped { (view : VolumeView) (f : ℕ) (node : Node) → node_at view f ≡ Some node → f ≢ ROOT → (name : FileName)
        → Contains (names_of (records_of view) f) name → IsDirectoryIndex view name.parent.number
        → AreDropped (read view) (link_for f name) (map (link_for f) (gone_names (names_of (records_of view) f) name)) }
    ensures last { (view : VolumeView) (f : ℕ) (node : Node) → node_at view f ≡ Some node → f ≢ ROOT → (name : FileName)
        → Contains (names_of (records_of view) f) name → IsDirectoryIndex view name.parent.number → is_dos name ≡ false
        → is_last_name (read view) (link_for f name) ≡ true → count_by is_not_dos (names_of (records_of view) f) ≡ 1 }
    ensures other { (view : VolumeView) (f : ℕ) (node : Node) → node_at view f ≡ Some node → f ≢ ROOT → (name : FileName)
        → Contains (names_of (records_of view) f) name → IsDirectoryIndex view name.parent.number → is_dos name ≡ false
        → is_last_name (read view) (link_for f name) ≡ false → 2 ≤ count_by is_not_dos (names_of (records_of view) f) }
{}
