//! Names as links of the tree: the directories that have entries, and the links that go.
ghost use Rattle.std.specs.Prelude.{◌≡◌, ◌≢◌, ◌||◌, ℕ, Contains, List, Some, map, true};
ghost use Rattle.ntfs_def.specs.FileName.{FileName};
ghost use Rattle.ntfs_def.specs.declared.records.TheConstants.{ROOT};
ghost use Rattle.volume_def.specs.FileNames.{names_of};
ghost use Rattle.volume_def.specs.Files.{records_of};
ghost use Rattle.volume_def.specs.View.{VolumeView};
ghost use Rattle.tree_model.specs.Bill.{links_with};
ghost use Rattle.tree_model.specs.Reading.{link_for, node_at, read};
ghost use Rattle.tree_model.specs.Tree.{Tree};
ghost use Rattle.tree_model.specs.declared.tree.Node.{Node};
ghost use Rattle.edit_def.specs.Names.{gone_names};
ghost use Rattle.reading_edits.specs.Dropped.{AreDropped};
ghost use Rattle.session_def.specs.Kept.{KeepsNamesBut};
ghost use Rattle.session_def.specs.Named.{has_entry_of, is_one_of};
ghost use Rattle.command_edits.specs.Between.{IsBetween};
ghost use Rattle.command_edits.specs.Keys.{AreToldIn};

/// The directory of a name has an entry of its file (`entry`); so the names of files that are told anew stand in directories with entries
/// of these (`entries`).
pub fn entries_told()
    ensures entry { (view : VolumeView) → IsBetween view → (files : List ℕ) (g : ℕ) (name : FileName) → is_one_of files g ≡ true
        → Contains (names_of (records_of view) g) name → has_entry_of (read view) files name.parent.number ≡ true }
    ensures entries { (view : VolumeView) → IsBetween view → (files : List ℕ) (entries : List (ℕ × FileName))
        → ((entry : ℕ × FileName) → Contains entries entry
        → (is_one_of files entry.0 ≡ true) × Contains (names_of (records_of view) entry.0) entry.1) → (before : Tree)
        → AreToldIn (λ dir. has_entry_of before files dir || has_entry_of (read view) files dir) entries }
{}

/// Where the names that go are those which go with one by the machine, names whose links the machine leaves keep their values.
pub fn dropped_values()
    ensures { (old new : VolumeView) → IsBetween old → (f : ℕ) (node : Node) → node_at old f ≡ Some node → f ≢ ROOT
        → (name : FileName) → Contains (names_of (records_of old) f) name
        → AreDropped (read old) (link_for f name) (map (link_for f) (gone_names (names_of (records_of old) f) name))
        → (g : ℕ) → KeepsNamesBut (map (link_for f) (gone_names (names_of (records_of old) f) name)) old new g
        → KeepsNamesBut (links_with (read old) (link_for f name)) old new g }
{}
