//! What a command owes of nodes and indexes whose edit is a rewrite, with nothing to run.
ghost use Rattle.std.specs.Prelude.{◌≡◌, ◌+◌, ◌≤◌, ℕ, Bool, List, Some, [], false, is_some, take, true, unwrap_or};
ghost use Rattle.ntfs_def.specs.declared.kinds.TheConstants.{BITMAP, FILE_NAME, INDEX_ALLOCATION, INDEX_ROOT};
ghost use Rattle.volume_def.specs.Files.{Part, content_value, parts_at};
ghost use Rattle.volume_def.specs.Values.{first_part};
ghost use Rattle.volume_def.specs.View.{VolumeView};
ghost use Rattle.session_def.specs.Bill.{Change};
ghost use Rattle.session_def.specs.IndexRoom.{Index, index_depth};
ghost use Rattle.session_def.specs.Subjects.{Located};
ghost use Rattle.session_def.specs.Tree.{Tree, node_of};
ghost use Rattle.session_def.specs.Command.{Command};
ghost use Rattle.session_def.specs.EditDefKept.{Key, key_of};
ghost use Rattle.session_def.specs.Indexes.{KeepsIndexIfThere, keys_changed};
ghost use Rattle.session_def.specs.Named.{main_file};
ghost use Rattle.session_def.specs.Nodes.{HasPoint, KeepsNodes};
ghost use Rattle.in_place.specs.InPlace.{Rewrites};
ghost use Rattle.in_place.specs.Unnamed.{IsQuiet, KeepsMarks, LiesApart, NamesNoKind};

/// A rewrite by a command that makes no file, drops no name and sets no point leaves of nodes what it is to leave, where the flags that
/// tell of a sparse stream and of a point stay, and no name of its file is named. A stream keeps its flags, its sizes and its clusters,
/// also the one that the command is about.
pub fn nodes_owed()
    ensures { (changed : Key → Bool) (old new : VolumeView) → Rewrites changed old new
        → (before next : Tree) (command : Command) (at : Located) (made : ℕ) → IsQuiet before command at
        → NamesNoKind changed (main_file command at made) FILE_NAME
        → ((f : ℕ) → is_some (node_of before f) ≡ true → is_some (node_of next f) ≡ true → KeepsMarks old new f)
        → HasPoint new command (main_file command at made) → KeepsNodes old new before next command at made }
{}

/// An index keeps its headers, its records and its bits, where these are not named. All that is left to show is that the first 16 bytes
/// of its root stay, and that it got no deeper (`changed_index`). Of one of which nothing is named nothing is left (`other_index`).
pub fn indexes_owed()
    ensures changed_index { (changed : Key → Bool) (old new : VolumeView) → Rewrites changed old new → LiesApart old
        → (changes : List Change) (index : Index) → changed (key_of index.file BITMAP index.name) ≡ false
        → ((was now : Part) → first_part (parts_at old index.file INDEX_ROOT index.name) ≡ Some was
        → first_part (parts_at new index.file INDEX_ROOT index.name) ≡ Some now
        → take 16 (unwrap_or (content_value now.content) []) ≡ take 16 (unwrap_or (content_value was.content) []))
        → index_depth new index ≤ index_depth old index + keys_changed old changes index → KeepsIndexIfThere old new changes index }
    ensures other_index { (changed : Key → Bool) (old new : VolumeView) → Rewrites changed old new → LiesApart old → (changes : List Change)
        (index : Index) → changed (key_of index.file INDEX_ROOT index.name) ≡ false
        → changed (key_of index.file INDEX_ALLOCATION index.name) ≡ false → changed (key_of index.file BITMAP index.name) ≡ false
        → KeepsIndexIfThere old new changes index }
{}
