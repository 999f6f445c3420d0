//! What a volume reads as after each call.
ghost use Rattle.std.specs.Prelude.{◌≡◌, ◌≢◌, ◌≤◌, ℕ, Bool, List, Option, Some, false, unwrap_or};
ghost use Rattle.ntfs_def.specs.FileName.{FileName};
ghost use Rattle.ntfs_def.specs.declared.records.TheConstants.{FIRST_ORDINARY, ROOT};
ghost use Rattle.volume_def.specs.Files.{records_of};
ghost use Rattle.volume_def.specs.View.{VolumeView};
ghost use Rattle.tree_model.specs.Effects.{add_link};
ghost use Rattle.tree_model.specs.Hidden.{is_hidden};
ghost use Rattle.tree_model.specs.Reading.{link_for, node_at, read};
ghost use Rattle.tree_model.specs.declared.tree.Node.{Node};
ghost use Rattle.edit_def.specs.Account.{Wants};
ghost use Rattle.edit_def.specs.Marks.{Marks};
ghost use Rattle.reading_edits.specs.Steps.{with_node, without_link, without_node};
ghost use Rattle.command_edits.specs.Between.{IsBetween};
ghost use Rattle.command_edits.specs.Calls.{AddsLink, DropsLink, DropsNode, MakesNode, RefreshesEntry, SetsNode};

/// Each call is a step of the tree that the volume read as before it: a link comes (`adds`) or goes (`drops`), of a file and in a directory
/// that are shown; nothing changes where an entry was told anew (`refreshes`); a node comes (`makes`), goes (`goes`), or has the times, the
/// flags and the id that are given (`sets`).
pub fn calls_read()
    ensures adds { (wants : Wants) (old new : VolumeView) (before after : Marks) (f : ℕ) (name : FileName)
        → AddsLink wants old new before after f name → IsBetween old → f ≢ ROOT → is_hidden (records_of old) f ≡ false
        → is_hidden (records_of old) name.parent.number ≡ false → read new ≡ add_link (link_for f name) (read old) }
    ensures drops { (wants : Wants) (old new : VolumeView) (before after : Marks) (f : ℕ) (name : FileName)
        → DropsLink wants old new before after f name → IsBetween old → f ≢ ROOT → is_hidden (records_of old) f ≡ false
        → is_hidden (records_of old) name.parent.number ≡ false → read new ≡ without_link (link_for f name) (read old) }
    ensures refreshes { (wants : Wants) (old new : VolumeView) (before after : Marks) (f : ℕ) (name : FileName)
        → RefreshesEntry wants old new before after f name → IsBetween old → read new ≡ read old }
    ensures makes { (wants : Wants) (old new : VolumeView) (before after : Marks) (f : ℕ) (directory : Bool) (node : Node)
        → MakesNode wants old new before after f directory node → IsBetween old → read new ≡ with_node f node (read old) }
    ensures goes { (wants : Wants) (old new : VolumeView) (before after : Marks) (f : ℕ) → DropsNode wants old new before after f
        → IsBetween old → FIRST_ORDINARY ≤ f → read new ≡ without_node f (read old) }
    ensures sets { (wants : Wants) (old new : VolumeView) (before after : Marks) (f : ℕ) (times : List ℕ) (flags : ℕ) (security : Option ℕ)
        → SetsNode wants old new before after f times flags security → IsBetween old → (node : Node) → node_at old f ≡ Some node
        → read new ≡ with_node f (record node { times = times; flags = flags; security = unwrap_or security node.security }) (read old) }
{}
