//! What a volume reads as after a call. Before it the files can be read, and extension records name their base; it names nothing that the
//! tree shows of files that are shown, but where a law says so of one of them, and not the table of case.
ghost use Rattle.std.specs.Prelude.{◌≡◌, ◌≢◌, ℕ, Bool, List, [], Some, false};
ghost use Rattle.ntfs_def.specs.FileName.{FileName};
ghost use Rattle.ntfs_def.specs.declared.kinds.TheConstants.{DATA};
ghost use Rattle.ntfs_def.specs.declared.records.TheConstants.{ROOT, UPCASE};
ghost use Rattle.volume_def.specs.Files.{parts, records_of};
ghost use Rattle.volume_def.specs.IndexesClause.{IsDirectoryIndex};
ghost use Rattle.volume_def.specs.Readable.{IsReadableVolume};
ghost use Rattle.volume_def.specs.View.{VolumeView};
ghost use Rattle.tree_model.specs.Effects.{add_link};
ghost use Rattle.tree_model.specs.Hidden.{is_hidden};
ghost use Rattle.tree_model.specs.Reading.{link_for, node_at, read, standard_of};
ghost use Rattle.tree_model.specs.declared.tree.Node.{Node};
ghost use Rattle.edit_def.specs.Account.{Wants};
ghost use Rattle.edit_def.specs.Edited.{Edited};
ghost use Rattle.edit_def.specs.Kept.{IsUnseenButTimes, Key, key_of};
ghost use Rattle.edit_def.specs.Marks.{Marks};
ghost use Rattle.edit_def.specs.Names.{ComesUnnamed, GetsName, GoesUnnamed, HasRightBases, KeepsNames, LosesName, Numbers};
ghost use Rattle.reading_edits.specs.Steps.{LeavesOthers, LeavesShown, with_node, with_standard, without_link, without_node};

/// After a call that left all names the volume reads as before (`kept`). After one by which a file that is shown got a name in a directory
/// that is shown it reads as the tree with that link (`adds`); after one by which it lost a name, in a directory whose index is right, as
/// the tree without it, and no other link went (`drops`).
pub fn names_read()
    ensures kept { (changed : Key → Bool) (wants : Wants) (old new : VolumeView) (was now : Marks) → Edited changed wants old new was now
        → IsReadableVolume old → HasRightBases (records_of old) → changed (key_of UPCASE DATA []) ≡ false → LeavesShown changed old
        → ((g : ℕ) → KeepsNames (records_of old) (records_of new) g) → read new ≡ read old }
    ensures adds { (changed : Key → Bool) (wants : Wants) (old new : VolumeView) (was now : Marks) → Edited changed wants old new was now
        → IsReadableVolume old → HasRightBases (records_of old) → changed (key_of UPCASE DATA []) ≡ false
        → (f : ℕ) (name : FileName) → LeavesShown changed old → GetsName (records_of old) (records_of new) f name → f ≢ ROOT
        → is_hidden (records_of old) f ≡ false → is_hidden (records_of old) name.parent.number ≡ false
        → read new ≡ add_link (link_for f name) (read old) }
    ensures drops { (changed : Key → Bool) (wants : Wants) (old new : VolumeView) (was now : Marks) → Edited changed wants old new was now
        → IsReadableVolume old → HasRightBases (records_of old) → changed (key_of UPCASE DATA []) ≡ false
        → (f : ℕ) (name : FileName) → LeavesShown changed old → LosesName (records_of old) (records_of new) f name → f ≢ ROOT
        → is_hidden (records_of old) f ≡ false → is_hidden (records_of old) name.parent.number ≡ false
        → IsDirectoryIndex old name.parent.number → read new ≡ without_link (link_for f name) (read old) }
{}

/// After a call by which a file came without a name the volume reads as the tree with the node that it is (`makes`), after one by which it
/// went without one as the tree without it (`gone`). After one that left all names, and all other files as the tree shows them, it reads as
/// the tree with the node that this file is now (`sets`); where of that file too nothing was named but $STANDARD_INFORMATION, this is the
/// node that it was, with the times, the flags and the security id that are told there (`stamped`).
pub fn nodes_read()
    ensures makes { (changed : Key → Bool) (wants : Wants) (old new : VolumeView) (was now : Marks) → Edited changed wants old new was now
        → IsReadableVolume old → HasRightBases (records_of old) → changed (key_of UPCASE DATA []) ≡ false
        → (f : ℕ) (numbers : Numbers) (node : Node) → LeavesOthers changed old f
        → ComesUnnamed (records_of old) (records_of new) f numbers → node_at new f ≡ Some node → read new ≡ with_node f node (read old) }
    ensures gone { (changed : Key → Bool) (wants : Wants) (old new : VolumeView) (was now : Marks) → Edited changed wants old new was now
        → IsReadableVolume old → HasRightBases (records_of old) → changed (key_of UPCASE DATA []) ≡ false
        → (f : ℕ) (numbers : Numbers) → LeavesOthers changed old f
        → GoesUnnamed (records_of old) (records_of new) f numbers → read new ≡ without_node f (read old) }
    ensures sets { (changed : Key → Bool) (wants : Wants) (old new : VolumeView) (was now : Marks) → Edited changed wants old new was now
        → IsReadableVolume old → HasRightBases (records_of old) → changed (key_of UPCASE DATA []) ≡ false
        → (f : ℕ) (node : Node) → LeavesOthers changed old f → ((g : ℕ) → KeepsNames (records_of old) (records_of new) g)
        → node_at new f ≡ Some node → read new ≡ with_node f node (read old) }
    ensures stamped { (changed : Key → Bool) (wants : Wants) (old new : VolumeView) (was now : Marks) → Edited changed wants old new was now
        → IsReadableVolume old → HasRightBases (records_of old) → changed (key_of UPCASE DATA []) ≡ false
        → (f : ℕ) (node : Node) → LeavesOthers changed old f → IsUnseenButTimes changed f
        → ((g : ℕ) → KeepsNames (records_of old) (records_of new) g) → node_at old f ≡ Some node
        → read new ≡ with_node f (with_standard (standard_of (parts (records_of new) f)) node) (read old) }
{}
