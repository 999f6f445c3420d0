//! What a command that is done in place leaves of a volume, from what its calls give and the first mark, with nothing to run.
ghost use Rattle.std.specs.Prelude.{◌≡◌, ◌≢◌, ◌<◌, ◌∷◌, ℕ, Bool, Contains, [], None, false, true};
ghost use Rattle.ntfs_def.specs.FileName.{FileName};
ghost use Rattle.ntfs_def.specs.declared.kinds.TheConstants.{DATA};
ghost use Rattle.ntfs_def.specs.declared.records.TheConstants.{LOG_FILE, ROOT, VOLUME};
ghost use Rattle.volume_def.specs.FileNames.{names_of};
ghost use Rattle.volume_def.specs.Files.{records_of};
ghost use Rattle.volume_def.specs.Readable.{IsFile};
ghost use Rattle.session_def.specs.Named.{has_entry_of};
ghost use Rattle.volume_def.specs.View.{VolumeView};
ghost use Rattle.tree_model.specs.Bill.{bill_of};
ghost use Rattle.tree_model.specs.Hidden.{is_hidden};
ghost use Rattle.tree_model.specs.Need.{empty_bill};
ghost use Rattle.tree_model.specs.NoRoom.{no_room_for};
ghost use Rattle.tree_model.specs.Ways.{is_done_in_place};
ghost use Rattle.tree_model.specs.Subjects.{Located, NoName};
ghost use Rattle.tree_model.specs.Tree.{Tree};
ghost use Rattle.tree_model.specs.declared.command.Command.{Command};
ghost use Rattle.edit_def.specs.Kept.{Key, key_of};
ghost use Rattle.session_def.specs.Done.{HasEmptyLog, LeavesDone};
ghost use Rattle.session_def.specs.Owed.{CallsOf, Owes};
ghost use Rattle.session_def.specs.State.{IsDirty, Stands, State};
ghost use Rattle.in_place.specs.InPlace.{Rewrites};
ghost use Rattle.in_place.specs.Unnamed.{NamesNoneOf};
ghost use Rattle.in_place.specs.Behind.{MarksBehind};
ghost use Rattle.in_place_owed.specs.SetsInPlace.{SetsInPlace, edits_in_place, is_set_key};

/// Where it is done in place its bill is the empty one (`bill`), so it is never refused for room (`room`).
pub fn in_place_has_room()
    ensures bill { (view : VolumeView) (tree : Tree) (command : Command) (at : Located) → edits_in_place command ≡ true → at.new ≡ NoName
        → is_done_in_place view tree command at ≡ true → bill_of view tree command at ≡ empty_bill }
    ensures room { (view : VolumeView) (tree : Tree) (command : Command) (at : Located) → edits_in_place command ≡ true → at.new ≡ NoName
        → is_done_in_place view tree command at ≡ true → no_room_for view (bill_of view tree command at) ≡ None }
{}

/// Its calls together keep the promise of a call within its bill, which is empty, and name no more than it may change (`calls`). It shows
/// of itself all that it owes beside (`owes`). So it leaves all that an edit that was done leaves (`leaves`).
pub fn in_place_leaves()
    ensures calls { (before next : State) (command : Command) (at : Located) (made : ℕ) (staged : VolumeView)
        → SetsInPlace before next command at staged → CallsOf before next command at made }
    ensures owes { (before next : State) (command : Command) (at : Located) (made : ℕ) (staged : VolumeView)
        → SetsInPlace before next command at staged → Owes before next command at made }
    ensures leaves { (before next : State) (command : Command) (at : Located) (made : ℕ) (staged : VolumeView)
        → SetsInPlace before next command at staged → LeavesDone before next command at made }
{}

/// What is asked of records with a copy, and of the first mark, holds of itself in most cases: no such record is named where the file is
/// shown and is not the root (`firsts`); and behind an edit in place on a volume that is marked, with an empty log, nothing is left to
/// write (`later`). The attributes that it may rewrite are those that calls by the names of the file do: in each directory in which it has
/// a name it has an entry (`named`).
pub fn in_place_premises()
    ensures firsts { (before : State) → Stands before → (command : Command) (at : Located) → edits_in_place command ≡ true
        → is_hidden (records_of before.view) at.file ≡ false → at.file ≢ ROOT → (n : ℕ) → n < 4
        → NamesNoneOf (is_set_key before.machine.tree command at) n }
    ensures later { (before : State) (changed : Key → Bool) (staged : VolumeView) → Stands before → Rewrites changed before.view staged
        → changed (key_of LOG_FILE DATA []) ≡ false → NamesNoneOf changed VOLUME → IsDirty before.view → HasEmptyLog before.view
        → MarksBehind staged staged }
    ensures named { (before : State) → Stands before → (f : ℕ) (name : FileName) → IsFile before.view f
        → Contains (names_of (records_of before.view) f) name → has_entry_of before.machine.tree (f ∷ []) name.parent.number ≡ true }
{}
