//! What a command leaves of a volume that edits one stream alone and then sets its file, with nothing to run.
ghost use Rattle.std.specs.Prelude.{◌≡◌, ◌<◌, ℕ, is_some, option_and_then, true};
ghost use Rattle.volume_def.specs.View.{VolumeView};
ghost use Rattle.tree_model.specs.Bill.{bill_of};
ghost use Rattle.tree_model.specs.NoRoom.{no_room_for};
ghost use Rattle.tree_model.specs.Subjects.{Located, NoName};
ghost use Rattle.tree_model.specs.Tree.{Tree};
ghost use Rattle.tree_model.specs.declared.command.Command.{Command};
ghost use Rattle.edit_def.specs.OneFile.{no_room_alone};
ghost use Rattle.session_def.specs.Done.{LeavesDone};
ghost use Rattle.session_def.specs.Owed.{CallsOf, Owes};
ghost use Rattle.session_def.specs.State.{State};
ghost use Rattle.value_owed.specs.ValueOwed.{SetsBehindValue, bill_asked, clusters_asked, edits_value};

/// Of such a command on a stream that is there the bill is the empty one, or has the file alone, with the clusters of the stream (`bill`);
/// so it is refused for room exactly where that is (`room`).
pub fn value_has_room()
    ensures bill { (view : VolumeView) (tree : Tree) (command : Command) (at : Located) → edits_value command ≡ true → at.new ≡ NoName
        → at.file < view.layout.count → is_some at.content ≡ true
        → bill_of view tree command at ≡ bill_asked view at.file (clusters_asked view tree command at) }
    ensures room { (view : VolumeView) (tree : Tree) (command : Command) (at : Located) → edits_value command ≡ true → at.new ≡ NoName
        → at.file < view.layout.count → is_some at.content ≡ true
        → no_room_for view (bill_of view tree command at)
        ≡ option_and_then (no_room_alone view at.file) (clusters_asked view tree command at) }
{}

/// Its calls together keep the promise of a call within its bill, and name no more than it may change (`calls`). It shows
/// of itself all that it owes beside (`owes`). So it leaves all that an edit that was done leaves (`leaves`).
pub fn value_leaves()
    ensures calls { (before next : State) (command : Command) (at : Located) (made : ℕ) (mid staged : VolumeView)
        → SetsBehindValue before next command at mid staged → CallsOf before next command at made }
    ensures owes { (before next : State) (command : Command) (at : Located) (made : ℕ) (mid staged : VolumeView)
        → SetsBehindValue before next command at mid staged → Owes before next command at made }
    ensures leaves { (before next : State) (command : Command) (at : Located) (made : ℕ) (mid staged : VolumeView)
        → SetsBehindValue before next command at mid staged → LeavesDone before next command at made }
{}
