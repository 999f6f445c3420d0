//! What a command leaves of a volume that makes a file and then sets its directory, with nothing to run.
ghost use Rattle.std.specs.Prelude.{◌≡◌, ◌<◌, ℕ, Bool, List};
ghost use Rattle.volume_def.specs.View.{VolumeView};
ghost use Rattle.tree_model.specs.Bill.{bill_of};
ghost use Rattle.tree_model.specs.IndexRoom.{directory_index, index_depth};
ghost use Rattle.tree_model.specs.Tree.{Tree};
ghost use Rattle.session_def.specs.Done.{LeavesDone};
ghost use Rattle.session_def.specs.Owed.{CallsOf, Owes};
ghost use Rattle.session_def.specs.State.{State};
ghost use Rattle.file_room.specs.Made.{made_bill};
ghost use Rattle.made_owed.specs.MadeOwed.{SetsBehindMade, at_name, made_command};

/// The bill of `create` and of `mkdir` touches the directory and the new file, and counts one entry of the directory's index.
pub fn made_has_room()
    ensures { (directory : Bool) (view : VolumeView) (tree : Tree) (path : List (List ℕ)) (dir : ℕ) (units : List ℕ)
        → dir < view.layout.count → bill_of view tree (made_command directory path) (at_name dir units)
        ≡ made_bill view directory dir (index_depth view (directory_index dir)) }
{}

/// Its calls together keep the promise of a call within its bill, and name no more than it may change (`calls`). It shows of itself all
/// that it owes beside (`owes`). So it leaves all that an edit that was done leaves (`leaves`).
pub fn made_leaves()
    ensures calls { (directory : Bool) (before next : State) (path : List (List ℕ)) (dir : ℕ) (units : List ℕ) (made : ℕ)
        (mid staged : VolumeView) → SetsBehindMade directory before next dir units made mid staged
        → CallsOf before next (made_command directory path) (at_name dir units) made }
    ensures owes { (directory : Bool) (before next : State) (path : List (List ℕ)) (dir : ℕ) (units : List ℕ) (made : ℕ)
        (mid staged : VolumeView) → SetsBehindMade directory before next dir units made mid staged
        → Owes before next (made_command directory path) (at_name dir units) made }
    ensures leaves { (directory : Bool) (before next : State) (path : List (List ℕ)) (dir : ℕ) (units : List ℕ) (made : ℕ)
        (mid staged : VolumeView) → SetsBehindMade directory before next dir units made mid staged
        → LeavesDone before next (made_command directory path) (at_name dir units) made }
{}
