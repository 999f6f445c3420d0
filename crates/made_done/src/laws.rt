//! Laws with nothing to run: what `create` and `mkdir` leave.
ghost use Rattle.std.specs.Prelude.{ℕ, Bool, List};
ghost use Rattle.tree_model.specs.Refusals.{Facts};
ghost use Rattle.tree_model.specs.declared.tree.Node.{Node};
ghost use Rattle.session_def.specs.State.{State};
ghost use Rattle.mark_write.specs.declared.flag.Flag.{Flag};
ghost use Rattle.mark_write.specs.declared.log.Span.{Span};
ghost use Rattle.in_place_done.specs.Finished.{IsFinished, IsPlaceOf};
ghost use Rattle.made_done.specs.MadeDone.{FindsPlace, LeavesMade, StagesUnder};

/// Where the command found a directory and a name that may come there, the file that it makes was staged, and that was written behind the
/// mark, all is left that is due (`leaves`).
pub fn made_done_laws()
    ensures leaves { (directory : Bool) (facts : Facts) (before : State) (session : ℕ) (path : List (List ℕ)) (dir : ℕ) (units : List ℕ)
        (node : Node) (made : ℕ) (flag : Flag) (marked : Bool) (spans : List Span) (staged written : List ℕ)
        → FindsPlace directory facts before session path dir units node → StagesUnder directory before dir units node made staged
        → IsPlaceOf before.view before.image flag marked spans → IsFinished flag marked spans staged written
        → LeavesMade directory facts before session path dir units made flag staged written }
{}
