//! Laws with nothing to run: what `rm` leaves of a file that goes with its one name.
ghost use Rattle.std.specs.Prelude.{ℕ, Bool, List};
ghost use Rattle.ntfs_def.specs.FileName.{FileName};
ghost use Rattle.tree_model.specs.Refusals.{Facts};
ghost use Rattle.tree_model.specs.declared.tree.Node.{Node};
ghost use Rattle.session_def.specs.State.{State};
ghost use Rattle.mark_write.specs.declared.flag.Flag.{Flag};
ghost use Rattle.mark_write.specs.declared.log.Span.{Span};
ghost use Rattle.in_place_done.specs.Finished.{IsFinished, IsPlaceOf};
ghost use Rattle.gone_done.specs.GoneDone.{FindsGoing, LeavesGone, StagesGone};

/// Where the command found a link that leads to a file that may go with it, the file's going was staged, and that was written behind the
/// mark, all is left that is due (`leaves`).
pub fn gone_done_laws()
    ensures leaves { (facts : Facts) (before : State) (session : ℕ) (path : List (List ℕ)) (n dir : ℕ) (file parent : Node)
        (name : FileName) (flag : Flag) (marked : Bool) (spans : List Span) (staged written : List ℕ)
        → FindsGoing facts before session path n dir file parent name → StagesGone before n dir parent name staged
        → IsPlaceOf before.view before.image flag marked spans → IsFinished flag marked spans staged written
        → LeavesGone facts before session path n dir name flag staged written }
{}
