//! Laws with nothing to run: what an edit that was done leaves.
ghost use Rattle.std.specs.Prelude.{ℕ, Bool, List};
ghost use Rattle.tree_model.specs.Refusals.{Facts};
ghost use Rattle.tree_model.specs.declared.command.Command.{Command};
ghost use Rattle.tree_model.specs.declared.tree.Node.{Node};
ghost use Rattle.session_def.specs.State.{State};
ghost use Rattle.mark_write.specs.declared.flag.Flag.{Flag};
ghost use Rattle.mark_write.specs.declared.log.Span.{Span};
ghost use Rattle.edit_written.specs.Finished.{IsFinished, IsPlaceOf};
ghost use Rattle.in_place_done.specs.Written.{FindsFile, LeavesEdit, StagesEdit};

/// Where `setattr`, `setsec`, a write over bytes, a punch of a value, or a write into a value or a stream in clusters, or a `truncate` or
/// `rmstream` of either found its file, what it does was staged, and that was written behind the mark, all is left that is due (`leaves`).
pub fn in_place_done_laws()
    ensures leaves { (facts : Facts) (before : State) (session : ℕ) (command : Command) (f : ℕ) (node : Node) (flag : Flag)
        (marked : Bool) (spans : List Span) (staged written : List ℕ)
        → (finds : FindsFile facts before session command f node) → StagesEdit before command finds.at f node staged
        → IsPlaceOf before.view before.image flag marked spans → IsFinished flag marked spans staged written
        → LeavesEdit facts before session command finds.at flag staged written }
{}
