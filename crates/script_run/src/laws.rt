//! Laws with nothing to run: how many sectors a run wrote.
ghost use Rattle.std.specs.Prelude.{◌≡◌, ◌+◌, ◌≤◌, ℕ, List, false, if◌then◌else◌};
ghost use Rattle.session_def.specs.Session.{RunCosts, has_edit, mark_cost};
ghost use Rattle.script_run.specs.declared.end.ScriptEnd.{ScriptEnd};
ghost use Rattle.script_run.specs.Ran.{Ran, is_broken};
ghost use Rattle.script_run.specs.Says.{Origin};
ghost use Rattle.script_run.specs.World.{World};

/// A run that did no edit, and whose disk did not fail, wrote nothing (`unwritten`). Any whose disk did not fail wrote at most what
/// its edits cost, and where there was one the mark, the log, and the mark cleared in two sectors (`most`).
pub fn written_laws()
    ensures unwritten { (image : List ℕ) (from : Origin) (given : ScriptEnd) (old new : World) (ran : Ran image from given old new)
        → is_broken given ≡ false → has_edit ran.turns ≡ false → new.written ≡ old.written }
    ensures most { (image : List ℕ) (from : Origin) (given : ScriptEnd) (old new : World) (ran : Ran image from given old new)
        → is_broken given ≡ false → (n : ℕ) × RunCosts ran.first ran.turns n
        × (new.written ≤ old.written + n + mark_cost (has_edit ran.turns) ran.first + (if has_edit ran.turns then 2 else 0)) }
{}
