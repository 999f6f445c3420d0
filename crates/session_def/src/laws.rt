//! Laws of the definitions, with nothing to run. Those on whole runs are lemmas alone (`proofs/SessionLaws`, `proofs/MarkedLaws`):
//! they are of every relation that tells what a line says, and no clause can be for all of these.
ghost use Rattle.std.specs.Prelude.{◌≡◌, ◌↔◌, ℕ, Some, false, true, is_some};
ghost use Rattle.volume_def.specs.Files.{record_on, records_of};
ghost use Rattle.volume_def.specs.VersionClause.{IsClean};
ghost use Rattle.volume_def.specs.View.{VolumeView};
ghost use Rattle.tree_model.specs.Facts.{TellsFacts};
ghost use Rattle.tree_model.specs.Hidden.{is_hidden};
ghost use Rattle.tree_model.specs.Refusals.{Facts, is_edit};
ghost use Rattle.tree_model.specs.Subjects.{Located};
ghost use Rattle.tree_model.specs.Tree.{Tree};
ghost use Rattle.tree_model.specs.declared.command.Command.{Command};
ghost use Rattle.edit_def.specs.Kept.{KeepsBut, KeepsFile};
ghost use Rattle.session_def.specs.Apart.{IsApart, is_excepted};
ghost use Rattle.session_def.specs.Done.{EditDone, LeavesDone};
ghost use Rattle.session_def.specs.Named.{has_entry_of, is_named, timed};
ghost use Rattle.session_def.specs.Owed.{CallsOf, Owes};
ghost use Rattle.session_def.specs.State.{Stands, State, dirty_flag};

/// A volume is clean where its dirty flag is 0.
pub fn clean_law()
    ensures { (view : VolumeView) → IsClean view ↔ (dirty_flag view ≡ Some 0) }
{}

/// A file that a command is not about keeps all attributes but those of room, of the log and the mark, and of `$R` and `$O`
/// where a key of these comes or goes.
pub fn others_kept()
    ensures { (view : VolumeView) (before next : Tree) (command : Command) (at : Located) (made f : ℕ) (old new : VolumeView)
        → IsApart before next command at made f → KeepsBut (is_named view before next command at made) old new
        → KeepsFile (is_excepted view before command at) old new f }
{}

/// A hidden file is none that an edit is about, since what the words of a command lead to is shown. So one that is in use keeps
/// all attributes but those few, unless an entry of a file whose time is set stands in it.
pub fn hidden_files()
    ensures { (facts : Facts) (before next : State) (session : ℕ) (command : Command) (f : ℕ) → TellsFacts before.view facts
        → Stands before → is_edit command ≡ true → (done : EditDone facts before session command next)
        → is_some (record_on before.view f) ≡ true → is_hidden (records_of before.view) f ≡ true
        → has_entry_of before.machine.tree (timed command done.at done.made) f ≡ false
        → has_entry_of next.machine.tree (timed command done.at done.made) f ≡ false
        → KeepsFile (is_excepted before.view before.machine.tree command done.at) before.view next.view f }
{}

/// An edit whose calls together keep the promise of a call within the bill of the command, whose first mark does no more than
/// it is to do, and which shows of itself what is owed beside, leaves all that an edit that was done leaves.
pub fn leaves_done()
    ensures { (before next : State) (command : Command) (at : Located) (made : ℕ) → CallsOf before next command at made
        → Owes before next command at made → LeavesDone before next command at made }
{}
