//! What a command that is done gives to its calls, and they to the machine.
ghost use Rattle.std.specs.Prelude.{◌≡◌, ℕ, Bool, List, Ok, false, length};
ghost use Rattle.volume_def.specs.View.{VolumeView};
ghost use Rattle.tree_model.specs.Cases.{has_links, lies_in};
ghost use Rattle.tree_model.specs.Facts.{TellsFacts};
ghost use Rattle.tree_model.specs.Reading.{read};
ghost use Rattle.tree_model.specs.Refusals.{Facts, outcome};
ghost use Rattle.tree_model.specs.Step.{IsFresh};
ghost use Rattle.tree_model.specs.Subjects.{Located, Machine, NameIn};
ghost use Rattle.tree_model.specs.declared.command.Command.{Command};
ghost use Rattle.tree_model.specs.declared.command.Command.TheVariants as c;
ghost use Rattle.tree_model.specs.declared.tree.Node.{Node};
ghost use Rattle.edit_def.specs.Account.{Wants};
ghost use Rattle.edit_def.specs.Marks.{Marks};
ghost use Rattle.command_edits.specs.Allowed.{IsAllowed};
ghost use Rattle.command_edits.specs.Calls.{MakesNode};

/// Of a command that is done the case of no refusal holds (`all`). So no link stands in a directory that `rmdir` takes away (`rmdir`), and
/// the new name of `mv` does not lie below the old one (`mv`).
pub fn commands_allowed()
    ensures all { (facts : Facts) (m : Machine) (session : ℕ) (command : Command) (at : Located) → outcome facts m session command ≡ Ok at
        → IsAllowed facts m session command at }
    ensures rmdir { (facts : Facts) (m : Machine) (session : ℕ) (path : List (List ℕ)) (at : Located)
        → IsAllowed facts m session (c.Rmdir path) at → has_links m.tree at.file ≡ false }
    ensures mv { (facts : Facts) (m : Machine) (session : ℕ) (path target : List (List ℕ)) (at : Located) (dir : ℕ) (name : List ℕ)
        → IsAllowed facts m session (c.Mv path target) at → at.new ≡ NameIn dir name
        → lies_in m.tree (length m.tree.links) at.file dir ≡ false }
{}

/// The number of a file that comes is one that the machine may choose for it.
pub fn number_fresh()
    ensures { (facts : Facts) (wants : Wants) (old new : VolumeView) (before after : Marks) (f : ℕ) (directory : Bool) (node : Node)
        → TellsFacts old facts → MakesNode wants old new before after f directory node → IsFresh facts (read old) f }
{}
