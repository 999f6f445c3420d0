//! Laws of the grammar, with nothing to run.
ghost use Rattle.std.specs.Prelude.{◌≡◌, ◌<◌, List, ℕ};
ghost use Rattle.tree_model.specs.declared.command.Command.{Command};
ghost use Rattle.cmd_lang.specs.Grammar.{IsCommand, IsLine};
ghost use Rattle.cmd_lang.specs.Sayable.{IsSayable};

/// A line means one command of one session at most: of one of sixteen sessions, and each field of the command is within the
/// grammar. Any command whose fields are is said by some words, which may be more than a line has room for.
pub fn line_laws()
    ensures one_command { (line : List ℕ) (session other : ℕ) (said told : Command)
        → IsLine line session said → IsLine line other told → (session ≡ other) × (said ≡ told) }
    ensures sessions { (line : List ℕ) (session : ℕ) (said : Command) → IsLine line session said → session < 16 }
    ensures sayable { (line : List ℕ) (session : ℕ) (said : Command) → IsLine line session said → IsSayable said }
    ensures told { (said : Command) → IsSayable said → (words : List (List ℕ)) × IsCommand words said }
{}
