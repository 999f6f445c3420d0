//! Laws of sessions that share files, with nothing to run.
ghost use Rattle.std.specs.Prelude.{find, option_map, Ok, Option, ◌≡◌, ◌≢◌, ◌⊎◌, ℕ, All, Contains, IsSome, List, [], IsTrue};
ghost use Rattle.tree_model.specs.Refusals.{Facts, outcome};
ghost use Rattle.session_def.specs.Session.{Session, last_of, Turn};
ghost use Rattle.session_def.specs.State.{State};
ghost use Rattle.tree_model.specs.Step.{Step};
ghost use Rattle.tree_model.specs.Subjects.{Located, Machine};
ghost use Rattle.tree_model.specs.Tree.{node_of};
ghost use Rattle.tree_model.specs.declared.command.Command.{Command};
ghost use Rattle.tree_model.specs.declared.reply.Reply.{Reply};
ghost use Rattle.tree_model.specs.declared.tree.Link.{Link};
ghost use Rattle.tree_model.specs.declared.opens.OpenEntry.{OpenEntry};
ghost use Rattle.tree_model.specs.Answers.{answer_of, range_of};
ghost use Rattle.tree_model.specs.declared.command.Command.TheVariants as c;
ghost use Rattle.tree_model.specs.declared.reply.Answer.TheVariants as a;
ghost use Rattle.tree_model.specs.Cases.{AsksFor, conflicts};
ghost use Rattle.tree_model.specs.Opens.{all_access, to_read};
ghost use Rattle.tree_model.specs.Shown.{kept_apart};
ghost use Rattle.tree_model.specs.declared.reply.No.TheVariants as no;
ghost use Rattle.share_table.specs.Kept.{by_handle};
ghost use Rattle.share_table.specs.Changes.{applied, bytes_in, change_led, changes_in, folded, own_name, stream_at};
ghost use Rattle.share_table.specs.Held.{AnyLine, HoldsOpens, LetDelete};

/// A state without opens holds them (`none`); a step keeps that (`step`); so at every moment of a session run any two opens of one
/// file go together, and each open is of a file that is there (`session`). No step drops a link of a file of which an open
/// stands that does not let others delete (`links`), and no file goes while an open of it stands (`files`).
pub fn opens_laws()
    ensures none { (m : Machine) → m.opens ≡ [] → HoldsOpens m }
    ensures step { (facts : Facts) (m : Machine) (session : ℕ) (command : Command) (given : Reply) (next : Machine) → HoldsOpens m
        → Step facts m session command given next → HoldsOpens next }
    ensures session { (before : State) (turns : List Turn) → HoldsOpens before.machine
        → Session AnyLine before turns → All (λ turn. HoldsOpens turn.next.machine) turns }
    ensures links { (facts : Facts) (m : Machine) (session : ℕ) (command : Command) (given : Reply) (next : Machine) (link : Link)
        → Step facts m session command given next → Contains m.tree.links link
        → Contains next.tree.links link ⊎ LetDelete m.opens link.child }
    ensures files { (facts : Facts) (m : Machine) (session : ℕ) (command : Command) (given : Reply) (next : Machine) (entry : OpenEntry)
        → Step facts m session command given next → Contains m.opens entry → IsSome (node_of m.tree entry.file)
        → IsSome (node_of next.tree entry.file) }
{}

/// What a stream holds is a fold over what was done to it, whichever session did it: a step makes of it what its change says, and
/// leaves it as it was where there is none (`step`); so a run makes of it what its changes say, one after another (`session`).
/// What `cat`, `read` and `hread` show of a stream is what it holds then (`cat`, `read`, `hread`).
pub fn stream_laws()
    ensures step { (facts : Facts) (m : Machine) (session : ℕ) (command : Command) (given : Reply) (next : Machine)
        → (step : Step facts m session command given next) → (file : ℕ) (name : List ℕ)
        → stream_at next.tree file name
        ≡ applied (change_led facts m session command given next step.moved file name) (stream_at m.tree file name) }
    ensures session { (before : State) (turns : List Turn) → (run : Session AnyLine before turns) → (file : ℕ) (name : List ℕ)
        → stream_at (last_of before turns).machine.tree file name
        ≡ folded (changes_in AnyLine before turns run file name) (stream_at before.machine.tree file name) }
    ensures cat { (facts : Facts) (m : Machine) (session : ℕ) (path : List (List ℕ)) (stream : Option (List ℕ)) (at : Located)
        → outcome facts m session (c.Cat path stream) ≡ Ok at → answer_of facts m session (c.Cat path stream) at
        ≡ a.Data (bytes_in (stream_at m.tree at.file (own_name m.tree at))) }
    ensures read { (facts : Facts) (m : Machine) (session : ℕ) (path : List (List ℕ)) (stream : Option (List ℕ)) (from len : ℕ)
        (at : Located) → outcome facts m session (c.Read path stream from len) ≡ Ok at
        → answer_of facts m session (c.Read path stream from len) at
        ≡ a.Data (range_of from len (bytes_in (stream_at m.tree at.file (own_name m.tree at)))) }
    ensures hread { (facts : Facts) (m : Machine) (session handle from len : ℕ) (at : Located)
        → outcome facts m session (c.Hread handle from len) ≡ Ok at → answer_of facts m session (c.Hread handle from len) at
        ≡ a.Data (range_of from len (bytes_in (stream_at m.tree at.file (own_name m.tree at)))) }
{}

/// What keeps `cat` and `read` apart from a file is what `Opens::conflict` tells of reading that shares all.
pub fn apart_law()
    ensures { (opens : List OpenEntry) (file : ℕ) → kept_apart opens file ≡ option_map (λ (at : ℕ × ℕ). no.Shared at.0 at.1)
        (option_map by_handle (find (conflicts (AsksFor to_read all_access) file) opens)) }
{}
