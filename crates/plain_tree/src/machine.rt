//! The machine kept in plain lists: the reply to a command, and the state after it.
ghost use Rattle.std.specs.Prelude.{◌≡◌, ◌&&◌, ◌||◌, IfSome, None, is_some, not};
ghost use Rattle.plain_tree.specs.Plain.{AreTold, is_plain, machine_of};
ghost use Rattle.tree_model.specs.Refusals.{Facts};
ghost use Rattle.tree_model.specs.Staging.{is_built};
ghost use Rattle.tree_model.specs.Step.{Step};

use crate::facts::PlainFacts;
use crate::tree::PlainTree;
use std::alloc::Global;
use tree_model::{Command, No, OpenEntry, Reply};

/// A state of the machine: the tree, the opens by session and handle, and the moment that edits write, in 100
/// nanoseconds since the year 1601.
#[derive(Debug, Drop)]
pub struct PlainMachine {
    pub tree: PlainTree,
    pub opens: Vec<OpenEntry>,
    pub now: u64,
}

impl PlainMachine {
    /// A command of a session: its reply, and the state after it. `None` for `time`, `open`, `hread`, `close`, `sd`, and for `setattr`,
    /// `write` and `hwrite`, which this machine does not do. What is not built yet is refused, so the state stays.
    pub fn step(
        &mut self,
        alloc: Global,
        facts: &PlainFacts,
        session: u8,
        command: &Command,
    ) -> Option<Reply>
        ensures step { (all : Facts) → AreTold facts.now all
            → IfSome result (λ reply. Step all (machine_of self.old) session command.now reply (machine_of self.new)) }
        ensures some { is_some result ≡ (is_plain command.now || not (is_built command.now)) }
        ensures kept { result ≡ None → self.new ≡ self.old }
    {
        if is_plain(command) {
            let opens = self.opens.as_slice();
            return match self.tree.answer(alloc, opens, facts, command) {
                Ok(answer) => Some(Reply::Ok(answer)),
                Err(refused) => Some(Reply::No(refused)),
            };
        }
        if is_left_out(command) {
            return None;
        }
        Some(Reply::No(No::Unbuilt))
    }
}

// The commands that the plain machine does.
fn is_plain(command: &Command) -> bool
    ensures { result ≡ is_plain command.now }
{
    matches!(
        command,
        Command::Ls { .. }
            | Command::Stat { .. }
            | Command::Links { .. }
            | Command::Cat { .. }
            | Command::Read { .. }
            | Command::Streams { .. }
            | Command::Attr { .. }
            | Command::Sec { .. }
            | Command::Reparse { .. }
            | Command::Objid { .. }
            | Command::Df
    )
}

// All others that are built.
fn is_left_out(command: &Command) -> bool
    ensures { result ≡ (is_built command.now && not (is_plain command.now)) }
{
    matches!(
        command,
        Command::Time { .. }
            | Command::Open { .. }
            | Command::Hread { .. }
            | Command::Close { .. }
            | Command::Create { .. }
            | Command::Mkdir { .. }
            | Command::Setattr { .. }
            | Command::Setsec { .. }
            | Command::Write { .. }
            | Command::Hwrite { .. }
            | Command::Truncate { .. }
            | Command::Punch { .. }
            | Command::Rmstream { .. }
            | Command::Sd { .. }
    )
}
