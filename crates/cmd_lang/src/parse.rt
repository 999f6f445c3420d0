//! Lines, as commands of sessions.
ghost use Rattle.std.specs.Prelude.{◌≡◌, IfOk};
ghost use Rattle.cmd_lang.specs.Grammar.{AreWords, IsCommand};
ghost use Rattle.cmd_lang.specs.Lines.{Finds, FindsIn, FindsSaid, Means};
ghost use Rattle.cmd_lang.specs.Words.{pieces};

use crate::numbers::read_session;
use crate::rows::read_row;
use crate::verb::verb_of;
use crate::words::cut;
use std::alloc::{AllocError, Global};
use thiserror::Error;
use tree_model::Command;

/// The most bytes of a line.
const MOST_BYTES: usize = 70_000;

/// Why a line is no command.
#[derive(Clone, Copy, Debug, PartialEq, Eq, Error)]
pub enum LineFault {
    /// The line is not in the grammar.
    #[error("the line is not in the grammar")]
    Syntax,
    /// The line has more than 70,000 bytes.
    #[error("the line is too long")]
    Long,
    /// Memory ran out.
    #[error("out of memory")]
    Memory,
}

impl From<AllocError> for LineFault {
    ghost use Rattle.cmd_lang.specs.declared.parse.LineFault.TheVariants.{Memory};

    ghost from_gives = { λ _ fault. fault ≡ Memory };

    fn from(_error: AllocError) -> LineFault {
        LineFault::Memory
    }
}

// The command of a text without a session.
fn parse_command(alloc: Global, text: &[u8]) -> Result<Option<Command>, AllocError>
    ensures { IfOk result (Finds (IsCommand (pieces 32 text.now))) }
{
    let parted = cut(text, b' ');
    match verb_of(parted.first) {
        Some(verb) => read_row(alloc, verb, parted.rest),
        None => Ok(None),
    }
}

// A session and its command.
fn parse_in_session(
    alloc: Global,
    session: u8,
    text: &[u8],
) -> Result<Option<(u8, Command)>, AllocError>
    ensures { IfOk result (FindsIn session (IsCommand (pieces 32 text.now))) }
{
    match parse_command(alloc, text)? {
        Some(command) => Ok(Some((session, command))),
        None => Ok(None),
    }
}

// The session and the command of a text.
fn parse_words(alloc: Global, text: &[u8]) -> Result<Option<(u8, Command)>, AllocError>
    ensures { IfOk result (FindsSaid (AreWords (pieces 32 text.now))) }
{
    let parted = cut(text, b' ');
    let Some(session) = read_session(parted.first) else {
        return parse_in_session(alloc, 0, text);
    };
    match parted.rest {
        Some(rest) => parse_in_session(alloc, session, rest),
        None => Ok(None),
    }
}

/// What a line of a script says, without the byte that ends it: a session and its command.
///
/// # Errors
///
/// `Long` exactly where the line has more than 70,000 bytes, `Syntax` exactly where it has not and is not in the
/// grammar, and `Memory`.
pub fn parse_line(alloc: Global, line: &[u8]) -> Result<(u8, Command), LineFault>
    ensures { Means line.now result }
{
    if line.len() > MOST_BYTES {
        return Err(LineFault::Long);
    }
    match parse_words(alloc, line)? {
        Some(said) => Ok(said),
        None => Err(LineFault::Syntax),
    }
}
