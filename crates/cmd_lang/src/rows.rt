//! The words behind the first one, as a command.
ghost use Rattle.std.specs.Prelude.{IfOk};
ghost use Rattle.cmd_lang.specs.Cuts.{rest_of};
ghost use Rattle.cmd_lang.specs.Grammar.{AreRange, Row, Two};
ghost use Rattle.cmd_lang.specs.Lines.{Finds};
ghost use Rattle.cmd_lang.specs.Words.{IsPath};
ghost use Rattle.cmd_lang.specs.declared.verb.Verb.TheVariants as verb;

use crate::access::{read_access, read_share};
use crate::digits::{read_bytes, read_flags, read_some_bytes, read_tag};
use crate::numbers::{read_number, read_short_number};
use crate::paths::{Target, read_path, read_target};
use crate::verb::{PathVerb, Verb, path_command};
use crate::words::{one, three, two};
use std::alloc::{AllocError, Global};
use tree_model::{Command, Path};
use vol_bytes::Name;

/// A range of a stream, a place and a length in bytes.
#[derive(Drop)]
struct TargetRange {
    path: Path,
    stream: Option<Name>,
    at: u64,
    len: u64,
}

fn read_path_command(
    alloc: Global,
    which: PathVerb,
    words: Option<&[u8]>,
) -> Result<Option<Command>, AllocError>
    ensures { IfOk result (Finds (Row (verb.OfPath which) (rest_of 32 words.entry))) }
{
    let Some(word) = one(words) else {
        return Ok(None);
    };
    let Some(path) = read_path(alloc, word)? else {
        return Ok(None);
    };
    Ok(Some(path_command(which, path)))
}

fn read_time(words: Option<&[u8]>) -> Option<Command>
    ensures { Finds (Row verb.Time (rest_of 32 words.entry)) result }
{
    let word = one(words)?;
    let now = read_number(word)?;
    Some(Command::Time { now })
}

fn read_cat(alloc: Global, words: Option<&[u8]>) -> Result<Option<Command>, AllocError>
    ensures { IfOk result (Finds (Row verb.Cat (rest_of 32 words.entry))) }
{
    let Some(word) = one(words) else {
        return Ok(None);
    };
    let Some(Target { path, stream }) = read_target(alloc, word)? else {
        return Ok(None);
    };
    Ok(Some(Command::Cat { path, stream }))
}

// A target and a range of it, a place and a length in bytes.
fn read_range(alloc: Global, words: Option<&[u8]>) -> Result<Option<TargetRange>, AllocError>
    ensures { IfOk result (Finds (λ found. AreRange (rest_of 32 words.entry) found.path found.stream found.at found.len)) }
{
    let Some((first, second, third)) = three(words) else {
        return Ok(None);
    };
    let Some(at) = read_number(second) else {
        return Ok(None);
    };
    let Some(len) = read_number(third) else {
        return Ok(None);
    };
    let Some(Target { path, stream }) = read_target(alloc, first)? else {
        return Ok(None);
    };
    Ok(Some(TargetRange {
        path,
        stream,
        at,
        len,
    }))
}

fn read_read(alloc: Global, words: Option<&[u8]>) -> Result<Option<Command>, AllocError>
    ensures { IfOk result (Finds (Row verb.Read (rest_of 32 words.entry))) }
{
    let Some(range) = read_range(alloc, words)? else {
        return Ok(None);
    };
    Ok(Some(Command::Read {
        path: range.path,
        stream: range.stream,
        at: range.at,
        len: range.len,
    }))
}

fn read_two_paths(alloc: Global, words: Option<&[u8]>) -> Result<Option<(Path, Path)>, AllocError>
    ensures { IfOk result (Finds (λ found. Two (rest_of 32 words.entry) (λ a b. IsPath a found.0 × IsPath b found.1))) }
{
    let Some((first, second)) = two(words) else {
        return Ok(None);
    };
    let Some(old) = read_path(alloc, first)? else {
        return Ok(None);
    };
    match read_path(alloc, second)? {
        Some(new) => Ok(Some((old, new))),
        None => Ok(None),
    }
}

fn read_ln(alloc: Global, words: Option<&[u8]>) -> Result<Option<Command>, AllocError>
    ensures { IfOk result (Finds (Row verb.Ln (rest_of 32 words.entry))) }
{
    match read_two_paths(alloc, words)? {
        Some((old, new)) => Ok(Some(Command::Ln { old, new })),
        None => Ok(None),
    }
}

fn read_mv(alloc: Global, words: Option<&[u8]>) -> Result<Option<Command>, AllocError>
    ensures { IfOk result (Finds (Row verb.Mv (rest_of 32 words.entry))) }
{
    match read_two_paths(alloc, words)? {
        Some((old, new)) => Ok(Some(Command::Mv { old, new })),
        None => Ok(None),
    }
}

fn read_write(alloc: Global, words: Option<&[u8]>) -> Result<Option<Command>, AllocError>
    ensures { IfOk result (Finds (Row verb.Write (rest_of 32 words.entry))) }
{
    let Some((first, second, third)) = three(words) else {
        return Ok(None);
    };
    let Some(at) = read_number(second) else {
        return Ok(None);
    };
    let Some(Target { path, stream }) = read_target(alloc, first)? else {
        return Ok(None);
    };
    let Some(bytes) = read_some_bytes(alloc, third)? else {
        return Ok(None);
    };
    Ok(Some(Command::Write {
        path,
        stream,
        at,
        bytes,
    }))
}

fn read_truncate(alloc: Global, words: Option<&[u8]>) -> Result<Option<Command>, AllocError>
    ensures { IfOk result (Finds (Row verb.Truncate (rest_of 32 words.entry))) }
{
    let Some((first, second)) = two(words) else {
        return Ok(None);
    };
    let Some(size) = read_number(second) else {
        return Ok(None);
    };
    let Some(Target { path, stream }) = read_target(alloc, first)? else {
        return Ok(None);
    };
    Ok(Some(Command::Truncate { path, stream, size }))
}

fn read_punch(alloc: Global, words: Option<&[u8]>) -> Result<Option<Command>, AllocError>
    ensures { IfOk result (Finds (Row verb.Punch (rest_of 32 words.entry))) }
{
    let Some(range) = read_range(alloc, words)? else {
        return Ok(None);
    };
    Ok(Some(Command::Punch {
        path: range.path,
        stream: range.stream,
        at: range.at,
        len: range.len,
    }))
}

fn read_rmstream(alloc: Global, words: Option<&[u8]>) -> Result<Option<Command>, AllocError>
    ensures { IfOk result (Finds (Row verb.Rmstream (rest_of 32 words.entry))) }
{
    let Some(word) = one(words) else {
        return Ok(None);
    };
    let Some(Target { path, stream }) = read_target(alloc, word)? else {
        return Ok(None);
    };
    let Some(name) = stream else {
        return Ok(None);
    };
    Ok(Some(Command::Rmstream { path, name }))
}

fn read_setattr(alloc: Global, words: Option<&[u8]>) -> Result<Option<Command>, AllocError>
    ensures { IfOk result (Finds (Row verb.Setattr (rest_of 32 words.entry))) }
{
    let Some((first, second)) = two(words) else {
        return Ok(None);
    };
    let Some(flags) = read_flags(second) else {
        return Ok(None);
    };
    let Some(path) = read_path(alloc, first)? else {
        return Ok(None);
    };
    Ok(Some(Command::Setattr { path, flags }))
}

fn read_setsec(alloc: Global, words: Option<&[u8]>) -> Result<Option<Command>, AllocError>
    ensures { IfOk result (Finds (Row verb.Setsec (rest_of 32 words.entry))) }
{
    let Some((first, second)) = two(words) else {
        return Ok(None);
    };
    let Some(id) = read_short_number(second) else {
        return Ok(None);
    };
    let Some(path) = read_path(alloc, first)? else {
        return Ok(None);
    };
    Ok(Some(Command::Setsec { path, id }))
}

fn read_sd(words: Option<&[u8]>) -> Option<Command>
    ensures { Finds (Row verb.Sd (rest_of 32 words.entry)) result }
{
    let word = one(words)?;
    let id = read_short_number(word)?;
    Some(Command::Sd { id })
}

fn read_mkreparse(alloc: Global, words: Option<&[u8]>) -> Result<Option<Command>, AllocError>
    ensures { IfOk result (Finds (Row verb.Mkreparse (rest_of 32 words.entry))) }
{
    let Some((first, second, third)) = three(words) else {
        return Ok(None);
    };
    let Some(tag) = read_tag(second) else {
        return Ok(None);
    };
    let Some(path) = read_path(alloc, first)? else {
        return Ok(None);
    };
    let Some(bytes) = read_bytes(alloc, third)? else {
        return Ok(None);
    };
    Ok(Some(Command::Mkreparse { path, tag, bytes }))
}

fn read_df(words: Option<&[u8]>) -> Option<Command>
    ensures { Finds (Row verb.Df (rest_of 32 words.entry)) result }
{
    match words {
        None => Some(Command::Df),
        Some(_) => None,
    }
}

fn read_open(alloc: Global, words: Option<&[u8]>) -> Result<Option<Command>, AllocError>
    ensures { IfOk result (Finds (Row verb.Open (rest_of 32 words.entry))) }
{
    let Some((first, second, third)) = three(words) else {
        return Ok(None);
    };
    let Some(access) = read_access(second) else {
        return Ok(None);
    };
    let Some(share) = read_share(third) else {
        return Ok(None);
    };
    let Some(Target { path, stream }) = read_target(alloc, first)? else {
        return Ok(None);
    };
    Ok(Some(Command::Open {
        path,
        stream,
        access,
        share,
    }))
}

fn read_hread(words: Option<&[u8]>) -> Option<Command>
    ensures { Finds (Row verb.Hread (rest_of 32 words.entry)) result }
{
    let (first, second, third) = three(words)?;
    let handle = read_short_number(first)?;
    let at = read_number(second)?;
    let len = read_number(third)?;
    Some(Command::Hread { handle, at, len })
}

fn read_hwrite(alloc: Global, words: Option<&[u8]>) -> Result<Option<Command>, AllocError>
    ensures { IfOk result (Finds (Row verb.Hwrite (rest_of 32 words.entry))) }
{
    let Some((first, second, third)) = three(words) else {
        return Ok(None);
    };
    let Some(handle) = read_short_number(first) else {
        return Ok(None);
    };
    let Some(at) = read_number(second) else {
        return Ok(None);
    };
    let Some(bytes) = read_some_bytes(alloc, third)? else {
        return Ok(None);
    };
    Ok(Some(Command::Hwrite { handle, at, bytes }))
}

fn read_close(words: Option<&[u8]>) -> Option<Command>
    ensures { Finds (Row verb.Close (rest_of 32 words.entry)) result }
{
    let word = one(words)?;
    let handle = read_short_number(word)?;
    Some(Command::Close { handle })
}

/// The command of a first word and of the words behind it.
pub fn read_row(
    alloc: Global,
    verb: Verb,
    words: Option<&[u8]>,
) -> Result<Option<Command>, AllocError>
    ensures { IfOk result (Finds (Row verb (rest_of 32 words.entry))) }
{
    match verb {
        Verb::OfPath(which) => read_path_command(alloc, which, words),
        Verb::Time => Ok(read_time(words)),
        Verb::Cat => read_cat(alloc, words),
        Verb::Read => read_read(alloc, words),
        Verb::Ln => read_ln(alloc, words),
        Verb::Mv => read_mv(alloc, words),
        Verb::Write => read_write(alloc, words),
        Verb::Truncate => read_truncate(alloc, words),
        Verb::Punch => read_punch(alloc, words),
        Verb::Rmstream => read_rmstream(alloc, words),
        Verb::Setattr => read_setattr(alloc, words),
        Verb::Setsec => read_setsec(alloc, words),
        Verb::Sd => Ok(read_sd(words)),
        Verb::Mkreparse => read_mkreparse(alloc, words),
        Verb::Df => Ok(read_df(words)),
        Verb::Open => read_open(alloc, words),
        Verb::Hread => Ok(read_hread(words)),
        Verb::Hwrite => read_hwrite(alloc, words),
        Verb::Close => Ok(read_close(words)),
    }
}
