//! Paths and targets.
ghost use Rattle.std.specs.Prelude.{[], ◌∷◌, IfOk};
ghost use Rattle.vol_bytes.specs.NameText.{IsNameText};
ghost use Rattle.cmd_lang.specs.Lines.{Finds};
ghost use Rattle.cmd_lang.specs.Targets.{FindsTarget};
ghost use Rattle.cmd_lang.specs.Words.{AreNames, IsBehind, IsPath, pieces};

use crate::words::{cut, only};
use std::alloc::{AllocError, Global};
use tree_model::Path;
use vol_bytes::{Name, TextFault, units_of_text};

/// A stream of a file, the unnamed one where none is named.
#[derive(Drop)]
pub struct Target {
    pub path: Path,
    pub stream: Option<Name>,
}

// The name that a text stands for.
fn read_name(alloc: Global, text: &[u8]) -> Result<Option<Name>, AllocError>
    ensures { IfOk result (Finds (IsNameText text.now)) }
{
    match units_of_text(alloc, text) {
        Ok(name) => Ok(Some(name)),
        Err(TextFault::Bad) => Ok(None),
        Err(TextFault::Memory) => Err(AllocError),
    }
}

// The names that a text stands for, with a `/` between them.
fn read_names(alloc: Global, text: &[u8]) -> Result<Option<Path>, AllocError>
    ensures { IfOk result (Finds (AreNames (pieces 47 text.now))) }
{
    let mut names = Vec::new(alloc);
    let mut rest = text;
    'parts: loop {
        let parted = cut(rest, b'/');
        let Some(name) = read_name(alloc, parted.first)? else {
            return Ok(None);
        };
        names.push(name)?;
        match parted.rest {
            None => return Ok(Some(Path::from_vec(names))),
            Some(more) => rest = more,
        }
    }
}

// The names behind the first `/`.
fn read_behind(alloc: Global, rest: &[u8]) -> Result<Option<Path>, AllocError>
    ensures { IfOk result (Finds (IsBehind rest.now)) }
{
    if rest.is_empty() {
        return Ok(Some(Path::from_vec(Vec::new(alloc))));
    }
    read_names(alloc, rest)
}

/// The path that a text stands for.
pub fn read_path(alloc: Global, text: &[u8]) -> Result<Option<Path>, AllocError>
    ensures { IfOk result (Finds (IsPath text.now)) }
{
    match text {
        [b'/', rest @ ..] => read_behind(alloc, rest),
        _ => Ok(None),
    }
}

// The target of two pieces, a path and a name of a stream.
fn read_named_stream(
    alloc: Global,
    first: &[u8],
    second: &[u8],
) -> Result<Option<Target>, AllocError>
    ensures { IfOk result (FindsTarget (first.now ∷ second.now ∷ [])) }
{
    let Some(path) = read_path(alloc, first)? else {
        return Ok(None);
    };
    match read_name(alloc, second)? {
        Some(stream) => Ok(Some(Target {
            path,
            stream: Some(stream),
        })),
        None => Ok(None),
    }
}

// The target of one piece, a path.
fn read_unnamed_stream(alloc: Global, first: &[u8]) -> Result<Option<Target>, AllocError>
    ensures { IfOk result (FindsTarget (first.now ∷ [])) }
{
    match read_path(alloc, first)? {
        Some(path) => Ok(Some(Target { path, stream: None })),
        None => Ok(None),
    }
}

/// The target that a text stands for.
pub fn read_target(alloc: Global, text: &[u8]) -> Result<Option<Target>, AllocError>
    ensures { IfOk result (FindsTarget (pieces 58 text.now)) }
{
    let parted = cut(text, b':');
    match parted.rest {
        None => read_unnamed_stream(alloc, parted.first),
        Some(_) => match only(parted.rest, b':') {
            Some(second) => read_named_stream(alloc, parted.first, second),
            None => Ok(None),
        },
    }
}
