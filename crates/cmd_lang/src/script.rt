//! The generated script: numbers are drawn one after another, and each tells a line.
ghost use Rattle.std.specs.Prelude.{◌≡◌, ◌<◌, [], ◌∷◌, IfOk};
ghost use Rattle.cmd_lang.specs.Sayable.{IsSayable};
ghost use Rattle.cmd_lang.specs.Script.{at_directory, in_directory, line_of, line_of_draw, next_draw, numbered};

use std::alloc::{AllocError, AllocFailed, Global};
use thiserror::Error;
use tree_model::{Command, Path};
use vol_bytes::{Name, Octets};

/// Why a line is not made.
#[derive(Clone, Copy, Debug, PartialEq, Eq, Error)]
pub enum ScriptNo {
    /// There was no memory.
    #[error("out of memory")]
    Memory,
}

impl From<AllocError> for ScriptNo {
    ghost use Rattle.cmd_lang.specs.declared.script.ScriptNo.TheVariants.{Memory};

    ghost from_gives = { λ _ e. e ≡ Memory };

    fn from(_: AllocError) -> ScriptNo {
        ScriptNo::Memory
    }
}

impl<T: Drop> From<AllocFailed<T>> for ScriptNo {
    ghost use Rattle.cmd_lang.specs.declared.script.ScriptNo.TheVariants.{Memory};

    ghost from_gives = { λ _ e. e ≡ Memory };

    fn from(_: AllocFailed<T>) -> ScriptNo {
        ScriptNo::Memory
    }
}

/// The number that is drawn after `x`.
pub fn next_draw(x: u64) -> u64
    ensures { result ≡ next_draw x }
{
    x.wrapping_mul(6_364_136_223_846_793_005)
        .wrapping_add(1_442_695_040_888_963_407)
}

/// The line of a number that was drawn, which a script may say.
///
/// # Errors
///
/// `Memory` alone.
pub fn make_script(alloc: Global, x: u64) -> Result<Command, ScriptNo>
    ensures line { IfOk result (λ command. command ≡ line_of_draw x) }
    ensures sayable { IfOk result IsSayable }
{
    let drawn = x >> 33;
    let directory = drawn % 16;
    let file = drawn / 16 % 64;
    let what = drawn / 1024 % 8;
    let byte = (drawn / 8192 % 256) as u8;
    make_line(alloc, what, directory, file, byte)
}

// The line that does this, of a directory, a file and a byte.
fn make_line(
    alloc: Global,
    what: u64,
    directory: u64,
    file: u64,
    byte: u8,
) -> Result<Command, ScriptNo>
    requires { directory < 64 }
    ensures { IfOk result (λ command. command ≡ line_of what directory file byte) }
{
    if what == 0 {
        let path = at_directory(alloc, directory)?;
        return Ok(Command::Mkdir { path });
    }
    let path = in_directory(alloc, directory, b'f', file)?;
    if what <= 2 {
        Ok(Command::Create { path })
    } else if what <= 4 {
        let bytes = Octets::from_vec(vec![in alloc; byte; 16]?);
        Ok(Command::Write {
            path,
            stream: None,
            at: 512 * u64::from(byte),
            bytes,
        })
    } else if what == 5 {
        Ok(Command::Rm { path })
    } else if what == 6 {
        let new = in_directory(alloc, directory, b'g', file)?;
        Ok(Command::Ln { old: path, new })
    } else {
        let new = in_directory(alloc, (directory + 1) % 16, b'f', file)?;
        Ok(Command::Mv { old: path, new })
    }
}

// The path to a directory.
fn at_directory(alloc: Global, directory: u64) -> Result<Path, ScriptNo>
    ensures { IfOk result (λ path. path ≡ at_directory directory) }
{
    let mut names = Vec::new(alloc);
    names.push(numbered(alloc, b'd', directory)?)?;
    Ok(Path::from_vec(names))
}

// The path to a name in a directory.
fn in_directory(alloc: Global, directory: u64, letter: u8, file: u64) -> Result<Path, ScriptNo>
    ensures { IfOk result (λ path. path ≡ in_directory directory letter file) }
{
    let mut names = Vec::new(alloc);
    names.push(numbered(alloc, b'd', directory)?)?;
    names.push(numbered(alloc, letter, file)?)?;
    Ok(Path::from_vec(names))
}

// A letter, and a number behind it.
fn numbered(alloc: Global, letter: u8, number: u64) -> Result<Name, ScriptNo>
    ensures { IfOk result (λ name. name ≡ numbered letter number) }
{
    let mut units = Vec::new(alloc);
    units.push(u16::from(letter))?;
    let mut buffer = itoa::Buffer::new();
    let digits = buffer.format(number).as_bytes();
    'digits: for digit in digits {
        units.push(u16::from(*digit))?;
    }
    Ok(Name::from_vec(units))
}
