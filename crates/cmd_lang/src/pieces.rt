//! The parts of a reply whose length has no bound, printed piece by piece.
ghost use Rattle.std.specs.Prelude.{◌≤◌, flat_map, length};
ghost use Rattle.hex.specs.Hex.{encode_lower};
ghost use Rattle.vol_bytes.specs.NameText.{name_text};
ghost use Rattle.cmd_lang.specs.Output.{output, Prints};
ghost use Rattle.cmd_lang.specs.Printed.{bytes_text, path_word, step_text};

use crate::held::{Held, put};
use vol_bytes::{Name, first_text};
use vol_disk::{Failed, Sink};

/// The most bytes whose digits are laid out at once.
const CHUNK: usize = 256;

// Prints the digits of a few bytes.
fn put_chunk<K: Sink>(out: &mut K, held: &mut Held, bytes: &[u8]) -> Result<(), Failed>
    requires { length bytes.now ≤ 256 }
    ensures { Prints (output K.Sink out.old held.old.items) (output K.Sink out.new held.new.items) (encode_lower bytes.now) result }
{
    let mut digits = [0; 512];
    let digits = &mut digits[..2 * bytes.len()];
    hex::encode_to_slice(bytes, digits).unwrap();
    put(out, held, digits)
}

// Prints the digits of bytes.
fn put_digits<K: Sink>(out: &mut K, held: &mut Held, bytes: &[u8]) -> Result<(), Failed>
    ensures { Prints (output K.Sink out.old held.old.items) (output K.Sink out.new held.new.items) (encode_lower bytes.now) result }
{
    let mut rest = bytes;
    'chunks: while !rest.is_empty() {
        let (chunk, more) = rest.split_at(rest.len().min(CHUNK));
        put_chunk(out, held, chunk)?;
        rest = more;
    }
    Ok(())
}

/// Prints the digits of bytes, or `-` for none.
pub fn put_bytes<K: Sink>(out: &mut K, held: &mut Held, bytes: &[u8]) -> Result<(), Failed>
    ensures { Prints (output K.Sink out.old held.old.items) (output K.Sink out.new held.new.items) (bytes_text bytes.now) result }
{
    if bytes.is_empty() {
        return put(out, held, b"-");
    }
    put_digits(out, held, bytes)
}

/// Prints a name.
pub fn put_name<K: Sink>(out: &mut K, held: &mut Held, units: &[u16]) -> Result<(), Failed>
    ensures { Prints (output K.Sink out.old held.old.items) (output K.Sink out.new held.new.items) (name_text units.now) result }
{
    let mut rest = units;
    'characters: while !rest.is_empty() {
        let first = first_text(rest);
        put(out, held, first.text.as_slice())?;
        let (_, more) = rest.split_at(first.units);
        rest = more;
    }
    Ok(())
}

// Prints a name with a `/` in front.
fn put_step<K: Sink>(out: &mut K, held: &mut Held, name: &Name) -> Result<(), Failed>
    ensures { Prints (output K.Sink out.old held.old.items) (output K.Sink out.new held.new.items) (step_text name.now) result }
{
    put(out, held, b"/")?;
    put_name(out, held, name.as_slice())
}

// Prints names, each with a `/` in front.
fn put_steps<K: Sink>(out: &mut K, held: &mut Held, names: &[Name]) -> Result<(), Failed>
    ensures { Prints (output K.Sink out.old held.old.items) (output K.Sink out.new held.new.items) (flat_map step_text names.now) result }
{
    'names: for name in names {
        put_step(out, held, name)?;
    }
    Ok(())
}

/// Prints a path.
pub fn put_path<K: Sink>(out: &mut K, held: &mut Held, names: &[Name]) -> Result<(), Failed>
    ensures { Prints (output K.Sink out.old held.old.items) (output K.Sink out.new held.new.items) (path_word names.now) result }
{
    if names.is_empty() {
        return put(out, held, b"/");
    }
    put_steps(out, held, names)
}
