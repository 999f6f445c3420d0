//! The label of a new volume, as the command line has it.
ghost use Rattle.std.specs.Prelude.{◌≡◌, ◌+◌, ◌<◌, ◌≤◌, ◌↔◌, ◌++◌, ◌∷◌, ℕ, List, Some, IfOk, IfSome, IsErr, IsTrue, length};
ghost use Rattle.std.specs.Str.Iter.{chars_rest};
ghost use Rattle.vol_bytes.specs.NameText.{escape_digit, escape_of, IsSpelled};
ghost use Rattle.shell.specs.Words.{IsLabelText};

use std::alloc::{AllocError, Global};
use std::str::Chars;
use vol_bytes::{Name, TextFault, units_of_text};

// The most units of a label.
const MOST_UNITS: usize = 32;

// Passes over a digit of an escape.
fn skip_digit(chars: &mut Chars<'_>)
    ensures digit { (value : ℕ) (rest : List ℕ) → value < 16 → chars_rest chars.old ≡ escape_digit value ∷ rest
        → chars_rest chars.new ≡ rest }
    ensures shorter { length (chars_rest chars.new) ≤ length (chars_rest chars.old) }
{
    let _ = chars.next();
}

// Passes over the digits of an escape, behind its `%`.
fn skip_digits(chars: &mut Chars<'_>)
    ensures digits { (unit : ℕ) (rest : List ℕ) → unit < 0x10000 → 0x25 ∷ chars_rest chars.old ≡ escape_of unit ++ rest
        → chars_rest chars.new ≡ rest }
    ensures shorter { length (chars_rest chars.new) ≤ length (chars_rest chars.old) }
{
    skip_digit(chars);
    skip_digit(chars);
    skip_digit(chars);
    skip_digit(chars);
}

// Whether a name text stands for few enough units. It takes no memory.
fn is_short(text: &str) -> bool
    ensures { (units : List ℕ) → IsSpelled text.now units → IsTrue result ↔ (length units ≤ 32) }
{
    let mut room = MOST_UNITS;
    let mut chars = text.chars();
    'letters: while let Some(char) = chars.next() {
        if char.len_utf16() > room {
            return false;
        }
        room -= char.len_utf16();
        if char == '%' {
            skip_digits(&mut chars);
        }
    }
    true
}

/// The units of a label, where the text is one.
///
/// # Errors
///
/// Where there is no memory for a label.
pub fn read_label(alloc: Global, text: &str) -> Result<Option<Name>, AllocError>
    ensures label { IfOk result (λ found. IfSome found (IsLabelText text.now)) }
    ensures exact { (units : List ℕ) → IsLabelText text.now units → IfOk result (λ found. found ≡ Some units) }
    ensures memory { IsErr result → ¬ ((units : List ℕ) → IsLabelText text.now units → ⊥) }
{
    if !is_short(text) {
        return Ok(None);
    }
    match units_of_text(alloc, text.as_bytes()) {
        Ok(name) => Ok(Some(name)),
        Err(TextFault::Bad) => Ok(None),
        Err(TextFault::Memory) => Err(AllocError),
    }
}
