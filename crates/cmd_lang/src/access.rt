//! What an open may do, and lets others do.
ghost use Rattle.std.specs.Prelude.{◌≡◌, ◌≢◌, ◌++◌, ◌∷◌, false, List, ℕ};
ghost use Rattle.cmd_lang.specs.Lines.{Finds};
ghost use Rattle.cmd_lang.specs.Words.{IsAccess, IsShare, letter_if, letters_of};

use tree_model::Access;

// Whether a letter stands in front of a text, and what stands behind it.
fn skip_letter(text: &[u8], letter: u8) -> (bool, &[u8])
    ensures parts { text.now ≡ letter_if result.0 letter ++ result.1.now }
    ensures absent { result.0 ≡ false → (rest : List ℕ) → result.1.now ≢ letter ∷ rest }
{
    match text {
        [first, rest @ ..] if *first == letter => (true, rest),
        _ => (false, text),
    }
}

// The choice of letters that a text is.
fn read_letters(text: &[u8]) -> Option<Access>
    ensures { Finds (λ access. text.now ≡ letters_of access) result }
{
    let (r, rest) = skip_letter(text, b'r');
    let (w, rest) = skip_letter(rest, b'w');
    let (d, rest) = skip_letter(rest, b'd');
    if rest.is_empty() {
        Some(Access { r, w, d })
    } else {
        None
    }
}

/// What an open may do.
pub fn read_access(text: &[u8]) -> Option<Access>
    ensures { Finds (IsAccess text.now) result }
{
    if text.is_empty() {
        return None;
    }
    read_letters(text)
}

/// What an open lets others do.
pub fn read_share(text: &[u8]) -> Option<Access>
    ensures { Finds (IsShare text.now) result }
{
    if text == b"-".as_slice() {
        return Some(Access {
            r: false,
            w: false,
            d: false,
        });
    }
    read_access(text)
}
