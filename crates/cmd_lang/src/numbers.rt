//! Numbers.
ghost use Rattle.std.specs.Prelude.{◌≡◌, ◌^◌, ◌↔◌, decimal, IsTrue};
ghost use Rattle.cmd_lang.specs.Grammar.{IsSession};
ghost use Rattle.cmd_lang.specs.Lines.{Finds};
ghost use Rattle.cmd_lang.specs.Words.{IsNumber};

// Whether this is how the number is written.
fn is_written(text: &[u8], number: u64) -> bool
    ensures { IsTrue result ↔ (text.now ≡ decimal number) }
{
    itoa::Buffer::new().format(number).as_bytes() == text
}

/// The number that a text writes in decimal, without a sign or a leading zero.
pub fn read_number(text: &[u8]) -> Option<u64>
    ensures { Finds (IsNumber (2 ^ 64) text.now) result }
{
    let Ok(digits) = str::from_utf8(text) else {
        return None;
    };
    let Ok(number) = digits.parse::<u64>() else {
        return None;
    };
    if is_written(text, number) {
        Some(number)
    } else {
        None
    }
}

/// The same of a number of 32 bits.
pub fn read_short_number(text: &[u8]) -> Option<u32>
    ensures { Finds (IsNumber (2 ^ 32) text.now) result }
{
    u32::try_from(read_number(text)?).ok()
}

// The number that a text writes, where it is that of a session.
fn read_session_number(text: &[u8]) -> Option<u8>
    ensures { Finds (IsNumber 16 text.now) result }
{
    let session = read_number(text)?;
    if session > 15 {
        return None;
    }
    Some(session as u8)
}

/// The session of a first word, as in `@7`.
pub fn read_session(word: &[u8]) -> Option<u8>
    ensures { Finds (IsSession word.now) result }
{
    match word {
        [b'@', digits @ ..] => read_session_number(digits),
        _ => None,
    }
}
