//! The printed form of names, a character at a time and without memory.
ghost use Rattle.std.specs.Prelude.{◌≡◌, ◌<◌, ◌≤◌, ◌++◌, drop, length, slice_index, encode_utf8, true};
ghost use Rattle.std.specs.Char.Utf16.{surrogate_pair_char};
ghost use Rattle.vol_bytes.specs.NameText.{are_pair, escape_digit, escape_of, is_escaped, name_text, printed_unit};

use arrayvec::ArrayVec;

/// The text of a character: at most four bytes in UTF-8, or the five of an escape.
type CharText = ArrayVec<u8, 5>;

/// The printed form of the first character of a name, and how many units it stands for.
#[derive(Drop)]
pub struct FirstText {
    pub text: CharText,
    pub units: usize,
}

fn are_pair(high: u16, low: u16) -> bool
    ensures { result ≡ are_pair high low }
{
    matches!(high, 0xD800..=0xDBFF) && matches!(low, 0xDC00..=0xDFFF)
}

fn is_escaped(unit: u16) -> bool
    ensures { result ≡ is_escaped unit }
{
    matches!(unit, 0..=0x20 | 0x25 | 0x2F | 0x3A | 0x7F | 0xD800..=0xDFFF)
}

// The character of a pair of surrogates.
fn pair_char(high: u16, low: u16) -> char
    requires { are_pair high low ≡ true }
    ensures { result ≡ surrogate_pair_char high low }
{
    let code = 0x1_0000 + (u32::from(high) - 0xD800) * 0x400 + (u32::from(low) - 0xDC00);
    char::from_u32(code).unwrap()
}

fn escape_digit(value: u16) -> u8
    requires { value < 16 }
    ensures { result ≡ escape_digit value }
{
    b"0123456789ABCDEF"[usize::from(value)]
}

fn escape(unit: u16) -> CharText
    ensures { result.items ≡ escape_of unit }
{
    ArrayVec::from([
        b'%',
        escape_digit(unit / 4096),
        escape_digit(unit / 256 % 16),
        escape_digit(unit / 16 % 16),
        escape_digit(unit % 16),
    ])
}

fn char_text(char: char) -> CharText
    ensures { result.items ≡ encode_utf8 char }
{
    let mut bytes = [0; 4];
    let mut text = CharText::new();
    text.try_extend_from_slice(char.encode_utf8(&mut bytes).as_bytes())
        .unwrap();
    text
}

fn unit_text(unit: u16) -> CharText
    ensures { result.items ≡ printed_unit unit }
{
    if is_escaped(unit) {
        return escape(unit);
    }
    char_text(char::from_u32(u32::from(unit)).unwrap())
}

fn begins_with_pair(units: &[u16]) -> bool
    ensures two { result ≡ true → 2 ≤ length units.now }
    ensures pair { 2 ≤ length units.now → result ≡ are_pair (slice_index units.now 0) (slice_index units.now 1) }
{
    match units {
        [high, low, ..] => are_pair(*high, *low),
        _ => false,
    }
}

/// The printed form of the first character of a name: a character of one unit or of a pair in UTF-8, or an escape.
pub fn first_text(units: &[u16]) -> FirstText
    requires { 0 < length units.now }
    ensures some { 0 < result.units }
    ensures within { result.units ≤ length units.now }
    ensures printed { name_text units.now ≡ result.text.items ++ name_text (drop result.units units.now) }
{
    if begins_with_pair(units) {
        return FirstText {
            text: char_text(pair_char(units[0], units[1])),
            units: 2,
        };
    }
    FirstText {
        text: unit_text(units[0]),
        units: 1,
    }
}
