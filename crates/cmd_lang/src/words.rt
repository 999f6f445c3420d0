//! Texts in pieces.
ghost use Rattle.std.specs.Prelude.{◌≡◌, ◌<◌, ◌∷◌, length, IfSome};
ghost use Rattle.cmd_lang.specs.Cuts.{AreThree, AreTwo, IsOnly, rest_of};
ghost use Rattle.cmd_lang.specs.Words.{pieces};

use memchr::memchr;

/// The first piece of a text, and what stands behind the separator that ends it.
#[derive(Clone, Copy)]
pub struct Parted<'a> {
    pub first: &'a [u8],
    pub rest: Option<&'a [u8]>,
}

/// The first piece.
pub fn cut(text: &[u8], separator: u8) -> Parted<'_>
    ensures pieces { pieces separator text.now ≡ result.first.now ∷ rest_of separator result.rest }
    ensures shorter { IfSome result.rest (λ rest. length rest.now < length text.now) }
{
    match memchr(separator, text) {
        None => Parted {
            first: text,
            rest: None,
        },
        Some(at) => Parted {
            first: &text[..at],
            rest: Some(&text[at + 1..]),
        },
    }
}

/// The only piece.
pub fn only<'a>(text: Option<&'a [u8]>, separator: u8) -> Option<&'a [u8]>
    ensures { IsOnly (rest_of separator text.entry) result }
{
    let first = cut(text?, separator);
    match first.rest {
        None => Some(first.first),
        Some(_) => None,
    }
}

/// The only word.
pub fn one<'a>(words: Option<&'a [u8]>) -> Option<&'a [u8]>
    ensures { IsOnly (rest_of 32 words.entry) result }
{
    only(words, b' ')
}

/// The only two words.
pub fn two<'a>(words: Option<&'a [u8]>) -> Option<(&'a [u8], &'a [u8])>
    ensures { AreTwo (rest_of 32 words.entry) result }
{
    let first = cut(words?, b' ');
    let second = one(first.rest)?;
    Some((first.first, second))
}

/// The only three words.
pub fn three<'a>(words: Option<&'a [u8]>) -> Option<(&'a [u8], &'a [u8], &'a [u8])>
    ensures { AreThree (rest_of 32 words.entry) result }
{
    let first = cut(words?, b' ');
    let (second, third) = two(first.rest)?;
    Some((first.first, second, third))
}
