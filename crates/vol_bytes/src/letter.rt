//! The parts of name texts.

/// A part of a name text.
#[derive(Clone, Copy, Debug, PartialEq, Eq)]
pub enum Letter {
    /// One unit, by its number.
    Escaped(u16),
    /// A character, which stands for itself.
    Plain(char),
}
