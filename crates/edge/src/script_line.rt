//! A line of a script of which the front is kept, and what is likely wrong with it where it is no command.
ghost use Rattle.std.specs.Prelude.{◌≡◌, [], ◌++◌, take};
ghost use Rattle.edge.specs.ScriptLines.{is_asking, last_or};

use crate::front::remember;
use crate::verbs::paths_behind;
use arrayvec::ArrayVec;
use memchr::{memchr, memmem};
use std::fmt;

/// How many bytes are kept of a line.
const KEPT: usize = 200;

/// What a text begins with that some editors write.
const BYTE_ORDER_MARK: &[u8] = b"\xEF\xBB\xBF";

/// A line, as far as its bytes came: its number, its front and its last byte.
#[derive(Drop)]
pub struct ScriptLine {
    number: u64,
    front: ArrayVec<u8, KEPT>,
    // 0 where no byte came.
    last: u8,
}

/// What is likely wrong with a line.
#[derive(Clone, Copy)]
pub enum Slip<'a> {
    ByteOrderMark,
    CarriageReturn,
    Tab,
    Spaces,
    /// This word is no command.
    NoCommand(&'a [u8]),
    /// This word stands where a path is wanted.
    NoPath(&'a [u8]),
    /// The words behind this command do not have its form.
    Form(&'a [u8]),
}

impl fmt::Display for Slip<'_> {
    fn fmt<W: fmt::Write>(&self, to: &mut fmt::Formatter<W>) -> fmt::Result {
        match *self {
            Slip::ByteOrderMark => {
                to.write_str("the script begins with a byte order mark, which no line has")
            }
            Slip::CarriageReturn => {
                to.write_str("it ends with a carriage return; a line ends with a newline alone")
            }
            Slip::Tab => to.write_str("it has a tab; one space stands between words"),
            Slip::Spaces => to.write_str(
                "it has two spaces in a row, or a space at an end; one space stands between words",
            ),
            Slip::NoCommand(word) => write!(
                to,
                "\"{}\" is no command; see docs/COMMANDS.md",
                word.escape_ascii()
            ),
            Slip::NoPath(word) => write!(
                to,
                "\"{}\" stands where a path is wanted, and a path begins with /",
                word.escape_ascii()
            ),
            Slip::Form(word) => write!(
                to,
                "it does not have the form of the command {}; see docs/COMMANDS.md",
                word.escape_ascii()
            ),
        }
    }
}

// The words of a line that are not looked at.
#[derive(Drop)]
struct Words<'a> {
    rest: Option<&'a [u8]>,
}

impl<'a> Words<'a> {
    fn next(&mut self) -> Option<&'a [u8]> {
        let rest = self.rest?;
        match memchr(b' ', rest) {
            Some(at) => {
                self.rest = Some(&rest[at + 1..]);
                Some(&rest[..at])
            }
            None => {
                self.rest = None;
                Some(rest)
            }
        }
    }
}

// Whether a word in front of a command tells a session.
fn is_session(word: &[u8]) -> bool {
    match word {
        [b'@', digit] => digit.is_ascii_digit(),
        [b'@', b'1', digit] => (b'0'..=b'5').contains(digit),
        _ => false,
    }
}

// Whether a word that stands where a path is wanted begins otherwise. Of a word that is cut off nothing may be there.
fn is_no_path(word: &[u8]) -> bool {
    match word {
        [] => false,
        [byte, ..] => *byte != b'/',
    }
}

// What is wrong with the words behind a command, so many of which are paths.
fn slip_behind<'a>(command: &'a [u8], paths: u8, words: &mut Words<'a>) -> Slip<'a> {
    for _ in 0..paths {
        match words.next() {
            Some(word) if is_no_path(word) => return Slip::NoPath(word),
            Some(_) => {}
            None => return Slip::Form(command),
        }
    }
    Slip::Form(command)
}

// Whether words have two spaces in a row, or one before them.
fn has_stray_space(words: &[u8]) -> bool {
    words.starts_with(b" ") || memmem::find(words, b"  ").is_some()
}

// What is wrong with words that have one space between them.
fn slip_of_words(front: &[u8]) -> Slip<'_> {
    let mut words = Words { rest: Some(front) };
    let Some(mut command) = words.next() else {
        return Slip::NoCommand(front);
    };
    if is_session(command) {
        command = words.next().unwrap_or(command);
    }
    match paths_behind(command) {
        Some(paths) => slip_behind(command, paths, &mut words),
        None => Slip::NoCommand(command),
    }
}

impl ScriptLine {
    /// The line of this number, of which no byte came.
    pub fn new(number: u64) -> ScriptLine
        ensures number { result.number ≡ number }
        ensures front { result.front.items ≡ [] }
        ensures last { result.last ≡ 0 }
    {
        ScriptLine {
            number,
            front: ArrayVec::new(),
            last: 0,
        }
    }

    /// Its number; that of the first line is 1.
    pub fn number(&self) -> u64
        ensures { result ≡ self.now.number }
    {
        self.number
    }

    /// These bytes of it came.
    pub fn add(&mut self, bytes: &[u8])
        ensures number { self.new.number ≡ self.old.number }
        ensures front { self.new.front.items ≡ take KEPT (self.old.front.items ++ bytes.now) }
        ensures last { self.new.last ≡ last_or self.old.last bytes.now }
    {
        remember(&mut self.front, bytes);
        self.last = bytes.last().copied().unwrap_or(self.last);
    }

    /// Whether it asks for something: it is neither empty nor a comment.
    pub fn is_command(&self) -> bool
        ensures { result ≡ is_asking self.now.front.items }
    {
        match self.front.as_slice() {
            [] => false,
            [byte, ..] => *byte != b'#',
        }
    }

    /// What is likely wrong with it, told from its front and its last byte.
    pub fn slip(&self) -> Slip<'_> {
        let front = self.front.as_slice();
        if self.number == 1 && front.starts_with(BYTE_ORDER_MARK) {
            return Slip::ByteOrderMark;
        }
        if self.last == b'\r' {
            return Slip::CarriageReturn;
        }
        if memchr(b'\t', front).is_some() {
            return Slip::Tab;
        }
        if has_stray_space(front) || self.last == b' ' {
            return Slip::Spaces;
        }
        slip_of_words(front)
    }
}
