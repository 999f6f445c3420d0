//! What is noted of a script while it runs: a source and a sink over those of the run see the bytes go by, so that a person can
//! be told of the lines that were no commands.
ghost use Rattle.std.specs.Prelude.{◌≡◌, ◌⊎◌, ◌+◌, ◌<◌, ◌≤◌, ◌↔◌, [], ◌++◌, length, take, drop, min, IsTrue, IsSome, IfSome, if◌then◌else◌};
ghost use Rattle.std.specs.Bool.{OnFalse};
ghost use Rattle.arrayvec.specs.ArrayVec.{array_vec_len};
ghost use Rattle.vol_disk.specs.Count.{next_count};
ghost use Rattle.edge.specs.ScriptLines.{line_in};

use crate::front::{Front, remember};
use crate::script_line::ScriptLine;
use arrayvec::ArrayVec;
use memchr::memchr;
use std::cell::RefCell;
use std::{fmt, mem};
use vol_disk::{Failed, Sink, Source};

/// The most bytes that the source gives at once: as many as a run asks for.
const PIECE: usize = 512;

/// The lines of a script that were answered `no 1 Syntax`. A reply answers the next line that is neither empty nor a comment,
/// and the source is not asked for more before all lines that ended are answered, so what it gave last is all that is kept.
#[derive(Drop)]
pub struct ScriptNotes {
    // What the source gave last, and how many bytes of it stand in `line` or before it.
    piece: ArrayVec<u8, PIECE>,
    at: usize,
    // The line that is not answered.
    line: ScriptLine,
    // How the line began that is printed.
    printed: Front,
    // How many lines were no commands, and the first of them.
    count: u64,
    first: Option<ScriptLine>,
    ghost within: { at ≤ array_vec_len piece },
    ghost told: { IsSome first ↔ (0 < count) },
}

/// The lines that were answered `no 1 Syntax`, as a person is told of them.
#[derive(Clone, Copy)]
pub struct Slips<'a> {
    count: u64,
    first: &'a ScriptLine,
}

impl fmt::Display for Slips<'_> {
    fn fmt<W: fmt::Write>(&self, to: &mut fmt::Formatter<W>) -> fmt::Result {
        let (number, slip) = (self.first.number(), self.first.slip());
        match self.count {
            1 => write!(to, "1 line was answered no 1 Syntax, line {number}: {slip}"),
            count => write!(
                to,
                "{count} lines were answered no 1 Syntax, the first of them line {number}: {slip}"
            ),
        }
    }
}

// The bytes of a text before its first newline, or all, and whether it has one.
fn split_line(text: &[u8]) -> (&[u8], bool)
    ensures part { result.0.now ≡ line_in text.now }
    ensures ended { IsTrue result.1 ↔ (length result.0.now < length text.now) }
    ensures open { OnFalse result.1 (result.0.now ≡ text.now) }
{
    match memchr(b'\n', text) {
        Some(len) => (&text[..len], true),
        None => (text, false),
    }
}

impl ScriptNotes {
    ghost use Rattle.edge.specs.ScriptLines.{is_asking, last_or};
    ghost use Rattle.edge.specs.Noted.{KeepsSlips, all_printed, line_ended, printed_of, unprinted};

    /// Nothing came, and nothing was printed.
    pub fn new() -> ScriptNotes
        ensures { printed_of result ≡ unprinted }
    {
        ScriptNotes {
            piece: ArrayVec::new(),
            at: 0,
            line: ScriptLine::new(1),
            printed: Front::new(),
            count: 0,
            first: None,
        }
    }

    /// The lines that were answered `no 1 Syntax`, where some were.
    pub fn slips(&self) -> Option<Slips<'_>>
        ensures some { IsSome result ↔ (0 < (printed_of self.now).slips) }
        ensures count { IfSome result (λ slips. slips.count ≡ (printed_of self.now).slips) }
    {
        match self.first.as_ref() {
            Some(first) => Some(Slips {
                count: self.count,
                first,
            }),
            None => None,
        }
    }

    // Goes on to the end of the line, or of the piece, and tells whether the line ended.
    fn end_line(&mut self) -> bool
        ensures piece { self.new.piece ≡ self.old.piece }
        ensures kept { KeepsSlips self.old self.new }
        ensures number { self.new.line.number ≡ self.old.line.number }
        ensures front { let part = line_in (drop self.old.at self.old.piece.items) in
            self.new.line.front.items ≡ take 200 (self.old.line.front.items ++ part) }
        ensures last { let part = line_in (drop self.old.at self.old.piece.items) in
            self.new.line.last ≡ last_or self.old.line.last part }
        ensures at { let part = line_in (drop self.old.at self.old.piece.items) in
            self.new.at ≡ min (self.old.at + length part + 1) (array_vec_len self.old.piece) }
        ensures ended { let part = line_in (drop self.old.at self.old.piece.items) in
            IsTrue result ↔ (self.old.at + length part < array_vec_len self.old.piece) }
        ensures rises { IsTrue result → self.old.at < self.new.at }
        ensures all { OnFalse result (self.new.at ≡ array_vec_len self.old.piece) }
    {
        let (part, is_ended) = split_line(&self.piece.as_slice()[self.at..]);
        let len = part.len();
        self.line.add(part);
        if !is_ended {
            self.at = self.piece.len();
            return false;
        }
        self.at += len + 1;
        true
    }

    // Begins the next line, and gives the one before it.
    fn begin_line(&mut self) -> ScriptLine
        ensures before { result ≡ self.old.line }
        ensures number { self.new.line.number ≡ next_count self.old.line.number }
        ensures empty { self.new.line.front.items ≡ [] }
        ensures piece { self.new.piece ≡ self.old.piece }
        ensures at { self.new.at ≡ self.old.at }
        ensures kept { KeepsSlips self.old self.new }
    {
        let number = self.line.number().saturating_add(1);
        mem::replace(&mut self.line, ScriptLine::new(number))
    }

    // Goes on to the end of the next command, or of the piece.
    fn end_command(&mut self)
        ensures kept { KeepsSlips self.old self.new }
        ensures found { IsTrue (is_asking self.new.line.front.items) ⊎ (self.new.at ≡ array_vec_len self.new.piece) }
    {
        for _ in 0..self.piece.len() {
            if !self.end_line() || self.line.is_command() {
                return;
            }
            let _ = self.begin_line();
        }
    }

    // Goes on to the end of the piece.
    fn end_piece(&mut self)
        ensures kept { KeepsSlips self.old self.new }
        ensures all { self.new.at ≡ array_vec_len self.new.piece }
    {
        for _ in 0..self.piece.len() {
            if !self.end_line() {
                return;
            }
            let _ = self.begin_line();
        }
    }

    // The source gave these bytes.
    fn hear(&mut self, bytes: &[u8])
        ensures piece { self.new.piece.items ≡ take PIECE bytes.now }
        ensures at { self.new.at ≡ 0 }
        ensures kept { KeepsSlips self.old self.new }
    {
        self.end_piece();
        self.at = 0;
        self.piece.clear();
        remember(&mut self.piece, bytes);
    }

    // The next command was answered.
    fn answer(&mut self, is_syntax: bool)
        ensures first { IsSome self.old.first → self.new.first ≡ self.old.first }
        ensures printed { self.new.printed ≡ self.old.printed }
        ensures count { self.new.count ≡ (if is_syntax then next_count self.old.count else self.old.count) }
    {
        self.end_command();
        let line = self.begin_line();
        if is_syntax {
            self.count = self.count.saturating_add(1);
            if self.first.is_none() {
                self.first = Some(line);
            }
        }
    }

    // The line that is printed ended. The last line of a reply is `ok`, or says no.
    fn end_printed(&mut self)
        ensures first { IsSome self.old.first → self.new.first ≡ self.old.first }
        ensures printed { printed_of self.new ≡ line_ended self.old.printed.items self.old.count }
    {
        let printed = self.printed.as_slice();
        let is_syntax = printed == b"no 1 Syntax".as_slice();
        let is_last = printed == b"ok".as_slice() || printed.starts_with(b"no ");
        self.printed.clear();
        if is_last {
            self.answer(is_syntax);
        }
    }

    // The sink took these bytes.
    fn print(&mut self, bytes: &[u8])
        ensures first { IsSome self.old.first → self.new.first ≡ self.old.first }
        ensures printed { printed_of self.new ≡ all_printed (printed_of self.old) bytes.now }
    {
        let mut rest = bytes;
        for _ in 0..bytes.len() {
            match memchr(b'\n', rest) {
                Some(len) => {
                    remember(&mut self.printed, &rest[..len]);
                    self.end_printed();
                    rest = &rest[len + 1..];
                }
                None => {
                    remember(&mut self.printed, rest);
                    return;
                }
            }
        }
    }
}

/// A source over another, of which is noted what it gives.
#[derive(Drop)]
pub struct NotedSource<'a, S: Source + Drop> {
    inner: S,
    notes: &'a RefCell<ScriptNotes>,
}

impl<'a, S: Source + Drop> NotedSource<'a, S> {
    ghost use Rattle.edge.specs.Noted.{source_of};

    /// All comes from `inner`.
    pub fn new(notes: &'a RefCell<ScriptNotes>, inner: S) -> NotedSource<'a, S>
        ensures { source_of result ≡ inner }
    {
        NotedSource { inner, notes }
    }
}

impl<S: Source + Drop> Source for NotedSource<'_, S> {
    ghost left = { λ source. S.Source.left source.inner };

    ghost faults = { λ source. S.Source.faults source.inner };

    fn read(&mut self, into: &mut [u8]) -> Result<usize, Failed> {
        let len = into.len().min(PIECE);
        let n = self.inner.read(&mut into[..len])?;
        if let Ok(mut notes) = self.notes.try_borrow_mut() {
            notes.hear(&into[..n]);
        }
        Ok(n)
    }
}

/// A sink over another, of which is noted what it takes.
#[derive(Drop)]
pub struct NotedSink<'a, K: Sink + Drop> {
    inner: K,
    notes: &'a RefCell<ScriptNotes>,
}

impl<'a, K: Sink + Drop> NotedSink<'a, K> {
    ghost use Rattle.edge.specs.Noted.{sink_of};

    /// All goes to `inner`.
    pub fn new(notes: &'a RefCell<ScriptNotes>, inner: K) -> NotedSink<'a, K>
        ensures { sink_of result ≡ inner }
    {
        NotedSink { inner, notes }
    }
}

impl<K: Sink + Drop> Sink for NotedSink<'_, K> {
    ghost got = { λ sink. K.Sink.got sink.inner };

    ghost faults = { λ sink. K.Sink.faults sink.inner };

    fn write(&mut self, from: &[u8]) -> Result<usize, Failed> {
        let n = self.inner.write(from)?;
        if let Ok(mut notes) = self.notes.try_borrow_mut() {
            notes.print(&from[..n]);
        }
        Ok(n)
    }
}
