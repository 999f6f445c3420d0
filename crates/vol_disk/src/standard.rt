//! A source and a sink over readers and writers, such as standard input and output.
ghost use Rattle.std.specs.Prelude.{◌≡◌, ◌<◌, ◌≤◌, length, take, None, IfSome, IfNone, IfOk, OnErr, is_ok};
ghost use Rattle.std.specs.Io.KnownBytes.{Keeps, Appends};
ghost use Rattle.vol_disk.specs.Count.{faults_after};
ghost use Rattle.vol_disk.specs.Passing.{Reads};

use crate::{Failed, Sink, Source};
use std::io::{ErrorKind, Read, Write};

/// A reader as a source. It tells no contents.
#[derive(Drop)]
pub struct StdSource<R: Read + Drop> {
    input: R,
    faults: u64,
}

impl<R: Read + Drop> StdSource<R> {
    ghost use Rattle.vol_disk.specs.Standards.{reader_of};

    /// The bytes that the reader gives.
    pub fn new(input: R) -> StdSource<R>
        ensures reader { reader_of result ≡ input }
        ensures left { ⟦<StdSource<R> as Source>⟧.left result ≡ None }
        ensures faults { ⟦<StdSource<R> as Source>⟧.faults result ≡ 0 }
    {
        StdSource { input, faults: 0 }
    }
}

// One read, asked for anew where a signal interrupted it.
fn read_some<R: Read>(input: &mut R, into: &mut [u8]) -> Option<usize>
    ensures within { IfSome result (λ n. n ≤ length into.old) }
    ensures reads { IfSome result (λ n. Reads (R.remaining input.old) (R.remaining input.new) n into.new) }
    ensures kept { IfNone result (Keeps (R.remaining input.old) (R.remaining input.new)) }
{
    for _ in 0..u64::MAX {
        match input.read(into) {
            Ok(n) => return Some(n),
            Err(error) if error.kind() == ErrorKind::Interrupted => {}
            Err(_) => return None,
        }
    }
    None
}

impl<R: Read + Drop> Source for StdSource<R> {
    ghost use Rattle.vol_disk.specs.Standards.{reader_of, source_faults};

    ghost left = { λ _. None };

    ghost faults = { λ source. source.faults };

    /// What the reader gives is passed on.
    fn read(&mut self, into: &mut [u8]) -> Result<usize, Failed>
        ensures within { IfOk result (λ n. n ≤ length into.old) }
        ensures reads { IfOk result
            (λ n. Reads (R.remaining (reader_of self.old)) (R.remaining (reader_of self.new)) n into.new) }
        ensures kept { OnErr result (Keeps (R.remaining (reader_of self.old)) (R.remaining (reader_of self.new))) }

        ensures faults { source_faults self.new ≡ faults_after (is_ok result) (source_faults self.old) }
        ensures rises { source_faults self.old ≤ source_faults self.new }
    {
        match read_some(&mut self.input, into) {
            Some(n) => Ok(n),
            None => {
                self.faults = self.faults.saturating_add(1);
                Err(Failed)
            }
        }
    }
}

/// A writer as a sink. It tells no contents.
#[derive(Drop)]
pub struct StdSink<W: Write + Drop> {
    output: W,
    faults: u64,
}

impl<W: Write + Drop> StdSink<W> {
    ghost use Rattle.vol_disk.specs.Standards.{writer_of};

    /// Bytes go to the writer. Where it takes nothing of a piece, the call fails.
    pub fn new(output: W) -> StdSink<W>
        ensures writer { writer_of result ≡ output }
        ensures got { ⟦<StdSink<W> as Sink>⟧.got result ≡ None }
        ensures faults { ⟦<StdSink<W> as Sink>⟧.faults result ≡ 0 }
    {
        StdSink { output, faults: 0 }
    }
}

// One write, asked for anew where a signal interrupted it. It fails where nothing was taken.
fn write_some<W: Write>(output: &mut W, from: &[u8]) -> Option<usize>
    ensures some { IfSome result (λ n. 0 < n) }
    ensures within { IfSome result (λ n. n ≤ length from.now) }
    ensures writes { IfSome result (λ n. Appends (W.contents output.old) (W.contents output.new) (take n from.now)) }
    ensures kept { IfNone result (Keeps (W.contents output.old) (W.contents output.new)) }
{
    for _ in 0..u64::MAX {
        match output.write(from) {
            Ok(0) => return None,
            Ok(n) => return Some(n),
            Err(error) if error.kind() == ErrorKind::Interrupted => {}
            Err(_) => return None,
        }
    }
    None
}

impl<W: Write + Drop> Sink for StdSink<W> {
    ghost use Rattle.vol_disk.specs.Standards.{writer_of, sink_faults};

    ghost got = { λ _. None };

    ghost faults = { λ sink. sink.faults };

    /// What the writer takes is taken.
    fn write(&mut self, from: &[u8]) -> Result<usize, Failed>
        requires { 0 < length from.now }
        ensures some { IfOk result (λ n. 0 < n) }
        ensures within { IfOk result (λ n. n ≤ length from.now) }
        ensures writes { IfOk result
            (λ n. Appends (W.contents (writer_of self.old)) (W.contents (writer_of self.new)) (take n from.now)) }
        ensures kept { OnErr result (Keeps (W.contents (writer_of self.old)) (W.contents (writer_of self.new))) }

        ensures faults { sink_faults self.new ≡ faults_after (is_ok result) (sink_faults self.old) }
        ensures rises { sink_faults self.old ≤ sink_faults self.new }
    {
        match write_some(&mut self.output, from) {
            Some(n) => Ok(n),
            None => {
                self.faults = self.faults.saturating_add(1);
                Err(Failed)
            }
        }
    }
}
