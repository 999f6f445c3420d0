//! What a word has to say, and its printing.
ghost use Rattle.shell.specs.Report.{ending_of, text_of};
ghost use Rattle.shell.specs.Answers.{report_of};
ghost use Rattle.shell.specs.Printing.{EndsPrinting};

use crate::ending::Ending;
use crate::refusal::Refusal;
use crate::text::{Text, refusal_text};
use vol_disk::{Sink, write_all};

/// What a word that only reads has to say.
#[derive(Drop)]
pub enum Answer {
    /// A few short lines.
    Short(Text),
    /// Lines that may be long.
    Long(Vec<u8>),
    /// The volume is refused.
    Refused(Refusal),
    /// The volume is sound, but was not closed.
    Dirty,
}

/// Prints a text, and ends the run so where all of it was printed.
pub fn print<K: Sink>(out: &mut K, text: &[u8], whole: Ending) -> Ending
    ensures { EndsPrinting text.now whole result (K.got out.old) (K.got out.new) (K.faults out.old) (K.faults out.new) }
{
    match write_all(out, text) {
        Ok(()) => whole,
        Err(_) => Ending::Sink,
    }
}

/// Prints an answer, and ends the run.
pub fn show<K: Sink>(out: &mut K, answer: &Answer) -> Ending
    ensures { let report = report_of answer.now in
        EndsPrinting (text_of report) (ending_of report) result (K.got out.old) (K.got out.new) (K.faults out.old) (K.faults out.new) }
{
    match answer {
        Answer::Short(text) => print(out, text.as_slice(), Ending::Done),
        Answer::Long(text) => print(out, text.as_slice(), Ending::Done),
        Answer::Refused(refusal) => print(out, refusal_text(*refusal).as_slice(), Ending::Refused),
        Answer::Dirty => print(out, b"refused dirty\n", Ending::Refused),
    }
}
