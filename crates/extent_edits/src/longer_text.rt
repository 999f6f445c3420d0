//! The text of an extent that goes on: where its runs end, and the bytes that come there.
ghost use Rattle.std.specs.Prelude.{◌≡◌, ◌++◌, ◌<◌, IfOk, List, length};
ghost use Rattle.ntfs_def.specs.Runs.{MeansRuns};
ghost use Rattle.ntfs_def.specs.declared.run_text.Run.{Run};
ghost use Rattle.data_runs.specs.Written.{IsWritten, IsWrittenFrom};
ghost use Rattle.extent_edits.specs.Texts.{SpellsFirst, last_of};

use crate::text::run_width;
use data_runs::{Run, RunList};
use std::alloc::{AllocError, Global};

/// Where the runs of a text end: the place of its ending zero byte.
pub fn runs_end(text: &[u8], runs: &[Run]) -> usize
    requires { MeansRuns text.now runs.now }
    ensures spells { SpellsFirst text.now runs.now result (length runs.now) }
    ensures inside { result < length text.now }
{
    let mut at = 0;
    let mut whole = 0;
    'runs: while whole < runs.len() {
        at += run_width(text, at);
        whole += 1;
    }
    at
}

// The written form of runs.
fn written_form(alloc: Global, runs: &RunList) -> Result<Vec<u8>, AllocError>
    ensures { IfOk result (λ text. IsWritten runs.now text.items) }
{
    let mut text = vec![in alloc; 0u8; runs.encoded_len()]?;
    runs.encode_into(&mut text);
    Ok(text)
}

/// The bytes that the written form of some runs has behind those of the first ones: the runs behind them, and the ending zero byte.
///
/// # Errors
///
/// Want of memory alone.
pub fn added_text(alloc: Global, runs: &RunList, all: &RunList) -> Result<Vec<u8>, AllocError>
    requires { (more : List Run) × all.now ≡ runs.now ++ more }
    ensures { IfOk result (λ added. (more : List Run) → all.now ≡ runs.now ++ more
        → IsWrittenFrom (last_of 0 runs.now) more added.items) }
{
    let text = written_form(alloc, all)?;
    Vec::from_slice(alloc, &text[runs.encoded_len() - 1..])
}
