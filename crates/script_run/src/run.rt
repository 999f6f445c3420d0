//! All lines of a script, and the closing of the volume.
ghost use Rattle.std.specs.Prelude.{◌≡◌, ◌≢◌, ◌<◌, ℕ, List, None, Option, Some, MatchOption};
ghost use Rattle.script_lines.specs.Reading.{consumed_of};
ghost use Rattle.session_def.specs.State.{Begins, State};
ghost use Rattle.tree_ops.specs.Serves.{Serves};
ghost use Rattle.tree_ops.specs.Runs.{Ready};
ghost use Rattle.tree_ops.specs.Volumes.{VolumeGoesOn, disk_under, mark_of};
ghost use Rattle.script_run.specs.Ran.{BlamesEnd, Ran};
ghost use Rattle.script_run.specs.Says.{of_script};
ghost use Rattle.script_run.specs.SoFar.{BlamesLines, RanLines, SoFar};
ghost use Rattle.script_run.specs.World.{NoFaults, world};

use crate::end::ScriptEnd;
use crate::turn::{Went, take_turn};
use script_lines::{LineReader, Next};
use std::alloc::Global;
use tree_ops::Volume;
use vol_disk::{Disk, Sink, Source};

// Takes one line. None where the run goes on.
fn run_line<D: Disk, S: Source, K: Sink>(
    alloc: Global,
    volume: &mut Volume<'_, D>,
    script: &mut S,
    out: &mut K,
    reader: &mut LineReader,
    line: &mut Vec<u8>,
) -> Option<ScriptEnd>
    requires serves { Serves D.Disk volume.old }
    ensures serves { MatchOption result (Serves D.Disk volume.new) (λ end. end ≢ ScriptEnd.Device → Serves D.Disk volume.new) }
    ensures keeps { VolumeGoesOn D.Disk volume.old volume.new }
    ensures goes_on { result ≡ None → consumed_of reader.old < consumed_of reader.new }
    ensures faults { let old = world D.Disk S.Source K.Sink (disk_under D.Disk volume.old) script.old out.old in
        let new = world D.Disk S.Source K.Sink (disk_under D.Disk volume.new) script.new out.new in
        MatchOption result (NoFaults old new) (λ end. BlamesLines end old new) }
    ensures did { (first : State) (text : List ℕ) (before : Option (List ℕ)) (past : Option (List (List ℕ)))
        → SoFar D.Disk S.Source first text before past volume.old script.old (K.got out.old) reader.old
        → MatchOption result
        (SoFar D.Disk S.Source first text before past volume.new script.new (K.got out.new) reader.new)
        (λ end. RanLines D.Disk first (of_script text) before past end volume.new (S.left script.new) (K.got out.new)) }
{
    match reader.next_command(script, line) {
        Next::Line => {}
        Next::End => return Some(ScriptEnd::Done),
        Next::Failed => return Some(ScriptEnd::Source),
        Next::TooMuch => return Some(ScriptEnd::TooMuch),
        Next::Memory => return Some(ScriptEnd::Memory),
    }
    match take_turn(alloc, volume, line, out) {
        Went::On => None,
        Went::Device => Some(ScriptEnd::Device),
        Went::Sink => Some(ScriptEnd::Sink),
    }
}

// Takes all lines, one after another.
fn run_lines<D: Disk, S: Source, K: Sink>(
    alloc: Global,
    volume: &mut Volume<'_, D>,
    script: &mut S,
    out: &mut K,
) -> ScriptEnd
    requires serves { Serves D.Disk volume.old }
    ensures serves { result ≢ ScriptEnd.Device → Serves D.Disk volume.new }
    ensures keeps { VolumeGoesOn D.Disk volume.old volume.new }
    ensures faults { BlamesLines result (world D.Disk S.Source K.Sink (disk_under D.Disk volume.old) script.old out.old)
        (world D.Disk S.Source K.Sink (disk_under D.Disk volume.new) script.new out.new) }
    ensures ran { (first : State) (text : List ℕ) → Ready D.Disk first.view volume.old first → mark_of D.Disk volume.old ≡ None
        → S.left script.old ≡ Some text
        → RanLines D.Disk first (of_script text) (K.got out.old) (D.settled (disk_under D.Disk volume.old)) result volume.new
        (S.left script.new) (K.got out.new) }
{
    let mut reader = LineReader::new();
    let mut line = Vec::new(alloc);
    'lines: loop {
        if let Some(end) = run_line(alloc, volume, script, out, &mut reader, &mut line) {
            return end;
        }
    }
}

/// Answers all lines of a script, and closes the volume, unless the disk failed.
pub fn run_script<D: Disk, S: Source, K: Sink>(
    alloc: Global,
    volume: &mut Volume<'_, D>,
    script: &mut S,
    out: &mut K,
) -> ScriptEnd
    requires serves { Serves D.Disk volume.old }
    ensures keeps { VolumeGoesOn D.Disk volume.old volume.new }
    ensures faults { BlamesEnd result (world D.Disk S.Source K.Sink (disk_under D.Disk volume.old) script.old out.old)
        (world D.Disk S.Source K.Sink (disk_under D.Disk volume.new) script.new out.new) }
    ensures ran { (first : State) (text : List ℕ) → Ready D.Disk first.view volume.old first → Begins first
        → mark_of D.Disk volume.old ≡ None → S.left script.old ≡ Some text
        → Ran first.image (of_script text) result (world D.Disk S.Source K.Sink (disk_under D.Disk volume.old) script.old out.old)
        (world D.Disk S.Source K.Sink (disk_under D.Disk volume.new) script.new out.new) }
{
    let end = run_lines(alloc, volume, script, out);
    if end.is_broken() {
        return end;
    }
    match volume.close() {
        Ok(()) => end,
        Err(_) => ScriptEnd::Device,
    }
}
