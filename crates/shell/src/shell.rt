//! All that the program does, over any disk, source and sink.
ghost use Rattle.std.specs.Prelude.{◌≡◌, ◌≢◌, ◌+◌, ◌≤◌, ◌↔◌, ℕ, codes, map, string_bytes};
ghost use Rattle.volume_format.specs.Options.{Options};
ghost use Rattle.shell.specs.Words.{AreFormatWords, AreKnown, AreMakeWords, AreWords, AskToRun};
ghost use Rattle.shell.specs.World.{world};
ghost use Rattle.shell.specs.Report.{AnswersReport};
ghost use Rattle.shell.specs.Boot.{BootReports};
ghost use Rattle.shell.specs.Check.{CheckReports};
ghost use Rattle.shell.specs.Label.{LabelReports};
ghost use Rattle.shell.specs.Format.{AnswersFormat};
ghost use Rattle.shell.specs.Make.{AnswersMake};
ghost use Rattle.shell.specs.Run.{AnswersRun};

use crate::boot::boot;
use crate::check::check;
use crate::ending::{OUT_OF_MEMORY, UNKNOWN_WORDS};
use crate::format::make_volume;
use crate::label::label;
use crate::make::make;
use crate::run::run;
use crate::words::{Asked, read_words};
use std::alloc::{AllocError, Global};
use vol_disk::{Disk, Sink, Source};

/// Does what the words ask for, and gives the status of the program: 0 done, 2 unknown words, 3 the
/// volume or an option was refused, 4 the script failed to come, 5 the output failed, 6 the disk failed, 7 memory ran
/// out, 8 the script was too long.
pub fn run_shell<D: Disk, S: Source, K: Sink>(
    alloc: Global,
    words: &[String],
    disk: &mut D,
    script: &mut S,
    out: &mut K,
) -> u8
    ensures boot { AreWords (map string_bytes words.now) (codes "boot") → AnswersReport BootReports
        (world D.Disk S.Source K.Sink disk.old script.old out.old) result (world D.Disk S.Source K.Sink disk.new script.new out.new) }
    ensures boot_reads { AreWords (map string_bytes words.now) (codes "boot") → D.fetched disk.new ≤ D.fetched disk.old + 1 }
    ensures boot_serves { AreWords (map string_bytes words.now) (codes "boot") → result ≢ 7 }

    ensures label { AreWords (map string_bytes words.now) (codes "label") → AnswersReport LabelReports
        (world D.Disk S.Source K.Sink disk.old script.old out.old) result (world D.Disk S.Source K.Sink disk.new script.new out.new) }
    ensures label_reads { AreWords (map string_bytes words.now) (codes "label") → D.fetched disk.new ≤ D.fetched disk.old + 5 }

    ensures check { AreWords (map string_bytes words.now) (codes "check") → AnswersReport CheckReports
        (world D.Disk S.Source K.Sink disk.old script.old out.old) result (world D.Disk S.Source K.Sink disk.new script.new out.new) }

    ensures format { (options : Options) → AreFormatWords (map string_bytes words.now) options → AnswersFormat options
        (world D.Disk S.Source K.Sink disk.old script.old out.old) result (world D.Disk S.Source K.Sink disk.new script.new out.new) }

    ensures run { AskToRun (map string_bytes words.now) → AnswersRun
        (world D.Disk S.Source K.Sink disk.old script.old out.old) result (world D.Disk S.Source K.Sink disk.new script.new out.new) }

    ensures make { (count seed : ℕ) → AreMakeWords (map string_bytes words.now) count seed → AnswersMake count seed
        (world D.Disk S.Source K.Sink disk.old script.old out.old) result (world D.Disk S.Source K.Sink disk.new script.new out.new) }

    ensures unknown { (result ≡ 2) ↔ ¬ (AreKnown (map string_bytes words.now)) }
    ensures unknown_untouched { ¬ (AreKnown (map string_bytes words.now)) →
        world D.Disk S.Source K.Sink disk.new script.new out.new ≡ world D.Disk S.Source K.Sink disk.old script.old out.old }
{
    match read_words(alloc, words) {
        Ok(Asked::Boot) => boot(alloc, disk, script, out).status(),
        Ok(Asked::Label) => label(alloc, disk, script, out).status(),
        Ok(Asked::Check) => check(alloc, disk, script, out).status(),
        Ok(Asked::Format(options)) => make_volume(alloc, disk, &options, script, out).status(),
        Ok(Asked::Run) => run(alloc, disk, script, out).status(),
        Ok(Asked::Make(draws)) => make(alloc, disk, draws, script, out).status(),
        Ok(Asked::Unknown) => UNKNOWN_WORDS,
        Err(AllocError) => OUT_OF_MEMORY,
    }
}
