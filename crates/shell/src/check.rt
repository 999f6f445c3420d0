//! The word `check`: whether the volume is sound.
ghost use Rattle.std.specs.Prelude.{◌≡◌, ℕ, IfOk, MatchResult};
ghost use Rattle.vol_disk.specs.Contents.{WhereTold};
ghost use Rattle.vol_disk.specs.Reading.{DiskReads};
ghost use Rattle.shell.specs.Answers.{report_of};
ghost use Rattle.shell.specs.Check.{CheckReports};
ghost use Rattle.shell.specs.CheckSteps.{SaysMount, SaysNoMount};
ghost use Rattle.shell.specs.Report.{ReportEnds};
ghost use Rattle.shell.specs.Stops.{CountsNo};
ghost use Rattle.shell.specs.World.{world};

use crate::answer::{Answer, show};
use crate::ending::Ending;
use crate::refusal::Refusal;
use crate::stop::Stop;
use crate::text::sound_text;
use mft_table::{MountNo, Mounted};
use mount_check::mount;
use std::alloc::Global;
use vol_disk::{Disk, Sink, Source};

/// What is said of a disk that is not taken into use.
pub fn report_no_mount(no: MountNo) -> Result<Answer, Stop>
    ensures { SaysNoMount no result }
{
    match no {
        MountNo::Refused { clause, number } => Ok(Answer::Refused(Refusal { clause, number })),
        MountNo::Dirty => Ok(Answer::Dirty),
        MountNo::Device => Err(Stop::Device),
        MountNo::Memory => Err(Stop::Memory),
    }
}

// What is said of a disk, by whether it is taken into use.
fn report_mount(mounted: &Result<Mounted, MountNo>) -> Result<Answer, Stop>
    ensures { SaysMount mounted.now result }
{
    match mounted {
        Ok(_) => Ok(Answer::Short(sound_text())),
        Err(no) => report_no_mount(*no),
    }
}

// What the disk says.
fn report_check<D: Disk>(alloc: Global, disk: &mut D) -> Result<Answer, Stop>
    ensures report { IfOk result (λ answer. WhereTold (D.now disk.old) (λ all. CheckReports all (report_of answer))) }
    ensures reads { (reads : ℕ) × DiskReads D.Disk disk.old disk.new reads }
    ensures faults { MatchResult result (λ _. D.faults disk.new ≡ D.faults disk.old) (CountsNo (D.faults disk.old) (D.faults disk.new)) }
{
    let mounted = mount(alloc, disk);
    report_mount(&mounted)
}

/// Prints that the volume is sound and was closed, or that it was not closed, or the first clause of the volume definition
/// that fails and the least number that breaks it.
pub fn check<D: Disk, S: Source, K: Sink>(
    alloc: Global,
    disk: &mut D,
    script: &S,
    out: &mut K,
) -> Ending
    ensures ends { ReportEnds CheckReports result
        (world D.Disk S.Source K.Sink disk.old script.now out.old) (world D.Disk S.Source K.Sink disk.new script.now out.new) }
{
    match report_check(alloc, disk) {
        Ok(answer) => show(out, &answer),
        Err(Stop::Device) => Ending::Device,
        Err(Stop::Memory) => Ending::Memory,
    }
}
