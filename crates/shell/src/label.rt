//! The word `label`: the name and the version of the volume.
ghost use Rattle.std.specs.Prelude.{◌≡◌, ℕ, List, Some, IfErr, IfOk, MatchResult, OnOk, ◌+◌, ◌≤◌};
ghost use Rattle.vol_disk.specs.Contents.{WhereTold};
ghost use Rattle.vol_disk.specs.Reading.{DiskReads};
ghost use Rattle.vol_stage.specs.Staged.{StageReads, disk_of, image};
ghost use Rattle.mft_table.specs.TableNos.{CountsNo as CountsTableNo, Refuses};
ghost use Rattle.shell.specs.Label.{LabelReports, RecordReports};
ghost use Rattle.shell.specs.Answers.{report_of};
ghost use Rattle.shell.specs.Stops.{CountsNo};
ghost use Rattle.shell.specs.LabelSteps.{HasVolumeRecord, RefusesWith};
ghost use Rattle.shell.specs.World.{world};
ghost use Rattle.shell.specs.Report.{Report, ReportEnds};

use crate::answer::{Answer, show};
use crate::ending::Ending;
use crate::refusal::{NO_TABLE, NO_VOLUME_RECORD, boot_refusal};
use crate::stop::Stop;
use crate::volume::report_volume;
use mft_table::{TableNo, find_table, open_record};
use ntfs_def::records::VOLUME;
use std::alloc::{AllocError, Global};
use vol_disk::{Disk, Sink, Source};
use vol_stage::Stage;

// Record 3 of the table, as it is stored.
fn read_volume_record<D: Disk>(
    alloc: Global,
    stage: &mut Stage<'_, D>,
    into: &mut [u8; 1024],
) -> Result<(), TableNo>
    ensures ok { OnOk result (WhereTold (image D.Disk stage.old) (λ all. HasVolumeRecord all into.new)) }
    ensures err { IfErr result (λ no. WhereTold (image D.Disk stage.old) (λ all. Refuses all no)) }
    ensures reads { StageReads D.Disk stage.old stage.new 5 }
    ensures faults { MatchResult result (λ _. D.faults (disk_of D.Disk stage.new) ≡ D.faults (disk_of D.Disk stage.old))
        (CountsTableNo (D.faults (disk_of D.Disk stage.old)) (D.faults (disk_of D.Disk stage.new))) }
{
    let table = find_table(alloc, stage)?;
    table.blocks().read_block(stage, VOLUME, into)?;
    Ok(())
}

// What record 3 says of the volume, as it is stored.
fn report_record(alloc: Global, block: &mut [u8; 1024]) -> Result<Answer, AllocError>
    ensures { IfOk result (λ answer. RecordReports block.old (report_of answer)) }
{
    match open_record(block) {
        Some(view) => report_volume(alloc, &view),
        None => Ok(Answer::Refused(NO_VOLUME_RECORD)),
    }
}

// What is said where there is no record 3.
fn report_no_table(no: TableNo) -> Result<Answer, Stop>
    ensures { RefusesWith no result }
{
    match no {
        TableNo::Boot(fault) => Ok(Answer::Refused(boot_refusal(fault))),
        TableNo::Table => Ok(Answer::Refused(NO_TABLE)),
        TableNo::Device => Err(Stop::Device),
        TableNo::Memory => Err(Stop::Memory),
    }
}

// What the image says.
fn report_image<D: Disk>(alloc: Global, stage: &mut Stage<'_, D>) -> Result<Answer, Stop>
    ensures report { IfOk result (λ answer. WhereTold (image D.Disk stage.old) (λ all. LabelReports all (report_of answer))) }
    ensures reads { StageReads D.Disk stage.old stage.new 5 }
    ensures faults { MatchResult result (λ _. D.faults (disk_of D.Disk stage.new) ≡ D.faults (disk_of D.Disk stage.old))
        (CountsNo (D.faults (disk_of D.Disk stage.old)) (D.faults (disk_of D.Disk stage.new))) }
{
    let mut block = [0; 1024];
    match read_volume_record(alloc, stage, &mut block) {
        Ok(()) => Ok(report_record(alloc, &mut block)?),
        Err(no) => report_no_table(no),
    }
}

// What the disk says.
fn report_label<D: Disk>(alloc: Global, disk: &mut D) -> Result<Answer, Stop>
    ensures report { IfOk result (λ answer. WhereTold (D.now disk.old) (λ all. LabelReports all (report_of answer))) }
    ensures reads { DiskReads D.Disk disk.old disk.new 5 }
    ensures faults { MatchResult result (λ _. D.faults disk.new ≡ D.faults disk.old) (CountsNo (D.faults disk.old) (D.faults disk.new)) }
{
    let mut stage = Stage::over(alloc, disk);
    let answer = report_image(alloc, &mut stage);
    let _ = stage.finish();
    answer
}

/// Prints the name and the version of the volume, or a clause that refuses it: S1, S2, or of S3 and S14
/// what record 3 tells. It reads the boot sector and the records 0 and 3.
pub fn label<D: Disk, S: Source, K: Sink>(
    alloc: Global,
    disk: &mut D,
    script: &S,
    out: &mut K,
) -> Ending
    ensures reads { D.fetched disk.new ≤ D.fetched disk.old + 5 }
    ensures ends { ReportEnds LabelReports result
        (world D.Disk S.Source K.Sink disk.old script.now out.old) (world D.Disk S.Source K.Sink disk.new script.now out.new) }
{
    match report_label(alloc, disk) {
        Ok(answer) => show(out, &answer),
        Err(Stop::Device) => Ending::Device,
        Err(Stop::Memory) => Ending::Memory,
    }
}
