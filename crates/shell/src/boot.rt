//! The word `boot`: the geometry of the volume.
ghost use Rattle.std.specs.Prelude.{◌≡◌, ◌≢◌, ◌+◌, ◌≤◌, ℕ, List, Some, IfOk};
ghost use Rattle.vol_disk.specs.Contents.{WhereTold};
ghost use Rattle.vol_disk.specs.Count.{CountsFault};
ghost use Rattle.vol_disk.specs.Reading.{DiskReads};
ghost use Rattle.ntfs_def.specs.Boot.{boot_failing};
ghost use Rattle.vol_stage.specs.Staged.{StageReads, disk_of, image};
ghost use Rattle.shell.specs.Boot.{BootReports, sector_report};
ghost use Rattle.shell.specs.Report.{ReportEnds};
ghost use Rattle.shell.specs.Answers.{report_of};
ghost use Rattle.shell.specs.World.{world};

use crate::answer::{Answer, show};
use crate::ending::Ending;
use crate::refusal::boot_refusal;
use crate::text::geometry_text;
use mft_table::read_boot_sector;
use ntfs_boot::Geometry;
use std::alloc::Global;
use vol_disk::{Disk, Sink, Source};
use vol_stage::{Stage, StageNo};

// What a boot sector on a disk of so many sectors says: its geometry, or why it is none.
fn report_sector(sector: &[u8; 512], sectors: u64) -> Answer
    ensures { report_of result ≡ sector_report sector.now (boot_failing sector.now sectors) }
{
    match Geometry::read(sector, sectors) {
        Ok(geometry) => Answer::Short(geometry_text(&geometry)),
        Err(fault) => Answer::Refused(boot_refusal(fault)),
    }
}

// What the image says.
fn report_image<D: Disk>(stage: &mut Stage<'_, D>) -> Result<Answer, StageNo>
    ensures report { IfOk result (λ answer. WhereTold (image D.Disk stage.old) (λ all. BootReports all (report_of answer))) }
    ensures reads { StageReads D.Disk stage.old stage.new 1 }
    ensures faults { CountsFault result (D.faults (disk_of D.Disk stage.old)) (D.faults (disk_of D.Disk stage.new)) }
{
    let sector = read_boot_sector(stage)?;
    Ok(report_sector(&sector, stage.sectors()))
}

// What the disk says.
fn report_boot<D: Disk>(alloc: Global, disk: &mut D) -> Result<Answer, StageNo>
    ensures report { IfOk result (λ answer. WhereTold (D.now disk.old) (λ all. BootReports all (report_of answer))) }
    ensures reads { DiskReads D.Disk disk.old disk.new 1 }
    ensures faults { CountsFault result (D.faults disk.old) (D.faults disk.new) }
{
    let mut stage = Stage::over(alloc, disk);
    let answer = report_image(&mut stage);
    let _ = stage.finish();
    answer
}

/// Prints the geometry of the volume, or the number of the boot clause that refuses it. It reads
/// sector 0 alone, and takes no memory of `alloc`.
pub fn boot<D: Disk, S: Source, K: Sink>(
    alloc: Global,
    disk: &mut D,
    script: &S,
    out: &mut K,
) -> Ending
    ensures serves { result ≢ Ending.Memory }
    ensures reads { D.fetched disk.new ≤ D.fetched disk.old + 1 }
    ensures ends { ReportEnds BootReports result
        (world D.Disk S.Source K.Sink disk.old script.now out.old) (world D.Disk S.Source K.Sink disk.new script.now out.new) }
{
    match report_boot(alloc, disk) {
        Ok(answer) => show(out, &answer),
        Err(_) => Ending::Device,
    }
}
