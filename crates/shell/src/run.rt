//! The word `run`: a script on the volume.
ghost use Rattle.std.specs.Prelude.{◌≡◌, ℕ, List, Some};
ghost use Rattle.vol_disk.specs.Contents.{WhereTold};
ghost use Rattle.volume_def.specs.VersionClause.{IsClean};
ghost use Rattle.mft_table.specs.HeldTables.{HoldsTables, volume_in};
ghost use Rattle.mft_table.specs.MirrorClusters.{IsMirrorInside};
ghost use Rattle.mft_table.specs.Mounted.{StandsOn};
ghost use Rattle.script_run.specs.Ran.{BlamesEnd, Ran};
ghost use Rattle.script_run.specs.Says.{of_script};
ghost use Rattle.script_run.specs.World.{world};
ghost use Rattle.shell.specs.Run.{AreLeft, RunEnds};
ghost use Rattle.shell.specs.RunSteps.{Refuses};

use crate::answer::show;
use crate::check::report_no_mount;
use crate::ending::Ending;
use crate::stop::Stop;
use mft_table::{MountNo, Mounted};
use mount_check::mount;
use script_run::{ScriptEnd, Volume, run_script};
use std::alloc::Global;
use vol_disk::{Disk, Sink, Source};

// Runs the script on a volume that was accepted.
fn run_mounted<D: Disk, S: Source, K: Sink>(
    alloc: Global,
    disk: &mut D,
    mounted: Mounted,
    script: &mut S,
    out: &mut K,
) -> ScriptEnd
    requires stands { StandsOn (D.size disk.old) mounted }
    requires mirror { IsMirrorInside mounted }
    requires accepted { WhereTold (D.now disk.old) (λ image. HoldsTables 15 image mounted × IsClean (volume_in image mounted)) }
    ensures causes { BlamesEnd result (world D.Disk S.Source K.Sink disk.old script.old out.old)
        (world D.Disk S.Source K.Sink disk.new script.new out.new) }
    ensures on_time { D.faults disk.old ≡ 0 → D.late disk.new ≡ D.late disk.old }
    ensures sectors { D.size disk.new ≡ D.size disk.old }
    ensures ran { (image text : List ℕ) → D.now disk.old ≡ Some image → S.left script.old ≡ Some text
        → Ran image (of_script text) result (world D.Disk S.Source K.Sink disk.old script.old out.old)
        (world D.Disk S.Source K.Sink disk.new script.new out.new) }
{
    let mut volume = Volume::new(alloc, disk, mounted);
    let end = run_script(alloc, &mut volume, script, out);
    let _ = volume.finish();
    end
}

/// Prints why a disk is not taken into use.
pub fn refuse<K: Sink>(out: &mut K, no: MountNo) -> Ending
    ensures { Refuses no result (K.got out.old) (K.got out.new) (K.faults out.old) (K.faults out.new) }
{
    match report_no_mount(no) {
        Ok(answer) => show(out, &answer),
        Err(Stop::Device) => Ending::Device,
        Err(Stop::Memory) => Ending::Memory,
    }
}

/// Runs the script on the volume: answers its lines one after another, and closes the volume. A volume that is not accepted is
/// refused, as `check` says.
pub fn run<D: Disk, S: Source, K: Sink>(
    alloc: Global,
    disk: &mut D,
    script: &mut S,
    out: &mut K,
) -> Ending
    ensures ends { RunEnds (AreLeft (S.left script.old)) result (world D.Disk S.Source K.Sink disk.old script.old out.old)
        (world D.Disk S.Source K.Sink disk.new script.new out.new) }
{
    match mount(alloc, disk) {
        Ok(mounted) => Ending::of_script(run_mounted(alloc, disk, mounted, script, out)),
        Err(no) => refuse(out, no),
    }
}
