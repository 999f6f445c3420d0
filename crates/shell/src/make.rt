//! The word `make`: drawn lines on the volume.
ghost use Rattle.std.specs.Prelude.{◌≡◌, ◌≢◌, ℕ, List, Some};
ghost use Rattle.vol_disk.specs.Contents.{WhereTold};
ghost use Rattle.volume_def.specs.VersionClause.{IsClean};
ghost use Rattle.mft_table.specs.HeldTables.{HoldsTables, volume_in};
ghost use Rattle.mft_table.specs.MirrorClusters.{IsMirrorInside};
ghost use Rattle.mft_table.specs.Mounted.{StandsOn};
ghost use Rattle.script_run.specs.Ran.{BlamesEnd, Ran};
ghost use Rattle.script_run.specs.Says.{of_seed};
ghost use Rattle.script_run.specs.World.{world};
ghost use Rattle.shell.specs.Make.{MakeEnds};

use crate::ending::Ending;
use crate::run::refuse;
use crate::words::Draws;
use mft_table::Mounted;
use mount_check::mount;
use script_run::{ScriptEnd, Volume, run_made};
use std::alloc::Global;
use vol_disk::{Disk, Sink, Source};

// Runs the drawn lines on a volume that was accepted.
fn make_mounted<D: Disk, S: Source, K: Sink>(
    alloc: Global,
    disk: &mut D,
    mounted: Mounted,
    draws: Draws,
    script: &S,
    out: &mut K,
) -> ScriptEnd
    requires stands { StandsOn (D.size disk.old) mounted }
    requires mirror { IsMirrorInside mounted }
    requires accepted { WhereTold (D.now disk.old) (λ image. HoldsTables 15 image mounted × IsClean (volume_in image mounted)) }
    ensures unread { result ≢ ScriptEnd.Source }
    ensures within { result ≢ ScriptEnd.TooMuch }
    ensures causes { BlamesEnd result (world D.Disk S.Source K.Sink disk.old script.now out.old)
        (world D.Disk S.Source K.Sink disk.new script.now out.new) }
    ensures on_time { D.faults disk.old ≡ 0 → D.late disk.new ≡ D.late disk.old }
    ensures sectors { D.size disk.new ≡ D.size disk.old }
    ensures ran { (image : List ℕ) → D.now disk.old ≡ Some image
        → Ran image (of_seed draws.seed draws.count) result (world D.Disk S.Source K.Sink disk.old script.now out.old)
        (world D.Disk S.Source K.Sink disk.new script.now out.new) }
{
    let mut volume = Volume::new(alloc, disk, mounted);
    let end = run_made(alloc, &mut volume, draws.seed, draws.count, script, out);
    let _ = volume.finish();
    end
}

/// Runs drawn lines on the volume, prints what they come to, and closes the volume. A volume that is not accepted is refused, as `check`
/// says.
pub fn make<D: Disk, S: Source, K: Sink>(
    alloc: Global,
    disk: &mut D,
    draws: Draws,
    script: &S,
    out: &mut K,
) -> Ending
    ensures ends { MakeEnds draws.seed draws.count result (world D.Disk S.Source K.Sink disk.old script.now out.old)
        (world D.Disk S.Source K.Sink disk.new script.now out.new) }
{
    match mount(alloc, disk) {
        Ok(mounted) => { Ending::of_script(make_mounted(alloc, disk, mounted, draws, script, out)) }
        Err(no) => refuse(out, no),
    }
}
