//! The writing of a staged edit.
ghost use Rattle.std.specs.Prelude.{◌≡◌, ◌+◌, ◌≤◌, ℕ, true, false, IfErr, OnOk, OnErr, Contains, length};
ghost use Rattle.vol_disk.specs.Count.{CountsFault};
ghost use Rattle.vol_disk.specs.Contents.{IsTold, sector_in};
ghost use Rattle.vol_stage.specs.Staged.{disk_of, image, is_broken, places, GoesOn};
ghost use Rattle.mark_write.specs.Finish.{CanFinish, FailsSafe, Finishes, Prepares};
ghost use Rattle.mark_write.specs.Logs.{span_sectors};

use crate::Flag;
use crate::log::{Span, fill_log};
use crate::mark::set_mark;
use vol_disk::Disk;
use vol_stage::{Stage, StageNo};

// Marks the volume and empties the log, unless it is marked already.
fn prepare<D: Disk>(
    stage: &mut Stage<'_, D>,
    flag: &Flag,
    marked: bool,
    log: &[Span],
) -> Result<(), StageNo>
    requires can { CanFinish D.Disk flag.now marked log.now stage.old }
    ensures prepares { OnOk result (Prepares D.Disk flag.now marked log.now stage.old stage.new) }
    ensures fails { OnErr result (FailsSafe D.Disk flag.now stage.old stage.new) }
    ensures kept { marked ≡ true → D.now (disk_of D.Disk stage.new) ≡ D.now (disk_of D.Disk stage.old) }
    ensures goes_on { GoesOn D.Disk stage.old stage.new }
    ensures settled { D.settled (disk_of D.Disk stage.new) ≡ D.settled (disk_of D.Disk stage.old) }
    ensures most { D.written (disk_of D.Disk stage.new) ≤ D.written (disk_of D.Disk stage.old) + 2 + span_sectors log.now }
    ensures staged { places D.Disk stage.new ≡ places D.Disk stage.old }
    ensures faults { CountsFault result (D.faults (disk_of D.Disk stage.old)) (D.faults (disk_of D.Disk stage.new)) }
    ensures device { IfErr result (λ error. error ≡ StageNo.Device) }
{
    if marked {
        return Ok(());
    }
    set_mark(stage, flag)?;
    fill_log(stage, log)?;
    Ok(())
}

/// Writes what is staged, the lowest sector first. Before the first edit of a run it marks the volume and empties the log; where
/// `marked` tells that this was done, it writes what is staged alone.
///
/// # Errors
///
/// `Device` where the disk failed: the volume is then marked, or as it was but for the mark.
pub fn finish_edit<D: Disk>(
    stage: &mut Stage<'_, D>,
    flag: &Flag,
    marked: bool,
    log: &[Span],
) -> Result<(), StageNo>
    requires can { CanFinish D.Disk flag.now marked log.now stage.old }
    ensures finishes { OnOk result (Finishes D.Disk flag.now marked log.now stage.old stage.new) }
    ensures fails { OnErr result (FailsSafe D.Disk flag.now stage.old stage.new) }
    ensures kept { marked ≡ true → (n : ℕ) → ¬ (Contains (places D.Disk stage.old) n)
        → sector_in (D.now (disk_of D.Disk stage.new)) n ≡ sector_in (D.now (disk_of D.Disk stage.old)) n }
    ensures goes_on { GoesOn D.Disk stage.old stage.new }
    ensures settled { D.settled (disk_of D.Disk stage.new) ≡ D.settled (disk_of D.Disk stage.old) }
    ensures most { D.written (disk_of D.Disk stage.new)
        ≤ D.written (disk_of D.Disk stage.old) + 2 + span_sectors log.now + length (places D.Disk stage.old) }
    ensures faults { CountsFault result (D.faults (disk_of D.Disk stage.old)) (D.faults (disk_of D.Disk stage.new)) }
    ensures device { IfErr result (λ error. error ≡ StageNo.Device) }
{
    prepare(stage, flag, marked, log)?;
    stage.commit()?;
    Ok(())
}
