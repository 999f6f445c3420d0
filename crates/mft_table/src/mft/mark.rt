//! The volume marked and its log emptied before what is staged is written, and the mark cleared.
ghost use Rattle.std.specs.Prelude.{◌≡◌, ◌+◌, ◌≤◌, true, ℕ, Contains, IfErr, OnErr, OnOk, length};
ghost use Rattle.vol_disk.specs.Contents.{IsTold, sector_in, settled_more};
ghost use Rattle.vol_disk.specs.Count.{CountsFault};
ghost use Rattle.vol_stage.specs.Staged.{GoesOn, disk_of, image, places};
ghost use Rattle.mark_write.specs.Finish.{CanClose, CanFinish, FailsSafe, Finishes};
ghost use Rattle.mark_write.specs.Flags.{cleared_sector};
ghost use Rattle.mark_write.specs.Logs.{span_sectors};

use crate::{Mft, MftNo};
use mark_write::{Flag, Span};
use vol_disk::Disk;

impl<D: Disk> Mft<'_, D> {
    ghost use Rattle.mft_table.specs.Mft.{committed_of, faults_of, is_mft_broken, mounted_of, stage_of};

    /// Writes what is staged, the lowest sector first; before it, unless `marked` tells that this was done, it marks the volume and
    /// empties its log. A discard goes back to the tables as they stand now.
    ///
    /// # Errors
    ///
    /// `Device` where the disk failed: the volume is then marked, or as it was but for the mark. It is then not used any more.
    pub fn finish_edit(&mut self, flag: &Flag, marked: bool, log: &[Span]) -> Result<(), MftNo>
        requires can { CanFinish D.Disk flag.now marked log.now (stage_of D.Disk self.old) }
        ensures finishes { OnOk result (Finishes D.Disk flag.now marked log.now (stage_of D.Disk self.old) (stage_of D.Disk self.new)) }
        ensures fails { OnErr result (FailsSafe D.Disk flag.now (stage_of D.Disk self.old) (stage_of D.Disk self.new)) }
        ensures kept { marked ≡ true → (n : ℕ) → ¬ (Contains (places D.Disk (stage_of D.Disk self.old)) n)
            → sector_in (D.now (disk_of D.Disk (stage_of D.Disk self.new))) n
            ≡ sector_in (D.now (disk_of D.Disk (stage_of D.Disk self.old))) n }
        ensures goes_on { GoesOn D.Disk (stage_of D.Disk self.old) (stage_of D.Disk self.new) }
        ensures settled { D.settled (disk_of D.Disk (stage_of D.Disk self.new)) ≡ D.settled (disk_of D.Disk (stage_of D.Disk self.old)) }
        ensures most { D.written (disk_of D.Disk (stage_of D.Disk self.new)) ≤ D.written (disk_of D.Disk (stage_of D.Disk self.old))
            + 2 + span_sectors log.now + length (places D.Disk (stage_of D.Disk self.old)) }
        ensures mounted { mounted_of D.Disk self.new ≡ mounted_of D.Disk self.old }
        ensures committed { OnOk result (committed_of D.Disk self.new ≡ mounted_of D.Disk self.old) }
        ensures uncommitted { OnErr result (committed_of D.Disk self.new ≡ committed_of D.Disk self.old) }
        ensures faults { CountsFault result (faults_of D.Disk self.old) (faults_of D.Disk self.new) }
        ensures device { IfErr result (λ no. no ≡ MftNo.Device) }
    {
        mark_write::finish_edit(&mut self.stage, flag, marked, log)?;
        self.changes.clear();
        Ok(())
    }

    /// Closes a volume that is marked: orders what was written before what follows, clears the mark, first in the copy, and settles.
    ///
    /// # Errors
    ///
    /// `Device` where the disk failed: the volume is then marked, or as it was but for the mark.
    pub fn close_marked(&mut self, flag: &Flag) -> Result<(), MftNo>
        requires can { CanClose D.Disk flag.now (stage_of D.Disk self.old) }
        ensures closed { OnOk result (IsTold (image D.Disk (stage_of D.Disk self.old)) → (n : ℕ)
            → sector_in (D.now (disk_of D.Disk (stage_of D.Disk self.new))) n
            ≡ cleared_sector flag.now (sector_in (D.now (disk_of D.Disk (stage_of D.Disk self.old)))) n) }
        ensures settled { OnOk result (D.settled (disk_of D.Disk (stage_of D.Disk self.new))
            ≡ settled_more (D.settled (disk_of D.Disk (stage_of D.Disk self.old))) (D.now (disk_of D.Disk (stage_of D.Disk self.new)))) }
        ensures unsettled { OnErr result (D.settled (disk_of D.Disk (stage_of D.Disk self.new))
            ≡ D.settled (disk_of D.Disk (stage_of D.Disk self.old))) }
        ensures fails { OnErr result (FailsSafe D.Disk flag.now (stage_of D.Disk self.old) (stage_of D.Disk self.new)) }
        ensures goes_on { GoesOn D.Disk (stage_of D.Disk self.old) (stage_of D.Disk self.new) }
        ensures most { D.written (disk_of D.Disk (stage_of D.Disk self.new)) ≤ D.written (disk_of D.Disk (stage_of D.Disk self.old)) + 2 }
        ensures staged { places D.Disk (stage_of D.Disk self.new) ≡ places D.Disk (stage_of D.Disk self.old) }
        ensures mounted { mounted_of D.Disk self.new ≡ mounted_of D.Disk self.old }
        ensures committed { committed_of D.Disk self.new ≡ committed_of D.Disk self.old }
        ensures faults { CountsFault result (faults_of D.Disk self.old) (faults_of D.Disk self.new) }
        ensures device { IfErr result (λ no. no ≡ MftNo.Device) }
    {
        mark_write::close_marked(&mut self.stage, flag)?;
        Ok(())
    }
}
