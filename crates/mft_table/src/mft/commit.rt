//! What is staged: room for it, its writing, its discarding, and what is written put in order and made to stay.
ghost use Rattle.std.specs.Prelude.{◌≡◌, ◌≤◌, [], ℕ, false, Contains, IfErr, OnErr, OnOk, is_err, length};
ghost use Rattle.vol_disk.specs.Contents.{sector_in, settled_more};
ghost use Rattle.vol_disk.specs.Count.{CountsFault};
ghost use Rattle.vol_stage.specs.Puts.{IsCut, risen};
ghost use Rattle.vol_stage.specs.Staged.{GoesOn, StageWrites, disk_of, image, places, spare};

use crate::changes::undo_all;
use crate::{Mft, MftNo};
use vol_disk::Disk;

impl<D: Disk> Mft<'_, D> {
    ghost use Rattle.mft_table.specs.Mft.{MftReserves, MftSettles, MftWrites, committed_of, faults_of, is_mft_broken, mounted_of, stage_of};

    /// Whether a call failed that no write may come behind. Reads go on all the same.
    pub fn broken(&self) -> bool
        ensures { result ≡ is_mft_broken D.Disk self.now }
    {
        self.stage.broken()
    }

    /// Makes room for `n` more staged sectors.
    ///
    /// # Errors
    ///
    /// `Memory` where there is none.
    pub fn reserve(&mut self, n: usize) -> Result<(), MftNo>
        ensures keeps { MftReserves D.Disk self.old self.new }
        ensures room { OnOk result (n ≤ spare D.Disk (stage_of D.Disk self.new)) }
        ensures memory { IfErr result (λ no. no ≡ MftNo.Memory) }
    {
        self.stage.reserve(n)?;
        Ok(())
    }

    /// Writes each staged sector once, the lowest first. A discard goes back to the tables as they stand now.
    ///
    /// # Errors
    ///
    /// `Device` where the disk failed: the sectors below one place are then those of the image, and the others as they were.
    /// No write may then come behind it.
    pub fn commit(&mut self) -> Result<(), MftNo>
        requires { is_mft_broken D.Disk self.old ≡ false }
        ensures now { OnOk result (D.now (disk_of D.Disk (stage_of D.Disk self.new)) ≡ image D.Disk (stage_of D.Disk self.old)) }
        ensures image { OnOk result (image D.Disk (stage_of D.Disk self.new) ≡ image D.Disk (stage_of D.Disk self.old)) }
        ensures cut { OnErr result (IsCut (D.now (disk_of D.Disk (stage_of D.Disk self.old))) (image D.Disk (stage_of D.Disk self.old))
            (D.now (disk_of D.Disk (stage_of D.Disk self.new)))) }
        ensures others { (sector : ℕ) → ¬ (Contains (places D.Disk (stage_of D.Disk self.old)) sector)
            → sector_in (D.now (disk_of D.Disk (stage_of D.Disk self.new))) sector
            ≡ sector_in (D.now (disk_of D.Disk (stage_of D.Disk self.old))) sector }
        ensures keeps { StageWrites D.Disk (stage_of D.Disk self.old) (stage_of D.Disk self.new)
            (length (places D.Disk (stage_of D.Disk self.old))) }
        ensures written { OnOk result (D.written (disk_of D.Disk (stage_of D.Disk self.new))
            ≡ risen (length (places D.Disk (stage_of D.Disk self.old))) (D.written (disk_of D.Disk (stage_of D.Disk self.old)))) }
        ensures places { OnOk result (places D.Disk (stage_of D.Disk self.new) ≡ []) }
        ensures room { spare D.Disk (stage_of D.Disk self.old) ≤ spare D.Disk (stage_of D.Disk self.new) }
        ensures mounted { mounted_of D.Disk self.new ≡ mounted_of D.Disk self.old }
        ensures committed { OnOk result (committed_of D.Disk self.new ≡ mounted_of D.Disk self.old) }
        ensures uncommitted { OnErr result (committed_of D.Disk self.new ≡ committed_of D.Disk self.old) }
        ensures broken { is_mft_broken D.Disk self.new ≡ is_err result }
        ensures faults { CountsFault result (faults_of D.Disk self.old) (faults_of D.Disk self.new) }
        ensures device { IfErr result (λ no. no ≡ MftNo.Device) }
    {
        self.stage.commit()?;
        self.changes.clear();
        Ok(())
    }

    /// Stages nothing any more, and puts the tables back as they stood at the last commit, or when they were taken into
    /// use. It takes no memory, and the time of what was changed.
    pub fn discard(&mut self)
        requires { is_mft_broken D.Disk self.old ≡ false }
        ensures goes_on { GoesOn D.Disk (stage_of D.Disk self.old) (stage_of D.Disk self.new) }
        ensures disk { disk_of D.Disk (stage_of D.Disk self.new) ≡ disk_of D.Disk (stage_of D.Disk self.old) }
        ensures image { image D.Disk (stage_of D.Disk self.new) ≡ D.now (disk_of D.Disk (stage_of D.Disk self.old)) }
        ensures places { places D.Disk (stage_of D.Disk self.new) ≡ [] }
        ensures room { spare D.Disk (stage_of D.Disk self.old) ≤ spare D.Disk (stage_of D.Disk self.new) }
        ensures mounted { mounted_of D.Disk self.new ≡ committed_of D.Disk self.old }
        ensures committed { committed_of D.Disk self.new ≡ committed_of D.Disk self.old }
        ensures sound { is_mft_broken D.Disk self.new ≡ false }
    {
        self.stage.discard();
        undo_all(&mut self.changes, &mut self.mounted);
    }

    /// Orders the writes before it before those after it.
    ///
    /// # Errors
    ///
    /// `Device` where the disk failed; no write may then come behind it.
    pub fn barrier(&mut self) -> Result<(), MftNo>
        requires { is_mft_broken D.Disk self.old ≡ false }
        ensures now { D.now (disk_of D.Disk (stage_of D.Disk self.new)) ≡ D.now (disk_of D.Disk (stage_of D.Disk self.old)) }
        ensures fenced { OnOk result (D.fenced (disk_of D.Disk (stage_of D.Disk self.new))
            ≡ D.now (disk_of D.Disk (stage_of D.Disk self.old))) }
        ensures image { image D.Disk (stage_of D.Disk self.new) ≡ image D.Disk (stage_of D.Disk self.old) }
        ensures keeps { MftWrites D.Disk self.old self.new 0 }
        ensures broken { is_mft_broken D.Disk self.new ≡ is_err result }
        ensures faults { CountsFault result (faults_of D.Disk self.old) (faults_of D.Disk self.new) }
        ensures device { IfErr result (λ no. no ≡ MftNo.Device) }
    {
        self.stage.barrier()?;
        Ok(())
    }

    /// Has the disk make stay what was written to it. What is staged is not written.
    ///
    /// # Errors
    ///
    /// `Device` where the disk failed; no write may then come behind it.
    pub fn settle(&mut self) -> Result<(), MftNo>
        requires { is_mft_broken D.Disk self.old ≡ false }
        ensures settled { OnOk result (D.settled (disk_of D.Disk (stage_of D.Disk self.new))
            ≡ settled_more (D.settled (disk_of D.Disk (stage_of D.Disk self.old))) (D.now (disk_of D.Disk (stage_of D.Disk self.old)))) }
        ensures unsettled { OnErr result (D.settled (disk_of D.Disk (stage_of D.Disk self.new))
            ≡ D.settled (disk_of D.Disk (stage_of D.Disk self.old))) }
        ensures keeps { MftSettles D.Disk self.old self.new }
        ensures broken { is_mft_broken D.Disk self.new ≡ is_err result }
        ensures faults { CountsFault result (faults_of D.Disk self.old) (faults_of D.Disk self.new) }
        ensures device { IfErr result (λ no. no ≡ MftNo.Device) }
    {
        self.stage.settle()?;
        Ok(())
    }
}
