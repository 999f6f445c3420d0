//! Which clusters of the volume are taken, in memory.
ghost use Rattle.std.specs.Prelude.{◌≡◌, ◌<◌, ℕ, IfErr, IfNone, IfSome, OnErr, OnOk, count_by, not};
ghost use Rattle.cluster_bitmap.specs.Flags.{IsFirstRun, IsFree, IsTaken};
ghost use Rattle.mft_table.specs.Changes.{with_clusters_given, with_clusters_taken};

use crate::changes::{give_noted, take_noted};
use crate::{Mft, MftNo};
use vol_disk::Disk;

impl<D: Disk> Mft<'_, D> {
    ghost use Rattle.mft_table.specs.Mft.{committed_of, mounted_of, stage_of, view};

    /// The first start of a run of so many free clusters at or after `from`, else the first of all.
    pub fn find_run(&self, len: u64, from: u64) -> Option<u64>
        requires { 0 < len }
        ensures some { IfSome result (λ at. IsFirstRun (mounted_of D.Disk self.now).clusters len from at) }
        ensures none { IfNone result ((at : ℕ) → ¬ (IsFree (mounted_of D.Disk self.now).clusters at len)) }
    {
        self.mounted.clusters.find_run(len, from)
    }

    /// The clusters that are free.
    pub fn free_clusters(&self) -> u64
        ensures { result ≡ count_by not (mounted_of D.Disk self.now).clusters }
    {
        self.mounted.clusters.count_free()
    }

    /// Takes the clusters of a range, which are free. A discard gives them back.
    ///
    /// # Errors
    ///
    /// `Memory` where there was none to note it; nothing was taken.
    pub fn take_clusters(&mut self, at: u64, len: u64) -> Result<(), MftNo>
        requires { IsFree (mounted_of D.Disk self.old).clusters at len }
        ensures taken { OnOk result (mounted_of D.Disk self.new ≡ with_clusters_taken (mounted_of D.Disk self.old) at len) }
        ensures kept { OnErr result (mounted_of D.Disk self.new ≡ mounted_of D.Disk self.old) }
        ensures memory { IfErr result (λ no. no ≡ MftNo.Memory) }
        ensures stage { stage_of D.Disk self.new ≡ stage_of D.Disk self.old }
        ensures view { view D.Disk self.new ≡ view D.Disk self.old }
        ensures committed { committed_of D.Disk self.new ≡ committed_of D.Disk self.old }
    {
        take_noted(&mut self.changes, &mut self.mounted, at, len)?;
        Ok(())
    }

    /// Gives the clusters of a range back, which are taken. A discard takes them again.
    ///
    /// # Errors
    ///
    /// `Memory` where there was none to note it; nothing was given back.
    pub fn give_clusters(&mut self, at: u64, len: u64) -> Result<(), MftNo>
        requires { IsTaken (mounted_of D.Disk self.old).clusters at len }
        ensures given { OnOk result (mounted_of D.Disk self.new ≡ with_clusters_given (mounted_of D.Disk self.old) at len) }
        ensures kept { OnErr result (mounted_of D.Disk self.new ≡ mounted_of D.Disk self.old) }
        ensures memory { IfErr result (λ no. no ≡ MftNo.Memory) }
        ensures stage { stage_of D.Disk self.new ≡ stage_of D.Disk self.old }
        ensures view { view D.Disk self.new ≡ view D.Disk self.old }
        ensures committed { committed_of D.Disk self.new ≡ committed_of D.Disk self.old }
    {
        give_noted(&mut self.changes, &mut self.mounted, at, len)?;
        Ok(())
    }
}
