//! Records of the table, read by number.
ghost use Rattle.std.specs.Prelude.{◌≡◌, ◌<◌, IfErr, IsTrue, MatchResult, OnErr, OnOk, length};
ghost use Rattle.ntfs_def.specs.Fixup.{HasArray, IsSealed, opened_of};
ghost use Rattle.mft_table.specs.MftNos.{CountsNo, RefusesRead};

use crate::{Mft, MftNo};
use ntfs_fixup::unseal;
use vol_disk::Disk;

impl<D: Disk> Mft<'_, D> {
    ghost use Rattle.mft_table.specs.Mft.{MftReads, faults_of, mounted_of, view};

    /// Reads record `number` of the table, in use or not, and opens it.
    ///
    /// # Errors
    ///
    /// `Torn` where the stored block does not open; `Device` where the disk failed. `into` is as before.
    pub fn read_record(&mut self, number: u64, into: &mut [u8; 1024]) -> Result<(), MftNo>
        requires { number < length (mounted_of D.Disk self.old).records }
        ensures read { OnOk result (IsTrue (view D.Disk self.old).told → into.new ≡ opened_of ((view D.Disk self.old).block number)) }
        ensures opens { OnOk result (IsTrue (view D.Disk self.old).told → IsSealed ((view D.Disk self.old).block number)) }
        ensures array { OnOk result (HasArray into.new) }
        ensures err { IfErr result (RefusesRead (view D.Disk self.old) number) }
        ensures faults { MatchResult result (λ _. faults_of D.Disk self.new ≡ faults_of D.Disk self.old)
            (CountsNo (faults_of D.Disk self.old) (faults_of D.Disk self.new)) }
        ensures kept { OnErr result (into.new ≡ into.old) }
        ensures reads { MftReads D.Disk self.old self.new 2 }
    {
        let mut block = [0; 1024];
        let blocks = self.mounted.blocks();
        blocks.read_block(&mut self.stage, number, &mut block)?;
        if unseal(&mut block).is_err() {
            return Err(MftNo::Torn { number });
        }
        *into = block;
        Ok(())
    }
}
