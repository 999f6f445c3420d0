//! Bytes of streams, by their runs.
ghost use Rattle.std.specs.Prelude.{◌≡◌, ◌+◌, ◌-◌, ◌*◌, ◌<◌, ◌≤◌, ◌^◌, ◌++◌, IfErr, IfOk, IsTrue, MatchResult, OnOk, drop, length, min};
ghost use Rattle.vol_disk.specs.Count.{CountsFault};
ghost use Rattle.ntfs_def.specs.Runs.{spot_of};
ghost use Rattle.volume_def.specs.Table.{cluster_bytes};
ghost use Rattle.volume_def.specs.Values.{pieces_touched, stored_bytes};
ghost use Rattle.mft_table.specs.Streams.{IsSeam, spot_on};

use crate::{Mft, MftNo};
use data_runs::RunList;
use vol_disk::Disk;

// How many bytes are read of a run of so many clusters of `size` bytes, from byte `skip` of it on.
fn read_len(clusters: u64, size: u64, skip: u64, wanted: usize) -> usize
    requires skip { skip < size }
    requires some { 0 < clusters }
    ensures { result ≡ min wanted (clusters * size - skip) }
{
    let all = clusters as u128 * size as u128 - skip as u128;
    all.min(wanted as u128) as usize
}

impl<D: Disk> Mft<'_, D> {
    ghost use Rattle.mft_table.specs.Mft.{MftReads, faults_of, view};

    // Bytes of a run, from its byte `skip` on. Those of a hole are zero.
    fn read_run(&mut self, lcn: Option<u64>, skip: u64, into: &mut [u8]) -> Result<(), MftNo>
        requires skip { skip < cluster_bytes (view D.Disk self.old).layout }
        requires fits { skip + length into.old < 2 ^ 64 }
        ensures read { OnOk result (IsTrue (view D.Disk self.old).told → into.new
            ≡ stored_bytes (view D.Disk self.old).cluster (cluster_bytes (view D.Disk self.old).layout) (spot_on lcn) skip
            (length into.old)) }
        ensures device { IfErr result (λ no. no ≡ MftNo.Device) }
        ensures faults { CountsFault result (faults_of D.Disk self.old) (faults_of D.Disk self.new) }
        ensures reads { MftReads D.Disk self.old self.new (pieces_touched skip (length into.old)) }
    {
        match lcn {
            Some(lcn) => self.read_placed(lcn, skip, into),
            None => {
                into.fill(0);
                Ok(())
            }
        }
    }

    // Bytes of a stream from byte `at` on, as far as one run of it goes; how many.
    fn read_from(&mut self, runs: &RunList, at: u64, into: &mut [u8]) -> Result<usize, MftNo>
        requires { at + length into.old < 2 ^ 64 }
        ensures len { IfOk result (λ n. n ≤ length into.old) }
        ensures some { IfOk result (λ n. 0 < length into.old → 0 < n) }
        ensures cut { IfOk result (λ n. IsSeam at n (length into.old)) }
        ensures read { IfOk result (λ n. IsTrue (view D.Disk self.old).told → into.new
            ≡ stored_bytes (view D.Disk self.old).cluster (cluster_bytes (view D.Disk self.old).layout) (spot_of runs.now) at n
            ++ drop n into.old) }
        ensures device { IfErr result (λ no. no ≡ MftNo.Device) }
        ensures faults { CountsFault result (faults_of D.Disk self.old) (faults_of D.Disk self.new) }
        ensures reads { MatchResult result (λ n. MftReads D.Disk self.old self.new (pieces_touched at n))
            (λ _. MftReads D.Disk self.old self.new (pieces_touched at (length into.old))) }
    {
        let size = self.cluster_bytes();
        match runs.run_from(at / size) {
            None => {
                into.fill(0);
                Ok(into.len())
            }
            Some(run) => {
                let len = read_len(run.len, size, at % size, into.len());
                self.read_run(run.lcn, at % size, &mut into[..len])?;
                Ok(len)
            }
        }
    }

    /// Reads what lies in the clusters of a stream with these runs, from byte `at` on. A hole, what lies
    /// behind the runs, and what lies past the end of the disk reads as zeros. Each piece of 512 bytes
    /// is read once, and one that is wanted whole is read into its place.
    ///
    /// # Errors
    ///
    /// `Device` where the disk failed; what `into` then holds is not told.
    pub fn read_clusters(&mut self, runs: &RunList, at: u64, into: &mut [u8]) -> Result<(), MftNo>
        requires { at + length into.old < 2 ^ 64 }
        ensures read { OnOk result (IsTrue (view D.Disk self.old).told → into.new
            ≡ stored_bytes (view D.Disk self.old).cluster (cluster_bytes (view D.Disk self.old).layout) (spot_of runs.now) at
            (length into.old)) }
        ensures device { IfErr result (λ no. no ≡ MftNo.Device) }
        ensures faults { CountsFault result (faults_of D.Disk self.old) (faults_of D.Disk self.new) }
        ensures reads { MftReads D.Disk self.old self.new (pieces_touched at (length into.old)) }
    {
        let mut done = 0;
        'runs: while done < into.len() {
            done += self.read_from(runs, at + done as u64, &mut into[done..])?;
        }
        Ok(())
    }
}
