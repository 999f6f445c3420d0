//! Bytes written into the clusters of a stream, by its runs.
ghost use Rattle.std.specs.Prelude.{◌≡◌, ◌+◌, ◌-◌, ◌/◌, ◌%◌, ◌<◌, ◌≤◌, ◌^◌, IfErr, IsTrue, MatchResult, OnOk, false, length};
ghost use Rattle.ntfs_def.specs.Runs.{spot_of};
ghost use Rattle.volume_def.specs.Coverage.{IsApart};
ghost use Rattle.volume_def.specs.Table.{cluster_bytes};
ghost use Rattle.volume_edits.specs.Clusters.{IsOwnStream, IsPlaced, WritesStream};
ghost use Rattle.vol_stage.specs.Staged.{StagesOnly, places};
ghost use Rattle.attr_store.specs.Mft.{KeepsDisk, faults_of, is_mft_broken, stage_of, view};
ghost use Rattle.attr_store.specs.FileNos.{CountsNo, IsReadNo};
ghost use Rattle.sparse_io.specs.Overwritten.{touched_sectors};

use crate::write::patch_cluster;
use attr_store::{FileNo, Mft};
use data_runs::{RunList, Spot};
use vol_disk::{Disk, SECTOR};

// How many of so many bytes from byte `at` on lie in its sector.
fn piece_len(at: u64, left: usize) -> usize
    requires { 0 < left }
    ensures some { 0 < result }
    ensures few { result ≤ left }
    ensures inside { at % 512 + result ≤ 512 }
    ensures aligned { result < left → (at + result) % 512 ≡ 0 }
{
    left.min(SECTOR - (at % SECTOR as u64) as usize)
}

// Stages bytes of a stream that lies in these runs, from its byte `at` on, in one sector. What would lie in a hole, or behind the runs,
// is left.
fn write_piece<D: Disk>(
    mft: &mut Mft<'_, D>,
    runs: &RunList,
    at: u64,
    piece: &[u8],
) -> Result<(), FileNo>
    requires inside { at % 512 + length piece.now ≤ 512 }
    requires some { 0 < length piece.now }
    requires sound { is_mft_broken D.Disk mft.old ≡ false }
    ensures written { OnOk result (IsTrue (view D.Disk mft.old).told → IsApart (view D.Disk mft.old).layout
        → IsOwnStream (view D.Disk mft.old).layout (spot_of runs.now)
        → IsPlaced (cluster_bytes (view D.Disk mft.old).layout) (spot_of runs.now) at (length piece.now)
        → WritesStream (view D.Disk mft.old) (view D.Disk mft.new) (spot_of runs.now) at piece.now) }
    ensures places { StagesOnly D.Disk (touched_sectors (view D.Disk mft.old).layout (spot_of runs.now) at (length piece.now))
        (stage_of D.Disk mft.old) (stage_of D.Disk mft.new) }
    ensures few { length (places D.Disk (stage_of D.Disk mft.new)) ≤ length (places D.Disk (stage_of D.Disk mft.old)) + 1 }
    ensures disk { KeepsDisk D.Disk mft.old mft.new }
    ensures err { IfErr result IsReadNo }
    ensures faults { MatchResult result (λ _. faults_of D.Disk mft.new ≡ faults_of D.Disk mft.old)
        (CountsNo (faults_of D.Disk mft.old) (faults_of D.Disk mft.new)) }
{
    let size = mft.cluster_bytes();
    match runs.spot(at / size) {
        Spot::At(cluster) => patch_cluster(mft, cluster, at % size, piece),
        Spot::Hole | Spot::Outside => Ok(()),
    }
}

/// Stages bytes of a stream that lies in these runs, written into its clusters from byte `at` on, whether it has a record or not. Of the
/// sectors that they touch the first and the last are read, where the bytes do not fill them, and no other. What would lie in a hole, or
/// behind the runs, is left.
///
/// # Errors
///
/// `Device` where the disk failed, and `Memory`. Some of the sectors are then staged: whoever called gives up what was staged.
pub fn write_runs<D: Disk>(
    mft: &mut Mft<'_, D>,
    runs: &RunList,
    at: u64,
    bytes: &[u8],
) -> Result<(), FileNo>
    requires fits { at + length bytes.now < 2 ^ 64 }
    requires sound { is_mft_broken D.Disk mft.old ≡ false }
    ensures written { OnOk result (IsTrue (view D.Disk mft.old).told → IsApart (view D.Disk mft.old).layout
        → IsOwnStream (view D.Disk mft.old).layout (spot_of runs.now)
        → IsPlaced (cluster_bytes (view D.Disk mft.old).layout) (spot_of runs.now) at (length bytes.now)
        → WritesStream (view D.Disk mft.old) (view D.Disk mft.new) (spot_of runs.now) at bytes.now) }
    ensures places { StagesOnly D.Disk (touched_sectors (view D.Disk mft.old).layout (spot_of runs.now) at (length bytes.now))
        (stage_of D.Disk mft.old) (stage_of D.Disk mft.new) }
    ensures few { length (places D.Disk (stage_of D.Disk mft.new))
        ≤ length (places D.Disk (stage_of D.Disk mft.old)) + length bytes.now / 512 + 2 }
    ensures disk { KeepsDisk D.Disk mft.old mft.new }
    ensures err { IfErr result IsReadNo }
    ensures faults { MatchResult result (λ _. faults_of D.Disk mft.new ≡ faults_of D.Disk mft.old)
        (CountsNo (faults_of D.Disk mft.old) (faults_of D.Disk mft.new)) }
{
    let mut done = 0;
    'pieces: while done < bytes.len() {
        let place = at + done as u64;
        let len = piece_len(place, bytes.len() - done);
        write_piece(mft, runs, place, &bytes[done..done + len])?;
        done += len;
    }
    Ok(())
}
