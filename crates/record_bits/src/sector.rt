//! A sector of a cluster, read and staged.
ghost use Rattle.std.specs.Prelude.{◌≡◌, ◌∷◌, [], ◌+◌, ◌*◌, ◌%◌, ◌<◌, ◌≤◌, ℕ, IfErr, IsTrue, MatchResult, OnOk, Some, false, slice_index};
ghost use Rattle.ntfs_def.specs.declared.run_text.Spot.{Spot};
ghost use Rattle.volume_def.specs.Coverage.{IsApart};
ghost use Rattle.volume_def.specs.Table.{cluster_bytes};
ghost use Rattle.volume_edits.specs.Clusters.{IsOwnStream, WritesStream, stream_place};
ghost use Rattle.vol_stage.specs.Staged.{StagesOnly, spare};
ghost use Rattle.mft_table.specs.Mft.{MftReads, MftStages, faults_of, is_mft_broken, stage_of, view};
ghost use Rattle.sparse_io.specs.FileNo.TheVariants.{Memory};
ghost use Rattle.sparse_io.specs.FileNos.{CountsNo, IsReadNo};
ghost use Rattle.sparse_io.specs.Written.{StagesAtMost};

use mft_table::Mft;
use sparse_io::FileNo;
use vol_disk::Disk;

/// Reads a sector of a cluster, from its byte `skip` on.
///
/// # Errors
///
/// `Device` where the disk failed.
pub fn read_sector<D: Disk>(
    mft: &mut Mft<'_, D>,
    cluster: u64,
    skip: u64,
    into: &mut [u8; 512],
) -> Result<(), FileNo>
    requires inside { skip + 512 ≤ cluster_bytes (view D.Disk mft.old).layout }
    requires aligned { skip % 512 ≡ 0 }
    ensures read { OnOk result (IsTrue (view D.Disk mft.old).told → (j : ℕ) → j < 512
        → slice_index into.new j ≡ slice_index ((view D.Disk mft.old).cluster cluster) (skip + j)) }
    ensures err { IfErr result IsReadNo }
    ensures faults { MatchResult result (λ _. faults_of D.Disk mft.new ≡ faults_of D.Disk mft.old)
        (CountsNo (faults_of D.Disk mft.old) (faults_of D.Disk mft.new)) }
    ensures reads { MftReads D.Disk mft.old mft.new 1 }
{
    match mft.read_placed(cluster, skip, into) {
        Ok(()) => Ok(()),
        Err(_) => Err(FileNo::Device),
    }
}

// Stages a sector, in room that was reserved. One past the end of the disk is left.
fn put_sector<D: Disk>(mft: &mut Mft<'_, D>, sector: u64, from: &[u8; 512])
    requires room { 0 < spare D.Disk (stage_of D.Disk mft.old) }
    requires sound { is_mft_broken D.Disk mft.old ≡ false }
    ensures written { (spot : ℕ → Spot) (k : ℕ) → IsApart (view D.Disk mft.old).layout → IsOwnStream (view D.Disk mft.old).layout spot
        → stream_place (view D.Disk mft.old).layout spot k ≡ Some sector
        → WritesStream (view D.Disk mft.old) (view D.Disk mft.new) spot (512 * k) from.now }
    ensures stages { MftStages D.Disk (sector ∷ []) 1 mft.old mft.new }
{
    if sector < mft.sectors() {
        mft.put_sector(sector, from);
    }
}

/// Stages a sector. One past the end of the disk is left.
///
/// # Errors
///
/// `Memory`.
pub fn stage_sector<D: Disk>(
    mft: &mut Mft<'_, D>,
    sector: u64,
    from: &[u8; 512],
) -> Result<(), FileNo>
    requires sound { is_mft_broken D.Disk mft.old ≡ false }
    ensures written { OnOk result ((spot : ℕ → Spot) (k : ℕ) → IsApart (view D.Disk mft.old).layout
        → IsOwnStream (view D.Disk mft.old).layout spot → stream_place (view D.Disk mft.old).layout spot k ≡ Some sector
        → WritesStream (view D.Disk mft.old) (view D.Disk mft.new) spot (512 * k) from.now) }
    ensures places { StagesOnly D.Disk (sector ∷ []) (stage_of D.Disk mft.old) (stage_of D.Disk mft.new) }
    ensures stages { StagesAtMost D.Disk 1 mft.old mft.new }
    ensures memory { IfErr result (λ no. no ≡ Memory) }
{
    match mft.reserve(1) {
        Ok(()) => {
            put_sector(mft, sector, from);
            Ok(())
        }
        Err(_) => Err(FileNo::Memory),
    }
}
