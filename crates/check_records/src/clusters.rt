//! The bitmap of clusters, read and compared with the owners.
ghost use Rattle.std.specs.Prelude.{◌≡◌, ◌+◌, ◌*◌, ◌/◌, ◌≤◌, IfErr, IfNone, IfOk, IsTrue, MatchResult, OnOk, length};
ghost use Rattle.std.specs.Int.{div_ceil};
ghost use Rattle.list_laws.specs.Bits.{flags_in};
ghost use Rattle.volume_def.specs.BitmapClauses.{MeetsClusterBits, cluster_bits};
ghost use Rattle.volume_def.specs.Sound.{HoldBelow};
ghost use Rattle.volume_def.specs.Values.{pieces_touched, value_on};
ghost use Rattle.volume_def.specs.View.{VolumeView};
ghost use Rattle.mft_table.specs.Mft.{MftReads, faults_of, view};
ghost use Rattle.mft_table.specs.MountNos.{CountsMount};
ghost use Rattle.list_laws.specs.BitRanges.{IsPieceOf};
ghost use Rattle.record_notes.specs.Bitmaps.{AllOwnersNote, HasClusterBytes};
ghost use Rattle.list_laws.specs.Least.{IsLeastFailing};
ghost use Rattle.clause_order.specs.Refusals.{IsFault, IsRefusalIf};
ghost use Rattle.check_records.specs.Views.{HasComeWith};

use crate::values::{is_whole, load_bits, read_start};
use clause_order::Clause;
use cluster_bitmap::Bits;
use mft_table::{Mft, MountNo};
use record_notes::{Facts, Owners};
use std::alloc::Global;
use vol_disk::Disk;

// The first cluster that breaks the clause, by the first bytes of the bitmap, of which so many were written.
fn first_wrong_cluster(owners: &Owners, bytes: &[u8], written: u64) -> Option<u64>
    ensures { (view : VolumeView) → AllOwnersNote view owners.now → HasClusterBytes view written
        → IsPieceOf (value_on view (cluster_bits view)) 0 bytes.now → view.layout.clusters ≤ 8 * length bytes.now
        → IsLeastFailing (MeetsClusterBits view) result }
{
    let needed = owners.bitmap_len(written).min(bytes.len() as u64) as usize;
    match owners.first_wrong_bit(&bytes[..needed], 0) {
        Some(cluster) => Some(cluster),
        None => owners.first_without_bit(written),
    }
}

// Reads the first bytes of the bitmap, and decides the clause by them: the least cluster that breaks it. They are not read
// where the bitmap is packed or has a hole, or there is none.
fn decide_cluster_bits<D: Disk>(
    mft: &mut Mft<'_, D>,
    facts: &Facts,
    into: &mut [u8],
) -> Result<Option<u64>, MountNo>
    ensures first { IfOk result (λ first. IsTrue (view D.Disk mft.old).told → HasComeWith (view D.Disk mft.old) 5 facts.now
        → length into.old ≡ div_ceil (view D.Disk mft.old).layout.clusters 8
        → IsLeastFailing (MeetsClusterBits (view D.Disk mft.old)) first) }
    ensures bytes { IfOk result (λ first. IsTrue (view D.Disk mft.old).told → HasComeWith (view D.Disk mft.old) 5 facts.now
        → length into.old ≡ div_ceil (view D.Disk mft.old).layout.clusters 8
        → IfNone first (IsPieceOf (value_on (view D.Disk mft.old) (cluster_bits (view D.Disk mft.old))) 0 into.new)) }
    ensures err { IfErr result IsFault }
    ensures faults { MatchResult result (λ _. faults_of D.Disk mft.new ≡ faults_of D.Disk mft.old)
        (CountsMount (faults_of D.Disk mft.old) (faults_of D.Disk mft.new)) }
    ensures reads { MftReads D.Disk mft.old mft.new (pieces_touched 0 (length into.old)) }
{
    let note = &facts.streams.cluster_bits;
    if !is_whole(note) {
        return Ok(Some(0));
    }
    read_start(mft, note, into)?;
    let written = note.written_len();
    Ok(first_wrong_cluster(&facts.owners, into, written))
}

/// Reads the bitmap of clusters, once, and decides the clause on it. The volume meets those before.
///
/// # Errors
///
/// `Refused` with the least cluster that breaks the clause, `Device` and `Memory`.
pub fn read_cluster_bits<D: Disk>(
    alloc: Global,
    mft: &mut Mft<'_, D>,
    facts: &Facts,
) -> Result<Bits, MountNo>
    ensures ok { OnOk result (IsTrue (view D.Disk mft.old).told → HasComeWith (view D.Disk mft.old) 5 facts.now
        → HoldBelow (view D.Disk mft.old) 6) }
    ensures bits { IfOk result (λ bits. IsTrue (view D.Disk mft.old).told → HasComeWith (view D.Disk mft.old) 5 facts.now
        → bits ≡ flags_in (value_on (view D.Disk mft.old) (cluster_bits (view D.Disk mft.old))) (view D.Disk mft.old).layout.clusters) }
    ensures count { IfOk result (λ bits. length bits ≡ (view D.Disk mft.old).layout.clusters) }
    ensures err { IfErr result (IsRefusalIf 10 (HasComeWith (view D.Disk mft.old) 5 facts.now) (view D.Disk mft.old)) }
    ensures faults { MatchResult result (λ _. faults_of D.Disk mft.new ≡ faults_of D.Disk mft.old)
        (CountsMount (faults_of D.Disk mft.old) (faults_of D.Disk mft.new)) }
    ensures reads { MftReads D.Disk mft.old mft.new (pieces_touched 0 (((view D.Disk mft.old).layout.clusters + 7) / 8)) }
{
    let clusters = mft.mounted().geometry.clusters;
    let mut bytes = vec![in alloc; 0u8; clusters.div_ceil(8) as usize]?;
    if let Some(number) = decide_cluster_bits(mft, facts, &mut bytes)? {
        return Err(Clause::ClusterBits.refusal(number));
    }
    load_bits(alloc, &bytes, clusters)
}
