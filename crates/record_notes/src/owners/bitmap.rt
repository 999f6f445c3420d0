//! The clause on the bitmap of clusters, S8, decided a piece of the stored bitmap at a time.
ghost use Rattle.std.specs.Prelude.{◌≡◌, ◌+◌, ◌*◌, ◌≤◌, ◌<◌, ℕ, None, Some, length};
ghost use Rattle.volume_def.specs.BitmapClauses.{HasNoHole, MeetsClusterBits, cluster_bits};
ghost use Rattle.volume_def.specs.Values.{IsPlain};
ghost use Rattle.volume_def.specs.Values.{value_on};
ghost use Rattle.volume_def.specs.View.{VolumeView};
ghost use Rattle.list_laws.specs.BitRanges.{IsPieceOf};
ghost use Rattle.record_notes.specs.Bitmaps.{HasClusterBytes, AllOwnersNote, cluster_bytes_needed};
ghost use Rattle.list_laws.specs.Least.{IsLeastBelow, IsLeastFailing};
ghost use Rattle.record_notes.specs.Owners.{clusters_noted};

use crate::bits::first_difference;
use crate::owners::Owners;

impl Owners {
    /// The bytes of the stored bitmap that have a bit for each cluster, of so many that were written: those to be compared.
    pub fn bitmap_len(&self, written: u64) -> u64
        ensures { result ≡ cluster_bytes_needed (clusters_noted self.now) written }
    {
        self.owned.clusters.div_ceil(8).min(written)
    }

    /// The first cluster whose bit differs from whether it is owned, in a piece of the stored bitmap that begins with byte
    /// `from`, where the bits of those before it are right. The volume meets the clause on owners.
    pub fn first_wrong_bit(&self, piece: &[u8], from: usize) -> Option<u64>
        ensures { (view : VolumeView) (written : ℕ) → AllOwnersNote view self.now → HasClusterBytes view written
            → from + length piece.now ≤ written → IsPieceOf (value_on view (cluster_bits view)) from piece.now
            → IsLeastBelow (MeetsClusterBits view) (8 * from) None
            → IsLeastBelow (MeetsClusterBits view) (8 * (from + length piece.now)) result }
    {
        let Some(cluster) = first_difference(&self.owned.bits, piece, from) else {
            return None;
        };
        if cluster >= self.owned.clusters {
            return None;
        }
        Some(cluster)
    }

    /// The first cluster without a bit that was written, where the bits of those before it are right.
    pub fn first_without_bit(&self, written: u64) -> Option<u64>
        ensures { (view : VolumeView) → clusters_noted self.now ≡ view.layout.clusters → HasClusterBytes view written
            → IsLeastBelow (MeetsClusterBits view) (8 * cluster_bytes_needed (clusters_noted self.now) written) None
            → IsLeastFailing (MeetsClusterBits view) result }
    {
        if written < self.owned.clusters.div_ceil(8) {
            return Some(8 * written);
        }
        None
    }
}

/// Where the bitmap of clusters is packed, or is not there, or has a hole, cluster 0 breaks the clause.
pub fn cluster_bits_laws()
    ensures packed { (view : VolumeView) → ¬ (IsPlain (cluster_bits view)) → IsLeastFailing (MeetsClusterBits view) (Some 0) }
    ensures unplaced { (view : VolumeView) → ¬ (HasNoHole (cluster_bits view)) → IsLeastFailing (MeetsClusterBits view) (Some 0) }
{}
