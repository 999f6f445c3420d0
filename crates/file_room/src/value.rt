//! The clusters that a value may come to own, where it does not stay in its record.
ghost use Rattle.std.specs.Prelude.{◌≡◌, ◌≤◌, ◌<◌, ◌+◌, ◌-◌, ◌/◌, ◌^◌, ◌==◌, ℕ, List, false, if◌then◌else◌, max};
ghost use Rattle.ntfs_def.specs.Rounded.{clusters_for};
ghost use Rattle.volume_def.specs.Files.{Part};
ghost use Rattle.volume_def.specs.Values.{spot_at};
ghost use Rattle.tree_model.specs.StreamRoom.{is_cluster, new_clusters, stream_value_len};

use crate::need::clusters_for;

// The clusters of so many bytes that bytes from `from` on touch, behind the first `front`.
fn touched_behind(size: u64, front: u64, from: u64, len: u64) -> u64
    requires some { 0 < size }
    requires near { from + len ≤ 2 ^ 62 }
    ensures behind { result ≡ (if len == 0 then 0 else clusters_for (from + len) size - max front (from / size)) }
    ensures few { result ≤ from + len - front }
{
    if len == 0 {
        return 0;
    }
    clusters_for(from + len, size).saturating_sub(front.max(from / size))
}

/// The clusters, of `size` bytes each, that a stream may come to own of which no run places a cluster, since it is a value, of so many
/// bytes: those that the value fills, and those that bytes from `from` on touch.
pub fn clusters_of_value(size: u64, value: u64, from: u64, len: u64) -> u64
    requires some { 0 < size }
    requires near { from + len ≤ 2 ^ 62 }
    ensures clusters { (extents : List Part) → stream_value_len extents ≡ value → ((vcn : ℕ) → is_cluster (spot_at extents vcn) ≡ false)
        → result ≡ new_clusters size extents from len }
    ensures few { (most : ℕ) → value ≤ most → from + len ≤ most → result ≤ most }
{
    let front = clusters_for(value, size);
    front + touched_behind(size, front, from, len)
}
