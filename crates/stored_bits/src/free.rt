//! Clusters that are free, one behind the other.
ghost use Rattle.std.specs.Prelude.{◌≡◌, ◌<◌, IfNone, IfSome, false, true};
ghost use Rattle.volume_def.specs.View.{VolumeView};
ghost use Rattle.cluster_bitmap.specs.Flags.{IsFirstRun};
ghost use Rattle.tree_model.specs.Ways.{has_free_run, is_free_run};
ghost use Rattle.stored_bits.specs.Taken.{AreFlagsOf};

use cluster_bitmap::Bits;

/// Where a run of so many free clusters begins, at `from` or behind it, else the first of all, by the flags of the clusters of a volume;
/// `None` exactly where there is none.
pub fn free_run(bits: &Bits, count: u64, from: u64) -> Option<u64>
    requires some { 0 < count }
    ensures some { IfSome result (λ at. (view : VolumeView) → AreFlagsOf view bits.now → is_free_run view count at ≡ true) }
    ensures has { IfSome result (λ at. (view : VolumeView) → AreFlagsOf view bits.now → has_free_run view count ≡ true) }
    ensures none { IfNone result ((view : VolumeView) → AreFlagsOf view bits.now → has_free_run view count ≡ false) }
    ensures first { IfSome result (IsFirstRun bits.now count from) }
{
    bits.find_run(count, from)
}
