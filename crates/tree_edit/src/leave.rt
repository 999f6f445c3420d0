//! Whether a value can leave its record for a run of clusters, by its attribute and what is free beside it, and by the clusters that are
//! free.
ghost use Rattle.std.specs.Prelude.{◌≡◌, ◌≤◌, ◌<◌};
ghost use Rattle.ntfs_def.specs.Rounded.{clusters_for};
ghost use Rattle.volume_def.specs.View.{VolumeView};
ghost use Rattle.attr_view.specs.View.{attribute_of};
ghost use Rattle.mft_table.specs.InUse.{IsSoundVolume};
ghost use Rattle.tree_model.specs.Ways.{has_run_if_room};
ghost use Rattle.tree_edit.specs.Movable.{can_leave_by, fits_as_extent_by};

use attr_view::AttrView;
use mft_table::Mounted;
use stored_bits::free_run;

// The bytes that an extent of one run has more than the value in whose place it comes, beside its name: a header of 64 and 24 for the run,
// less the 24 of the value's header; 7 more, as many as the name may be rounded up by, and one.
const EXTENT_BYTES: usize = 72;

// The clusters of `size` bytes that so many bytes fill.
fn clusters_for(bytes: u64, size: u64) -> u64
    requires { 0 < size }
    ensures { result ≡ clusters_for bytes size }
{
    bytes.div_ceil(size)
}

// Whether an attribute is a value whose bytes, with those that are free in its record, are enough for an extent of one run under its name.
fn fits_as_extent(attribute: &AttrView<'_>, free: usize) -> bool
    requires few { free ≤ 1024 }
    ensures { result ≡ fits_as_extent_by (attribute_of attribute.now) free }
{
    let bytes = EXTENT_BYTES + attribute.name().len();
    match attribute.value() {
        Some(value) => bytes <= value.len() + free,
        None => false,
    }
}

// Whether so many clusters are free one behind the other, unless fewer are free in all.
fn has_run(mounted: &Mounted, count: u64) -> bool
    requires some { 0 < count }
    ensures { (view : VolumeView) → IsSoundVolume view mounted.now → result ≡ has_run_if_room view count }
{
    mounted.clusters.count_free() < count || free_run(&mounted.clusters, count, 0).is_some()
}

/// Whether an attribute, beside which so many bytes are free in its record, is a value without flags that can leave it for an extent of one
/// run of so many clusters, some, of `cluster_bytes` each, which are as many as `size` bytes need.
pub fn can_leave(
    mounted: &Mounted,
    cluster_bytes: u64,
    attribute: &AttrView<'_>,
    free: usize,
    size: u64,
    count: u64,
) -> bool
    requires some { 0 < cluster_bytes }
    requires few { free ≤ 1024 }
    ensures { (view : VolumeView) → IsSoundVolume view mounted.now
        → result ≡ can_leave_by view cluster_bytes (attribute_of attribute.now) free size count }
{
    if count == 0 {
        return false;
    }
    if clusters_for(size, cluster_bytes) != count {
        return false;
    }
    if attribute.flags() != 0 {
        return false;
    }
    if !fits_as_extent(attribute, free) {
        return false;
    }
    has_run(mounted, count)
}
