//! The clause on limits, over the attributes of a record.
ghost use Rattle.std.specs.Prelude.{◌≡◌, ◌↔◌, ◌^◌, ◌≤◌, ℕ, All, IsTrue, map};
ghost use Rattle.attr_view.specs.View.{attribute_of, attributes_of};
ghost use Rattle.volume_def.specs.ExtentsClause.{is_bad_stream};
ghost use Rattle.volume_def.specs.Files.{part_of};
ghost use Rattle.volume_def.specs.LimitsClause.{IsInLimits};

use crate::whole::BAD_NAME;
use attr_view::{AttrView, RecordView, Sizes};
use ntfs_def::kinds::DATA;
use ntfs_def::records::BAD_CLUSTERS;

/// The most bytes of a stream.
const MOST: u64 = 1 << 40;

// Whether an attribute of a file is of the stream of bad clusters.
fn is_bad_stream(f: u64, attribute: &AttrView<'_>) -> bool
    ensures { (n : ℕ) → result ≡ is_bad_stream f (part_of n (attribute_of attribute.now)) }
{
    f == BAD_CLUSTERS && attribute.kind() == DATA && attribute.name() == BAD_NAME
}

// Whether an extent tells no stream that is too long: it is not the first, or tells a size that is allowed.
fn is_short(sizes: Sizes) -> bool
    ensures { IsTrue result ↔ (sizes.first ≡ 0 → sizes.real ≤ 2 ^ 40) }
{
    sizes.first != 0 || sizes.real <= MOST
}

// Whether an attribute of a file tells no stream that is too long.
fn is_in_limits(f: u64, attribute: &AttrView<'_>) -> bool
    ensures { (n : ℕ) → IsTrue result ↔ IsInLimits f (part_of n (attribute_of attribute.now)) }
{
    if attribute.kind() != DATA {
        return true;
    }
    if is_bad_stream(f, attribute) {
        return true;
    }
    match attribute.sizes() {
        Some(sizes) => is_short(sizes),
        None => true,
    }
}

/// Whether no attribute of a record of file `f` tells a stream that is too long: one of more than 2^40 bytes, that of the bad
/// clusters aside.
pub fn are_in_limits(f: u64, opened: &RecordView<'_>) -> bool
    ensures { (n : ℕ) → IsTrue result ↔ All (IsInLimits f) (map (part_of n) (attributes_of opened.now)) }
{
    for attribute in opened.attributes() {
        if !is_in_limits(f, &attribute) {
            return false;
        }
    }
    true
}
