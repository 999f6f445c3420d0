//! The attribute of record 3 that says which version the volume is of.
ghost use Rattle.std.specs.Prelude.{◌≡◌, ◌↔◌, ◌<◌, ℕ, IfNone, IfSome, IsTrue, Some, length};
ghost use Rattle.ntfs_def.specs.Attribute.{attribute_place};
ghost use Rattle.attr_view.specs.View.{attributes_of, bytes_around, place_of, viewed_block};
ghost use Rattle.volume_def.specs.VersionClause.{IsVersionAt};
ghost use Rattle.volume_def.specs.VolumeRecord.{version_in};

use attr_view::{AttrView, RecordView};
use ntfs_def::kinds::VOLUME_INFORMATION;
use ntfs_def::volume_information::{LEN, MAJOR, MINOR};

// Whether a value of `$VOLUME_INFORMATION` says version 3.1.
fn is_version(value: &[u8]) -> bool
    ensures { IsTrue result ↔ version_in (Some value.now) ≡ Some (record { major = 3; minor = 1 }) }
{
    value.len() >= LEN && value[MAJOR] == 3 && value[MINOR] == 1
}

// Whether an attribute tells the version, as the clause asks for it.
fn tells_version(attribute: &AttrView<'_>) -> bool
    ensures { IsTrue result ↔ IsVersionAt (bytes_around attribute.now) (place_of attribute.now) }
{
    if attribute.kind() != VOLUME_INFORMATION {
        return false;
    }
    if !attribute.name().is_empty() {
        return false;
    }
    let Some(value) = attribute.value() else {
        return false;
    };
    let Some(place) = attribute.value_place() else {
        return false;
    };
    if place % 8 != 0 {
        return false;
    }
    is_version(value)
}

/// The place, among the attributes of a record, of the first that tells version 3.1, as S14 asks for it: an unnamed
/// `$VOLUME_INFORMATION` in the record, of 12 bytes at least, whose value begins at a multiple of 8. `None` where there is none.
pub fn find_version(opened: &RecordView<'_>) -> Option<usize>
    ensures some { IfSome result (λ i. (i < length (attributes_of opened.now))
        × IsVersionAt (viewed_block opened.now) (attribute_place (viewed_block opened.now) i)) }
    ensures none { IfNone result ((i : ℕ) → i < length (attributes_of opened.now)
        → ¬ (IsVersionAt (viewed_block opened.now) (attribute_place (viewed_block opened.now) i))) }
{
    for i in 0..opened.count() {
        let attribute = opened.attr(i);
        if tells_version(&attribute) {
            return Some(i);
        }
    }
    None
}
