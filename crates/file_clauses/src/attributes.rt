//! The clause on the attributes of a record.
ghost use Rattle.std.specs.Prelude.{◌≡◌, ◌↔◌, ℕ, ◌≤◌, Some, IsTrue, map};
ghost use Rattle.volume_def.specs.AttributesClause.{IsRightRecord, IsStandard, MeetsAttributes};
ghost use Rattle.volume_def.specs.Files.{Records, part_of, record_of};
ghost use Rattle.attr_view.specs.Left.{attributes_left};
ghost use Rattle.attr_view.specs.View.{attribute_of, attributes_of, viewed_block};
ghost use Rattle.file_clauses.specs.Attributes.{AreRight, IsRightAlone, IsRightNext, times_id_among};

use attr_view::{AttrView, Attributes, RecordView};
use ntfs_def::file_name::is_name_key;
use ntfs_def::kinds::{FILE_NAME, INDEX_ROOT, STANDARD_INFORMATION, VOLUME_INFORMATION};
use ntfs_def::records::SYSTEM_END;
use ntfs_def::standard_information::{LEN, SHORT_LEN};

// Whether a `$STANDARD_INFORMATION` is right: its value is that of an old version or of a new one.
fn is_standard(attribute: &AttrView<'_>) -> bool
    ensures { (n : ℕ) → IsTrue result ↔ IsStandard (part_of n (attribute_of attribute.now)) }
{
    let Some(value) = attribute.value() else {
        return false;
    };
    attribute.name().is_empty() && matches!(value.len(), SHORT_LEN | LEN)
}

// Whether an attribute is right by itself, in a base record or not.
fn is_right_alone(base: bool, attribute: &AttrView<'_>) -> bool
    ensures { (n : ℕ) → IsTrue result ↔ IsRightAlone base (part_of n (attribute_of attribute.now)) }
{
    match attribute.kind() {
        STANDARD_INFORMATION => !base || is_standard(attribute),
        FILE_NAME => attribute.value().is_some_and(is_name_key),
        INDEX_ROOT | VOLUME_INFORMATION => attribute.value().is_some(),
        _ => true,
    }
}

// Whether an attribute that is still to come has this id.
fn has_id(left: &Attributes<'_>, id: u16) -> bool
    ensures { IsTrue result ↔ 1 ≤ times_id_among id (attributes_left left.now) }
{
    for attribute in *left {
        if attribute.id() == id {
            return true;
        }
    }
    false
}

// Whether an attribute is right behind those before it, the last of which has the type `least`, and before those to come.
fn is_right_next(base: bool, least: u32, attribute: &AttrView<'_>, left: &Attributes<'_>) -> bool
    ensures { (n : ℕ) → IsTrue result ↔ IsRightNext base least (part_of n (attribute_of attribute.now))
        (map (part_of n) (attributes_left left.now)) }
{
    least <= attribute.kind() && !has_id(left, attribute.id()) && is_right_alone(base, attribute)
}

// Whether the attributes of a record are right. A record has some 40 at most, so their ids are compared one by one.
fn are_right(base: bool, view: &RecordView<'_>) -> bool
    ensures { (n : ℕ) → IsTrue result ↔ AreRight base 0 0 (map (part_of n) (attributes_of view.now)) }
{
    let mut least = 0;
    let mut standards = 0;
    let mut left = view.attributes();
    while let Some(attribute) = left.next() {
        if !is_right_next(base, least, &attribute, &left) {
            return false;
        }
        least = attribute.kind();
        standards += usize::from(least == STANDARD_INFORMATION);
    }
    !base || standards == 1
}

/// Whether record `n` meets the clause on attributes.
pub fn is_right_record(n: u64, view: &RecordView<'_>) -> bool
    ensures right { IsTrue result ↔ IsRightRecord n (record_of n (viewed_block view.now)) }
    ensures meets { (records : Records) → records.record_at n ≡ Some (record_of n (viewed_block view.now))
        → IsTrue result ↔ MeetsAttributes records n }
{
    let base = view.header().base == 0;
    (base || n >= SYSTEM_END) && are_right(base, view)
}
