//! The extents of an attribute, sought among all attributes of its file.
ghost use Rattle.std.specs.Prelude.{◌≡◌, ℕ, IfNone, IfSome, List, None, find};
ghost use Rattle.std.specs.Option.{option_map};
ghost use Rattle.ntfs_def.specs.Attribute.{ExtentHeader, NonResident};
ghost use Rattle.attr_view.specs.View.{attribute_of};
ghost use Rattle.volume_def.specs.Files.{part_of};
ghost use Rattle.volume_def.specs.Spans.{spans_vcn};
ghost use Rattle.file_record.specs.Left.{attributes_left};
ghost use Rattle.attr_store.specs.Sought.{IsAmong, IsExtentAt, parts_held_like, spans_named};

use crate::first::is_of;
use attr_view::{AttrView, Sizes};
use file_record::{FileAttributes, FileParts};

/// The numbers of an extent.
pub fn extent_sizes(attribute: &AttrView<'_>) -> Sizes
    ensures { (extent : ExtentHeader) (text : List ℕ) → (attribute_of attribute.now).body ≡ NonResident extent text
        → result ≡ extent.sizes }
{
    match attribute.sizes() {
        Some(sizes) => sizes,
        None => Sizes {
            allocated: 0,
            real: 0,
            initialized: 0,
            first: 0,
            last: 0,
        },
    }
}

/// The run text of an extent.
pub fn extent_text<'r>(attribute: &AttrView<'r>) -> &'r [u8]
    ensures { (extent : ExtentHeader) (text : List ℕ) → (attribute_of attribute.now).body ≡ NonResident extent text
        → result.now ≡ text }
{
    match attribute.runs() {
        Some(text) => text,
        None => &[],
    }
}

// Whether the header of an attribute tells that it holds a cluster of its stream.
fn spans_vcn(attribute: &AttrView<'_>, vcn: u64) -> bool
    ensures { (n : ℕ) → result ≡ spans_vcn vcn (part_of n (attribute_of attribute.now)) }
{
    match attribute.sizes() {
        Some(sizes) => sizes.first <= vcn && vcn <= sizes.last,
        None => false,
    }
}

// Whether an attribute is of a type and name, and its header tells so.
fn is_sought(attribute: &AttrView<'_>, kind: u32, name: &[u8], vcn: u64) -> bool
    ensures { result ≡ spans_named kind name.now vcn (attribute_of attribute.now) }
{
    is_of(attribute, kind, name) && spans_vcn(attribute, vcn)
}

// The next one among the attributes that are left.
fn next_extent<'f>(
    attributes: &mut FileAttributes<'f>,
    kind: u32,
    name: &[u8],
    vcn: u64,
) -> Option<AttrView<'f>>
    ensures { option_map attribute_of result ≡ find (spans_named kind name.now vcn) (attributes_left attributes.old) }
{
    while let Some(attribute) = attributes.next() {
        if is_sought(&attribute, kind, name, vcn) {
            return Some(attribute);
        }
    }
    None
}

/// An extent of the type and name of an attribute whose header tells that it holds a cluster of the stream: the attribute
/// itself where it does, and otherwise the first one of its file. `None` exactly where there is none.
pub fn find_extent<'f>(file: &'f FileParts, wanted: &AttrView<'f>, vcn: u64) -> Option<AttrView<'f>>
    requires among { IsAmong file.now (attribute_of wanted.now) }
    ensures some { IfSome result (λ found. IsExtentAt file.now (attribute_of wanted.now) vcn (attribute_of found)) }
    ensures none { IfNone result (find (spans_vcn vcn) (parts_held_like file.now (attribute_of wanted.now)) ≡ None) }
{
    if spans_vcn(wanted, vcn) {
        return Some(*wanted);
    }
    let mut attributes = file.attributes();
    next_extent(&mut attributes, wanted.kind(), wanted.name(), vcn)
}
