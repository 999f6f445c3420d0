//! The attribute that holds the table, in record 0.
ghost use Rattle.std.specs.Prelude.{◌≡◌, ◌≢◌, ◌↔◌, ◌∷◌, [], All, MatchOption, IfSome, IfNone, IsFalse, filter};
ghost use Rattle.ntfs_def.specs.declared.kinds.TheConstants.{ATTRIBUTE_LIST};
ghost use Rattle.ntfs_def.specs.Attribute.{Attribute};
ghost use Rattle.attr_view.specs.Left.{attributes_left};
ghost use Rattle.attr_view.specs.View.{attribute_of, attributes_of, viewed_block};
ghost use Rattle.volume_def.specs.Table.{IsTableData, is_data_extent};

use attr_view::{AttrView, Attributes, RecordView};
use ntfs_def::is_packed;
use ntfs_def::kinds::{ATTRIBUTE_LIST, DATA};

// Whether an attribute is a non-resident `$DATA` without a name.
fn is_data_extent(attribute: &AttrView<'_>) -> bool
    ensures { result ≡ is_data_extent (attribute_of attribute.now) }
{
    attribute.kind() == DATA && attribute.name().is_empty() && attribute.runs().is_some()
}

// The next one among the attributes that are left.
fn next_data_extent<'r>(attributes: &mut Attributes<'r>) -> Option<AttrView<'r>>
    ensures { MatchOption result (filter is_data_extent (attributes_left attributes.old) ≡ [])
        (λ extent. filter is_data_extent (attributes_left attributes.old)
        ≡ attribute_of extent ∷ filter is_data_extent (attributes_left attributes.new)) }
{
    while let Some(attribute) = attributes.next() {
        if is_data_extent(&attribute) {
            return Some(attribute);
        }
    }
    None
}

// The non-resident `$DATA` without a name, where there is one and no other.
fn only_data_extent<'r>(view: &RecordView<'r>) -> Option<AttrView<'r>>
    ensures some { IfSome result (λ extent. filter is_data_extent (attributes_of view.now) ≡ attribute_of extent ∷ []) }
    ensures none { IfNone result ((attribute : Attribute) → filter is_data_extent (attributes_of view.now) ≢ attribute ∷ []) }
{
    let mut attributes = view.attributes();
    let extent = next_data_extent(&mut attributes)?;
    match next_data_extent(&mut attributes) {
        None => Some(extent),
        Some(_) => None,
    }
}

/// The attribute that holds the table, where record 0 has one and no other part of it is elsewhere.
pub fn table_stream<'r>(view: &RecordView<'r>) -> Option<AttrView<'r>>
    ensures some { IfSome result (λ stream. IsTableData (viewed_block view.now) (attribute_of stream)) }
    ensures none { IfNone result ((stream : Attribute) → ¬ (IsTableData (viewed_block view.now) stream)) }
{
    if view.has_list() {
        return None;
    }
    let Some(stream) = only_data_extent(view) else {
        return None;
    };
    if is_packed(stream.kind(), stream.flags()) {
        return None;
    }
    Some(stream)
}
