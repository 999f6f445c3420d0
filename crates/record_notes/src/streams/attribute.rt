//! What an attribute tells of a stream: whether it is a part of it, and, of the first part, the sizes.
ghost use Rattle.std.specs.Prelude.{◌≡◌, ◌++◌, ◌∷◌, ℕ, List, [], IfOk, OnOk};
ghost use Rattle.attr_view.specs.View.{attribute_of};
ghost use Rattle.volume_def.specs.Files.{Part, content_of, is_of, part_of};
ghost use Rattle.volume_def.specs.Values.{first_part, first_vcn_of};
ghost use Rattle.record_notes.specs.Streams.{TellsSizes, TellsSizesIn};

use crate::streams::FirstPart;
use attr_view::AttrView;
use ntfs_def::is_packed;
use std::alloc::{AllocError, Global};

/// Whether an attribute is of the type and has no name.
pub fn is_unnamed(attribute: &AttrView<'_>, kind: u32) -> bool
    ensures { (n : ℕ) → result ≡ is_of kind [] (part_of n (attribute_of attribute.now)) }
{
    attribute.kind() == kind && attribute.name().is_empty()
}

/// The cluster of the stream with which an extent begins; 0 of a value.
pub fn first_vcn(attribute: &AttrView<'_>) -> u64
    ensures { result ≡ first_vcn_of (content_of (attribute_of attribute.now).body) }
{
    match attribute.sizes() {
        Some(sizes) => sizes.first,
        None => 0,
    }
}

// The sizes that an attribute tells, with its value where it is one.
fn sizes_of(alloc: Global, attribute: &AttrView<'_>) -> Result<FirstPart, AllocError>
    ensures { IfOk result (λ first. (n : ℕ) → TellsSizes (part_of n (attribute_of attribute.now)) first) }
{
    let packed = is_packed(attribute.kind(), attribute.flags());
    if let Some(sizes) = attribute.sizes() {
        return Ok(FirstPart {
            packed,
            len: sizes.real,
            written: sizes.initialized,
            value: None,
        });
    }
    let value = attribute.value().unwrap_or(&[]);
    let copy = Vec::from_slice(alloc, value)?;
    Ok(FirstPart {
        packed,
        len: value.len() as u64,
        written: value.len() as u64,
        value: Some(copy),
    })
}

/// One more part of a stream, of which the first that begins the stream tells the sizes.
///
/// # Errors
///
/// There was no memory for a value.
pub fn note_first(
    alloc: Global,
    first: &mut Option<FirstPart>,
    attribute: &AttrView<'_>,
) -> Result<(), AllocError>
    ensures { OnOk result ((n : ℕ) (extents : List Part) → TellsSizesIn (first_part extents) first.old
        → TellsSizesIn (first_part (extents ++ part_of n (attribute_of attribute.now) ∷ [])) first.new) }
{
    if first.is_some() {
        return Ok(());
    }
    if first_vcn(attribute) != 0 {
        return Ok(());
    }
    let sizes = sizes_of(alloc, attribute)?;
    *first = Some(sizes);
    Ok(())
}
