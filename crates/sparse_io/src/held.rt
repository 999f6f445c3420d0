//! What is kept of the streams of a file while one is sought, and in which order.
ghost use Rattle.std.specs.Prelude.{◌≡◌, ◌<◌, ℕ, IfOk};
ghost use Rattle.ntfs_def.specs.KeyOrder.{compare_units, fold_of};
ghost use Rattle.attr_view.specs.View.{attribute_of};
ghost use Rattle.volume_def.specs.Files.{part_of};
ghost use Rattle.attr_store.specs.Held.{parts_held};
ghost use Rattle.list_laws.specs.Ordered.{in_order};
ghost use Rattle.tree_model.specs.Reading.{begins_stream};
ghost use Rattle.sparse_io.specs.Held.{kept_above, kept_at, kept_from};

use attr_store::{FileParts, is_first, real_size};
use attr_view::AttrView;
use ntfs_def::kinds::DATA;
use ntfs_def::{is_packed, read_units};
use std::alloc::{AllocError, Global};
use std::cmp::Ordering;
use upcase::UpCase;
use vol_bytes::Name;

/// What is kept of a stream.
#[derive(Debug, Drop)]
pub struct HeldStream {
    pub name: Name,
    /// The place, among the parts of the file, of its first part.
    pub part: usize,
    /// Whether it is compressed or encrypted.
    pub packed: bool,
    /// Its real size, in bytes.
    pub size: u64,
}

// Whether an attribute is the first part of a stream: a value, or the extent that begins with cluster 0.
fn begins_stream(attribute: &AttrView<'_>) -> bool
    ensures { (n : ℕ) → result ≡ begins_stream (part_of n (attribute_of attribute.now)) }
{
    attribute.kind() == DATA && is_first(attribute)
}

// What is kept of the stream that begins with the part at a place.
fn keep(alloc: Global, attribute: &AttrView<'_>, place: usize) -> Result<HeldStream, AllocError>
    ensures { IfOk result (λ kept. (n : ℕ) → kept ≡ kept_at place (part_of n (attribute_of attribute.now))) }
{
    Ok(HeldStream {
        name: Name::from_vec(read_units(alloc, attribute.name())?),
        part: place,
        packed: is_packed(attribute.kind(), attribute.flags()),
        size: real_size(attribute),
    })
}

// The streams of a file, in the order of its parts.
fn gather(alloc: Global, file: &FileParts) -> Result<Vec<HeldStream>, AllocError>
    ensures { IfOk result (λ kept. kept.items ≡ kept_from 0 (parts_held file.now)) }
{
    let mut streams = Vec::new(alloc);
    let mut attributes = file.attributes();
    for place in 0..file.count() {
        let Some(attribute) = attributes.next() else {
            return Ok(streams);
        };
        if begins_stream(&attribute) {
            streams.push(keep(alloc, &attribute, place)?)?;
        }
    }
    Ok(streams)
}

/// The streams of a file, in name order.
///
/// # Errors
///
/// Want of memory alone.
pub fn held_streams(
    alloc: Global,
    file: &FileParts,
    upcase: &UpCase,
) -> Result<Vec<HeldStream>, AllocError>
    ensures { IfOk result (λ kept. kept.items ≡ in_order (kept_above (fold_of upcase.now)) (kept_from 0 (parts_held file.now))) }
{
    let mut streams = gather(alloc, file)?;
    streams.sort_by(
        |a: &HeldStream, b: &HeldStream| -> Ordering
            ensures { result ≡ compare_units (fold_of upcase.entry.now) a.now.name b.now.name }
        { upcase.compare(a.name.as_slice(), b.name.as_slice()) },
    )?;
    Ok(streams)
}
