//! The part of an attribute that tells its sizes, sought by type and name among all parts of its file.
ghost use Rattle.std.specs.Prelude.{◌≡◌, ◌∷◌, ◌&&◌, ℕ, List, None, Some, slice_get};
ghost use Rattle.volume_def.specs.BitmapClauses.{written_in};
ghost use Rattle.volume_def.specs.Files.{Part, content_of, is_of, part_of};
ghost use Rattle.volume_def.specs.StreamSize.{real_size};
ghost use Rattle.volume_def.specs.Values.{is_first};
ghost use Rattle.attr_view.specs.View.{attribute_of};
ghost use Rattle.file_record.specs.Held.{parts_held};
ghost use Rattle.attr_store.specs.First.{TellsFirst, FirstMet};

use attr_view::AttrView;
use file_record::FileParts;
use ntfs_def::is_packed;

/// The part of an attribute that tells its sizes.
#[derive(Clone, Copy)]
pub struct FirstPart {
    /// Its place among the parts of the file.
    pub index: usize,
    /// Whether the attribute is compressed or encrypted.
    pub packed: bool,
    /// The bytes of the value.
    pub len: u64,
    /// The bytes that were written: of a value in the record all.
    pub written: u64,
}

/// Whether an attribute is of the type and name.
pub fn is_of(attribute: &AttrView<'_>, kind: u32, name: &[u8]) -> bool
    ensures { (n : ℕ) → result ≡ is_of kind name.now (part_of n (attribute_of attribute.now)) }
{
    attribute.kind() == kind && attribute.name() == name
}

/// Whether an attribute tells the sizes of what it is a part of: it is a value, or the extent that begins with cluster 0 of
/// its stream.
pub fn is_first(attribute: &AttrView<'_>) -> bool
    ensures { (n : ℕ) → result ≡ is_first (part_of n (attribute_of attribute.now)) }
{
    match attribute.sizes() {
        None => true,
        Some(sizes) => sizes.first == 0,
    }
}

/// The bytes of the value of an attribute that is a value or tells its sizes.
pub fn real_size(attribute: &AttrView<'_>) -> u64
    ensures { result ≡ real_size (content_of (attribute_of attribute.now).body) }
{
    match attribute.sizes() {
        Some(sizes) => sizes.real,
        None => attribute.value().unwrap_or(&[]).len() as u64,
    }
}

// The bytes of it that were written.
fn written_size(attribute: &AttrView<'_>) -> u64
    ensures { result ≡ written_in (content_of (attribute_of attribute.now).body) }
{
    match attribute.sizes() {
        Some(sizes) => sizes.initialized,
        None => attribute.value().unwrap_or(&[]).len() as u64,
    }
}

// Whether an attribute tells the sizes of the attribute of a type and name.
fn tells_sizes(attribute: &AttrView<'_>, kind: u32, name: &[u8]) -> bool
    ensures { (n : ℕ) → result ≡ (is_of kind name.now (part_of n (attribute_of attribute.now))
        && is_first (part_of n (attribute_of attribute.now))) }
{
    is_of(attribute, kind, name) && is_first(attribute)
}

/// What an attribute tells, at its place among the parts of its file, of the sizes of the attribute of a type and name:
/// `None` where it is of another one, and where it does not tell them.
pub fn first_here(
    attribute: &AttrView<'_>,
    index: usize,
    kind: u32,
    name: &[u8],
) -> Option<FirstPart>
    ensures { (file : FileParts) (n : ℕ) (left : List Part)
        → slice_get (parts_held file) index ≡ Some (part_of n (attribute_of attribute.now))
        → FirstMet file kind name.now (part_of n (attribute_of attribute.now) ∷ left) None
        → FirstMet file kind name.now left result }
{
    if !tells_sizes(attribute, kind, name) {
        return None;
    }
    Some(FirstPart {
        index,
        packed: is_packed(attribute.kind(), attribute.flags()),
        len: real_size(attribute),
        written: written_size(attribute),
    })
}

/// The part that tells the sizes of the attribute of a type and name, `None` where there is none.
pub fn find_first(file: &FileParts, kind: u32, name: &[u8]) -> Option<FirstPart>
    ensures { TellsFirst file.now kind name.now result }
{
    let mut attributes = file.attributes();
    for index in 0..file.count() {
        let Some(attribute) = attributes.next() else {
            return None;
        };
        if let Some(first) = first_here(&attribute, index, kind, name) {
            return Some(first);
        }
    }
    None
}
