//! The parts of one index, found among all attributes of its file in one pass.
ghost use Rattle.std.specs.Prelude.{◌≡◌, ◌∷◌, [], ℕ, List, Some, slice_get};
ghost use Rattle.volume_def.specs.Files.{Part, part_of};
ghost use Rattle.attr_view.specs.View.{attribute_of};
ghost use Rattle.attr_store.specs.Held.{parts_held};
ghost use Rattle.attr_store.specs.First.{FirstMet};
ghost use Rattle.index_store.specs.PartsMet.{ArePartsMet, RootMet};

use attr_store::{FileParts, FirstPart, first_here, is_of};
use attr_view::AttrView;
use ntfs_def::kinds::{BITMAP, INDEX_ALLOCATION, INDEX_ROOT};

/// The root of an index, as far as it was met.
#[derive(Clone, Copy)]
pub enum Root<'f> {
    /// It was not met.
    Missing,
    /// It was met once, and this is its value, which stands in a record.
    Only(&'f [u8]),
    /// It was met twice, or its value stands in no record.
    Refused,
}

/// The parts of an index, as far as they were met.
#[derive(Clone, Copy)]
pub struct PartsMet<'f> {
    pub root: Root<'f>,
    /// The part that tells the sizes of its `$INDEX_ALLOCATION`.
    pub records: Option<FirstPart>,
    /// The part that tells the sizes of its `$BITMAP`.
    pub bits: Option<FirstPart>,
}

// The root of the index of a name, once one attribute more was met.
fn root_with<'f>(root: Root<'f>, attribute: &AttrView<'f>, name: &[u8]) -> Root<'f>
    ensures { (file : FileParts) (n : ℕ) (left : List Part)
        → RootMet file name.now (part_of n (attribute_of attribute.now) ∷ left) root.entry → RootMet file name.now left result }
{
    if !is_of(attribute, INDEX_ROOT, name) {
        return root;
    }
    match root {
        Root::Missing => match attribute.value() {
            Some(value) => Root::Only(value),
            None => Root::Refused,
        },
        Root::Only(_) => Root::Refused,
        Root::Refused => Root::Refused,
    }
}

// The part that tells the sizes of the attribute of a type and name, once the attribute at a place was met too.
fn first_with(
    first: Option<FirstPart>,
    attribute: &AttrView<'_>,
    index: usize,
    kind: u32,
    name: &[u8],
) -> Option<FirstPart>
    ensures { (file : FileParts) (n : ℕ) (left : List Part)
        → slice_get (parts_held file) index ≡ Some (part_of n (attribute_of attribute.now))
        → FirstMet file kind name.now (part_of n (attribute_of attribute.now) ∷ left) first
        → FirstMet file kind name.now left result }
{
    match first {
        Some(first) => Some(first),
        None => first_here(attribute, index, kind, name),
    }
}

// The parts of the index of a name, once the attribute at a place was met too.
fn parts_with<'f>(
    seen: &PartsMet<'f>,
    attribute: &AttrView<'f>,
    index: usize,
    name: &[u8],
) -> PartsMet<'f>
    ensures { (file : FileParts) (n : ℕ) (left : List Part)
        → slice_get (parts_held file) index ≡ Some (part_of n (attribute_of attribute.now))
        → ArePartsMet file name.now (part_of n (attribute_of attribute.now) ∷ left) seen.now → ArePartsMet file name.now left result }
{
    PartsMet {
        root: root_with(seen.root, attribute, name),
        records: first_with(seen.records, attribute, index, INDEX_ALLOCATION, name),
        bits: first_with(seen.bits, attribute, index, BITMAP, name),
    }
}

/// The parts of the index of a name among all attributes of a file; each of these is met once.
pub fn seek_index<'f>(file: &'f FileParts, name: &[u8]) -> PartsMet<'f>
    ensures { ArePartsMet file.now name.now [] result }
{
    let mut seen = PartsMet {
        root: Root::Missing,
        records: None,
        bits: None,
    };
    let mut attributes = file.attributes();
    for index in 0..file.count() {
        let Some(attribute) = attributes.next() else {
            return seen;
        };
        seen = parts_with(&seen, &attribute, index, name);
    }
    seen
}
