//! One index of a file, found by its name.
ghost use Rattle.std.specs.Prelude.{◌≡◌, ◌↔◌, ℕ, List, IfNone, IfSome, IsTrue};
ghost use Rattle.volume_def.specs.Files.{content_extent};
ghost use Rattle.volume_def.specs.Values.{IsPlainIfThere, first_part};
ghost use Rattle.attr_store.specs.First.{IsStoredIfThere, TellsFirst, attribute_held};
ghost use Rattle.index_store.specs.Index.{HasParts, IsFound, index_held};

use crate::parts_met::{Root, seek_index};
use attr_store::{FileParts, FirstPart, Stored, stored_of};

/// One index of a file, and what has to be known of it so that its records are read.
#[derive(Clone, Copy)]
pub struct FoundIndex<'f> {
    /// The name of the index in bytes, two for each unit, the lower first.
    pub name: &'f [u8],
    /// The value of its `$INDEX_ROOT`.
    pub root: &'f [u8],
    /// Its `$INDEX_ALLOCATION`, where it is there.
    pub records: Option<Stored>,
    /// Its `$BITMAP`, where it is there.
    pub bits: Option<Stored>,
}

// Whether an attribute is not packed, where it is there.
fn is_plain(first: &Option<FirstPart>) -> bool
    ensures { (file : FileParts) (kind : ℕ) (name : List ℕ) → TellsFirst file kind name first.now
        → IsTrue result ↔ IsPlainIfThere (attribute_held file kind name) }
{
    match first {
        Some(first) => !first.packed,
        None => true,
    }
}

// Whether the bytes of an attribute that lies in clusters were all written.
fn is_written(first: &Option<FirstPart>) -> bool
    ensures { (file : FileParts) (kind : ℕ) (name : List ℕ) → TellsFirst file kind name first.now
        → IsTrue result ↔ IfSome (first_part (attribute_held file kind name)) (λ part. IfSome (content_extent part.content) (λ extent.
        extent.sizes.initialized ≡ extent.sizes.real)) }
{
    match first {
        Some(first) => first.written == first.len,
        None => true,
    }
}

/// The index of a name among the parts of a file: its root, which is one value in a record, its records and their
/// bitmap. `None` exactly where the parts of the name are not those of an index: the root is missing or stands twice,
/// the records or the bitmap are packed, or the records were not all written.
pub fn find_index<'f>(file: &'f FileParts, name: &'f [u8]) -> Option<FoundIndex<'f>>
    ensures name { IfSome result (λ index. index.name.now ≡ name.now) }
    ensures found { IfSome result (IsFound file.now) }
    ensures none { IfNone result ((root : List ℕ) → ¬ (HasParts (index_held file.now name.now) root)) }
{
    let seen = seek_index(file, name);
    let Root::Only(root) = seen.root else {
        return None;
    };
    if !is_plain(&seen.records) || !is_plain(&seen.bits) || !is_written(&seen.records) {
        return None;
    }
    Some(FoundIndex {
        name,
        root,
        records: stored_of(&seen.records),
        bits: stored_of(&seen.bits),
    })
}
