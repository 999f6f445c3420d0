//! A stream is found by its name, and all streams of a file are listed.
ghost use Rattle.std.specs.Prelude.{◌≡◌, ◌<◌, IfOk, IfSome, find, length, map, option_map};
ghost use Rattle.std.specs.Str.{bytes_eq};
ghost use Rattle.ntfs_def.specs.KeyOrder.{fold_of};
ghost use Rattle.volume_def.specs.View.{VolumeView};
ghost use Rattle.tree_model.specs.Answers.{shown_stream};
ghost use Rattle.tree_model.specs.Tree.{are_same, sought};
ghost use Rattle.attr_store.specs.Held.{parts_held};
ghost use Rattle.sparse_io.specs.Held.{IsHeldWith, IsStreamIfThere, streams_held};

use crate::held::{HeldStream, held_streams};
use attr_store::FileParts;
use std::alloc::{AllocError, Global};
use tree_model::ShownStream;
use upcase::UpCase;
use vol_bytes::Name;

/// A stream of a file that was found.
#[derive(Clone, Copy, Debug)]
pub struct FoundStream {
    /// The place, among the parts of the file, of its first part.
    pub part: usize,
    /// Whether it is compressed or encrypted.
    pub packed: bool,
    /// Its real size, in bytes.
    pub size: u64,
}

// The stream of exactly this name.
fn seek_exact<'s>(streams: &'s [HeldStream], name: &[u16]) -> Option<&'s HeldStream>
    ensures { option_map (λ found. found.now) result ≡ find (λ kept. bytes_eq kept.name name.now) streams.now }
{
    'streams: for kept in streams {
        if kept.name.as_slice() == name {
            return Some(kept);
        }
    }
    None
}

// Whether two names are the same by the table of case.
fn are_same(upcase: &UpCase, a: &[u16], b: &[u16]) -> bool
    ensures { result ≡ are_same (fold_of upcase.now) a.now b.now }
{
    upcase.same(a, b)
}

// The first stream whose units are the same by the table of case.
fn seek_same<'s>(streams: &'s [HeldStream], upcase: &UpCase, name: &[u16]) -> Option<&'s HeldStream>
    ensures { option_map (λ found. found.now) result ≡ find (λ kept. are_same (fold_of upcase.now) kept.name name.now) streams.now }
{
    'streams: for kept in streams {
        if are_same(upcase, kept.name.as_slice(), name) {
            return Some(kept);
        }
    }
    None
}

// The stream of exactly this name among some in name order, else the first that is the same by the table of case.
fn seek<'s>(streams: &'s [HeldStream], upcase: &UpCase, name: &[u16]) -> Option<&'s HeldStream>
    ensures { option_map (λ found. found.now) result ≡ sought (λ kept. kept.name) (fold_of upcase.now) streams.now name.now }
{
    match seek_exact(streams, name) {
        Some(exact) => Some(exact),
        None => seek_same(streams, upcase, name),
    }
}

/// The stream of a name: of exactly this name, else the first in name order whose units are the same by the table of case. The
/// unnamed stream has the empty name.
///
/// # Errors
///
/// Want of memory alone.
pub fn find_stream(
    alloc: Global,
    file: &FileParts,
    upcase: &UpCase,
    name: &Name,
) -> Result<Option<FoundStream>, AllocError>
    ensures found { IfOk result (λ found. (view : VolumeView) → IsHeldWith view upcase.now file.now
        → IsStreamIfThere view file.now name.now found) }
    ensures place { IfOk result (λ found. IfSome found (λ at. at.part < length (parts_held file.now))) }
{
    let streams = held_streams(alloc, file, upcase)?;
    match seek(&streams, upcase, name.as_slice()) {
        Some(kept) => Ok(Some(FoundStream {
            part: kept.part,
            packed: kept.packed,
            size: kept.size,
        })),
        None => Ok(None),
    }
}

/// All streams of a file, in name order.
///
/// # Errors
///
/// Want of memory alone.
pub fn list_streams(
    alloc: Global,
    file: &FileParts,
    upcase: &UpCase,
) -> Result<Vec<ShownStream>, AllocError>
    ensures { IfOk result (λ shown. (view : VolumeView) → IsHeldWith view upcase.now file.now
        → shown.items ≡ map shown_stream (streams_held view file.now)) }
{
    let streams = held_streams(alloc, file, upcase)?;
    let mut shown = Vec::with_capacity(alloc, streams.len())?;
    'streams: for kept in streams {
        shown.push(ShownStream {
            packed: kept.packed,
            size: kept.size,
            name: kept.name,
        })?;
    }
    Ok(shown)
}
