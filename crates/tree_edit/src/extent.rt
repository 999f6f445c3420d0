//! A stream in clusters of a file without an attribute list, in one part: whether one that was found is such a stream, and whether the bits
//! of its clusters lie in clusters.
ghost use Rattle.std.specs.Prelude.{◌≡◌, ◌<◌, ◌==◌, ◌&&◌, IfOk, IsSomeAnd, List, count_by, is_some, length, slice_get, true, ℕ};
ghost use Rattle.volume_def.specs.Files.{content_extent, is_of, parts_like};
ghost use Rattle.volume_def.specs.Sound.{IsSound};
ghost use Rattle.volume_def.specs.Table.{cluster_bytes};
ghost use Rattle.volume_def.specs.View.{VolumeView};
ghost use Rattle.mft_table.specs.InUse.{IsInUse};
ghost use Rattle.file_record.specs.Held.{parts_held};
ghost use Rattle.file_room.specs.Asked.{has_room};
ghost use Rattle.sparse_io.specs.Held.{IsStream};
ghost use Rattle.file_room.specs.Answered.{Gives, Says};
ghost use Rattle.file_room.specs.Nodes.{IsNodeHeld, number_of, parts_in};
ghost use Rattle.tree_edit.specs.Alone.{bits_asked, can_give};
ghost use Rattle.tree_edit.specs.Writable.{IsMountedAs};

use crate::settable::can_edit;
use file_record::{BaseFile, FileParts};
use file_room::Stop;
use mft_table::{Mft, Mounted};
use sparse_io::{FoundStream, has_list, is_of, look_at_names};
use std::alloc::{AllocError, Global};
use stored_bits::bits_are_placed;
use tree_model::No;
use vol_disk::Disk;

// How many attributes of a file are of the type and name.
fn count_of(file: &FileParts, kind: u32, name: &[u8]) -> usize
    ensures { result ≡ count_by (is_of kind name.now) (parts_held file.now) }
{
    let mut count = 0;
    let mut attributes = file.attributes();
    for index in 0..file.count() {
        let Some(attribute) = attributes.next() else {
            return count;
        };
        if is_of(&attribute, kind, name) {
            count += 1;
        }
    }
    count
}

// Whether a part of a file lies in clusters, and is the only one of its type and name.
fn lies_alone(file: &FileParts, part: usize) -> bool
    requires { part < length (parts_held file.now) }
    ensures { IsSomeAnd (slice_get (parts_held file.now) part) (λ part. result
        ≡ (is_some (content_extent part.content) && (length (parts_like part (parts_held file.now)) == 1))) }
{
    let attribute = file.attr(part);
    if attribute.value().is_some() {
        return false;
    }
    count_of(file, attribute.kind(), attribute.name()) == 1
}

/// Whether the file can be edited and has no attribute list, and its stream lies in clusters, in one part.
pub fn is_extent(
    alloc: Global,
    mounted: &Mounted,
    held: &BaseFile,
    stream: &FoundStream,
) -> Result<bool, AllocError>
    requires part { stream.now.part < length (parts_in held.now) }
    ensures is { IfOk result (λ is. (view : VolumeView) → IsMountedAs view mounted.now (cluster_bytes view.layout) → IsSound view
        → IsNodeHeld view held.now → (name : List ℕ) → IsStream view held.now.parts name stream.now
        → is ≡ can_give view name (number_of held.now)) }
    ensures inside { IfOk result (λ is. is ≡ true → number_of held.now < length mounted.now.records) }
{
    if !can_edit(alloc, mounted, &held.parts)? {
        return Ok(false);
    }
    if has_list(&held.parts) {
        return Ok(false);
    }
    look_at_names(&held.parts);
    Ok(lies_alone(&held.parts, stream.part))
}

/// Asks that the bitmap of clusters lies in clusters, in which those are given back that a stream loses.
///
/// # Errors
///
/// `Unbuilt` where it does not; `Memory`, and `Device` where the disk failed.
pub fn ask_for_bits<D: Disk>(alloc: Global, mft: &mut Mft<'_, D>) -> Result<(), Stop>
    requires volume { IsInUse D.Disk mft.old }
    ensures asked { Gives D.Disk mft.old mft.new (λ volume given. Says (has_room (bits_asked volume)) given) result }
{
    match bits_are_placed(alloc, mft) {
        Ok(true) => Ok(()),
        Ok(false) => Err(Stop::No(No::Unbuilt)),
        Err(no) => Err(Stop::from(no)),
    }
}
