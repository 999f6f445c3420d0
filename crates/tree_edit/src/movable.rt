//! A value that does not stay in its record, and can leave it for clusters: whether the stream that was found is such a value.
ghost use Rattle.std.specs.Prelude.{◌≡◌, ◌≤◌, ◌<◌, ◌+◌, ◌^◌, ℕ, IfOk, List, length, true};
ghost use Rattle.volume_def.specs.Sound.{IsSound};
ghost use Rattle.volume_def.specs.View.{VolumeView};
ghost use Rattle.sparse_io.specs.Held.{IsStream};
ghost use Rattle.file_room.specs.Nodes.{IsNodeHeld, number_of, parts_in};
ghost use Rattle.tree_edit.specs.Writable.{IsMountedAs};
ghost use Rattle.tree_edit.specs.Movable.{can_move_there};
ghost use Rattle.tree_edit.specs.Alone.{can_move, can_move_to};

use crate::alone::{is_alone, is_resizable};
use crate::behind::free_beside;
use crate::leave::can_leave;
use crate::room::clusters_for_bytes;
use file_record::BaseFile;
use mft_table::Mounted;
use sparse_io::{FoundStream, look_at_names};
use std::alloc::{AllocError, Global};

// Whether the stream that was found is a value alone that does not stay in its record with so many bytes, and can leave it for so many
// clusters.
fn can_move(
    alloc: Global,
    mounted: &Mounted,
    cluster_bytes: u64,
    held: &BaseFile,
    stream: &FoundStream,
    size: u64,
    count: u64,
) -> Result<bool, AllocError>
    requires part { stream.now.part < length (parts_in held.now) }
    requires some { 0 < cluster_bytes }
    ensures is { IfOk result (λ is. (view : VolumeView) → IsMountedAs view mounted.now cluster_bytes → IsSound view
        → IsNodeHeld view held.now → (name : List ℕ) → IsStream view held.now.parts name stream.now
        → is ≡ can_move view name size count (number_of held.now)) }
    ensures inside { IfOk result (λ is. is ≡ true → number_of held.now < length mounted.now.records) }
{
    if !is_alone(alloc, mounted, held, stream)? {
        return Ok(false);
    }
    if is_resizable(alloc, mounted, held, stream, size)? {
        return Ok(false);
    }
    look_at_names(&held.parts);
    let attribute = held.parts.attr(stream.part);
    let free = free_beside(&held.parts, stream.part);
    Ok(can_leave(mounted, cluster_bytes, &attribute, free, size, count))
}

/// Whether the stream that was found is a value of a file that can be edited and has no attribute list, so many bytes from `at` on go over
/// its bytes, or right behind them, and then it does not stay in its record, but can leave it for a run of the clusters that it needs then,
/// which are free one behind the other, unless fewer are free in all.
///
/// # Errors
///
/// Want of memory alone.
pub fn is_movable(
    alloc: Global,
    mounted: &Mounted,
    cluster_bytes: u64,
    held: &BaseFile,
    stream: &FoundStream,
    at: u64,
    len: usize,
) -> Result<bool, AllocError>
    requires part { stream.now.part < length (parts_in held.now) }
    requires near { at + len ≤ 2 ^ 40 }
    requires size { 0 < cluster_bytes }
    ensures is { IfOk result (λ is. (view : VolumeView) → IsMountedAs view mounted.now cluster_bytes → IsSound view
        → IsNodeHeld view held.now → (name : List ℕ) → IsStream view held.now.parts name stream.now
        → is ≡ can_move_there view name at len (number_of held.now)) }
    ensures inside { IfOk result (λ is. is ≡ true → number_of held.now < length mounted.now.records) }
{
    look_at_names(&held.parts);
    if at > stream.size {
        return Ok(false);
    }
    let end = at + len as u64;
    let count = clusters_for_bytes(&held.parts, stream, cluster_bytes, at, len as u64);
    can_move(alloc, mounted, cluster_bytes, held, stream, end, count)
}

/// The same, where it is to have another length, of so many bytes: the clusters that it needs then are as many as it would fill now.
///
/// # Errors
///
/// Want of memory alone.
pub fn is_movable_to(
    alloc: Global,
    mounted: &Mounted,
    cluster_bytes: u64,
    held: &BaseFile,
    stream: &FoundStream,
    size: u64,
) -> Result<bool, AllocError>
    requires part { stream.now.part < length (parts_in held.now) }
    requires some { 0 < cluster_bytes }
    ensures is { IfOk result (λ is. (view : VolumeView) → IsMountedAs view mounted.now cluster_bytes → IsSound view
        → IsNodeHeld view held.now → (name : List ℕ) → IsStream view held.now.parts name stream.now
        → is ≡ can_move_to view name size (number_of held.now)) }
    ensures inside { IfOk result (λ is. is ≡ true → number_of held.now < length mounted.now.records) }
{
    let count = clusters_for_bytes(&held.parts, stream, cluster_bytes, 0, 0);
    can_move(alloc, mounted, cluster_bytes, held, stream, size, count)
}
