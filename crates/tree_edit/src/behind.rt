//! A stream in clusters into which bytes go over those that were written, or right behind them: whether they can, and the room for that.
ghost use Rattle.std.specs.Prelude.{◌≡◌, ◌≤◌, ◌<◌, ◌+◌, ◌^◌, IfOk, List, length, true, ℕ};
ghost use Rattle.volume_def.specs.Sound.{IsSound};
ghost use Rattle.volume_def.specs.Table.{cluster_bytes};
ghost use Rattle.volume_def.specs.View.{VolumeView};
ghost use Rattle.mft_table.specs.InUse.{IsInUse, IsSoundVolume};
ghost use Rattle.file_record.specs.Held.{parts_held};
ghost use Rattle.file_room.specs.Asked.{has_room};
ghost use Rattle.sparse_io.specs.Held.{IsStream};
ghost use Rattle.file_room.specs.Answered.{Gives, Says};
ghost use Rattle.file_room.specs.Nodes.{IsNodeHeld, number_of, parts_in};
ghost use Rattle.tree_edit.specs.Change.{TellsFree};
ghost use Rattle.tree_edit.specs.Decided.{IsWritableSo};
ghost use Rattle.tree_edit.specs.Writable.{IsMountedAs};
ghost use Rattle.tree_edit.specs.Write.{can_lie_there, can_take_by, room_to_reach};

use crate::extent::is_extent;
use crate::writable::Writable;
use file_record::{BaseFile, FileParts};
use file_room::{Stop, ask_for_room};
use mft_table::{Mft, Mounted};
use sparse_io::{FoundStream, clusters_behind, look_at_names};
use std::alloc::{AllocError, Global};
use stored_bits::free_run;
use tree_model::No;
use vol_disk::Disk;

// The bytes that a run list may get longer by for one run more, 17, up to a multiple of 8.
const ONE_RUN: usize = 24;

/// The bytes that are free in the record of a file that holds part `i`.
pub fn free_beside(file: &FileParts, i: usize) -> usize
    requires { i < length (parts_held file.now) }
    ensures { TellsFree file.now i result }
{
    file.free_bytes(file.place_of(i).record)
}

// Whether so many clusters can be taken, as one run: they are free one behind the other, unless fewer are free in all, and the record has
// the bytes for it, of which so many are free.
fn can_take(mounted: &Mounted, free: usize, count: u64) -> bool
    ensures { (view : VolumeView) → IsSoundVolume view mounted.now → result ≡ can_take_by view free count }
{
    if count == 0 {
        return true;
    }
    if free < ONE_RUN {
        return false;
    }
    mounted.clusters.count_free() < count || free_run(&mounted.clusters, count, 0).is_some()
}

/// Whether the stream that was found lies in clusters, in one part of a file that can be edited and has no attribute list, and so many
/// bytes from `at` on go over those that were written, or right behind them, where it can take the clusters that it needs.
pub fn is_reachable(
    alloc: Global,
    mounted: &Mounted,
    cluster_bytes: u64,
    held: &BaseFile,
    stream: &FoundStream,
    at: u64,
    len: usize,
) -> Result<bool, AllocError>
    requires part { stream.now.part < length (parts_in held.now) }
    requires near { at + len ≤ 2 ^ 40 }
    requires size { 0 < cluster_bytes }
    ensures is { IfOk result (λ is. (view : VolumeView) → IsMountedAs view mounted.now cluster_bytes → IsSound view
        → IsNodeHeld view held.now → (name : List ℕ) → IsStream view held.now.parts name stream.now
        → is ≡ can_lie_there view name at len (number_of held.now)) }
    ensures inside { IfOk result (λ is. is ≡ true → number_of held.now < length mounted.now.records) }
{
    if !is_extent(alloc, mounted, held, stream)? {
        return Ok(false);
    }
    match clusters_behind(alloc, &held.parts, stream, cluster_bytes, at, len)? {
        Some(count) => {
            let free = free_beside(&held.parts, stream.part);
            Ok(can_take(mounted, free, count))
        }
        None => Ok(false),
    }
}

/// Asks for the room of bytes that go so into the stream that was found: the clusters that it needs, and where they do not end within it,
/// what its file may need for a longer run list.
///
/// # Errors
///
/// `TooManyParts`, `MftFull` and `NoRoom`; `Memory`, and `Device` where the disk failed.
pub fn ask_to_reach<D: Disk>(
    alloc: Global,
    mft: &mut Mft<'_, D>,
    found: &Writable,
    at: u64,
    len: usize,
) -> Result<(), Stop>
    requires volume { IsInUse D.Disk mft.old }
    requires part { found.now.stream.part < length (parts_in found.now.held) }
    requires near { at + len ≤ 2 ^ 40 }
    ensures asked { (name : List ℕ) → Gives D.Disk mft.old mft.new (λ volume given. IsWritableSo volume found.now name at len
        → can_lie_there volume name at len (number_of found.now.held) ≡ true
        → Says (has_room (room_to_reach volume name at len (number_of found.now.held))) given) result }
{
    let file = &found.held.parts;
    let size = mft.cluster_bytes();
    look_at_names(file);
    match clusters_behind(alloc, file, &found.stream, size, at, len) {
        Ok(Some(count)) => {
            if count == 0 && at + len as u64 <= found.stream.size {
                return Ok(());
            }
            ask_for_room(mft, file, count)
        }
        // Such a stream is none that was found.
        Ok(None) => Err(Stop::No(No::Memory)),
        Err(_) => Err(Stop::No(No::Memory)),
    }
}
