//! The room that is asked for where a value moves out of its record into clusters.
ghost use Rattle.std.specs.Prelude.{◌≡◌, ◌≤◌, ◌<◌, ◌+◌, ◌^◌, ℕ, List, length};
ghost use Rattle.volume_def.specs.View.{VolumeView};
ghost use Rattle.mft_table.specs.InUse.{IsInUse};
ghost use Rattle.file_room.specs.Answered.{Gives, Says};
ghost use Rattle.file_room.specs.Asked.{has_room};
ghost use Rattle.file_room.specs.Nodes.{number_of, parts_in};
ghost use Rattle.tree_edit.specs.Alone.{IsDroppable, room_to_resize};
ghost use Rattle.tree_edit.specs.Write.{room_to_write};
ghost use Rattle.tree_edit.specs.Movable.{IsMovableTo};

use crate::room::clusters_for_bytes;
use crate::writable::Writable;
use file_room::{Stop, ask_for_room};
use mft_table::Mft;
use vol_disk::Disk;

/// Asks for the room of bytes that go into the stream that was found, a value of a file without an attribute list: the clusters that it may
/// come to own, and what its file may need for a longer attribute list.
///
/// # Errors
///
/// `TooManyParts`, `MftFull` and `NoRoom`; `Memory`, and `Device` where the disk failed.
pub fn ask_to_move<D: Disk>(
    mft: &mut Mft<'_, D>,
    found: &Writable,
    at: u64,
    len: usize,
) -> Result<(), Stop>
    requires volume { IsInUse D.Disk mft.old }
    requires part { found.now.stream.part < length (parts_in found.now.held) }
    requires near { at + len ≤ 2 ^ 40 }
    ensures asked { (name : List ℕ) → Gives D.Disk mft.old mft.new (λ volume given. IsDroppable volume found.now name
        → Says (has_room (room_to_write volume name at len (number_of found.now.held))) given) result }
{
    let size = mft.cluster_bytes();
    let clusters = clusters_for_bytes(&found.held.parts, &found.stream, size, at, len as u64);
    ask_for_room(mft, &found.held.parts, clusters)
}

/// Asks for the room of another length of the stream that was found, with which it moves into clusters: it gets longer then.
///
/// # Errors
///
/// The same.
pub fn ask_to_move_to<D: Disk>(mft: &mut Mft<'_, D>, found: &Writable) -> Result<(), Stop>
    requires volume { IsInUse D.Disk mft.old }
    requires part { found.now.stream.part < length (parts_in found.now.held) }
    ensures asked { (name : List ℕ) (size : ℕ) → Gives D.Disk mft.old mft.new (λ volume given. IsMovableTo volume found.now name size
        → Says (has_room (room_to_resize volume name size (number_of found.now.held))) given) result }
{
    ask_to_move(mft, found, 0, 0)
}
