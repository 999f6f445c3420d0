//! Whether a new name can come into a directory.
ghost use Rattle.std.specs.Prelude.{◌≡◌, ◌≤◌, ◌<◌, ◌&&◌, IfOk, IsTrue, length, not, true};
ghost use Rattle.mft_table.specs.InUse.{IsInUse};
ghost use Rattle.mft_table.specs.Mft.{mounted_of, view};
ghost use Rattle.tree_model.specs.Facts.{is_whole_table};
ghost use Rattle.tree_model.specs.Reading.{read};
ghost use Rattle.tree_model.specs.Staging.{cannot_edit};
ghost use Rattle.tree_model.specs.Ways.{has_name_room, has_record};
ghost use Rattle.tree_edit.specs.Answered.{Finds};
ghost use Rattle.tree_edit.specs.Nodes.{number_of};
ghost use Rattle.tree_edit.specs.Walks.{IsDirectoryHeld};
ghost use Rattle.make_places.specs.Makes.{HasFreeRecord, cannot_make};

use crate::edits::{can_edit_file, can_edit_table};
use crate::record_free::has_record;
use crate::under::has_name_room;
use file_record::BaseFile;
use mft_table::Mft;
use std::alloc::Global;
use tree_edit::Stop;
use vol_disk::Disk;

// Whether the table can be edited, and a directory that is shown.
fn can_edit_both<D: Disk>(alloc: Global, mft: &mut Mft<'_, D>, dir: &BaseFile) -> Result<bool, Stop>
    requires volume { IsInUse D.Disk mft.old }
    requires directory { IsTrue (view D.Disk mft.old).told → IsDirectoryHeld (view D.Disk mft.old) dir.now }
    ensures both { Finds D.Disk mft.old mft.new (λ volume can. can ≡ (not (cannot_edit (is_whole_table volume) (read volume) 0)
        && not (cannot_edit (is_whole_table volume) (read volume) (number_of dir.now)))) result }
    ensures inside { IfOk result (λ can. can ≡ true → number_of dir.now < length (mounted_of D.Disk mft.old).records) }
{
    if !can_edit_table(alloc, mft)? {
        return Ok(false);
    }
    can_edit_file(alloc, mft, dir)
}

// Whether there is room for the name, and a record for the file.
fn has_both<D: Disk>(
    alloc: Global,
    mft: &mut Mft<'_, D>,
    dir: &BaseFile,
    name: &[u16],
) -> Result<bool, Stop>
    requires volume { IsInUse D.Disk mft.old }
    requires directory { IsTrue (view D.Disk mft.old).told → IsDirectoryHeld (view D.Disk mft.old) dir.now }
    requires some { 1 ≤ length name.now }
    requires few { length name.now ≤ 255 }
    ensures both { Finds D.Disk mft.old mft.new (λ volume has.
        has ≡ (has_name_room volume (number_of dir.now) name.now && has_record volume)) result }
    ensures free { IfOk result (λ has. has ≡ true → HasFreeRecord (mounted_of D.Disk mft.old)) }
{
    if !has_name_room(alloc, mft, dir, name)? {
        return Ok(false);
    }
    has_record(alloc, mft)
}

/// Whether a new name can come into a directory that is shown.
///
/// # Errors
///
/// `Device` where the disk failed, and `Memory`.
pub fn can_make<D: Disk>(
    alloc: Global,
    mft: &mut Mft<'_, D>,
    dir: &BaseFile,
    name: &[u16],
) -> Result<bool, Stop>
    requires volume { IsInUse D.Disk mft.old }
    requires directory { IsTrue (view D.Disk mft.old).told → IsDirectoryHeld (view D.Disk mft.old) dir.now }
    requires some { 1 ≤ length name.now }
    requires few { length name.now ≤ 255 }
    ensures can { Finds D.Disk mft.old mft.new (λ volume can. can ≡ not (cannot_make volume (number_of dir.now) name.now)) result }
    ensures inside { IfOk result (λ can. can ≡ true → number_of dir.now < length (mounted_of D.Disk mft.old).records) }
    ensures free { IfOk result (λ can. can ≡ true → HasFreeRecord (mounted_of D.Disk mft.old)) }
{
    if !can_edit_both(alloc, mft, dir)? {
        return Ok(false);
    }
    has_both(alloc, mft, dir, name)
}
