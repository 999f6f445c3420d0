//! Whether the table of records can be edited, and a directory.
ghost use Rattle.std.specs.Prelude.{◌≡◌, IfErr, IfOk, IsTrue, not};
ghost use Rattle.mft_table.specs.InUse.{IsInUse};
ghost use Rattle.mft_table.specs.Mft.{mounted_of, view};
ghost use Rattle.tree_model.specs.Facts.{is_whole_table};
ghost use Rattle.tree_model.specs.Reading.{read};
ghost use Rattle.tree_model.specs.Staging.{cannot_edit};
ghost use Rattle.tree_model.specs.declared.reply.No.TheVariants as no;
ghost use Rattle.tree_edit.specs.Answered.{Finds};
ghost use Rattle.tree_edit.specs.Nodes.{IsFileHeld, number_of};
ghost use Rattle.tree_edit.specs.Stop.TheVariants as stop;
ghost use Rattle.tree_edit.specs.Settable.{is_editable};

use file_record::{BaseFile, FileParts};
use mft_table::{Mft, Mounted};
use ntfs_def::records::MFT;
use std::alloc::Global;
use tree_edit::{Stop, can_edit, load_file};
use tree_model::No;
use vol_disk::Disk;

// Whether a file that is held can be edited.
fn can_edit_parts(alloc: Global, mounted: &Mounted, file: &FileParts) -> Result<bool, Stop>
    ensures can { IfOk result (λ can. can ≡ is_editable mounted.now file.now) }
    ensures memory { IfErr result (λ why. why ≡ stop.No no.Memory) }
{
    match can_edit(alloc, mounted, file) {
        Ok(can) => Ok(can),
        Err(_) => Err(Stop::No(No::Memory)),
    }
}

/// Whether a file that is held, a hidden one too, can be edited.
///
/// # Errors
///
/// `Memory` alone.
pub fn can_edit_file<D: Disk>(
    alloc: Global,
    mft: &mut Mft<'_, D>,
    held: &BaseFile,
) -> Result<bool, Stop>
    requires volume { IsInUse D.Disk mft.old }
    requires file { IsTrue (view D.Disk mft.old).told → IsFileHeld (view D.Disk mft.old) (number_of held.now) held.now }
    ensures can { Finds D.Disk mft.old mft.new (λ volume can.
        can ≡ not (cannot_edit (is_whole_table volume) (read volume) (number_of held.now))) result }
    ensures inside { IfOk result (λ can. can ≡ is_editable (mounted_of D.Disk mft.old) held.now.parts) }
{
    can_edit_parts(alloc, mft.mounted(), &held.parts)
}

/// Whether the file of the table of records can be edited.
///
/// # Errors
///
/// `Device` where the disk failed, and `Memory`.
pub fn can_edit_table<D: Disk>(alloc: Global, mft: &mut Mft<'_, D>) -> Result<bool, Stop>
    requires volume { IsInUse D.Disk mft.old }
    ensures { Finds D.Disk mft.old mft.new (λ volume can. can ≡ not (cannot_edit (is_whole_table volume) (read volume) 0)) result }
{
    let file = load_file(alloc, mft, MFT)?;
    can_edit_file(alloc, mft, &file)
}
