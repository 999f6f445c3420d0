//! Whether a name has room in the index of its directory.
ghost use Rattle.std.specs.Prelude.{◌≡◌, ◌≤◌, ◌*◌, ◌+◌, ◌/◌, IfErr, IfOk, IsTrue, false, length};
ghost use Rattle.mft_table.specs.InUse.{IsInUse};
ghost use Rattle.mft_table.specs.Mft.{view};
ghost use Rattle.tree_model.specs.Ways.{has_name_room};
ghost use Rattle.tree_model.specs.declared.reply.No.TheVariants as no;
ghost use Rattle.tree_edit.specs.Stop.TheVariants as stop;
ghost use Rattle.tree_edit.specs.Answered.{Finds};
ghost use Rattle.tree_edit.specs.Nodes.{number_of};
ghost use Rattle.tree_edit.specs.Walks.{IsDirectoryHeld};
ghost use Rattle.file_makes.specs.NewBytes.{IsPlainKey};

use file_makes::{has_leaf_room, has_root_room, new_key};
use file_record::BaseFile;
use mft_table::Mft;
use std::alloc::Global;
use tree_edit::Stop;
use tree_model::No;
use upcase::UpCase;
use vol_disk::Disk;

/// The table of case once more.
///
/// # Errors
///
/// `Memory` alone.
pub fn share(upcase: &UpCase) -> Result<UpCase, Stop>
    ensures same { IfOk result (λ shared. shared ≡ upcase.now) }
    ensures memory { IfErr result (λ why. why ≡ stop.No no.Memory) }
{
    match upcase.share() {
        Ok(shared) => Ok(shared),
        Err(_) => Err(Stop::No(No::Memory)),
    }
}

/// The key of a name of a file as it would be in a directory of reference 0, at the moment 0: its length and its units are used alone.
///
/// # Errors
///
/// `Memory` alone.
pub fn name_key(alloc: Global, name: &[u16]) -> Result<Vec<u8>, Stop>
    requires some { 1 ≤ length name.now }
    requires few { length name.now ≤ 255 }
    ensures key { IfOk result (λ key. IsPlainKey false 0 name.now 0 key.items) }
    ensures memory { IfErr result (λ why. why ≡ stop.No no.Memory) }
{
    match new_key(alloc, 0, name, false, 0) {
        Ok(key) => Ok(key),
        Err(_) => Err(Stop::No(No::Memory)),
    }
}

// The bytes of the entry of a key of so many.
fn entry_bytes(key: usize) -> usize
    requires { key ≤ 576 }
    ensures { result ≡ (16 + key + 7) / 8 * 8 }
{
    (16 + key + 7) / 8 * 8
}

/// Whether the index of a directory that is shown has room for the entry of a name: in its root, where it has no records, or in the record
/// in which the search for the name ends.
///
/// # Errors
///
/// `Device` where the disk failed, and `Memory`.
pub fn has_name_room<D: Disk>(
    alloc: Global,
    mft: &mut Mft<'_, D>,
    dir: &BaseFile,
    name: &[u16],
) -> Result<bool, Stop>
    requires volume { IsInUse D.Disk mft.old }
    requires directory { IsTrue (view D.Disk mft.old).told → IsDirectoryHeld (view D.Disk mft.old) dir.now }
    requires some { 1 ≤ length name.now }
    requires few { length name.now ≤ 255 }
    ensures { Finds D.Disk mft.old mft.new (λ volume room. room ≡ has_name_room volume (number_of dir.now) name.now) result }
{
    let key = name_key(alloc, name)?;
    let upcase = share(&mft.mounted().upcase)?;
    let len = entry_bytes(key.len());
    if has_root_room(&dir.parts, len) {
        return Ok(true);
    }
    match has_leaf_room(alloc, mft, &dir.parts, upcase, &key, len) {
        Ok(room) => Ok(room),
        Err(no) => Err(Stop::from(no)),
    }
}
