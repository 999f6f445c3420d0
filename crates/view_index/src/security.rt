//! Security descriptors by their ids.
ghost use Rattle.std.specs.Prelude.{◌≡◌, ◌+◌, ◌*◌, ◌<◌, ◌≤◌, ℕ, length, IfErr, IfOk, IfSome, IsTrue, MatchResult};
ghost use Rattle.ntfs_def.specs.IndexTree.{most_depth};
ghost use Rattle.mft_table.specs.Mft.{MftReads, faults_of, view};
ghost use Rattle.tree_model.specs.Facts.{TellsDescriptor};
ghost use Rattle.file_record.specs.FileNos.{CountsNo, IsReadNo};
ghost use Rattle.file_record.specs.Held.{parts_held};
ghost use Rattle.view_index.specs.Places.{HasPlaceIfThere};
ghost use Rattle.view_index.specs.Security.{IsHeldSecurity, IsReadableSecurity, TellsWhether};

use crate::entry::data_in;
use crate::ids::find_entry;
use crate::place::{Place, find_place, read_place};
use file_record::{FileNo, FileParts, load_base};
use mft_table::Mft;
use ntfs_def::records::SECURE;
use std::alloc::Global;
use vol_bytes::Octets;
use vol_disk::Disk;

// Where the descriptor of an id stands, in the file of descriptors that is held.
fn seek_place<D: Disk>(
    alloc: Global,
    mft: &mut Mft<'_, D>,
    file: &FileParts,
    id: u32,
) -> Result<Option<Place>, FileNo>
    requires held { IsTrue (view D.Disk mft.old).told → IsHeldSecurity (view D.Disk mft.old) file.now }
    ensures told { IfOk result (λ found. IsTrue (view D.Disk mft.old).told → HasPlaceIfThere (view D.Disk mft.old) file.now id found) }
    ensures part { IfOk result (λ found. IfSome found (λ place. place.stream.part < length (parts_held file.now))) }
    ensures len { IfOk result (λ found. IfSome found (λ place. place.len ≤ 65536)) }
    ensures err { IfErr result IsReadNo }
    ensures faults { MatchResult result (λ _. faults_of D.Disk mft.new ≡ faults_of D.Disk mft.old)
        (CountsNo (faults_of D.Disk mft.old) (faults_of D.Disk mft.new)) }
    ensures reads { (reads : ℕ) × MftReads D.Disk mft.old mft.new reads }
    ensures fetched { IsTrue (view D.Disk mft.old).told → MftReads D.Disk mft.old mft.new (8 * most_depth + 2) }
{
    let Some(entry) = find_entry(alloc, mft, file, id)? else {
        return Ok(None);
    };
    find_place(alloc, mft, file, data_in(entry.as_slice()))
}

// The descriptor of an id, of the file of descriptors that is held.
fn descriptor_in<D: Disk>(
    alloc: Global,
    mft: &mut Mft<'_, D>,
    file: &FileParts,
    id: u32,
) -> Result<Option<Octets>, FileNo>
    requires held { IsTrue (view D.Disk mft.old).told → IsHeldSecurity (view D.Disk mft.old) file.now }
    ensures told { IfOk result (λ found. IsTrue (view D.Disk mft.old).told → TellsDescriptor (view D.Disk mft.old) id found) }
    ensures err { IfErr result IsReadNo }
    ensures faults { MatchResult result (λ _. faults_of D.Disk mft.new ≡ faults_of D.Disk mft.old)
        (CountsNo (faults_of D.Disk mft.old) (faults_of D.Disk mft.new)) }
    ensures reads { (reads : ℕ) × MftReads D.Disk mft.old mft.new reads }
    ensures fetched { IsTrue (view D.Disk mft.old).told → MftReads D.Disk mft.old mft.new (8 * most_depth + 131) }
{
    let Some(place) = seek_place(alloc, mft, file, id)? else {
        return Ok(None);
    };
    let bytes = read_place(alloc, mft, file, &place)?;
    Ok(Some(bytes))
}

/// The security descriptor of an id, in bytes as it is stored, without the header before it; `None` exactly where the volume has none
/// of this id. A descriptor has at most 65,536 bytes. An id is a number of 32 bits, as `$STANDARD_INFORMATION` names it. By
/// condition, where the contents are told, descriptors can be read, as on every volume in use (`security_law`).
///
/// The file of descriptors is loaded, and read are one record of its index a level, of eight sectors, and the pieces of 512 bytes that
/// the header and the descriptor touch. (Linux-NTFS documentation, file `$Secure`; Carrier, *File System Forensic Analysis*,
/// chapters 12 and 13.)
///
/// # Errors
///
/// `Device` where the disk failed, and `Memory`.
pub fn descriptor<D: Disk>(
    alloc: Global,
    mft: &mut Mft<'_, D>,
    id: u32,
) -> Result<Option<Octets>, FileNo>
    requires readable { IsTrue (view D.Disk mft.old).told → IsReadableSecurity (view D.Disk mft.old) }
    ensures told { IfOk result (λ found. IsTrue (view D.Disk mft.old).told → TellsDescriptor (view D.Disk mft.old) id found) }
    ensures err { IfErr result IsReadNo }
    ensures faults { MatchResult result (λ _. faults_of D.Disk mft.new ≡ faults_of D.Disk mft.old)
        (CountsNo (faults_of D.Disk mft.old) (faults_of D.Disk mft.new)) }
    ensures reads { (reads : ℕ) × MftReads D.Disk mft.old mft.new reads }
    ensures fetched { IsTrue (view D.Disk mft.old).told → MftReads D.Disk mft.old mft.new (20678 + 8 * most_depth + 131) }
{
    let Some(base) = load_base(alloc, mft, SECURE)? else {
        return Ok(None);
    };
    descriptor_in(alloc, mft, &base.parts, id)
}

/// Whether the volume has a security descriptor of an id. Of its bytes only the header is read. The condition is that of `descriptor`.
///
/// # Errors
///
/// `Device` where the disk failed, and `Memory`.
pub fn find_security<D: Disk>(alloc: Global, mft: &mut Mft<'_, D>, id: u32) -> Result<bool, FileNo>
    requires readable { IsTrue (view D.Disk mft.old).told → IsReadableSecurity (view D.Disk mft.old) }
    ensures told { IfOk result (λ there. IsTrue (view D.Disk mft.old).told → TellsWhether (view D.Disk mft.old) id there) }
    ensures err { IfErr result IsReadNo }
    ensures faults { MatchResult result (λ _. faults_of D.Disk mft.new ≡ faults_of D.Disk mft.old)
        (CountsNo (faults_of D.Disk mft.old) (faults_of D.Disk mft.new)) }
    ensures reads { (reads : ℕ) × MftReads D.Disk mft.old mft.new reads }
    ensures fetched { IsTrue (view D.Disk mft.old).told → MftReads D.Disk mft.old mft.new (20678 + 8 * most_depth + 2) }
{
    let Some(base) = load_base(alloc, mft, SECURE)? else {
        return Ok(false);
    };
    let found = seek_place(alloc, mft, &base.parts, id)?;
    Ok(found.is_some())
}
