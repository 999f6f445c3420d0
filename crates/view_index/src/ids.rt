//! The entry of an id in the index of ids, `$SII`.
ghost use Rattle.std.specs.Prelude.{◌≡◌, ◌*◌, ℕ, codes, IfErr, IfOk, IfSome, IsTrue, MatchResult};
ghost use Rattle.ntfs_def.specs.IndexTree.{most_depth};
ghost use Rattle.ntfs_def.specs.Node.{IsOwnEntry};
ghost use Rattle.ntfs_def.specs.Units.{wide};
ghost use Rattle.ntfs_def.specs.declared.index.NodeForm.TheVariants.{View};
ghost use Rattle.mft_table.specs.Mft.{MftReads, faults_of, view};
ghost use Rattle.file_record.specs.FileNos.{CountsNo, IsReadNo};
ghost use Rattle.index_store.specs.Index.{IsFound};
ghost use Rattle.view_index.specs.Security.{HasEntry, IsHeldSecurity};

use crate::index::find_key;
use collation::IdOrder;
use file_record::{FileNo, FileParts};
use index_store::{FoundIndex, find_index};
use mft_table::Mft;
use std::alloc::Global;
use vol_bytes::{Octets, put_u32};
use vol_disk::Disk;

/// The name of the index of ids, `$SII`.
const IDS: &[u8] = b"$\0S\0I\0I\0";

// The entry of an id in the index of ids that was found.
fn find_in<D: Disk>(
    alloc: Global,
    mft: &mut Mft<'_, D>,
    file: &FileParts,
    index: FoundIndex<'_>,
    id: u32,
) -> Result<Option<Octets>, FileNo>
    requires found { IsFound file.now index }
    requires name { index.name.now ≡ wide (codes "$SII") }
    requires held { IsTrue (view D.Disk mft.old).told → IsHeldSecurity (view D.Disk mft.old) file.now }
    ensures found { IfOk result (λ found. IsTrue (view D.Disk mft.old).told → HasEntry (view D.Disk mft.old) id found) }
    ensures own { IfOk result (λ found. IfSome found (IsOwnEntry View)) }
    ensures err { IfErr result IsReadNo }
    ensures faults { MatchResult result (λ _. faults_of D.Disk mft.new ≡ faults_of D.Disk mft.old)
        (CountsNo (faults_of D.Disk mft.old) (faults_of D.Disk mft.new)) }
    ensures reads { (reads : ℕ) × MftReads D.Disk mft.old mft.new reads }
    ensures fetched { IsTrue (view D.Disk mft.old).told → MftReads D.Disk mft.old mft.new (8 * most_depth) }
{
    let mut key = [0; 4];
    put_u32(&mut key, 0, id);
    find_key(alloc, mft, file, index, IdOrder, &key)
}

/// The entry of an id in the index of ids of the file of security descriptors, which is held; `None` where it has none, or the
/// file has no such index. One index record a level is read, of eight sectors.
///
/// # Errors
///
/// `Device` where the disk failed, and `Memory`.
pub fn find_entry<D: Disk>(
    alloc: Global,
    mft: &mut Mft<'_, D>,
    file: &FileParts,
    id: u32,
) -> Result<Option<Octets>, FileNo>
    requires held { IsTrue (view D.Disk mft.old).told → IsHeldSecurity (view D.Disk mft.old) file.now }
    ensures found { IfOk result (λ found. IsTrue (view D.Disk mft.old).told → HasEntry (view D.Disk mft.old) id found) }
    ensures own { IfOk result (λ found. IfSome found (IsOwnEntry View)) }
    ensures err { IfErr result IsReadNo }
    ensures faults { MatchResult result (λ _. faults_of D.Disk mft.new ≡ faults_of D.Disk mft.old)
        (CountsNo (faults_of D.Disk mft.old) (faults_of D.Disk mft.new)) }
    ensures reads { (reads : ℕ) × MftReads D.Disk mft.old mft.new reads }
    ensures fetched { IsTrue (view D.Disk mft.old).told → MftReads D.Disk mft.old mft.new (8 * most_depth) }
{
    let Some(index) = find_index(file, IDS) else {
        return Ok(None);
    };
    find_in(alloc, mft, file, index, id)
}
