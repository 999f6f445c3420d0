//! An entry comes in the place of the one with an equal key in an index of a file that is held.
ghost use Rattle.std.specs.Prelude.{◌≡◌, ◌≤◌, ℕ, false, IfErr, IsTrue, MatchResult, OnOk, length, take};
ghost use Rattle.ntfs_def.specs.Node.{item_in, short_node};
ghost use Rattle.ntfs_def.specs.declared.index.NodeForm.TheVariants.{Names};
ghost use Rattle.volume_def.specs.Values.{spot_at};
ghost use Rattle.index_store.specs.Owners.{HasOwners};
ghost use Rattle.index_store.specs.Clusters.{ChangesStream};
ghost use Rattle.index_node.specs.Edit.{IsShortEntry};
ghost use Rattle.index_store.specs.Edit.{HasSortedIndex, short_nodes};
ghost use Rattle.index_store.specs.Mft.{KeepsDisk, faults_of, is_mft_broken, view};
ghost use Rattle.index_store.specs.FileNos.{CountsNo, IsReadNo};
ghost use Rattle.index_store.specs.Held.{IsHeldFile};
ghost use Rattle.index_store.specs.Index.{IsFound, index_held};
ghost use Rattle.index_store.specs.IndexBlocks.{records_found};
ghost use Rattle.dir_index.specs.Replaced.{ReplacesItem, StagesRecords};

use crate::index::{ROOT_LIMIT, file_no};
use collation::Collation;
use index_store::{FileNo, FileParts, FoundIndex, Index, IndexBlocksMut, Mft};
use ntfs_def::NodeForm;
use std::alloc::Global;
use vol_disk::Disk;

/// Puts an entry, without a child's number, in place of the one with an equal key in an index of names of a file that is held:
/// in one of its records, which is staged, or in `root`, a copy of the value of its `$INDEX_ROOT`. Nothing is said where no key
/// is equal, or where that entry has another length. The fields in front of the root's node stay. Of the volume the clusters of the
/// records alone change, and the sectors of one record at most are staged.
///
/// # Errors
///
/// `Device` where the disk failed, and `Memory`. What `root` then holds is not told, and whoever called gives up what was staged.
pub fn replace_in<'m, 'd, D: Disk, C: Collation + Drop>(
    alloc: Global,
    mft: &'m mut Mft<'d, D>,
    file: &'m FileParts,
    index: FoundIndex<'m>,
    order: C,
    root: &mut [u8],
    entry: &[u8],
) -> Result<(), FileNo>
    requires found { IsFound file.now index }
    requires held { IsTrue (view D.Disk mft.old).told → IsHeldFile (view D.Disk mft.old) file.now }
    requires owners { IsTrue (view D.Disk mft.old).told → HasOwners (view D.Disk mft.old) }
    requires sound { is_mft_broken D.Disk mft.old ≡ false }
    requires sorted { IsTrue (view D.Disk mft.old).told → HasSortedIndex (C.order order) (C.valid order)
        (short_nodes Names (records_found (view D.Disk mft.old) file.now index)) (short_node Names root.old) 15 }
    requires entry { IsShortEntry Names false entry.now }
    requires key { IsTrue (C.valid order (item_in entry.now).key) }
    ensures replaced { OnOk result (IsTrue (view D.Disk mft.old).told → ReplacesItem (C.order order) (C.valid order) (view D.Disk mft.old)
        (view D.Disk mft.new) (index_held file.now index.entry.name.now) root.old root.new (item_in entry.now)) }
    ensures root { OnOk result (length root.new ≡ length root.old) }
    ensures front { OnOk result (take 16 root.new ≡ take 16 root.old) }
    ensures changes { OnOk result (IsTrue (view D.Disk mft.old).told → ChangesStream (view D.Disk mft.old) (view D.Disk mft.new)
        (spot_at (index_held file.now index.entry.name.now).records)) }
    ensures held { OnOk result (IsTrue (view D.Disk mft.old).told → IsHeldFile (view D.Disk mft.new) file.now) }
    ensures owners { OnOk result (IsTrue (view D.Disk mft.old).told → HasOwners (view D.Disk mft.new)) }
    ensures places { StagesRecords D.Disk 1 (index_held file.now index.entry.name.now).records mft.old mft.new }
    ensures disk { KeepsDisk D.Disk mft.old mft.new }
    ensures err { IfErr result IsReadNo }
    ensures faults { MatchResult result (λ _. faults_of D.Disk mft.new ≡ faults_of D.Disk mft.old)
        (CountsNo (faults_of D.Disk mft.old) (faults_of D.Disk mft.new)) }
{
    let mut blocks = IndexBlocksMut {
        alloc,
        mft,
        file,
        index,
        reads: 0,
        written: 0,
        failed: false,
    };
    let names = Index::new(order, NodeForm::Names, ROOT_LIMIT);
    match names.replace(&mut blocks, root, entry) {
        Ok(()) => Ok(()),
        Err(no) => Err(file_no(no)),
    }
}
