//! An entry goes out of the leaf of its key.
ghost use Rattle.std.specs.Prelude.{◌≡◌, ◌+◌, ◌≤◌, false, IfErr, IsTrue, MatchResult, OnOk, codes, true};
ghost use Rattle.vol_disk.specs.Contents.{WhereTold};
ghost use Rattle.ntfs_def.specs.FileName.{is_name_key, key_units};
ghost use Rattle.ntfs_def.specs.KeyOrder.{fold_of, name_order};
ghost use Rattle.ntfs_def.specs.Node.{short_node};
ghost use Rattle.ntfs_def.specs.Units.{wide};
ghost use Rattle.ntfs_def.specs.declared.index.NodeForm.TheVariants.{Names};
ghost use Rattle.volume_def.specs.Values.{spot_at};
ghost use Rattle.volume_edits.specs.Clusters.{ChangesStream};
ghost use Rattle.volume_edits.specs.Owners.{HasOwners};
ghost use Rattle.index_node.specs.Blocks.{CountsNo as CountsBlockNo};
ghost use Rattle.index_node.specs.EditBlocks.{Edits};
ghost use Rattle.index_tree.specs.Edit.{HasSortedIndex, short_nodes};
ghost use Rattle.mft_table.specs.Mft.{KeepsDisk, faults_of, is_mft_broken, view};
ghost use Rattle.file_record.specs.FileNos.{CountsNo, IsReadNo};
ghost use Rattle.file_record.specs.Held.{IsHeldFile, file_number};
ghost use Rattle.entry_edits.specs.Index.{IsFound, index_held};
ghost use Rattle.entry_edits.specs.IndexBlocks.{records_found};
ghost use Rattle.entry_edits.specs.Replaced.{StagesRecords};
ghost use Rattle.index_puts.specs.Held.{HoldsItems};
ghost use Rattle.index_takes.specs.Leaf.{TakesFrom, TakesUnder, entry_under};
ghost use Rattle.tree_model.specs.LeafEntry.{has_leaf_entry};
ghost use Rattle.index_takes.specs.TakesItem.{TakesItem};

use collation::{Collation, FileNameOrder};
use entry_edits::{FoundIndex, IndexBlocksMut, find_index};
use file_record::{FileNo, FileParts};
use index_node::{BlockNo, WriteBlocks, remove_at, sealed_nodes};
use index_puts::{file_no, find_leaf};
use mft_table::Mft;
use ntfs_def::NodeForm;
use ntfs_def::index_root::DIRECTORY_INDEX;
use std::alloc::Global;
use upcase::UpCase;
use vol_disk::Disk;

// Takes the entry of a key out of its leaf, in the index under a root, where it stands there beside another one; only where the
// records tell nothing there may be no leaf, or no such entry.
fn take_in_leaf<B: WriteBlocks, C: Collation>(
    blocks: &mut B,
    order: &C,
    root: &[u8],
    key: &[u8],
) -> Result<(), BlockNo>
    requires ready { B.ready blocks.old }
    requires index { WhereTold (B.records blocks.old) (λ r. HasSortedIndex (C.order order.now) (C.valid order.now)
        (short_nodes Names r) (short_node Names root.now) 15) }
    requires key { IsTrue (C.valid order.now key.now) }
    requires entry { WhereTold (B.records blocks.old) (λ r. IsTrue
        (entry_under (λ x. C.order order.now x key.now) r (short_node Names root.now))) }
    ensures taken { OnOk result (Edits (B.records blocks.old) (B.records blocks.new)
        (TakesUnder (C.order order.now) (C.valid order.now) (short_node Names root.now) key.now)) }
    ensures ready { OnOk result (B.ready blocks.new) }
    ensures written { B.written blocks.new ≤ B.written blocks.old + 1 }
    ensures edits { B.edits blocks.old blocks.new }
    ensures faults { MatchResult result (λ _. B.faults blocks.new ≡ B.faults blocks.old)
        (CountsBlockNo (B.faults blocks.old) (B.faults blocks.new)) }
{
    let mut block = [0; 4096];
    let Some(leaf) = find_leaf(blocks, order, root, key, &mut block)? else {
        return Ok(());
    };
    if !leaf.hit {
        return Ok(());
    }
    sealed_nodes();
    remove_at(&mut block, NodeForm::Names, leaf.place);
    blocks.write(leaf.vcn, &block)
}

// The same in an index of names that was found in a file which is held.
fn take_found<'m, 'd, D: Disk>(
    alloc: Global,
    mft: &'m mut Mft<'d, D>,
    file: &'m FileParts,
    index: FoundIndex<'m>,
    upcase: UpCase,
    key: &[u8],
) -> Result<(), FileNo>
    requires found { IsFound file.now index }
    requires held { IsTrue (view D.Disk mft.old).told → IsHeldFile (view D.Disk mft.old) file.now }
    requires owners { IsTrue (view D.Disk mft.old).told → HasOwners (view D.Disk mft.old) }
    requires sound { is_mft_broken D.Disk mft.old ≡ false }
    requires sorted { IsTrue (view D.Disk mft.old).told → HasSortedIndex (name_order (fold_of upcase)) is_name_key
        (short_nodes Names (records_found (view D.Disk mft.old) file.now index)) (short_node Names index.root.now) 15 }
    requires key { IsTrue (is_name_key key.now) }
    requires entry { IsTrue (view D.Disk mft.old).told → IsTrue (entry_under (λ x. name_order (fold_of upcase) x key.now)
        (records_found (view D.Disk mft.old) file.now index) (short_node Names index.root.now)) }
    ensures taken { OnOk result (IsTrue (view D.Disk mft.old).told → TakesFrom (name_order (fold_of upcase)) is_name_key
        (view D.Disk mft.old) (view D.Disk mft.new) (index_held file.now index.entry.name.now) (short_node Names index.entry.root.now)
        key.now) }
    ensures changes { OnOk result (IsTrue (view D.Disk mft.old).told → ChangesStream (view D.Disk mft.old) (view D.Disk mft.new)
        (spot_at (index_held file.now index.entry.name.now).records)) }
    ensures held { OnOk result (IsTrue (view D.Disk mft.old).told → IsHeldFile (view D.Disk mft.new) file.now) }
    ensures owners { OnOk result (IsTrue (view D.Disk mft.old).told → HasOwners (view D.Disk mft.new)) }
    ensures places { StagesRecords D.Disk 1 (index_held file.now index.entry.name.now).records mft.old mft.new }
    ensures disk { KeepsDisk D.Disk mft.old mft.new }
    ensures err { IfErr result IsReadNo }
    ensures faults { MatchResult result (λ _. faults_of D.Disk mft.new ≡ faults_of D.Disk mft.old)
        (CountsNo (faults_of D.Disk mft.old) (faults_of D.Disk mft.new)) }
{
    let root = index.root;
    let mut blocks = IndexBlocksMut {
        alloc,
        mft,
        file,
        index,
        reads: 0,
        written: 0,
        failed: false,
    };
    match take_in_leaf(&mut blocks, &FileNameOrder { upcase }, root, key) {
        Ok(()) => Ok(()),
        Err(no) => Err(file_no(no)),
    }
}

/// Takes the entry of a key out of the index of a directory that is held: out of the record of it in which the search for the key ends,
/// of which the entries behind are moved, and which is staged. What stands in the bytes behind its last entry then is not said. Of the
/// volume the clusters of the records alone change, and the sectors of one record at most are staged. By condition, where the contents
/// are told: the directory is held as the volume has it, its index is right by itself, whichever names the directory has, no cluster has
/// two owners, and that record has an entry of the key beside another one (`has_leaf_entry`).
///
/// # Errors
///
/// `Device` where the disk failed, and `Memory`. Whoever called gives up what was staged.
pub fn take_item<D: Disk>(
    alloc: Global,
    mft: &mut Mft<'_, D>,
    dir: &FileParts,
    upcase: UpCase,
    key: &[u8],
) -> Result<(), FileNo>
    requires held { IsTrue (view D.Disk mft.old).told → HoldsItems (view D.Disk mft.old) dir.now upcase }
    requires owners { IsTrue (view D.Disk mft.old).told → HasOwners (view D.Disk mft.old) }
    requires sound { is_mft_broken D.Disk mft.old ≡ false }
    requires entry { IsTrue (view D.Disk mft.old).told
        → has_leaf_entry (view D.Disk mft.old) (file_number dir.now) (key_units key.now) ≡ true }
    requires key { IsTrue (is_name_key key.now) }
    ensures taken { OnOk result (IsTrue (view D.Disk mft.old).told
        → TakesItem (view D.Disk mft.old) (view D.Disk mft.new) (file_number dir.now) key.now) }
    ensures held { OnOk result (IsTrue (view D.Disk mft.old).told → IsHeldFile (view D.Disk mft.new) dir.now) }
    ensures owners { OnOk result (IsTrue (view D.Disk mft.old).told → HasOwners (view D.Disk mft.new)) }
    ensures places { StagesRecords D.Disk 1 (index_held dir.now (wide (codes "$I30"))).records mft.old mft.new }
    ensures disk { KeepsDisk D.Disk mft.old mft.new }
    ensures err { IfErr result IsReadNo }
    ensures faults { MatchResult result (λ _. faults_of D.Disk mft.new ≡ faults_of D.Disk mft.old)
        (CountsNo (faults_of D.Disk mft.old) (faults_of D.Disk mft.new)) }
{
    let Some(index) = find_index(dir, DIRECTORY_INDEX) else {
        return Ok(());
    };
    take_found(alloc, mft, dir, index, upcase, key)
}
