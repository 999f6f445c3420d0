//! An entry comes into the leaf of its key.
ghost use Rattle.std.specs.Prelude.{◌≡◌, ◌+◌, ◌≤◌, false, IfErr, IsTrue, MatchResult, OnOk, length, true};
ghost use Rattle.vol_disk.specs.Contents.{WhereTold};
ghost use Rattle.ntfs_def.specs.FileName.{is_name_key, key_units};
ghost use Rattle.ntfs_def.specs.KeyOrder.{fold_of, name_order};
ghost use Rattle.ntfs_def.specs.Node.{item_in, short_node};
ghost use Rattle.ntfs_def.specs.Units.{wide};
ghost use Rattle.ntfs_def.specs.declared.index.NodeForm.TheVariants.{Names};
ghost use Rattle.volume_def.specs.Values.{spot_at};
ghost use Rattle.volume_edits.specs.Clusters.{ChangesStream};
ghost use Rattle.volume_edits.specs.Owners.{HasOwners};
ghost use Rattle.index_node.specs.Blocks.{CountsNo as CountsBlockNo};
ghost use Rattle.index_node.specs.Edit.{IsShortEntry};
ghost use Rattle.index_node.specs.EditBlocks.{Edits};
ghost use Rattle.index_tree.specs.Edit.{HasSortedIndex, short_nodes};
ghost use Rattle.mft_table.specs.Mft.{KeepsDisk, faults_of, is_mft_broken, view};
ghost use Rattle.file_record.specs.FileNos.{CountsNo, IsReadNo};
ghost use Rattle.file_record.specs.Held.{IsHeldFile, file_number};
ghost use Rattle.entry_edits.specs.Index.{IsFound, index_held};
ghost use Rattle.entry_edits.specs.IndexBlocks.{records_found};
ghost use Rattle.entry_edits.specs.Replaced.{StagesRecords};
ghost use Rattle.std.specs.Prelude.{codes};
ghost use Rattle.index_puts.specs.Held.{LacksKey};
ghost use Rattle.index_puts.specs.Leaf.{PutsInto, PutsUnder, room_under};
ghost use Rattle.tree_model.specs.LeafRoom.{has_leaf_room};
ghost use Rattle.index_puts.specs.PutsItem.{PutsItem};

use crate::leaf::find_leaf;
use crate::room::file_no;
use crate::seek::key_of;
use collation::{Collation, FileNameOrder};
use entry_edits::{FoundIndex, IndexBlocksMut, find_index};
use file_record::{FileNo, FileParts};
use index_node::{BlockNo, WriteBlocks, insert_at, sealed_nodes};
use mft_table::Mft;
use ntfs_def::NodeForm;
use ntfs_def::index_root::DIRECTORY_INDEX;
use std::alloc::Global;
use upcase::UpCase;
use vol_disk::Disk;

// Puts an entry into the leaf of its key, in the index under a root, where that has room for it; only where the records tell nothing
// there may be no leaf, or no room.
fn put_in_leaf<B: WriteBlocks, C: Collation>(
    blocks: &mut B,
    order: &C,
    root: &[u8],
    entry: &[u8],
) -> Result<(), BlockNo>
    requires ready { B.ready blocks.old }
    requires index { WhereTold (B.records blocks.old) (λ r. HasSortedIndex (C.order order.now) (C.valid order.now)
        (short_nodes Names r) (short_node Names root.now) 15) }
    requires entry { IsShortEntry Names false entry.now }
    requires key { IsTrue (C.valid order.now (item_in entry.now).key) }
    requires room { WhereTold (B.records blocks.old) (λ r. IsTrue
        (room_under (λ x. C.order order.now x (item_in entry.now).key) r (short_node Names root.now) (length entry.now))) }
    ensures put { OnOk result (Edits (B.records blocks.old) (B.records blocks.new)
        (PutsUnder (C.order order.now) (C.valid order.now) (short_node Names root.now) (item_in entry.now))) }
    ensures ready { OnOk result (B.ready blocks.new) }
    ensures written { B.written blocks.new ≤ B.written blocks.old + 1 }
    ensures edits { B.edits blocks.old blocks.new }
    ensures faults { MatchResult result (λ _. B.faults blocks.new ≡ B.faults blocks.old)
        (CountsBlockNo (B.faults blocks.old) (B.faults blocks.new)) }
{
    let mut block = [0; 4096];
    let Some(leaf) = find_leaf(blocks, order, root, key_of(entry), &mut block)? else {
        return Ok(());
    };
    sealed_nodes();
    match insert_at(&mut block, NodeForm::Names, leaf.place, entry) {
        Ok(()) => blocks.write(leaf.vcn, &block),
        Err(_) => Ok(()),
    }
}

// The same in an index of names that was found in a file which is held.
fn put_found<'m, 'd, D: Disk>(
    alloc: Global,
    mft: &'m mut Mft<'d, D>,
    file: &'m FileParts,
    index: FoundIndex<'m>,
    upcase: UpCase,
    entry: &[u8],
) -> Result<(), FileNo>
    requires found { IsFound file.now index }
    requires held { IsTrue (view D.Disk mft.old).told → IsHeldFile (view D.Disk mft.old) file.now }
    requires owners { IsTrue (view D.Disk mft.old).told → HasOwners (view D.Disk mft.old) }
    requires sound { is_mft_broken D.Disk mft.old ≡ false }
    requires sorted { IsTrue (view D.Disk mft.old).told → HasSortedIndex (name_order (fold_of upcase)) is_name_key
        (short_nodes Names (records_found (view D.Disk mft.old) file.now index)) (short_node Names index.root.now) 15 }
    requires entry { IsShortEntry Names false entry.now }
    requires key { IsTrue (is_name_key (item_in entry.now).key) }
    requires room { IsTrue (view D.Disk mft.old).told → IsTrue (room_under (λ x. name_order (fold_of upcase) x (item_in entry.now).key)
        (records_found (view D.Disk mft.old) file.now index) (short_node Names index.root.now) (length entry.now)) }
    ensures put { OnOk result (IsTrue (view D.Disk mft.old).told → PutsInto (name_order (fold_of upcase)) is_name_key
        (view D.Disk mft.old) (view D.Disk mft.new) (index_held file.now index.entry.name.now) (short_node Names index.entry.root.now)
        (item_in entry.now)) }
    ensures changes { OnOk result (IsTrue (view D.Disk mft.old).told → ChangesStream (view D.Disk mft.old) (view D.Disk mft.new)
        (spot_at (index_held file.now index.entry.name.now).records)) }
    ensures held { OnOk result (IsTrue (view D.Disk mft.old).told → IsHeldFile (view D.Disk mft.new) file.now) }
    ensures owners { OnOk result (IsTrue (view D.Disk mft.old).told → HasOwners (view D.Disk mft.new)) }
    ensures places { StagesRecords D.Disk 1 (index_held file.now index.entry.name.now).records mft.old mft.new }
    ensures disk { KeepsDisk D.Disk mft.old mft.new }
    ensures err { IfErr result IsReadNo }
    ensures faults { MatchResult result (λ _. faults_of D.Disk mft.new ≡ faults_of D.Disk mft.old)
        (CountsNo (faults_of D.Disk mft.old) (faults_of D.Disk mft.new)) }
{
    let root = index.root;
    let mut blocks = IndexBlocksMut {
        alloc,
        mft,
        file,
        index,
        reads: 0,
        written: 0,
        failed: false,
    };
    match put_in_leaf(&mut blocks, &FileNameOrder { upcase }, root, entry) {
        Ok(()) => Ok(()),
        Err(no) => Err(file_no(no)),
    }
}

/// Puts an entry, without a child's number, into the index of a directory that is held: into the record of it in which the search
/// for the entry's key ends, which is staged. Nothing is said where an entry has an equal key. Of the volume the clusters of the
/// records alone change, and the sectors of one record at most are staged. By condition, where the contents are told: the directory
/// is held as the volume has it, its index is right by itself and lacks the key, whichever names the directory has, no cluster has two
/// owners, and that record has room for the entry (`has_leaf_room`).
///
/// # Errors
///
/// `Device` where the disk failed, and `Memory`. Whoever called gives up what was staged.
pub fn put_item<D: Disk>(
    alloc: Global,
    mft: &mut Mft<'_, D>,
    dir: &FileParts,
    upcase: UpCase,
    entry: &[u8],
) -> Result<(), FileNo>
    requires held { IsTrue (view D.Disk mft.old).told → LacksKey (view D.Disk mft.old) dir.now upcase (item_in entry.now).key }
    requires owners { IsTrue (view D.Disk mft.old).told → HasOwners (view D.Disk mft.old) }
    requires sound { is_mft_broken D.Disk mft.old ≡ false }
    requires room { IsTrue (view D.Disk mft.old).told
        → has_leaf_room (view D.Disk mft.old) (file_number dir.now) (key_units (item_in entry.now).key) (length entry.now) ≡ true }
    requires entry { IsShortEntry Names false entry.now }
    requires key { IsTrue (is_name_key (item_in entry.now).key) }
    ensures put { OnOk result (IsTrue (view D.Disk mft.old).told
        → PutsItem (view D.Disk mft.old) (view D.Disk mft.new) (file_number dir.now) (item_in entry.now)) }
    ensures held { OnOk result (IsTrue (view D.Disk mft.old).told → IsHeldFile (view D.Disk mft.new) dir.now) }
    ensures owners { OnOk result (IsTrue (view D.Disk mft.old).told → HasOwners (view D.Disk mft.new)) }
    ensures places { StagesRecords D.Disk 1 (index_held dir.now (wide (codes "$I30"))).records mft.old mft.new }
    ensures disk { KeepsDisk D.Disk mft.old mft.new }
    ensures err { IfErr result IsReadNo }
    ensures faults { MatchResult result (λ _. faults_of D.Disk mft.new ≡ faults_of D.Disk mft.old)
        (CountsNo (faults_of D.Disk mft.old) (faults_of D.Disk mft.new)) }
{
    let Some(index) = find_index(dir, DIRECTORY_INDEX) else {
        return Ok(());
    };
    put_found(alloc, mft, dir, index, upcase, entry)
}
