//! Whether the leaf of a key has room for an entry.
ghost use Rattle.std.specs.Prelude.{◌≡◌, ◌*◌, ℕ, IfErr, IfOk, IsTrue, List, MatchResult};
ghost use Rattle.vol_disk.specs.Contents.{WhereTold};
ghost use Rattle.ntfs_def.specs.FileName.{is_name_key, key_units};
ghost use Rattle.ntfs_def.specs.KeyOrder.{fold_of, name_order};
ghost use Rattle.ntfs_def.specs.Node.{Item, short_node};
ghost use Rattle.ntfs_def.specs.declared.index.NodeForm.TheVariants.{Names};
ghost use Rattle.index_node.specs.Blocks.{CountsNo as CountsBlockNo};
ghost use Rattle.index_tree.specs.Edit.{EditReads, HasSortedIndex, short_nodes};
ghost use Rattle.mft_table.specs.Mft.{MftReads, faults_of, fetched_of, view};
ghost use Rattle.file_record.specs.FileNos.{CountsNo, IsReadNo};
ghost use Rattle.file_record.specs.Held.{IsHeldFile, file_number};
ghost use Rattle.entry_edits.specs.Index.{IsFound};
ghost use Rattle.entry_edits.specs.IndexBlocks.{records_found};
ghost use Rattle.edit_def.specs.Items.{HasItems};
ghost use Rattle.index_puts.specs.Held.{HoldsItems};
ghost use Rattle.index_puts.specs.Leaf.{file_no_of, room_under};
ghost use Rattle.tree_model.specs.LeafRoom.{has_leaf_room};

use crate::bytes::room_behind;
use crate::leaf::find_leaf;
use collation::{Collation, FileNameOrder};
use entry_edits::{FoundIndex, IndexBlocks, find_index};
use file_record::{FileNo, FileParts};
use index_node::{BlockNo, Blocks};
use mft_table::Mft;
use ntfs_def::index_root::DIRECTORY_INDEX;
use std::alloc::Global;
use upcase::UpCase;
use vol_disk::Disk;

/// Why a directory was not read, by why a record of its index was not.
pub fn file_no(no: BlockNo) -> FileNo
    ensures { result ≡ file_no_of no }
{
    match no {
        BlockNo::Device => FileNo::Device,
        _ => FileNo::Memory,
    }
}

// Whether the leaf of a key, in the index under a root, has so many bytes behind its last entry.
fn room_in_leaf<B: Blocks, C: Collation>(
    blocks: &mut B,
    order: &C,
    root: &[u8],
    key: &[u8],
    len: usize,
) -> Result<bool, BlockNo>
    requires ready { B.ready blocks.old }
    requires index { WhereTold (B.records blocks.old) (λ r. HasSortedIndex (C.order order.now) (C.valid order.now)
        (short_nodes Names r) (short_node Names root.now) 15) }
    requires key { IsTrue (C.valid order.now key.now) }
    ensures room { IfOk result (λ room. WhereTold (B.records blocks.old) (λ r.
        room ≡ room_under (λ x. C.order order.now x key.now) r (short_node Names root.now) len)) }
    ensures fetched { WhereTold (B.records blocks.old) (λ r. EditReads 8 (C.order order.now) (C.valid order.now)
        (short_nodes Names r) (short_node Names root.now) (B.fetched blocks.old) (B.fetched blocks.new)) }
    ensures only_reads { B.only_reads blocks.old blocks.new }
    ensures faults { MatchResult result (λ _. B.faults blocks.new ≡ B.faults blocks.old)
        (CountsBlockNo (B.faults blocks.old) (B.faults blocks.new)) }
{
    let mut block = [0; 4096];
    match find_leaf(blocks, order, root, key, &mut block)? {
        Some(_) => Ok(len <= room_behind(&block)),
        None => Ok(false),
    }
}

// The same of an index of names that was found in a file which is held.
fn room_found<'m, 'd, D: Disk>(
    alloc: Global,
    mft: &'m mut Mft<'d, D>,
    file: &'m FileParts,
    index: FoundIndex<'m>,
    upcase: UpCase,
    key: &[u8],
    len: usize,
) -> Result<bool, FileNo>
    requires found { IsFound file.now index }
    requires held { IsTrue (view D.Disk mft.old).told → IsHeldFile (view D.Disk mft.old) file.now }
    requires sorted { IsTrue (view D.Disk mft.old).told → HasSortedIndex (name_order (fold_of upcase)) is_name_key
        (short_nodes Names (records_found (view D.Disk mft.old) file.now index)) (short_node Names index.root.now) 15 }
    requires key { IsTrue (is_name_key key.now) }
    ensures room { IfOk result (λ room. IsTrue (view D.Disk mft.old).told → room ≡ room_under (λ x. name_order (fold_of upcase) x key.now)
        (records_found (view D.Disk mft.old) file.now index.entry) (short_node Names index.entry.root.now) len) }
    ensures err { IfErr result IsReadNo }
    ensures faults { MatchResult result (λ _. faults_of D.Disk mft.new ≡ faults_of D.Disk mft.old)
        (CountsNo (faults_of D.Disk mft.old) (faults_of D.Disk mft.new)) }
    ensures reads { (reads : ℕ) × MftReads D.Disk mft.old mft.new reads }
    ensures fetched { IsTrue (view D.Disk mft.old).told → EditReads 8 (name_order (fold_of upcase)) is_name_key
        (short_nodes Names (records_found (view D.Disk mft.old) file.now index.entry)) (short_node Names index.entry.root.now)
        (fetched_of D.Disk mft.old) (fetched_of D.Disk mft.new) }
{
    let root = index.root;
    let mut blocks = IndexBlocks {
        alloc,
        mft,
        file,
        index,
        reads: 0,
    };
    match room_in_leaf(&mut blocks, &FileNameOrder { upcase }, root, key, len) {
        Ok(room) => Ok(room),
        Err(no) => Err(file_no(no)),
    }
}

/// Whether an entry of so many bytes fits into the index of a directory that is held, in the record of it in which the search for
/// the entry's key ends: no record is split then, and none is taken. Where the index has no records there is no such room. One
/// record a level is read. By condition, where the contents are told: the directory is held as the volume has it, its index is
/// right by itself, whichever names the directory has, and the table of case is the volume's.
///
/// # Errors
///
/// `Device` where the disk failed, and `Memory`.
pub fn has_leaf_room<D: Disk>(
    alloc: Global,
    mft: &mut Mft<'_, D>,
    dir: &FileParts,
    upcase: UpCase,
    key: &[u8],
    len: usize,
) -> Result<bool, FileNo>
    requires held { IsTrue (view D.Disk mft.old).told → HoldsItems (view D.Disk mft.old) dir.now upcase }
    requires key { IsTrue (is_name_key key.now) }
    ensures room { IfOk result (λ room. IsTrue (view D.Disk mft.old).told
        → room ≡ has_leaf_room (view D.Disk mft.old) (file_number dir.now) (key_units key.now) len) }
    ensures err { IfErr result IsReadNo }
    ensures faults { MatchResult result (λ _. faults_of D.Disk mft.new ≡ faults_of D.Disk mft.old)
        (CountsNo (faults_of D.Disk mft.old) (faults_of D.Disk mft.new)) }
    ensures reads { (reads : ℕ) × MftReads D.Disk mft.old mft.new reads }
    ensures fetched { IsTrue (view D.Disk mft.old).told → (items : List Item)
        → (has : HasItems (view D.Disk mft.old) (file_number dir.now) items)
        → MftReads D.Disk mft.old mft.new (8 * has.index.walks.depth) }
{
    let Some(index) = find_index(dir, DIRECTORY_INDEX) else {
        return Ok(false);
    };
    room_found(alloc, mft, dir, index, upcase, key, len)
}
