//! Whether the root of an index without records has room for an entry.
ghost use Rattle.std.specs.Prelude.{◌≡◌, ◌<◌, ◌&&◌, List, Some, is_some, length, nat_le, not};
ghost use Rattle.ntfs_def.specs.Node.{Item, Node, node_in};
ghost use Rattle.ntfs_def.specs.declared.index.NodeForm.TheVariants.{Names};
ghost use Rattle.volume_def.specs.View.{VolumeView};
ghost use Rattle.file_record.specs.Held.{IsHeldFile, file_number, parts_held};
ghost use Rattle.edit_def.specs.Items.{HasItems};
ghost use Rattle.index_puts.specs.RecordRoom.{TellsFree};
ghost use Rattle.tree_model.specs.RootRoom.{has_root_room};

use entry_edits::{find_first, find_index, has_list};
use file_record::FileParts;
use index_node::NodeView;
use ntfs_def::NodeForm;
use ntfs_def::index_root::DIRECTORY_INDEX;
use ntfs_def::kinds::INDEX_ROOT;

// Whether the node that a root says leads to no record.
fn is_leaf(root: &[u8]) -> bool
    ensures { (said : Node) → node_in Names root.now ≡ Some said → result ≡ not (is_some said.last) }
{
    match NodeView::new(root, NodeForm::Names) {
        Ok(node) => node.child(node.entries()).is_none(),
        Err(_) => false,
    }
}

// The bytes that are free in the record of a file that holds part `i`.
fn free_beside(file: &FileParts, i: usize) -> usize
    requires { i < length (parts_held file.now) }
    ensures { TellsFree file.now i result }
{
    file.free_bytes(file.place_of(i).record)
}

// Whether a root has room: it leads to no record, its file has no list, and so many bytes of those that are free are enough.
fn has_room(leaf: bool, listed: bool, len: usize, free: usize) -> bool
    ensures { result ≡ (leaf && not listed && nat_le len free) }
{
    leaf && !listed && len <= free
}

/// Whether an entry of so many bytes fits into the root of the index of a directory that is held: the index has no records, the
/// directory has no attribute list, and the record that holds the root has so many free bytes. Nothing is read. By condition: the
/// directory is held as a volume has it, and its index is right by itself.
pub fn has_root_room(dir: &FileParts, len: usize) -> bool
    ensures { (view : VolumeView) (items : List Item) → IsHeldFile view dir.now → HasItems view (file_number dir.now) items
        → result ≡ has_root_room view (file_number dir.now) len }
{
    let Some(index) = find_index(dir, DIRECTORY_INDEX) else {
        return false;
    };
    let Some(first) = find_first(dir, INDEX_ROOT, DIRECTORY_INDEX) else {
        return false;
    };
    let free = free_beside(dir, first.index);
    has_room(is_leaf(index.root), has_list(dir), len, free)
}
