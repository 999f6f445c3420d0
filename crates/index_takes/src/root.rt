//! Whether the root of an index without records has an entry of a key.
ghost use Rattle.std.specs.Prelude.{◌≡◌, ◌&&◌, IsTrue, List, Some, is_some, not};
ghost use Rattle.ntfs_def.specs.FileName.{is_name_key, key_units};
ghost use Rattle.ntfs_def.specs.IndexTree.{Each};
ghost use Rattle.ntfs_def.specs.Node.{Entry, Item, Node, node_in};
ghost use Rattle.ntfs_def.specs.declared.index.NodeForm.TheVariants.{Names};
ghost use Rattle.volume_def.specs.View.{VolumeView};
ghost use Rattle.file_record.specs.Held.{file_number};
ghost use Rattle.index_puts.specs.Held.{IsHeldWith};
ghost use Rattle.tree_model.specs.LeafEntry.{hits_on};
ghost use Rattle.tree_model.specs.RootEntry.{has_root_entry};

use collation::{Collation, FileNameOrder};
use entry_edits::{find_index, has_list};
use file_record::FileParts;
use index_node::NodeView;
use index_puts::seek_block;
use ntfs_def::NodeForm;
use ntfs_def::index_root::DIRECTORY_INDEX;
use upcase::UpCase;

// Whether the node that a root says leads to no record.
fn is_leaf(root: &[u8]) -> bool
    ensures { (said : Node) → node_in Names root.now ≡ Some said → result ≡ not (is_some said.last) }
{
    match NodeView::new(root, NodeForm::Names) {
        Ok(node) => node.child(node.entries()).is_none(),
        Err(_) => false,
    }
}

// Whether the search for a key ends at an entry of it in a root.
fn hits_root<C: Collation>(root: &[u8], order: &C, key: &[u8]) -> bool
    requires { IsTrue (C.valid order.now key.now) }
    ensures { (said : Node) → node_in Names root.now ≡ Some said
        → Each (λ (e : Entry). IsTrue (C.valid order.now e.item.key)) said.entries
        → result ≡ hits_on (λ x. C.order order.now x key.now) said.entries }
{
    match seek_block(root, order, key) {
        Some(spot) => spot.hit,
        None => false,
    }
}

// Whether a root has an entry that can go out: it leads to no record, and its file has no list.
fn can_go(leaf: bool, listed: bool, hit: bool) -> bool
    ensures { result ≡ (leaf && not listed && hit) }
{
    leaf && !listed && hit
}

/// Whether the root of the index of a directory that is held has an entry of a key, which can be taken out there (`shrink_root`): the
/// index has no records, and the directory has no attribute list. Nothing is read. By condition: the directory is held as a volume has
/// it, its index is right by itself, and the table of case is the volume's.
pub fn has_root_entry(dir: &FileParts, upcase: UpCase, key: &[u8]) -> bool
    requires { IsTrue (is_name_key key.now) }
    ensures { (view : VolumeView) (items : List Item) → IsHeldWith view dir.now upcase items
        → result ≡ has_root_entry view (file_number dir.now) (key_units key.now) }
{
    let Some(index) = find_index(dir, DIRECTORY_INDEX) else {
        return false;
    };
    let leaf = is_leaf(index.root);
    let hit = hits_root(index.root, &FileNameOrder { upcase }, key);
    can_go(leaf, has_list(dir), hit)
}
