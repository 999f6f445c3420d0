//! The bytes of a record behind its entries.
ghost use Rattle.std.specs.Prelude.{◌≡◌, IsSome, Some, suc};
ghost use Rattle.ntfs_def.specs.Node.{Node, entry_place, first_entry, node_in};
ghost use Rattle.ntfs_def.specs.declared.index.NodeForm.TheVariants.{Names};
ghost use Rattle.index_node.specs.Edit.{HasPlace};
ghost use Rattle.tree_model.specs.LeafRoom.{node_room};

use index_node::NodeView;
use ntfs_def::{NodeForm, index_record};
use vol_bytes::{u16_at, u32_at};

// Where the entry at a place of the node of a record ends, or the last one.
fn behind_place(block: &[u8; 4096], place: usize) -> usize
    requires { HasPlace Names block.now place }
    ensures { result ≡ entry_place block.now (first_entry block.now) (suc place) }
{
    let mut at = index_record::HEADER + u32_at(block, index_record::HEADER) as usize;
    for k in 0..place {
        at += u16_at(block, at + index_record::ENTRY_LEN) as usize;
    }
    at + u16_at(block, at + index_record::ENTRY_LEN) as usize
}

// The bytes behind the last entry of the node of a record.
pub fn room_behind(block: &[u8; 4096]) -> usize
    requires { IsSome (node_in Names block.now) }
    ensures { (said : Node) → node_in Names block.now ≡ Some said → result ≡ node_room block.now said }
{
    let Ok(node) = NodeView::new(block, NodeForm::Names) else {
        unreachable!();
    };
    let room = u32_at(block, index_record::HEADER + index_record::ROOM_END) as usize;
    index_record::HEADER + room - behind_place(block, node.entries())
}
