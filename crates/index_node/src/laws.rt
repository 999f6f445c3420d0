//! What nodes mean where their bytes differ and mean nothing.
ghost use Rattle.std.specs.Prelude.{◌≡◌, ℕ, List, Some, length};
ghost use Rattle.vol_bytes.specs.Field.{SameOutside};
ghost use Rattle.ntfs_def.specs.Fixup.{array_end, array_place};
ghost use Rattle.ntfs_def.specs.Node.{Node, node_in, own_vcn, short_node};
ghost use Rattle.index_node.specs.Sealed.{HasArrayApart};

use ntfs_def::NodeForm;

/// An index record whose update sequence array alone differs says the same, as one does that was sealed and opened
/// again. The array of a node stands where this holds.
pub fn sealed_nodes()
    ensures place { (form : NodeForm) (node : List ℕ) (said : Node) → length node ≡ 4096 → node_in form node ≡ Some said
        → HasArrayApart node }
    ensures node { (form : NodeForm) (old new : List ℕ) → HasArrayApart old
        → SameOutside old new (array_place old) (array_end old) → node_in form new ≡ node_in form old }
    ensures short { (form : NodeForm) (old new : List ℕ) → HasArrayApart old
        → SameOutside old new (array_place old) (array_end old) → short_node form new ≡ short_node form old }
    ensures own_vcn { (old new : List ℕ) → HasArrayApart old
        → SameOutside old new (array_place old) (array_end old) → own_vcn new ≡ own_vcn old }
{}
