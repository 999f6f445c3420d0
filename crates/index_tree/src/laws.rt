//! Laws of index trees, with nothing to run.
ghost use Rattle.std.specs.Prelude.{◌≡◌, ℕ, List};
ghost use Rattle.std.specs.Cmp.{IsTotalOrder};
ghost use Rattle.std.specs.declared.cmp.Ordering.{Ordering};
ghost use Rattle.ntfs_def.specs.Node.{Item, Node};
ghost use Rattle.ntfs_def.specs.IndexTree.{Ascends, HoldsIndex, Nodes, Spread, Tree, Walks};
ghost use Rattle.ntfs_def.specs.KeyOrder.{fold_order, name_order};
ghost use Rattle.index_tree.specs.Search.{Rises};

/// An index has one walk and one depth, whatever trees its records hold.
pub fn one_walk()
    ensures items { (nodes : Nodes) (root : Node) (items others : List Item)
        → Walks nodes root items → Walks nodes root others → items ≡ others }
    ensures depth { (nodes : Nodes) (root : Node) (d e : ℕ) (s : Spread (Tree d)) (t : Spread (Tree e))
        → HoldsIndex nodes root d s → HoldsIndex nodes root e t → d ≡ e }
{}

/// Keys that ascend are in order as a search needs them. Names that ascend are so for their folded units too.
pub fn ordered_walks()
    ensures ascending { (order : List ℕ → List ℕ → Ordering) → IsTotalOrder order
        → (key : List ℕ) (items : List Item) → Ascends order items → Rises (λ x. order x key) items }
    ensures folded { (fold : ℕ → ℕ) (key : List ℕ) (items : List Item)
        → Ascends (name_order fold) items → Rises (λ x. fold_order fold x key) items }
{}
