//! Laws with nothing to run: what a volume is where an item was put into the root of the index of a directory.
ghost use Rattle.std.specs.Prelude.{◌≡◌, ◌≢◌, ℕ, Bool, Contains, List, [], ◌∷◌, Some, codes, filter, false};
ghost use Rattle.ntfs_def.specs.KeyOrder.{name_order};
ghost use Rattle.ntfs_def.specs.Node.{Item};
ghost use Rattle.ntfs_def.specs.Units.{wide};
ghost use Rattle.ntfs_def.specs.declared.kinds.TheConstants.{INDEX_ROOT};
ghost use Rattle.volume_def.specs.CaseClause.{volume_fold};
ghost use Rattle.volume_def.specs.Files.{Part, part_runs, parts, parts_at, records_of};
ghost use Rattle.volume_def.specs.Sound.{Clause, Holds, Indexes, References, rank_of};
ghost use Rattle.volume_def.specs.Values.{first_part, value_on};
ghost use Rattle.volume_def.specs.View.{VolumeView};
ghost use Rattle.volume_edits.specs.Owners.{HasOwners};
ghost use Rattle.index_tree.specs.Edit.{IsAbsent};
ghost use Rattle.tree_model.specs.IndexRoom.{Index, index_depth};
ghost use Rattle.edit_def.specs.Account.{nothing};
ghost use Rattle.edit_def.specs.Edited.{Edited, is_table_key};
ghost use Rattle.edit_def.specs.Forms.{ComeRightly};
ghost use Rattle.edit_def.specs.Items.{ChangesItems, HasItems, IsCurrent, KeepsItems};
ghost use Rattle.edit_def.specs.Kept.{key_of, same_key};
ghost use Rattle.edit_def.specs.Marks.{Marks};
ghost use Rattle.edit_def.specs.Names.{KeepsNames};
ghost use Rattle.record_edits.specs.Between.{IsReady};
ghost use Rattle.command_edits.specs.Calls.{ChangesIndex};
ghost use Rattle.index_puts.specs.PutsRoot.{PutsRootItem};
ghost use Rattle.root_puts.specs.PutsInRoot.{KeepsHolder, KeepsRootHead, PutsInRoot, WritesRecord, root_key};

/// The directory has the item more, where none of its items had this key (`items`), and that is one call on its index (`entry`). Every
/// other directory has the items that it had (`others`). An entry of any directory that told what its file does tells it still
/// (`current`). Every other index is as deep as it was (`depths`).
pub fn root_items()
    ensures items { (old new : VolumeView) (dir : ℕ) (item : Item) (was : List Item) → PutsRootItem old new dir item
        → HasItems old dir was → IsAbsent (name_order (volume_fold old)) item.key was → ChangesItems old new dir [] (item ∷ []) }
    ensures others { (old new : VolumeView) (marks : Marks) (dir : ℕ) (item : Item) → PutsInRoot old new marks dir item
        → (g : ℕ) → g ≢ dir → KeepsItems old new g }
    ensures entry { (old new : VolumeView) (marks : Marks) (dir : ℕ) (item : Item) → PutsInRoot old new marks dir item
        → ((was : List Item) → HasItems old dir was → IsAbsent (name_order (volume_fold old)) item.key was)
        → ChangesIndex nothing old new marks marks dir [] (item ∷ []) }
    ensures current { (old new : VolumeView) (marks : Marks) (dir : ℕ) (item : Item) → PutsInRoot old new marks dir item
        → (f : ℕ) (key : List ℕ) → IsCurrent old f key → IsCurrent new f key }
    ensures depths { (old new : VolumeView) (marks : Marks) (dir : ℕ) (item : Item) → PutsInRoot old new marks dir item
        → (index : Index) → ¬ ((index.file ≡ dir) × (index.name ≡ wide (codes "$I30"))) → index_depth new index ≡ index_depth old index }
{}

/// It is a call that names that root, and costs nothing (`edited`), and leaves what the next one needs (`ready`): no cluster has two owners
/// (`owners`). The record of the directory alone was written (`writes`), and has its header (`holder`). All other attributes have the parts
/// that they had (`parts`), also in their order by types (`kinds`), and the values, but the table and its mirror (`values`); the root has
/// no run (`runs`), and its header still (`root`), all files their numbers and names (`names`), attributes their headers (`forms`), and
/// names are compared as before (`case`).
pub fn root_edited()
    ensures edited { (old new : VolumeView) (marks : Marks) (dir : ℕ) (item : Item) → PutsInRoot old new marks dir item
        → Edited (same_key (root_key dir)) nothing old new marks marks }
    ensures ready { (old new : VolumeView) (marks : Marks) (dir : ℕ) (item : Item) → PutsInRoot old new marks dir item
        → IsReady new marks }
    ensures owners { (old new : VolumeView) (marks : Marks) (dir : ℕ) (item : Item) → PutsInRoot old new marks dir item
        → HasOwners new }
    ensures writes { (old new : VolumeView) (marks : Marks) (dir : ℕ) (item : Item) → PutsInRoot old new marks dir item
        → WritesRecord old new dir }
    ensures parts { (old new : VolumeView) (marks : Marks) (dir : ℕ) (item : Item) → PutsInRoot old new marks dir item
        → (f kind : ℕ) (name : List ℕ) → same_key (root_key dir) (key_of f kind name) ≡ false
        → parts_at new f kind name ≡ parts_at old f kind name }
    ensures kinds { (old new : VolumeView) (marks : Marks) (dir : ℕ) (item : Item) → PutsInRoot old new marks dir item
        → (f : ℕ) (test : ℕ → Bool) → test INDEX_ROOT ≡ false
        → filter (λ (p : Part). test p.kind) (parts (records_of new) f) ≡ filter (λ (p : Part). test p.kind) (parts (records_of old) f) }
    ensures runs { (old new : VolumeView) (marks : Marks) (dir : ℕ) (item : Item) → PutsInRoot old new marks dir item
        → (p : Part) → Contains (parts_at new dir INDEX_ROOT (wide (codes "$I30"))) p → part_runs p ≡ [] }
    ensures holder { (old new : VolumeView) (marks : Marks) (dir : ℕ) (item : Item) → PutsInRoot old new marks dir item
        → KeepsHolder old new dir }
    ensures values { (old new : VolumeView) (marks : Marks) (dir : ℕ) (item : Item) → PutsInRoot old new marks dir item
        → (f kind : ℕ) (name : List ℕ) → same_key (root_key dir) (key_of f kind name) ≡ false
        → is_table_key (key_of f kind name) ≡ false → value_on new (parts_at new f kind name) ≡ value_on old (parts_at old f kind name) }
    ensures root { (old new : VolumeView) (marks : Marks) (dir : ℕ) (item : Item) → PutsInRoot old new marks dir item
        → (was now : Part) → first_part (parts_at old dir INDEX_ROOT (wide (codes "$I30"))) ≡ Some was
        → first_part (parts_at new dir INDEX_ROOT (wide (codes "$I30"))) ≡ Some now → KeepsRootHead was now }
    ensures names { (old new : VolumeView) (marks : Marks) (dir : ℕ) (item : Item) → PutsInRoot old new marks dir item
        → (f : ℕ) → KeepsNames (records_of old) (records_of new) f }
    ensures forms { (old new : VolumeView) (marks : Marks) (dir : ℕ) (item : Item) → PutsInRoot old new marks dir item
        → (f : ℕ) → ComeRightly old new f }
    ensures case { (old new : VolumeView) (marks : Marks) (dir : ℕ) (item : Item) → PutsInRoot old new marks dir item
        → volume_fold new ≡ volume_fold old }
{}

/// Each clause of the volume definition that held holds still but that on indexes; where that on references held too, which that on links
/// stands on.
pub fn root_clauses()
    ensures { (old new : VolumeView) (marks : Marks) (dir : ℕ) (item : Item) → PutsInRoot old new marks dir item
        → (clause : Clause) → rank_of clause ≢ rank_of Indexes → Holds old References → Holds old clause → Holds new clause }
{}
