//! Laws of the indexes of directories, with nothing to run.
ghost use Rattle.std.specs.Prelude.{◌≡◌, ◌≤◌, ◌+◌, ◌*◌, ℕ, List, Option, Some, None, map};
ghost use Rattle.std.specs.List.{filter_map};
ghost use Rattle.std.specs.Option.{option_and_then};
ghost use Rattle.ntfs_def.specs.FileName.{is_name_key};
ghost use Rattle.ntfs_def.specs.KeyOrder.{fold_of, name_order};
ghost use Rattle.ntfs_def.specs.Node.{Item, node_in, short_node};
ghost use Rattle.ntfs_def.specs.declared.index.NodeForm.TheVariants.{Names};
ghost use Rattle.volume_def.specs.CaseClause.{volume_fold};
ghost use Rattle.volume_def.specs.IndexesClause.{IndexParts, IsDirectoryIndex};
ghost use Rattle.volume_def.specs.View.{VolumeView};
ghost use Rattle.index_node.specs.Edit.{item_len};
ghost use Rattle.index_store.specs.Edit.{HasSortedIndex, IsAt, short_nodes};
ghost use Rattle.index_store.specs.Search.{nodes_of};
ghost use Rattle.index_store.specs.IndexRecords.{index_record_on};
ghost use Rattle.dir_index.specs.Replaced.{HasSwapped, ReplacesItem};
ghost use Rattle.index_store.specs.Walk.{HasWalk, IsWalk};
ghost use Rattle.tree_model.specs.Reading.{directory_links};
ghost use Rattle.tree_model.specs.Tree.{sought_link};
ghost use Rattle.dir_index.specs.Links.{IsHeldIndex, link_in, link_of_item};
ghost use Rattle.dir_index.specs.Sought.{CanSeek, SeekCosts, Seeks, exact_order, folded_order};

/// The links of a directory are what the items of its index say, in their order (`items`). So they are what the entries of
/// a walk say (`walked`), for which the index has what a walk asks for (`can_walk`).
pub fn directory_walk_laws()
    ensures items { (view : VolumeView) (dir : ℕ) → (has : IsDirectoryIndex view dir)
        → directory_links view dir ≡ map link_of_item has.items }
    ensures can_walk { (view : VolumeView) (dir : ℕ) (table root : List ℕ) (records : ℕ → Option (List ℕ))
        → IsHeldIndex view dir table root records → HasWalk (nodes_of Names records) (node_in Names root) }
    ensures walked { (view : VolumeView) (dir : ℕ) (table root : List ℕ) (records : ℕ → Option (List ℕ))
        → IsHeldIndex view dir table root records → (entries : List (List ℕ))
        → IsWalk (nodes_of Names records) (node_in Names root) entries → directory_links view dir ≡ filter_map link_in entries }
{}

/// What is sought by a name in a directory is what two searches in its index find: one for exactly the name, and where that
/// finds none (`folded`) one by folded units. The index has what both ask for (`can_seek`). Each search costs no more than
/// so much a level of the index (`costs`).
pub fn directory_search_laws()
    ensures can_seek { (view : VolumeView) (dir : ℕ) (table root : List ℕ) (records : ℕ → Option (List ℕ)) (name : List ℕ)
        → IsHeldIndex view dir table root records
        → CanSeek (exact_order (fold_of table) name) records root × CanSeek (folded_order (fold_of table) name) records root }
    ensures exact { (view : VolumeView) (dir : ℕ) (table root : List ℕ) (records : ℕ → Option (List ℕ)) (name : List ℕ)
        → IsHeldIndex view dir table root records
        → (entry : List ℕ) → Seeks (exact_order (fold_of table) name) records root (Some entry)
        → link_in entry ≡ sought_link (volume_fold view) (directory_links view dir) name }
    ensures folded { (view : VolumeView) (dir : ℕ) (table root : List ℕ) (records : ℕ → Option (List ℕ)) (name : List ℕ)
        → IsHeldIndex view dir table root records
        → (found : Option (List ℕ)) → Seeks (exact_order (fold_of table) name) records root None
        → Seeks (folded_order (fold_of table) name) records root found
        → option_and_then link_in found ≡ sought_link (volume_fold view) (directory_links view dir) name }
    ensures costs { (view : VolumeView) (dir : ℕ) (table root : List ℕ) (records : ℕ → Option (List ℕ)) (name : List ℕ)
        → IsHeldIndex view dir table root records → (has : IsDirectoryIndex view dir) → (most before after : ℕ)
        → (SeekCosts most (exact_order (fold_of table) name) records root before after
        → after ≤ before + most * has.index.walks.depth)
        × (SeekCosts most (folded_order (fold_of table) name) records root before after
        → after ≤ before + most * has.index.walks.depth) }
{}

/// The index of a directory that is held has what an edit of its entries asks for (`can_edit`). Where an entry came in the place of
/// the one with an equal key, which is as long, the walk of the index gives its item in the place of that one's, and all others as
/// before (`replaced`).
pub fn directory_edit_laws()
    ensures can_edit { (view : VolumeView) (dir : ℕ) (table root : List ℕ) (records : ℕ → Option (List ℕ))
        → IsHeldIndex view dir table root records
        → HasSortedIndex (name_order (fold_of table)) is_name_key (short_nodes Names records) (short_node Names root) 15 }
    ensures replaced { (view new : VolumeView) (dir : ℕ) (index : IndexParts) (table root next : List ℕ) (item : Item)
        → IsHeldIndex view dir table root (index_record_on view index)
        → ReplacesItem (name_order (fold_of table)) is_name_key view new index root next item
        → (has : IsDirectoryIndex view dir) → (x : Item) → IsAt (name_order (fold_of table)) item.key has.items x
        → item_len x ≡ item_len item
        → HasSwapped (name_order (fold_of table)) (index_record_on new index) next item has.items }
{}
