//! Laws with nothing to run: what a volume is where an item was taken out of the index of a directory, and where an entry stays.
ghost use Rattle.std.specs.Prelude.{◌≡◌, ◌≢◌, ℕ, List, [], ◌∷◌, codes};
ghost use Rattle.ntfs_def.specs.KeyOrder.{name_order};
ghost use Rattle.ntfs_def.specs.Node.{Item};
ghost use Rattle.ntfs_def.specs.Units.{wide};
ghost use Rattle.ntfs_def.specs.declared.kinds.TheConstants.{INDEX_ALLOCATION};
ghost use Rattle.volume_def.specs.CaseClause.{volume_fold};
ghost use Rattle.volume_def.specs.Files.{parts, records_of};
ghost use Rattle.volume_def.specs.Readable.{IsReadableVolume};
ghost use Rattle.volume_def.specs.Sound.{Clause, Holds, Indexes, rank_of};
ghost use Rattle.volume_def.specs.Table.{cluster_bytes};
ghost use Rattle.volume_def.specs.Values.{value_on};
ghost use Rattle.volume_def.specs.View.{VolumeView};
ghost use Rattle.volume_edits.specs.Owners.{HasOwners};
ghost use Rattle.index_tree.specs.Edit.{IsAt};
ghost use Rattle.tree_model.specs.IndexRoom.{Index, index_depth};
ghost use Rattle.tree_model.specs.LeafRoom.{names_of_directory};
ghost use Rattle.edit_def.specs.Items.{ChangesItems, HasItems, IsCurrent, KeepsItems};
ghost use Rattle.edit_def.specs.Kept.{KeepsBut};
ghost use Rattle.entry_edits.specs.Refreshable.{is_part_key};
ghost use Rattle.index_puts.specs.Held.{CanPut};
ghost use Rattle.tree_model.specs.LeafEntry.{has_leaf_entry};
ghost use Rattle.tree_model.specs.RootEntry.{has_root_entry};
ghost use Rattle.index_takes.specs.TakesItem.{TakesItem};

/// The directory had an item of the key (`there`), and has all others (`items`), and every other directory has the items that it had
/// (`others`). An entry of any directory that told what its file does tells it still (`current`). Every other index is as deep as it
/// was (`depths`).
pub fn take_items()
    ensures there { (old new : VolumeView) (dir : ℕ) (key : List ℕ) (was : List Item) → TakesItem old new dir key → HasItems old dir was
        → (item : Item) × IsAt (name_order (volume_fold old)) key was item }
    ensures items { (old new : VolumeView) (dir : ℕ) (key : List ℕ) (was : List Item) (item : Item) → TakesItem old new dir key
        → HasItems old dir was → IsAt (name_order (volume_fold old)) key was item → ChangesItems old new dir (item ∷ []) [] }
    ensures others { (old new : VolumeView) (dir : ℕ) (key : List ℕ) → TakesItem old new dir key → CanPut old → (g : ℕ) → g ≢ dir
        → KeepsItems old new g }
    ensures current { (old new : VolumeView) (dir : ℕ) (key : List ℕ) → TakesItem old new dir key → HasOwners old
        → (f : ℕ) (other : List ℕ) → IsCurrent old f other → IsCurrent new f other }
    ensures depths { (old new : VolumeView) (dir : ℕ) (key : List ℕ) → TakesItem old new dir key → HasOwners old → (index : Index)
        → ¬ ((index.file ≡ dir) × (index.name ≡ wide (codes "$I30"))) → index_depth new index ≡ index_depth old index }
{}

/// All records are as they were, and so are all parts of all files and the value of each root (`records`). All attributes are kept but
/// the records of that index (`kept`), the table of case with them (`case`). Each clause of the volume definition that held holds still
/// but that on indexes (`beside`): so the volume's files can be read (`readable`), no cluster has two owners (`owners`), and an item
/// can be put or taken once more (`can`).
pub fn take_clauses()
    ensures records { (old new : VolumeView) (dir : ℕ) (key : List ℕ) → TakesItem old new dir key → HasOwners old
        → records_of new ≡ records_of old }
    ensures kept { (old new : VolumeView) (dir : ℕ) (key : List ℕ) → TakesItem old new dir key → HasOwners old
        → KeepsBut (is_part_key INDEX_ALLOCATION dir) old new }
    ensures case { (old new : VolumeView) (dir : ℕ) (key : List ℕ) → TakesItem old new dir key → HasOwners old
        → volume_fold new ≡ volume_fold old }
    ensures beside { (old new : VolumeView) (dir : ℕ) (key : List ℕ) → TakesItem old new dir key → HasOwners old → IsReadableVolume old
        → (clause : Clause) → rank_of clause ≢ rank_of Indexes → Holds old clause → Holds new clause }
    ensures readable { (old new : VolumeView) (dir : ℕ) (key : List ℕ) → TakesItem old new dir key → HasOwners old → IsReadableVolume old
        → IsReadableVolume new }
    ensures owners { (old new : VolumeView) (dir : ℕ) (key : List ℕ) → TakesItem old new dir key → HasOwners old → HasOwners new }
    ensures can { (old new : VolumeView) (dir : ℕ) (key : List ℕ) → TakesItem old new dir key → CanPut old → CanPut new }
{}

/// A leaf has the entry of a name where it had it if the parts of the directory's index are the same, the bytes of its records, the size
/// of clusters and the table of case (`leaf`), and a root if all parts of the directory are, and the table of case (`root`).
pub fn entry_laws()
    ensures leaf { (old new : VolumeView) (dir : ℕ) (units : List ℕ) → names_of_directory new dir ≡ names_of_directory old dir
        → value_on new (names_of_directory old dir).records ≡ value_on old (names_of_directory old dir).records
        → cluster_bytes new.layout ≡ cluster_bytes old.layout → volume_fold new ≡ volume_fold old
        → has_leaf_entry new dir units ≡ has_leaf_entry old dir units }
    ensures root { (old new : VolumeView) (dir : ℕ) (units : List ℕ) → parts (records_of new) dir ≡ parts (records_of old) dir
        → volume_fold new ≡ volume_fold old → has_root_entry new dir units ≡ has_root_entry old dir units }
{}
