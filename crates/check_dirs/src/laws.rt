//! What the check of an index says of the volume that it belongs to.
ghost use Rattle.std.specs.Prelude.{ℕ, List, map};
ghost use Rattle.ntfs_def.specs.FileName.{link_of};
ghost use Rattle.ntfs_def.specs.Node.{Item};
ghost use Rattle.volume_def.specs.IndexesClause.{HasIndex, IndexParts, IsDirectoryIndex, KeyRule, name_rule};
ghost use Rattle.list_laws.specs.SameItems.{SameItems};
ghost use Rattle.volume_def.specs.View.{VolumeView};
ghost use Rattle.index_store.specs.Index.{HasParts};
ghost use Rattle.index_store.specs.IndexRecords.{AreRecordsOf};
ghost use Rattle.check_dirs.specs.OfVolume.{HasNames, directory_parts, links_in};
ghost use Rattle.check_dirs.specs.OrderedIndex.{IndexesKind, IsOrderedIndex};
ghost use Rattle.check_dirs.specs.Records.{Records, short_nodes};

use ntfs_def::NodeForm;

/// An index of a volume meets its clause exactly where its parts are right and what is checked of its records holds.
pub fn checked_indexes()
    ensures holds { (form : NodeForm) (rule : KeyRule) (view : VolumeView) (index : IndexParts) (records : Records)
        (root : List ℕ) (items : List Item) → AreRecordsOf view index records → HasParts index root
        → IsOrderedIndex form rule (short_nodes form records) root items → HasIndex form rule view index items }
    ensures held { (form : NodeForm) (rule : KeyRule) (view : VolumeView) (index : IndexParts) (records : Records)
        (root : List ℕ) (items : List Item) → AreRecordsOf view index records → HasParts index root → IndexesKind form root
        → HasIndex form rule view index items → IsOrderedIndex form rule (short_nodes form records) root items }
{}

/// A directory of a volume meets the clause exactly where beside that its entries are the names that stand in it.
pub fn checked_directories()
    ensures holds { (view : VolumeView) (f : ℕ) (records : Records) (root : List ℕ) (items : List Item)
        → AreRecordsOf view (directory_parts view f) records → HasParts (directory_parts view f) root
        → IsOrderedIndex NodeForm.Names (name_rule view) (short_nodes NodeForm.Names records) root items
        → SameItems (map link_of items) (links_in view f) → IsDirectoryIndex view f }
    ensures held { (view : VolumeView) (f : ℕ) (records : Records) (root : List ℕ)
        → AreRecordsOf view (directory_parts view f) records → HasParts (directory_parts view f) root → IsDirectoryIndex view f
        → HasNames view f (short_nodes NodeForm.Names records) root }
{}
