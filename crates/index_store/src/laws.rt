//! Laws with nothing to run: what an index that is held says of the volume.
ghost use Rattle.std.specs.Prelude.{◌≡◌, ◌≢◌, ◌⊎◌, ◌<◌, ℕ, List, true};
ghost use Rattle.ntfs_def.specs.declared.kinds.TheConstants.{ATTRIBUTE_LIST};
ghost use Rattle.volume_def.specs.Files.{Part, is_of, parts_at};
ghost use Rattle.volume_def.specs.IndexesClause.{IndexParts, index_parts};
ghost use Rattle.volume_def.specs.Table.{cluster_bytes};
ghost use Rattle.volume_def.specs.Values.{KeepsClusters, spot_at};
ghost use Rattle.volume_def.specs.View.{VolumeView};
ghost use Rattle.attr_store.specs.Owners.{HasOwners};
ghost use Rattle.attr_store.specs.Clusters.{ChangesStream};
ghost use Rattle.attr_store.specs.Held.{AreParts, IsHeldFile, file_number};
ghost use Rattle.index_store.specs.Index.{index_held};
ghost use Rattle.index_store.specs.IndexRecords.{AreRecordsOf, index_record_on};

use attr_store::FileParts;

/// An index that is held of a file is that of the volume, and the records that are told of an index are its records.
pub fn index_laws()
    ensures parts { (view : VolumeView) (file : FileParts) (name : List ℕ) → AreParts view file
        → index_held file name ≡ index_parts view (file_number file) name }
    ensures records { (view : VolumeView) (index : IndexParts) → 0 < cluster_bytes view.layout
        → AreRecordsOf view index (index_record_on view index) }
{}

/// Where no cluster has two owners, a change of the clusters of one attribute that is no attribute list leaves each file that is
/// held as it was (`held`), and the clusters of every other attribute: of another type or name, or of another file (`others`).
pub fn changed_laws()
    ensures held { (old new : VolumeView) (f kind : ℕ) (name : List ℕ) (file : FileParts) → HasOwners old → kind ≢ ATTRIBUTE_LIST
        → ChangesStream old new (spot_at (parts_at old f kind name)) → IsHeldFile old file → IsHeldFile new file }
    ensures others { (old new : VolumeView) (f kind : ℕ) (name : List ℕ) → HasOwners old
        → ChangesStream old new (spot_at (parts_at old f kind name))
        → (g k : ℕ) (n : List ℕ) → (g ≢ f) ⊎ ((part : Part) → is_of k n part ≡ true → is_of kind name part ≡ true → ⊥)
        → KeepsClusters old new (parts_at old g k n) }
{}
