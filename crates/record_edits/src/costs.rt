//! What calls that edit one record cost.
ghost use Rattle.std.specs.Prelude.{◌≡◌, ◌≢◌, ◌+◌, ◌/◌, ◌%◌, ◌<◌, ◌≤◌, ℕ, Contains, List, [], ◌∷◌, false, length};
ghost use Rattle.ntfs_def.specs.declared.kinds.TheConstants.{ATTRIBUTE_LIST};
ghost use Rattle.ntfs_def.specs.declared.records.TheConstants.{MFT};
ghost use Rattle.volume_def.specs.Edits.{EditsAt};
ghost use Rattle.volume_def.specs.Files.{Part, Records, file_of, records_of};
ghost use Rattle.volume_def.specs.OwnersClause.{MeetsOwners};
ghost use Rattle.volume_def.specs.Room.{unowned_clusters};
ghost use Rattle.volume_def.specs.View.{VolumeView};
ghost use Rattle.edit_def.specs.Account.{LacksRoom, Wants};
ghost use Rattle.edit_def.specs.Purses.{Costs, is_emptied, part_size, room_of};

/// What an edit of a file other than the table's costs, of an attribute that is no list: a part in the place of one of its type and name
/// the clusters that it owns more (`put`); one that comes a part, its clusters, and its name (`add`), unless it comes into a base
/// record that was emptied; parts that go nothing (`drop`).
pub fn edit_costs()
    ensures put { (old new : Records) (n f : ℕ) (a b : Part) (wants : Wants) → (e : EditsAt old new n (a ∷ []) (b ∷ []))
        → file_of n e.was_record ≡ f → f ≢ MFT → a.kind ≢ ATTRIBUTE_LIST → b.kind ≡ a.kind → b.name ≡ a.name
        → part_size b ≤ part_size a + wants.clusters → Costs old new n f (a ∷ []) (b ∷ []) wants }
    ensures add { (old new : Records) (n f : ℕ) (b : Part) (wants : Wants) → (e : EditsAt old new n [] (b ∷ []))
        → file_of n e.was_record ≡ f → f ≢ MFT → b.kind ≢ ATTRIBUTE_LIST → length b.name % 2 ≡ 0 → part_size b ≤ wants.clusters
        → 1 ≤ wants.parts f → length b.name / 2 ≤ wants.units f → is_emptied (old.record_at n) ≡ false
        → Costs old new n f [] (b ∷ []) wants }
    ensures drop { (old new : Records) (n f : ℕ) (was : List Part) (wants : Wants) → EditsAt old new n was [] → f ≢ MFT
        → ((part : Part) → Contains was part → part.kind ≢ ATTRIBUTE_LIST) → Costs old new n f was [] wants }
{}

/// A call may be refused where fewer clusters have no owner than it wants.
pub fn full_volume()
    ensures { (view : VolumeView) (wants : Wants) → ((n : ℕ) → MeetsOwners (records_of view) view.layout.clusters n)
        → unowned_clusters view < wants.clusters → LacksRoom (room_of view) wants }
{}
