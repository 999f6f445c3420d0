//! What stands between the calls by which a file goes.
ghost use Rattle.std.specs.Prelude.{◌≡◌, ℕ, List};
ghost use Rattle.ntfs_def.specs.FileName.{FileName};
ghost use Rattle.volume_def.specs.View.{VolumeView};
ghost use Rattle.mft_table.specs.declared.mounted.Mounted.{Mounted};
ghost use Rattle.mft_table.specs.Changes.{with_record_given};
ghost use Rattle.mft_table.specs.FreeRecords.{FreesBlock};
ghost use Rattle.tree_model.specs.declared.tree.Node.{Node};
ghost use Rattle.edit_def.specs.Marks.{AreRight};
ghost use Rattle.record_calls.specs.Marks.{marks_of};
ghost use Rattle.gone_edits.specs.Between.{HasExited, HasNoName, IsFreed, KeepsRows};
ghost use Rattle.gone_edits.specs.Exits.{ExitsIndex};
ghost use Rattle.gone_edits.specs.Goes.{CanGo, QuitsName};

/// Where a file may go, with the bits in memory right, the volume stands as between two calls: where the entry of its name has gone out of
/// the index (`exited`), where its name has gone out of its record behind that (`unnamed`), and where its record was freed then (`freed`);
/// and there the bitmap of records is found as it was, to clear its flag (`rows`).
pub fn between_gone()
    ensures exited { (old left : VolumeView) (was : Mounted) (n dir : ℕ) (file parent : Node) (name : FileName) (key : List ℕ)
        → CanGo old n dir file parent name → AreRight old (marks_of was) → ExitsIndex old left dir key
        → HasExited old left (marks_of was) n dir }
    ensures unnamed { (old left counted : VolumeView) (was : Mounted) (n dir : ℕ) (file parent : Node) (name : FileName) (key : List ℕ)
        → CanGo old n dir file parent name → AreRight old (marks_of was) → ExitsIndex old left dir key → QuitsName left counted n
        → HasNoName counted (marks_of was) n }
    ensures freed { (old left counted freed : VolumeView) (was now : Mounted) (n dir : ℕ) (file parent : Node) (name : FileName)
        (key : List ℕ) → CanGo old n dir file parent name → AreRight old (marks_of was) → ExitsIndex old left dir key
        → QuitsName left counted n → FreesBlock counted freed n → now ≡ with_record_given was n → IsFreed freed (marks_of now) n }
    ensures rows { (old left counted freed : VolumeView) (was now : Mounted) (n dir : ℕ) (file parent : Node) (name : FileName)
        (key : List ℕ) → CanGo old n dir file parent name → AreRight old (marks_of was) → ExitsIndex old left dir key
        → QuitsName left counted n → FreesBlock counted freed n → now ≡ with_record_given was n
        → KeepsRows old counted freed now n }
{}
