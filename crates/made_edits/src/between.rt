//! What stands between the calls by which a file comes.
ghost use Rattle.std.specs.Prelude.{◌≡◌, ℕ, Bool, List, length};
ghost use Rattle.volume_def.specs.View.{VolumeView};
ghost use Rattle.mft_table.specs.declared.mounted.Mounted.{Mounted};
ghost use Rattle.mft_table.specs.FreeRecords.{IsOrdinaryFree};
ghost use Rattle.tree_model.specs.declared.tree.Node.{Node};
ghost use Rattle.edit_def.specs.Marks.{AreRight};
ghost use Rattle.root_puts.specs.Marks.{marks_of};
ghost use Rattle.record_bits.specs.StoredRecordBit.{StoresRecordBit};
ghost use Rattle.made_edits.specs.Between.{HasNewFile, IsFlagged};
ghost use Rattle.made_edits.specs.Comes.{CanMake, ComesNamed, IsNewKey};

/// Where a name may come, with the bits in memory right, the volume stands as between two calls: where the flag of a free record was stored
/// (`flagged`), and where the file came with its name (`named`).
pub fn between_made()
    ensures flagged { (old new : VolumeView) (was : Mounted) (dir n : ℕ) (node : Node) (units : List ℕ) → CanMake old dir node units
        → AreRight old (marks_of was) → IsOrdinaryFree was.records n → StoresRecordBit old new n → IsFlagged old new (marks_of was) n }
    ensures named { (old new : VolumeView) (was now : Mounted) (dir n : ℕ) (node : Node) (units standard key : List ℕ)
        (moment : ℕ) (directory : Bool)
        → CanMake old dir node units → AreRight old (marks_of was) → IsNewKey old directory dir units moment key → length standard ≡ 72
        → ComesNamed directory old new was now n standard key → HasNewFile directory old new (marks_of now) n dir standard key }
{}
