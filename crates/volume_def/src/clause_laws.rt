//! Laws with nothing to run: the clauses on files, and what an edit leaves of them.
ghost use Rattle.std.specs.Prelude.{◌≡◌, ◌≢◌, ℕ, All, Contains, List, [], ◌∷◌, IsTrue, count_by, false, true};
ghost use Rattle.ntfs_def.specs.AttributeList.{ListEntry, list_entries};
ghost use Rattle.ntfs_def.specs.declared.kinds.TheConstants.{FILE_NAME};
ghost use Rattle.volume_def.specs.AttributesClause.{IsRightPart};
ghost use Rattle.volume_def.specs.Edits.{EditsAt, MovesPart};
ghost use Rattle.volume_def.specs.ExtentsClause.{AreAttribute, MeetsExtents};
ghost use Rattle.volume_def.specs.Members.{FreesEmpty, TakesEmpty};
ghost use Rattle.volume_def.specs.Files.{Part, Records, file_of, parts, parts_like, records_of};
ghost use Rattle.volume_def.specs.KeptList.{HasList, KeepsList, StoresList};
ghost use Rattle.volume_def.specs.ListsClause.{HasRightList, entries_in, entry_in, is_list, list_value};
ghost use Rattle.volume_def.specs.Readable.{IsFile, IsReadableVolume};
ghost use Rattle.list_laws.specs.Replaces.{Replaces};
ghost use Rattle.volume_def.specs.Table.{cluster_bytes};
ghost use Rattle.volume_def.specs.View.{VolumeView};

/// A volume whose files can be read. The parts of a file that are of one type and name are one stream, file names aside
/// (`stream`). Its list is right (`list`), and so is each part of a file (`part`).
pub fn readable_laws()
    ensures stream { (view : VolumeView) (f : ℕ) (part : Part) → IsReadableVolume view → IsFile view f
        → Contains (parts (records_of view) f) part → part.kind ≢ FILE_NAME
        → AreAttribute (cluster_bytes view.layout) f (parts_like part (parts (records_of view) f)) }
    ensures list { (view : VolumeView) (f : ℕ) → IsReadableVolume view → IsFile view f
        → HasRightList view f (parts (records_of view) f) }
    ensures part { (view : VolumeView) (f : ℕ) (part : Part) → IsReadableVolume view
        → Contains (parts (records_of view) f) part → IsRightPart part }
{}

/// The clause on extents. A file meets it still where its parts say the same, in any order: after an edit of another file
/// (`other`), after a move, of whichever file (`moved`), where a record without parts goes out of use (`freed`), and where
/// one comes into use that is not the file's base record (`taken`).
pub fn extents_clause_laws()
    ensures other { (old new : Records) (size n f : ℕ) (was now : List Part) → (e : EditsAt old new n was now)
        → file_of n e.was_record ≢ f → MeetsExtents old size f → MeetsExtents new size f }
    ensures moved { (old new : Records) (size from to f : ℕ) (was now : Part) → MovesPart old new from to was now
        → MeetsExtents old size f → MeetsExtents new size f }
    ensures freed { (old new : Records) (size n f : ℕ) → FreesEmpty old new n → MeetsExtents old size f
        → MeetsExtents new size f }
    ensures taken { (old new : Records) (size n f : ℕ) → TakesEmpty old new n → f ≢ n → MeetsExtents old size f
        → MeetsExtents new size f }
{}

/// The clause on lists, of the file that is edited. A right list has to have the entries that it stores (`read`). While an
/// edit is under way the entries that it has to have follow: parts that are no lists are replaced (`edit`), one moves
/// (`moved`), or the list itself is replaced (`rewrite`). Once it stores those entries it is right (`write`).
pub fn list_clause_laws()
    ensures read { (view : VolumeView) (f : ℕ) (list : Part) → HasRightList view f (parts (records_of view) f)
        → Contains (parts (records_of view) f) list → is_list list ≡ true
        → HasList (records_of view) f (list_entries (list_value view list)) }
    ensures edit { (old new : Records) (n f : ℕ) (was now : List Part) (entries next : List ListEntry)
        → (e : EditsAt old new n was now) → file_of n e.was_record ≡ f
        → count_by is_list was ≡ 0 → count_by is_list now ≡ 0
        → Replaces entries next (entries_in old was) (entries_in old now) → HasList old f entries → HasList new f next }
    ensures moved { (old new : Records) (from to f : ℕ) (was now : Part) (entries next : List ListEntry)
        → (m : MovesPart old new from to was now) → file_of from m.leaves.was_record ≡ f → is_list was ≡ false
        → Replaces entries next (entry_in old was ∷ []) (entry_in old now ∷ []) → HasList old f entries
        → HasList new f next }
    ensures rewrite { (old new : Records) (f : ℕ) (was now : Part) (entries : List ListEntry)
        → (e : EditsAt old new f (was ∷ []) (now ∷ [])) → file_of f e.was_record ≡ f
        → is_list was ≡ true → is_list now ≡ true → now.holder ≡ f → HasList old f entries → HasList new f entries }
    ensures write { (view : VolumeView) (f : ℕ) (entries : List ListEntry) → HasList (records_of view) f entries
        → All (λ part. IsTrue (is_list part) → StoresList view part entries) (parts (records_of view) f)
        → HasRightList view f (parts (records_of view) f) }
{}

/// The clause on lists, of a file that is not edited. Where the clusters of its list hold what they held, its list is right
/// as before: after an edit of another file (`other`) and a move within one (`unmoved`), and where a record without parts
/// comes into use for another file (`taken`) or goes out of use (`freed`).
pub fn other_list_laws()
    ensures other { (old new : VolumeView) (n f : ℕ) (was now : List Part)
        → (e : EditsAt (records_of old) (records_of new) n was now) → file_of n e.was_record ≢ f
        → new.layout ≡ old.layout → KeepsList old new (parts (records_of old) f)
        → HasRightList old f (parts (records_of old) f) → HasRightList new f (parts (records_of new) f) }
    ensures unmoved { (old new : VolumeView) (from to f : ℕ) (was now : Part)
        → (m : MovesPart (records_of old) (records_of new) from to was now) → file_of from m.leaves.was_record ≢ f
        → new.layout ≡ old.layout → KeepsList old new (parts (records_of old) f)
        → HasRightList old f (parts (records_of old) f) → HasRightList new f (parts (records_of new) f) }
    ensures taken { (old new : VolumeView) (n f : ℕ) → (t : TakesEmpty (records_of old) (records_of new) n)
        → file_of n t.now_record ≢ f → new.layout ≡ old.layout → KeepsList old new (parts (records_of old) f)
        → HasRightList old f (parts (records_of old) f) → HasRightList new f (parts (records_of new) f) }
    ensures freed { (old new : VolumeView) (n f : ℕ) → FreesEmpty (records_of old) (records_of new) n
        → new.layout ≡ old.layout → KeepsList old new (parts (records_of old) f)
        → HasRightList old f (parts (records_of old) f) → HasRightList new f (parts (records_of new) f) }
{}
