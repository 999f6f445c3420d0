//! An edit of one record.
ghost use Rattle.std.specs.Prelude.{◌≡◌, ◌≢◌, ◌⊎◌, ◌≤◌, ℕ, Contains, List, count_by, filter, length, map, true};
ghost use Rattle.ntfs_def.specs.Attribute.{Attribute};
ghost use Rattle.ntfs_def.specs.declared.kinds.TheConstants.{ATTRIBUTE_LIST, FILE_NAME};
ghost use Rattle.volume_def.specs.Files.{parts, records_of};
ghost use Rattle.volume_def.specs.ListsClause.{HasRightList, entries_in, is_list};
ghost use Rattle.volume_def.specs.Sound.{IsSound, told_view};
ghost use Rattle.volume_def.specs.Table.{MeetsTable, TableLayout};
ghost use Rattle.volume_def.specs.View.{VolumeView};
ghost use Rattle.edit_def.specs.Account.{Wants};
ghost use Rattle.edit_def.specs.Edited.{Edited};
ghost use Rattle.edit_def.specs.Forms.{ComeRightly, IsNewForm, begins, form_of};
ghost use Rattle.edit_def.specs.Kept.{Key, same_key};
ghost use Rattle.edit_def.specs.Marks.{IsEditable, Marks};
ghost use Rattle.edit_def.specs.Names.{KeepsNames, numbers_at};
ghost use Rattle.record_edits.specs.Between.{IsReady};
ghost use Rattle.record_edits.specs.RecordEdit.{EditsPart, EditsRecord, parts_made};

/// A call that edits one attribute of a file in one record keeps the promise of all calls (`edited`), and leaves what the next one needs
/// (`ready`).
pub fn edited_record()
    ensures edited { (key : Key) (wants : Wants) (old new : VolumeView) (before after : Marks) → EditsRecord key wants old new before after
        → IsReady old before → Edited (same_key key) wants old new before after }
    ensures ready { (key : Key) (wants : Wants) (old new : VolumeView) (before after : Marks) → EditsRecord key wants old new before after
        → IsReady old before → IsReady new after }
{}

/// The list of the edited file is right where the file has none (`none`), and where the parts that come have the entries of those that
/// go (`same`); the edited attribute is no list.
pub fn edited_list()
    ensures none { (key : Key) (old new : VolumeView) (before after : Marks) → EditsPart key old new before after → IsReady old before
        → key.kind ≢ ATTRIBUTE_LIST → count_by is_list (parts (records_of old) key.file) ≡ 0
        → HasRightList new key.file (parts (records_of new) key.file) }
    ensures same { (key : Key) (old new : VolumeView) (before after : Marks) → (e : EditsPart key old new before after)
        → IsReady old before → key.kind ≢ ATTRIBUTE_LIST
        → entries_in (records_of old) (parts_made e.n e.now) ≡ entries_in (records_of old) (parts_made e.n e.was)
        → HasRightList new key.file (parts (records_of new) key.file) }
{}

/// What an edit of one record leaves of files, beside attributes: what base records tell (`numbers`), and the names of all files, where no
/// name is edited (`names`). Headers come rightly where each that comes is that of an attribute that goes, or is made anew (`forms`).
pub fn edited_files()
    ensures numbers { (key : Key) (old new : VolumeView) (before after : Marks) → EditsPart key old new before after → (f : ℕ)
        → numbers_at (records_of new) f ≡ numbers_at (records_of old) f }
    ensures names { (key : Key) (old new : VolumeView) (before after : Marks) → EditsPart key old new before after
        → key.kind ≢ FILE_NAME → (f : ℕ) → KeepsNames (records_of old) (records_of new) f }
    ensures forms { (key : Key) (old new : VolumeView) (before after : Marks) → (e : EditsPart key old new before after)
        → ((a : Attribute) → Contains e.now a → begins a ≡ true
        → Contains (map form_of (filter begins e.was)) (form_of a) ⊎ IsNewForm (form_of a)) → (f : ℕ) → ComeRightly old new f }
{}

/// A sound volume whose contents are told, and which stands as between two calls, is ready for an edit.
pub fn ready_volume()
    ensures { (disk : ℕ → List ℕ) (boot : List ℕ) (layout : TableLayout) (marks : Marks) → MeetsTable disk boot layout
        → ((n : ℕ) → length (disk n) ≤ 512) → IsSound (told_view disk layout) → IsEditable (told_view disk layout) marks
        → IsReady (told_view disk layout) marks }
{}
