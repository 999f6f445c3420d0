//! Records that came to a file, and went, and files that were made.
ghost use Rattle.std.specs.Prelude.{◌≡◌, ◌<◌, ◌≤◌, ℕ, Bool, IsTrue, List, None, length};
ghost use Rattle.ntfs_def.specs.Fixup.{opened_of};
ghost use Rattle.ntfs_def.specs.Record.{Reference};
ghost use Rattle.ntfs_def.specs.declared.records.TheConstants.{FIRST_ORDINARY};
ghost use Rattle.volume_def.specs.Files.{record_of, record_on, records_of};
ghost use Rattle.volume_def.specs.Readable.{IsFile};
ghost use Rattle.volume_def.specs.ReferencesClause.{NamesBase};
ghost use Rattle.volume_def.specs.View.{VolumeView};
ghost use Rattle.file_record.specs.MountedType.{Mounted};
ghost use Rattle.file_record.specs.Changes.{with_record_given, with_record_taken};
ghost use Rattle.file_record.specs.FreeRecords.{FreesBlock, IsOrdinaryFree};
ghost use Rattle.edit_def.specs.Account.{Wants};
ghost use Rattle.edit_def.specs.Marks.{AreRight, Marks};
ghost use Rattle.file_record.specs.Extensions.{ComesEmpty, CreatesBase, IsBareExtension, reference_of};
ghost use Rattle.file_edits.specs.Files.{CostsFile, MakesFile};
ghost use Rattle.file_edits.specs.Steps.{FreesExtension, TakesExtension};
ghost use Rattle.record_calls.specs.Marks.{marks_of};

/// A record whose flag is free, where the flags are right, is one of the table (`inside`), and not in use (`unused`).
pub fn free_found()
    ensures inside { (view : VolumeView) (marks : Marks) (n : ℕ) → AreRight view marks → IsOrdinaryFree marks.records n
        → n < view.layout.count }
    ensures unused { (view : VolumeView) (marks : Marks) (n : ℕ) → AreRight view marks → IsOrdinaryFree marks.records n
        → record_on view n ≡ None }
{}

/// The reference to the base record of a file names it (`reference_of`, which a record that comes has).
pub fn base_named()
    ensures { (view : VolumeView) (f : ℕ) → IsFile view f → NamesBase (records_of view) (reference_of view f) }
{}

/// A record without attributes that came to a file in a free record, under a reference to the file's base record, with its flag taken, is a
/// step by which a record comes (`taken`); one that went, with its flag given back, one by which a record goes (`freed`).
pub fn extension_steps()
    ensures taken { (f : ℕ) (old new : VolumeView) (was now : Mounted) (n : ℕ) (base : Reference) → IsTrue old.told
        → ComesEmpty old new n base → now ≡ with_record_taken was n → IsOrdinaryFree was.records n → n < old.layout.count
        → record_on old n ≡ None → NamesBase (records_of old) base → base.number ≡ f
        → TakesExtension f old new (marks_of was) (marks_of now) }
    ensures freed { (f : ℕ) (old new : VolumeView) (was now : Mounted) (n : ℕ) → IsTrue old.told → FreesBlock old new n
        → IsBareExtension old f n → now ≡ with_record_given was n → FIRST_ORDINARY ≤ n → n < length was.records
        → FreesExtension f old new (marks_of was) (marks_of now) }
{}

/// A base record that was made in a free record, with a `$STANDARD_INFORMATION` of 72 bytes alone and its flag taken, is a file that comes
/// (`made`). It costs a record and a part (`costs`).
pub fn file_made()
    ensures made { (old new : VolumeView) (was now : Mounted) (n : ℕ) (dir : Bool) (standard : List ℕ) → IsTrue old.told
        → CreatesBase old new n dir standard → length standard ≡ 72 → now ≡ with_record_taken was n → IsOrdinaryFree was.records n
        → n < old.layout.count → record_on old n ≡ None → MakesFile n old new (marks_of was) (marks_of now) }
    ensures costs { (old new : VolumeView) (before after : Marks) (n : ℕ) (dir : Bool) (standard : List ℕ) (wants : Wants)
        → CreatesBase old new n dir standard → (t : MakesFile n old new before after) → 1 ≤ wants.parts n → 1 ≤ wants.records
        → CostsFile n (record_of n (opened_of t.stored)).parts wants }
{}
