//! What a command owes whose edit is a rewrite, with nothing to run.
ghost use Rattle.std.specs.Prelude.{◌≡◌, ◌<◌, ◌≤◌, ℕ, Bool, List, None, Some, [], codes, false, true};
ghost use Rattle.ntfs_def.specs.declared.kinds.TheConstants.{ATTRIBUTE_LIST, DATA, FILE_NAME};
ghost use Rattle.ntfs_def.specs.declared.records.TheConstants.{LOG_FILE};
ghost use Rattle.ntfs_def.specs.Units.{wide};
ghost use Rattle.volume_def.specs.Files.{Record, file_of, record_on, records_of};
ghost use Rattle.volume_def.specs.Readable.{IsReadableVolume};
ghost use Rattle.volume_def.specs.StreamSize.{told_size};
ghost use Rattle.volume_def.specs.Table.{cluster_bytes};
ghost use Rattle.volume_def.specs.Values.{first_part, spot_at};
ghost use Rattle.volume_def.specs.View.{VolumeView};
ghost use Rattle.session_def.specs.IndexRoom.{object_id_index, point_index};
ghost use Rattle.session_def.specs.StreamRoom.{is_cluster};
ghost use Rattle.session_def.specs.Subjects.{Located};
ghost use Rattle.session_def.specs.Command.{Command};
ghost use Rattle.session_def.specs.Link.{Link};
ghost use Rattle.session_def.specs.Forms.{ComeRightly};
ghost use Rattle.session_def.specs.EditDefKept.{Key, key_of};
ghost use Rattle.session_def.specs.ListOrder.{KeepsListOrder};
ghost use Rattle.session_def.specs.Names.{HasRightBases, Numbers, numbers_at};
ghost use Rattle.session_def.specs.Unused.{KeepsUnused};
ghost use Rattle.session_def.specs.Done.{GainsRightly, may_own, stream_in};
ghost use Rattle.session_def.specs.Kept.{KeepsKeys, KeepsNamesBut};
ghost use Rattle.session_def.specs.Room.{KeepsBlocks, KeepsCopies, KeepsLogEnd, is_written_file};
ghost use Rattle.session_def.specs.State.{State};
ghost use Rattle.in_place.specs.InPlace.{Rewrites};
ghost use Rattle.in_place.specs.Unnamed.{LiesApart, NamesNoIndex, NamesNoKind, NamesNoneOf};

/// A rewrite writes no record of a file of which no attribute is named (`blocks`), nor one that is not in use (`unused`), nor
/// a copy of such a record (`copies`).
pub fn records_owed()
    ensures blocks { (changed : Key → Bool) (old new : VolumeView) → Rewrites changed old new → (files : ℕ → Bool)
        → ((f : ℕ) → is_written_file files f ≡ false → NamesNoneOf changed f) → KeepsBlocks files old new }
    ensures unused { (changed : Key → Bool) (old new : VolumeView) → Rewrites changed old new → KeepsUnused old new }
    ensures copies { (changed : Key → Bool) (old new : VolumeView) → Rewrites changed old new → 4 ≤ old.layout.count
        → ((n : ℕ) (r : Record) → n < 4 → record_on old n ≡ Some r → NamesNoneOf changed (file_of n r)) → KeepsCopies old new }
{}

/// Headers come rightly, since none comes (`made_forms`). Lists stay in order where none is named (`lists`), and so does the log
/// (`log_end`).
pub fn attributes_owed()
    ensures made_forms { (changed : Key → Bool) (old new : VolumeView) → Rewrites changed old new → (f : ℕ) → ComeRightly old new f }
    ensures lists { (changed : Key → Bool) (old new : VolumeView) → Rewrites changed old new → LiesApart old → (f : ℕ)
        → NamesNoKind changed f ATTRIBUTE_LIST → KeepsListOrder old new f }
    ensures log_end { (changed : Key → Bool) (old new : VolumeView) → Rewrites changed old new → LiesApart old
        → changed (key_of LOG_FILE DATA []) ≡ false → KeepsLogEnd old new }
{}

/// No stream gains a cluster. So what the named stream owns remains to be shown alone.
pub fn gains_owed()
    ensures { (changed : Key → Bool) (before next : State) (command : Command) (at : Located) → Rewrites changed before.view next.view
        → ((vcn : ℕ) → is_cluster (spot_at (stream_in next.view before.machine.tree at) vcn) ≡ true
        → may_own (cluster_bytes next.view.layout) command (told_size (first_part (stream_in next.view before.machine.tree at))) vcn ≡ true)
        → GainsRightly before next command at }
{}

/// Sequence numbers stay (`sequence`), and so do names where none is named (`names`), and the keys of `$R` (`points`) and of `$O`
/// (`object_ids`) where neither names nor indexes of these names are.
pub fn names_owed()
    ensures sequence { (changed : Key → Bool) (old new : VolumeView) → Rewrites changed old new → (f : ℕ) (was now : Numbers)
        → numbers_at (records_of old) f ≡ Some was → numbers_at (records_of new) f ≡ Some now → now.sequence ≡ was.sequence }
    ensures names { (changed : Key → Bool) (old new : VolumeView) → Rewrites changed old new → (gone : List Link) (f : ℕ)
        → NamesNoKind changed f FILE_NAME → KeepsNamesBut gone old new f }
    ensures points { (changed : Key → Bool) (old new : VolumeView) → Rewrites changed old new → LiesApart old
        → HasRightBases (records_of old)
        → IsReadableVolume old → IsReadableVolume new → ((f : ℕ) → NamesNoKind changed f FILE_NAME)
        → NamesNoIndex changed (wide (codes "$R")) → KeepsKeys old (point_index old) new (point_index new) [] None }
    ensures object_ids { (changed : Key → Bool) (old new : VolumeView) → Rewrites changed old new → LiesApart old
        → HasRightBases (records_of old)
        → IsReadableVolume old → IsReadableVolume new → ((f : ℕ) → NamesNoKind changed f FILE_NAME)
        → NamesNoIndex changed (wide (codes "$O")) → KeepsKeys old (object_id_index old) new (object_id_index new) [] None }
{}

/// What comes behind a rewrite, as the first mark of a run does, and keeps of the volume as that left it the records of files that are not
/// changed (`blocks`), copies (`copies`), or the log as far as it is not emptied (`log_end`): both together keep them.
pub fn owed_behind()
    ensures blocks { (changed : Key → Bool) (old mid new : VolumeView) → Rewrites changed old mid → (files : ℕ → Bool)
        → ((f : ℕ) → is_written_file files f ≡ false → NamesNoneOf changed f) → KeepsBlocks files mid new → KeepsBlocks files old new }
    ensures copies { (changed : Key → Bool) (old mid new : VolumeView) → Rewrites changed old mid → 4 ≤ old.layout.count
        → ((n : ℕ) (r : Record) → n < 4 → record_on old n ≡ Some r → NamesNoneOf changed (file_of n r)) → KeepsCopies mid new
        → KeepsCopies old new }
    ensures log_end { (changed : Key → Bool) (old mid new : VolumeView) → Rewrites changed old mid → LiesApart old
        → changed (key_of LOG_FILE DATA []) ≡ false → KeepsLogEnd mid new → KeepsLogEnd old new }
{}
