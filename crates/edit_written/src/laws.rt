//! Laws with nothing to run: the bytes of an edit, staged and written.
ghost use Rattle.std.specs.Prelude.{◌≡◌, ℕ, Bool, List, Some, [], false, length};
ghost use Rattle.vol_disk.specs.Contents.{sector_in};
ghost use Rattle.ntfs_def.specs.declared.kinds.TheConstants.{DATA};
ghost use Rattle.ntfs_def.specs.declared.records.TheConstants.{BOOT, LOG_FILE, MFT, VOLUME};
ghost use Rattle.volume_def.specs.Sound.{IsSound, told_view};
ghost use Rattle.volume_def.specs.View.{VolumeView};
ghost use Rattle.mft_table.specs.HeldTables.{AreStored};
ghost use Rattle.tree_model.specs.Facts.{IsVolumeOf};
ghost use Rattle.edit_def.specs.Kept.{Key, key_of};
ghost use Rattle.mark_write.specs.declared.flag.Flag.{Flag};
ghost use Rattle.mark_write.specs.declared.log.Span.{Span};
ghost use Rattle.volume_mark.specs.Mark.{IsFlagOf};
ghost use Rattle.volume_mark.specs.SameVolume.{AgreesButMark};
ghost use Rattle.value_owed.specs.Behind.{MarksBehind};
ghost use Rattle.value_owed.specs.InPlace.{Rewrites};
ghost use Rattle.value_owed.specs.Unnamed.{LiesApart, NamesNoneOf};
ghost use Rattle.value_owed.specs.Below.{EditsAlone};
ghost use Rattle.edit_written.specs.Finished.{IsFinished, IsPlaceOf};
ghost use Rattle.edit_written.specs.LeavesAlone.{LeavesAlone};

/// What tells where a volume lies, its flag and its log are left alone: by a rewrite of values that names none of them (`rewritten`), by
/// the edit of one stream alone (`stream_edited`), and by two such edits, one after the other (`both`).
pub fn left_alone()
    ensures rewritten { (changed : Key → Bool) (old new : VolumeView) → Rewrites changed old new → IsSound old → LiesApart old
        → NamesNoneOf changed MFT → NamesNoneOf changed VOLUME → changed (key_of BOOT DATA []) ≡ false
        → changed (key_of LOG_FILE DATA []) ≡ false → LeavesAlone old new }
    ensures both { (old mid new : VolumeView) → LeavesAlone old mid → LeavesAlone mid new → LeavesAlone old new }
    ensures stream_edited { (key : Key) (gains : ℕ → Bool) (old new : VolumeView) → IsSound old → LiesApart old
        → EditsAlone key gains old new → LeavesAlone old new }
{}

/// Bytes as long as those of a sound volume, of which an edit leaves alone what tells where it lies, are the volume that they tell with its
/// layout (`volume`), and its flag lies where it lay (`flag`).
pub fn staged_laws()
    ensures volume { (old : VolumeView) (before staged : List ℕ) → IsVolumeOf before old → IsSound old → length staged ≡ length before
        → LeavesAlone old (told_view (sector_in (Some staged)) old.layout)
        → IsVolumeOf staged (told_view (sector_in (Some staged)) old.layout) }
    ensures flag { (old new : VolumeView) (flag : Flag) → LeavesAlone old new → IsFlagOf old flag → IsFlagOf new flag }
{}

/// What was written of such an edit is what was staged, but for the mark and the log (`agrees`), and what comes behind an edit: the first
/// mark, or nothing (`behind`). The bits and the table of case that are stored are those that were staged (`stored`).
pub fn written_laws()
    ensures agrees { (old new : VolumeView) (before staged written : List ℕ) (flag : Flag) (marked : Bool) (spans : List Span)
        → LeavesAlone old new → IsVolumeOf staged new → IsSound new → IsPlaceOf old before flag marked spans
        → IsFinished flag marked spans staged written → AgreesButMark new flag staged written }
    ensures behind { (old new : VolumeView) (before staged written : List ℕ) (flag : Flag) (marked : Bool) (spans : List Span)
        → IsVolumeOf before old → IsSound old → LeavesAlone old new → IsVolumeOf staged new → IsSound new
        → IsPlaceOf old before flag marked spans → IsFinished flag marked spans staged written
        → MarksBehind new (told_view (sector_in (Some written)) new.layout) }
    ensures stored { (new next : VolumeView) (clusters records : List Bool) (upcase : List ℕ) → MarksBehind new next
        → AreStored new clusters records upcase → AreStored next clusters records upcase }
{}
