//! Laws with nothing to run: the mark and the emptied log.
ghost use Rattle.std.specs.Prelude.{◌≡◌, ◌*◌, ◌/◌, ◌≤◌, List, ℕ, Some, length};
ghost use Rattle.vol_disk.specs.Contents.{sector_in};
ghost use Rattle.volume_def.specs.Sound.{IsSound, told_view};
ghost use Rattle.volume_def.specs.View.{VolumeView};
ghost use Rattle.tree_model.specs.Facts.{IsVolumeOf};
ghost use Rattle.session_def.specs.Done.{HasEmptyLog};
ghost use Rattle.session_def.specs.Room.{KeepsLogEnd};
ghost use Rattle.in_place.specs.Behind.{MarksBehind};
ghost use Rattle.session_def.specs.FirstMark.{IsMarkedFrom, is_first_key};
ghost use Rattle.mark_write.specs.Flags.{IsCopySet, IsSet, cleared_sector};
ghost use Rattle.mark_write.specs.Logs.{IsEmptied, IsOutside};
ghost use Rattle.mark_write.specs.declared.log.Span.{Span};
ghost use Rattle.mark_place.specs.LogSpans.{AreLogSpans};
ghost use Rattle.mark_write.specs.declared.flag.Flag.{Flag};
ghost use Rattle.volume_mark.specs.Mark.{IsFlagOf};
ghost use Rattle.in_place.specs.InPlace.{Rewrites};
ghost use Rattle.in_place.specs.Unnamed.{LiesApart};
ghost use Rattle.first_mark.specs.Written.{DiffersByMark};

/// Bytes that differ from those of a sound volume in the bit of its mark and in its log alone are the volume in which the value of the
/// flag and the clusters of the log were rewritten, and nothing else (`rewrites`). Where the bit is set and the log is empty, that is all
/// that the first edit of a run does beside its own (`marked`). Of records and copies it writes those of the flag alone, so where the log
/// stays behind what is emptied it is what may come behind an edit (`behind`). So is what a call wrote that finishes such an edit, by the
/// spans of the log (`finished`).
pub fn first_mark_laws()
    ensures rewrites { (view : VolumeView) (flag : Flag) (staged written : List ℕ) → IsVolumeOf staged view → IsSound view
        → IsFlagOf view flag → DiffersByMark view flag staged written
        → Rewrites is_first_key view (told_view (sector_in (Some written)) view.layout) }
    ensures marked { (view : VolumeView) (flag : Flag) (staged written : List ℕ) → IsVolumeOf staged view → IsSound view
        → IsFlagOf view flag → LiesApart view → DiffersByMark view flag staged written → IsSet flag (sector_in (Some written))
        → HasEmptyLog (told_view (sector_in (Some written)) view.layout)
        → IsMarkedFrom view (told_view (sector_in (Some written)) view.layout) }
    ensures behind { (view : VolumeView) (flag : Flag) (staged written : List ℕ) → IsVolumeOf staged view → IsSound view
        → IsFlagOf view flag → LiesApart view → DiffersByMark view flag staged written → IsSet flag (sector_in (Some written))
        → HasEmptyLog (told_view (sector_in (Some written)) view.layout)
        → KeepsLogEnd view (told_view (sector_in (Some written)) view.layout)
        → MarksBehind view (told_view (sector_in (Some written)) view.layout) }
    ensures finished { (view : VolumeView) (flag : Flag) (spans : List Span) (staged written : List ℕ) → IsVolumeOf staged view
        → IsSound view → IsFlagOf view flag → LiesApart view
        → view.layout.clusters * view.layout.cluster_sectors ≤ length staged / 512 → AreLogSpans view spans
        → length written ≡ length staged
        → ((n : ℕ) → IsOutside spans n
        → cleared_sector flag (sector_in (Some written)) n ≡ cleared_sector flag (sector_in (Some staged)) n)
        → IsSet flag (sector_in (Some written)) → IsCopySet flag (sector_in (Some written)) → IsEmptied spans (sector_in (Some written))
        → MarksBehind view (told_view (sector_in (Some written)) view.layout) }
{}
