//! Laws with nothing to run: what an edit of one value leaves, and what the mark and the log are to a volume.
ghost use Rattle.std.specs.Prelude.{◌≡◌, ◌≤◌, ◌/◌, ◌%◌, ℕ, List, [], Some, length, slice_index};
ghost use Rattle.std.specs.FinMap as finmap;
ghost use Rattle.vol_disk.specs.Contents.{sector_in};
ghost use Rattle.ntfs_def.specs.Attribute.{Attribute};
ghost use Rattle.ntfs_def.specs.Fixup.{opened_of};
ghost use Rattle.ntfs_def.specs.declared.kinds.TheConstants.{STANDARD_INFORMATION};
ghost use Rattle.volume_def.specs.Coverage.{IsApart};
ghost use Rattle.volume_def.specs.Files.{file_of, part_of, record_of};
ghost use Rattle.volume_def.specs.Sound.{IsSound, told_view};
ghost use Rattle.volume_def.specs.Table.{MeetsTable, TableLayout};
ghost use Rattle.volume_def.specs.View.{VolumeView};
ghost use Rattle.tree_model.specs.Facts.{IsVolumeOf};
ghost use Rattle.tree_model.specs.Reading.{node_at, read, tree_nodes};
ghost use Rattle.session_def.specs.State.{dirty_flag};
ghost use Rattle.tree_model.specs.Tree.{Tree};
ghost use Rattle.tree_model.specs.declared.tree.Node.{Node};
ghost use Rattle.mark_write.specs.Flags.{ClearsTo, IsCopySet, IsSafe, IsSet, LiesAt, cleared_sector};
ghost use Rattle.mark_write.specs.Logs.{IsOutside};
ghost use Rattle.mark_write.specs.declared.flag.Flag.{Flag};
ghost use Rattle.mark_write.specs.declared.log.Span.{Span};
ghost use Rattle.volume_mark.specs.Mark.{ClosesAs, IsFlagOf, IsHarmed};
ghost use Rattle.volume_mark.specs.SameVolume.{AgreesButMark, IsOfLog, MarkLaw};
ghost use Rattle.volume_mark.specs.Standard.{with_standard};
ghost use Rattle.volume_mark.specs.Written.{LooksOutside, WritesValue};

/// On a sound volume whose contents are told the table and its mirror lie apart (`apart`), and whatever a clause or the
/// reading looks at beside them (`outside`).
pub fn apart_laws()
    ensures apart { (disk : ℕ → List ℕ) (boot : List ℕ) (layout : TableLayout) → MeetsTable disk boot layout
        → ((n : ℕ) → length (disk n) ≤ 512) → IsSound (told_view disk layout) → IsApart layout }
    ensures outside { (disk : ℕ → List ℕ) (boot : List ℕ) (layout : TableLayout) → MeetsTable disk boot layout
        → ((n : ℕ) → length (disk n) ≤ 512) → IsSound (told_view disk layout) → LooksOutside (told_view disk layout) }
{}

/// A volume of which a record was written with another value of one attribute, of which no clause asks more than its length,
/// stays sound (`sound`). Where it is the unnamed standard information of a file that is shown, the file's times, flags and
/// security id are those of the new value, and nothing else of what the volume reads as changed (`reads`).
pub fn written_laws()
    ensures sound { (old new : VolumeView) (n : ℕ) (stored : List ℕ) (was now : Attribute) → WritesValue old new n stored was now
        → LooksOutside old → IsSound old → IsSound new }
    ensures reads { (old new : VolumeView) (n : ℕ) (stored : List ℕ) (was now : Attribute) → (w : WritesValue old new n stored was now)
        → LooksOutside old → IsSound old → (part_of n was).kind ≡ STANDARD_INFORMATION → (part_of n was).name ≡ [] → (node : Node)
        → node_at old (file_of n (record_of n (opened_of (old.block n)))) ≡ Some node
        → read new ≡ record (read old) {
          nodes = finmap.insert (tree_nodes old) (file_of n (record_of n (opened_of (old.block n)))) (with_standard w.rewrites.next node);
        } }
{}

/// Bytes that differ from those of a sound volume in the bit of its mark and in its log alone are the same volume (`same`);
/// with the bit cleared, which there always are (`cleared`), they are accepted and read as it (`closes`). What a call leaves that
/// fails, and that kept to what is safe, is marked, or whole (`harmed`). What an edit wrote agrees so with what it staged (`written`).
pub fn mark_laws()
    ensures same { (view : VolumeView) (flag : Flag) (bytes : List ℕ) → IsVolumeOf bytes view → IsSound view → IsFlagOf view flag
        → MarkLaw view flag bytes }
    ensures closes { (view : VolumeView) (flag : Flag) (tree : Tree) (bytes : List ℕ) → IsVolumeOf bytes view → IsSound view
        → IsFlagOf view flag → read view ≡ tree → ClosesAs flag tree bytes }
    ensures harmed { (first : VolumeView) (flag : Flag) (tree : Tree) (old new : List ℕ) → IsFlagOf first flag
        → ClosesAs flag tree old → length new ≡ length old → IsSafe flag (sector_in (Some old)) (sector_in (Some new))
        → IsHarmed first tree (Some new) }
    ensures written { (view : VolumeView) (flag : Flag) (spans : List Span) (staged written : List ℕ) → length written ≡ length staged
        → ((n : ℕ) → ¬ (IsOfLog view n) → IsOutside spans n)
        → ((n : ℕ) → IsOutside spans n
        → cleared_sector flag (sector_in (Some written)) n ≡ cleared_sector flag (sector_in (Some staged)) n)
        → IsSet flag (sector_in (Some written)) → IsCopySet flag (sector_in (Some written)) → AgreesButMark view flag staged written }
    ensures cleared { (flag : Flag) (bytes : List ℕ) → (cleared : List ℕ) × ClearsTo flag bytes cleared }
{}

/// The mark of a sound volume says whether it is dirty (`tells`), lies in two sectors of its disk (`lies`), and where it is set it is
/// set in both (`copied`).
pub fn flag_laws()
    ensures tells { (view : VolumeView) (flag : Flag) (bytes : List ℕ) → IsVolumeOf bytes view → IsSound view → IsFlagOf view flag
        → dirty_flag view ≡ Some (slice_index (sector_in (Some bytes) flag.home) flag.at % 2) }
    ensures lies { (view : VolumeView) (flag : Flag) (bytes : List ℕ) → IsVolumeOf bytes view → IsSound view → IsFlagOf view flag
        → LiesAt (length bytes / 512) flag }
    ensures copied { (view : VolumeView) (flag : Flag) (bytes : List ℕ) → IsVolumeOf bytes view → IsSound view → IsFlagOf view flag
        → IsSet flag (sector_in (Some bytes)) → IsCopySet flag (sector_in (Some bytes)) }
{}
