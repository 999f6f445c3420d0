//! Laws with nothing to run: what a volume is where an entry of a directory was refreshed.
ghost use Rattle.std.specs.Prelude.{◌≡◌, ◌≢◌, ◌<◌, ℕ, List, [], ◌∷◌, bit_and};
ghost use Rattle.ntfs_def.specs.declared.records.TheConstants.{VOLUME};
ghost use Rattle.volume_def.specs.Sound.{Clause, Holds, Indexes, IsSound, rank_of};
ghost use Rattle.volume_def.specs.View.{VolumeView};
ghost use Rattle.volume_edits.specs.Owners.{HasTablePart};
ghost use Rattle.dir_index.specs.Reading.{read};
ghost use Rattle.dir_index.specs.tree.TheConstants.{SHOWN_FLAGS};
ghost use Rattle.volume_mark.specs.Items.{ChangesItems, IsCurrent, KeepsItems};
ghost use Rattle.volume_mark.specs.EditDefKept.{KeepsBut};
ghost use Rattle.volume_mark.specs.Indexes.{KeepsRest};
ghost use Rattle.dir_index.specs.Refreshed.{RefreshesEntry};
ghost use Rattle.entry_edits.specs.Refreshable.{IsRefreshable, is_refreshed_key};
ghost use Rattle.entry_edits.specs.Told.{IsToldOf};

use dir_index::DuplicatedInformation;

/// The volume definition where an entry was refreshed. Each clause that held holds still: those that do not speak of indexes
/// (`beside`), that on indexes (`indexes`), and so a sound volume is sound (`sound`), on which an entry can be refreshed (`can`).
pub fn refreshed_clauses()
    ensures beside { (old new : VolumeView) (dir : ℕ) (units : List ℕ) (told : DuplicatedInformation)
        → RefreshesEntry old new dir units told → IsRefreshable old dir → (clause : Clause) → rank_of clause ≢ rank_of Indexes
        → Holds old clause → Holds new clause }
    ensures indexes { (old new : VolumeView) (dir : ℕ) (units : List ℕ) (told : DuplicatedInformation)
        → RefreshesEntry old new dir units told → IsRefreshable old dir → Holds old Indexes → Holds new Indexes }
    ensures sound { (old new : VolumeView) (dir : ℕ) (units : List ℕ) (told : DuplicatedInformation)
        → RefreshesEntry old new dir units told → IsRefreshable old dir → IsSound old → IsSound new }
    ensures can { (view : VolumeView) (dir : ℕ) → IsSound view → HasTablePart view → 0 < view.layout.cluster_sectors → dir ≢ VOLUME
        → IsRefreshable view dir }
{}

/// The directory has the item that tells the facts anew in the place of the one of the same name, and all other items as they were
/// (`items`); every other directory has the items that it had (`others`). All attributes are kept but two of the directory's index, and
/// the data of the table of records and of its mirror (`kept`), and the volume reads as before (`read`).
pub fn refreshed_items()
    ensures items { (old new : VolumeView) (dir : ℕ) (units : List ℕ) (told : DuplicatedInformation)
        → (r : RefreshesEntry old new dir units told) → IsRefreshable old dir → ChangesItems old new dir (r.was ∷ []) (r.now ∷ []) }
    ensures others { (old new : VolumeView) (dir : ℕ) (units : List ℕ) (told : DuplicatedInformation)
        → RefreshesEntry old new dir units told → IsRefreshable old dir → (g : ℕ) → g ≢ dir → KeepsItems old new g }
    ensures kept { (old new : VolumeView) (dir : ℕ) (units : List ℕ) (told : DuplicatedInformation)
        → RefreshesEntry old new dir units told → IsRefreshable old dir → KeepsBut (is_refreshed_key dir) old new }
    ensures read { (old new : VolumeView) (dir : ℕ) (units : List ℕ) (told : DuplicatedInformation)
        → RefreshesEntry old new dir units told → IsRefreshable old dir → read new ≡ read old }
{}

/// The key of the entry tells what its file does, where that is what was told (`current`), and keeps what the tree does not show, where
/// only flags were told that are shown (`rests`). An entry of any directory that told what its file does tells it still (`stays`).
pub fn refreshed_keys()
    ensures current { (old new : VolumeView) (dir : ℕ) (units : List ℕ) (told : DuplicatedInformation)
        → (r : RefreshesEntry old new dir units told) → IsRefreshable old dir → (f : ℕ) → IsToldOf old f told → IsCurrent new f r.now.key }
    ensures stays { (old new : VolumeView) (dir : ℕ) (units : List ℕ) (told : DuplicatedInformation)
        → RefreshesEntry old new dir units told → IsRefreshable old dir → (f : ℕ) (key : List ℕ) → IsCurrent old f key
        → IsCurrent new f key }
    ensures rests { (old new : VolumeView) (dir : ℕ) (units : List ℕ) (told : DuplicatedInformation)
        → (r : RefreshesEntry old new dir units told) → bit_and told.flags SHOWN_FLAGS ≡ told.flags → (f : ℕ)
        → KeepsRest new f r.was.key r.now.key }
{}
