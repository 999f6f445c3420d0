//! Laws of values rewritten in place, with nothing to run: one rewrite after another, and what is kept of records and of the volume.
ghost use Rattle.std.specs.Prelude.{◌≡◌, ◌≤◌, ℕ, Bool, List, Option, false, is_some, length};
ghost use Rattle.ntfs_def.specs.declared.kinds.TheConstants.{FILE_NAME};
ghost use Rattle.volume_def.specs.Files.{parts_at, record_on, records_of};
ghost use Rattle.volume_def.specs.Room.{unowned_clusters};
ghost use Rattle.volume_def.specs.Sound.{IsSound, told_view};
ghost use Rattle.volume_def.specs.Table.{MeetsTable, TableLayout};
ghost use Rattle.volume_def.specs.Values.{spot_at};
ghost use Rattle.volume_def.specs.View.{VolumeView};
ghost use Rattle.session_def.specs.Account.{Keeps, Wants};
ghost use Rattle.session_def.specs.Edited.{Edited, is_bare, is_table_key};
ghost use Rattle.session_def.specs.Forms.{KeepsForms};
ghost use Rattle.session_def.specs.EditDefKept.{KeepsBut, Key, either, key_of};
ghost use Rattle.session_def.specs.Marks.{AreRight, IsEditable, Marks};
ghost use Rattle.session_def.specs.Names.{HasRightBases, KeepsNames, numbers_at};
ghost use Rattle.session_def.specs.Places.{StaysInPlace};
ghost use Rattle.session_def.specs.Purses.{in_use, room_of};
ghost use Rattle.in_place.specs.Blank.{blanked};
ghost use Rattle.in_place.specs.InPlace.{Rewrites};
ghost use Rattle.in_place.specs.Unnamed.{LiesApart, NamesNoKind};
ghost use Rattle.record_edits.specs.InPlace.{NamesNoRoom};

/// Where nothing was written no value was rewritten, whatever is named (`same`). Two rewrites one after the other are one, which names
/// what either names (`both`). One that names less names more (`more`).
pub fn rewrites_in_turn()
    ensures same { (changed : Key → Bool) (view : VolumeView) → Rewrites changed view view }
    ensures both { (a b : Key → Bool) (old mid new : VolumeView) → Rewrites a old mid → Rewrites b mid new → Rewrites (either a b) old new }
    ensures more { (a b : Key → Bool) (old new : VolumeView) → ((key : Key) → b key ≡ false → a key ≡ false) → Rewrites a old new
        → Rewrites b old new }
{}

/// What records say after a rewrite: all that they said, but for the bytes of values (`records`). So each stream lies where it lay
/// (`spots`), and an attribute that is not named has the same parts (`others`).
pub fn rewritten_records()
    ensures records { (changed : Key → Bool) (old new : VolumeView) → Rewrites changed old new
        → blanked (records_of new) ≡ blanked (records_of old) }
    ensures spots { (changed : Key → Bool) (old new : VolumeView) → Rewrites changed old new → (f kind : ℕ) (name : List ℕ) (vcn : ℕ)
        → spot_at (parts_at new f kind name) vcn ≡ spot_at (parts_at old f kind name) vcn }
    ensures others { (changed : Key → Bool) (old new : VolumeView) → Rewrites changed old new → (f kind : ℕ) (name : List ℕ)
        → changed (key_of f kind name) ≡ false → parts_at new f kind name ≡ parts_at old f kind name }
{}

/// Which records are in use (`used`), and which of these hold no attribute (`bare`), what base records tell (`numbers`), their references
/// (`bases`), and the names of a file of which no name is named (`names`) are as they were.
pub fn rewritten_files()
    ensures used { (changed : Key → Bool) (old new : VolumeView) → Rewrites changed old new → (n : ℕ)
        → is_some (record_on new n) ≡ is_some (record_on old n) }
    ensures bare { (changed : Key → Bool) (old new : VolumeView) → Rewrites changed old new → (n : ℕ)
        → is_bare (record_on new n) ≡ is_bare (record_on old n) }
    ensures numbers { (changed : Key → Bool) (old new : VolumeView) → Rewrites changed old new → (f : ℕ)
        → numbers_at (records_of new) f ≡ numbers_at (records_of old) f }
    ensures bases { (changed : Key → Bool) (old new : VolumeView) → Rewrites changed old new → HasRightBases (records_of old)
        → HasRightBases (records_of new) }
    ensures names { (changed : Key → Bool) (old new : VolumeView) → Rewrites changed old new → (f : ℕ) → NamesNoKind changed f FILE_NAME
        → KeepsNames (records_of old) (records_of new) f }
{}

/// Room is the same (`room`), so any bill is kept, one of nothing too (`spent`). As many clusters have no owner (`owners`), and as many
/// records are in use (`in_use_is`). The bits in memory are right still (`bits`).
pub fn rewritten_room()
    ensures room { (changed : Key → Bool) (old new : VolumeView) → Rewrites changed old new → room_of new ≡ room_of old }
    ensures spent { (changed : Key → Bool) (old new : VolumeView) → Rewrites changed old new → (wants : Wants)
        → Keeps (room_of old) (room_of new) wants }
    ensures owners { (changed : Key → Bool) (old new : VolumeView) → Rewrites changed old new
        → unowned_clusters new ≡ unowned_clusters old }
    ensures in_use_is { (changed : Key → Bool) (old new : VolumeView) → Rewrites changed old new
        → in_use (records_of new) ≡ in_use (records_of old) }
    ensures bits { (changed : Key → Bool) (old new : VolumeView) → Rewrites changed old new → (marks : Marks) → AreRight old marks
        → AreRight new marks }
{}

/// Headers of attributes stay, of named ones too (`forms`). Where no cluster has two owners, all attributes but the named ones, the table
/// of records and its mirror keep what they tell, their places and their clusters (`kept`); and what every edit may write stays in its
/// place, where none of it is named (`places`).
pub fn rewritten_attributes()
    ensures forms { (changed : Key → Bool) (old new : VolumeView) → Rewrites changed old new → (named : Key → Bool) (f : ℕ)
        → KeepsForms named old new f }
    ensures kept { (changed : Key → Bool) (old new : VolumeView) → Rewrites changed old new → LiesApart old
        → KeepsBut (either is_table_key changed) old new }
    ensures places { (changed : Key → Bool) (old new : VolumeView) → Rewrites changed old new → LiesApart old → NamesNoRoom changed
        → StaysInPlace old new }
{}

/// A rewrite that leaves the volume sound keeps the promise of a call, whatever its bill has (`edited`). A sound volume with the right
/// bits in memory stands as between two calls (`editable`).
pub fn rewrite_is_edit()
    ensures edited { (changed : Key → Bool) (wants : Wants) (old new : VolumeView) (marks : Marks) → Rewrites changed old new
        → LiesApart old → NamesNoRoom changed → AreRight old marks → IsSound new → Edited changed wants old new marks marks }
    ensures editable { (view : VolumeView) (marks : Marks) → IsSound view → AreRight view marks → IsEditable view marks }
{}

/// Where no cluster has two owners none has after a rewrite (`still`). On a sound volume whose contents are told none has (`sound`).
pub fn clusters_apart()
    ensures still { (changed : Key → Bool) (old new : VolumeView) → Rewrites changed old new → LiesApart old → LiesApart new }
    ensures sound { (disk : ℕ → List ℕ) (boot : List ℕ) (layout : TableLayout) → MeetsTable disk boot layout
        → ((n : ℕ) → length (disk n) ≤ 512) → IsSound (told_view disk layout) → LiesApart (told_view disk layout) }
{}
