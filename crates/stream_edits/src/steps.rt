//! What a stream shows after each step of an edit.
ghost use Rattle.std.specs.Prelude.{◌≡◌, ℕ, ◌+◌, ◌-◌, ◌*◌, ◌/◌, ◌<◌, ◌≤◌, List, [], IsTrue, false, length, map, max, replicate};
ghost use Rattle.std.specs.Prelude.{slice_index};
ghost use Rattle.std.specs.List.{range_with_len};
ghost use Rattle.ntfs_def.specs.Flags.{is_packed};
ghost use Rattle.volume_def.specs.Values.{spot_at, value_on};
ghost use Rattle.volume_def.specs.View.{VolumeView};
ghost use Rattle.volume_edits.specs.Clusters.{WritesStream};
ghost use Rattle.edit_def.specs.Kept.{Key};
ghost use Rattle.tree_model.specs.Streams.{punched, resized, written};
ghost use Rattle.stream_edits.specs.Steps.{Cuts, Empties, Gains, IsApart, Patches, Places, PunchesRange, Raises, WritesRange};
ghost use Rattle.stream_edits.specs.Steps.{emptied_byte, punched_byte, written_byte};
ghost use Rattle.stream_edits.specs.Streams.{ClusterStream, HasStream, HasValue, ShowsBytes, Shows, ShowsList, byte_in, extents_at};

/// What a stream shows after a step. Clusters of zeros in its holes change nothing (`placed`); where its sizes rise it shows zeros behind
/// its old end (`raised`); bytes that are put stand in it (`patched`); clusters that go show zeros (`emptied`), and so does
/// a range that is punched (`punched`); a stream that is cut shows the same up to its end (`cut`).
pub fn shown_steps()
    ensures placed { (old new : ClusterStream) (from to : ℕ) (byte : ℕ → ℕ) (n : ℕ) → Places old new from to → Shows old byte n
        → Shows new byte n }
    ensures raised { (old new : ClusterStream) (byte : ℕ → ℕ) (n m : ℕ) → Raises old new → new.real ≡ m
        → ((i : ℕ) → n ≤ i → byte i ≡ 0) → Shows old byte n → Shows new byte m }
    ensures patched { (old new : ClusterStream) (at : ℕ) (bytes : List ℕ) (byte : ℕ → ℕ) (n : ℕ) → Patches old new at bytes
        → Shows old byte n → Shows new (written_byte byte at bytes) n }
    ensures emptied { (old new : ClusterStream) (from to : ℕ) (byte : ℕ → ℕ) (n : ℕ) → Empties old new from to → Shows old byte n
        → Shows new (emptied_byte byte old.size from to) n }
    ensures punched { (old new : ClusterStream) (from to : ℕ) (byte : ℕ → ℕ) (n : ℕ) → PunchesRange old new from to → Shows old byte n
        → Shows new (punched_byte byte from to) n }
    ensures cut { (old new : ClusterStream) (n m : ℕ) (byte : ℕ → ℕ) → Cuts old new m → Shows old byte n → Shows new byte m }
{}

/// Clusters that are placed in several steps are placed in one: none at all (`none`), one step after another (`turn`), and each in a range
/// within the whole (`wider`).
pub fn placed_in_turn()
    ensures none { (s : ClusterStream) (from to : ℕ) → Places s s from to }
    ensures turn { (a b c : ClusterStream) (from to : ℕ) → Places a b from to → Places b c from to → Places a c from to }
    ensures wider { (s t : ClusterStream) (from to low high : ℕ) → low ≤ from → to ≤ high → Places s t from to → Places s t low high }
{}

/// A write shows what the command says (`shown`), and gains clusters in its range alone (`gains`); then the range is below the initialized
/// size (`initialized`).
pub fn shown_write()
    ensures shown { (old new : ClusterStream) (at from to : ℕ) (bytes : List ℕ) (byte : ℕ → ℕ) (n : ℕ)
        → WritesRange old new at bytes from to → ((i : ℕ) → n ≤ i → byte i ≡ 0) → Shows old byte n
        → Shows new (written_byte byte at bytes) (max n (at + length bytes)) }
    ensures gains { (old new : ClusterStream) (at from to : ℕ) (bytes : List ℕ) → WritesRange old new at bytes from to
        → Gains old new from to }
    ensures initialized { (old new : ClusterStream) (at from to : ℕ) (bytes : List ℕ) → WritesRange old new at bytes from to
        → at + length bytes ≤ new.initialized }
{}

/// Each write (`write`) and each punch (`punch`) can be met, wherever its range lies, whatever stands behind the initialized size, and
/// whichever clusters the stream has; no bytes are put by no step (`none`).
pub fn met_edits()
    ensures write { (s : ClusterStream) (owner : ℕ → ℕ) (limit at to : ℕ) (bytes : List ℕ) → IsApart s owner limit
        → at + length bytes ≤ to * s.size → (t : ClusterStream) × WritesRange s t at bytes (at / s.size) to }
    ensures punch { (s : ClusterStream) (owner : ℕ → ℕ) (limit from to : ℕ) → IsApart s owner limit → from ≤ to
        → (t : ClusterStream) × PunchesRange s t from to }
    ensures none { (s : ClusterStream) (at : ℕ) → Patches s s at [] }
{}

/// Zeros that are put in front of zeros, as those of a hole, and behind them are put over all of it.
pub fn zeros_around()
    ensures { (s t u : ClusterStream) (at before tail behind : ℕ) → Patches s t at (replicate before 0)
        → Patches t u tail (replicate behind 0) → at + before ≤ tail
        → ((i : ℕ) → at ≤ i → i < tail + behind → i < s.initialized)
        → ((i : ℕ) → at + before ≤ i → i < tail → byte_in s i ≡ 0) → Patches s u at (replicate (tail + behind - at) 0) }
{}

/// What a stream shows is its value (`bytes`), and it shows its value (`shows`). Where it is not packed the attribute holds what it shows
/// (`stream`), and one that has a value holds that (`value`).
pub fn shown_value()
    ensures bytes { (view : VolumeView) (key : Key) (flags : ℕ) (s : ClusterStream) (byte : ℕ → ℕ) (n : ℕ) → HasStream view key flags s
        → Shows s byte n → value_on view (extents_at view key) ≡ map byte (range_with_len 0 n) }
    ensures shows { (view : VolumeView) (key : Key) (flags : ℕ) (s : ClusterStream) → HasStream view key flags s
        → ShowsList s (value_on view (extents_at view key)) }
    ensures stream { (view : VolumeView) (key : Key) (flags : ℕ) (s : ClusterStream) (value : List ℕ) → HasStream view key flags s
        → ShowsList s value → is_packed key.kind flags ≡ false → ShowsBytes view key value }
    ensures value { (view : VolumeView) (key : Key) (flags : ℕ) (value : List ℕ) → HasValue view key flags value
        → is_packed key.kind flags ≡ false → ShowsBytes view key value }
{}

/// What a stream shows after the edit of a command is what the machine makes of what it showed: written, cut at its new end (`cut`) or
/// filled with zeros up to it (`raised`), or punched. Where its clusters are placed alone it shows the same (`placed`).
pub fn shown_lists()
    ensures placed { (s t : ClusterStream) (value : List ℕ) (from to : ℕ) → Places s t from to → ShowsList s value → ShowsList t value }
    ensures written { (s t : ClusterStream) (value bytes : List ℕ) (at from to : ℕ) → WritesRange s t at bytes from to
        → ShowsList s value → ShowsList t (written at bytes value) }
    ensures cut { (s t : ClusterStream) (value : List ℕ) (size : ℕ) → Cuts s t size → ShowsList s value
        → ShowsList t (resized size value) }
    ensures raised { (s t : ClusterStream) (value : List ℕ) → Raises s t → ShowsList s value → ShowsList t (resized t.real value) }
    ensures punched { (s t : ClusterStream) (value : List ℕ) (from len : ℕ) → PunchesRange s t from (from + len) → ShowsList s value
        → ShowsList t (punched from len value) }
{}

/// Bytes that are written into the clusters of a stream, below its initialized size, are put into it.
pub fn stream_in_place()
    ensures { (old new : VolumeView) (key : Key) (flags : ℕ) (s : ClusterStream) (at : ℕ) (bytes : List ℕ) → HasStream old key flags s
        → WritesStream old new (spot_at (extents_at old key)) at bytes → IsTrue old.told → at + length bytes ≤ s.initialized
        → (t : ClusterStream) × HasStream new key flags t × Patches s t at bytes }
{}

/// The bytes that a stream shows are those that the machine makes of what it showed: written, cut or filled with zeros, or punched.
pub fn machine_bytes()
    ensures written { (old bytes : List ℕ) (at : ℕ)
        → map (written_byte (slice_index old) at bytes) (range_with_len 0 (max (length old) (at + length bytes))) ≡ written at bytes old }
    ensures resized { (old : List ℕ) (size : ℕ) → map (slice_index old) (range_with_len 0 size) ≡ resized size old }
    ensures punched { (old : List ℕ) (from len : ℕ)
        → map (punched_byte (slice_index old) from (from + len)) (range_with_len 0 (length old)) ≡ punched from len old }
{}
