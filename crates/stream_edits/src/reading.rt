//! What a reading shows of a file of which one stream was edited.
ghost use Rattle.std.specs.Prelude.{◌≡◌, ◌≢◌, ℕ, Bool, List, Some, None, false, option_map};
ghost use Rattle.ntfs_def.specs.Units.{units_in};
ghost use Rattle.ntfs_def.specs.declared.kinds.TheConstants.{DATA};
ghost use Rattle.ntfs_def.specs.declared.records.TheConstants.{UPCASE};
ghost use Rattle.volume_def.specs.CaseClause.{volume_fold};
ghost use Rattle.volume_def.specs.Files.{parts, records_of};
ghost use Rattle.volume_def.specs.Readable.{IsReadableVolume};
ghost use Rattle.volume_def.specs.View.{VolumeView};
ghost use Rattle.tree_model.specs.Hidden.{is_hidden};
ghost use Rattle.tree_model.specs.Reading.{node_at, streams_of};
ghost use Rattle.tree_model.specs.Streams.{dropped, put_bytes, with_bytes, without_stream};
ghost use Rattle.tree_model.specs.Tree.{sought_stream};
ghost use Rattle.tree_model.specs.declared.tree.Stream.{Stream};
ghost use Rattle.edit_def.specs.Account.{Wants};
ghost use Rattle.edit_def.specs.Edited.{Edited, is_room_file, is_room_key};
ghost use Rattle.edit_def.specs.Kept.{AreTellable, Key, either, key_of, same_key, told_of};
ghost use Rattle.edit_def.specs.Marks.{Marks};
ghost use Rattle.edit_def.specs.Names.{HasRightBases, numbers_at};
ghost use Rattle.stream_edits.specs.Names.{EditsStream, IsUnseenButStreams};
ghost use Rattle.stream_edits.specs.Streams.{ShowsBytes, IsMissing, IsThere};

/// A call, or calls in turn, that name one stream, of a file in whose streams no room is kept and which is not the table of case, edit one
/// stream (`edits`), and of what the tree shows of the file nothing else (`unseen`).
pub fn stream_call()
    ensures edits { (f : ℕ) (name : List ℕ) → is_room_file f ≡ false → (changed : Key → Bool)
        → ((key : Key) → same_key (key_of f DATA name) key ≡ false → changed key ≡ false)
        → (wants : Wants) (old new : VolumeView) (was now : Marks) → Edited changed wants old new was now → IsReadableVolume old
        → HasRightBases (records_of old) → AreTellable (told_of old f) → f ≢ UPCASE
        → EditsStream (either is_room_key (same_key (key_of f DATA name))) old new f name }
    ensures unseen { (f : ℕ) (name : List ℕ) → is_room_file f ≡ false
        → IsUnseenButStreams (either is_room_key (same_key (key_of f DATA name))) f }
{}

/// The streams of a file of which one was edited, as the machine makes them: it has the bytes that it holds (`put`), or is made in its
/// place
/// (`made`), or is gone (`gone`), and all others are as they were. `asked` is the name that it is asked for by, in whichever case.
pub fn streams_read()
    ensures put { (changed : Key → Bool) (old new : VolumeView) (f : ℕ) (name : List ℕ) → EditsStream changed old new f name
        → (stream : Stream) (asked bytes : List ℕ) → stream.name ≡ units_in name → IsThere old (key_of f DATA name)
        → ShowsBytes new (key_of f DATA name) bytes → streams_of new (parts (records_of new) f)
        ≡ put_bytes (volume_fold old) asked bytes (streams_of old (parts (records_of old) f)) (Some stream) }
    ensures made { (changed : Key → Bool) (old new : VolumeView) (f : ℕ) (name : List ℕ) → EditsStream changed old new f name
        → (bytes : List ℕ) → sought_stream (volume_fold old) (streams_of old (parts (records_of old) f)) (units_in name) ≡ None
        → ShowsBytes new (key_of f DATA name) bytes → streams_of new (parts (records_of new) f)
        ≡ put_bytes (volume_fold old) (units_in name) bytes (streams_of old (parts (records_of old) f)) None }
    ensures gone { (changed : Key → Bool) (old new : VolumeView) (f : ℕ) (name : List ℕ) → EditsStream changed old new f name
        → (stream : Stream) → stream.name ≡ units_in name → IsThere old (key_of f DATA name) → IsMissing new (key_of f DATA name)
        → streams_of new (parts (records_of new) f) ≡ dropped (streams_of old (parts (records_of old) f)) (Some stream) }
{}

/// So does the file: it is the node that it was, but for the stream that is sought by the name `asked`, which the machine writes (`put`),
/// makes (`made`) or drops (`gone`).
pub fn node_read()
    ensures put { (changed : Key → Bool) (old new : VolumeView) (f : ℕ) (name : List ℕ) → EditsStream changed old new f name
        → IsUnseenButStreams changed f → numbers_at (records_of new) f ≡ numbers_at (records_of old) f
        → is_hidden (records_of new) f ≡ is_hidden (records_of old) f → (stream : Stream) (asked bytes : List ℕ)
        → sought_stream (volume_fold old) (streams_of old (parts (records_of old) f)) asked ≡ Some stream → stream.name ≡ units_in name
        → IsThere old (key_of f DATA name) → ShowsBytes new (key_of f DATA name) bytes
        → node_at new f ≡ option_map (with_bytes (volume_fold old) asked bytes) (node_at old f) }
    ensures made { (changed : Key → Bool) (old new : VolumeView) (f : ℕ) (name : List ℕ) → EditsStream changed old new f name
        → IsUnseenButStreams changed f → numbers_at (records_of new) f ≡ numbers_at (records_of old) f
        → is_hidden (records_of new) f ≡ is_hidden (records_of old) f → (bytes : List ℕ)
        → sought_stream (volume_fold old) (streams_of old (parts (records_of old) f)) (units_in name) ≡ None
        → ShowsBytes new (key_of f DATA name) bytes
        → node_at new f ≡ option_map (with_bytes (volume_fold old) (units_in name) bytes) (node_at old f) }
    ensures gone { (changed : Key → Bool) (old new : VolumeView) (f : ℕ) (name : List ℕ) → EditsStream changed old new f name
        → IsUnseenButStreams changed f → numbers_at (records_of new) f ≡ numbers_at (records_of old) f
        → is_hidden (records_of new) f ≡ is_hidden (records_of old) f → (stream : Stream) (asked : List ℕ)
        → sought_stream (volume_fold old) (streams_of old (parts (records_of old) f)) asked ≡ Some stream → stream.name ≡ units_in name
        → IsThere old (key_of f DATA name) → IsMissing new (key_of f DATA name)
        → node_at new f ≡ option_map (without_stream (volume_fold old) asked) (node_at old f) }
{}
