//! A stream that is to be edited, found in a file that is held: what both ways of an edit share.
ghost use Rattle.std.specs.Prelude.{◌≡◌, ◌<◌, IfOk, IfSome, None, Some, length, slice_set};
ghost use Rattle.volume_def.specs.View.{VolumeView};
ghost use Rattle.sparse_io.specs.Held.{IsStream};
ghost use Rattle.tree_model.specs.Cases.{is_bad_stream_name};
ghost use Rattle.tree_model.specs.Reading.{read};
ghost use Rattle.tree_model.specs.Subjects.{content_named};
ghost use Rattle.tree_model.specs.Tree.{node_of};
ghost use Rattle.file_room.specs.Nodes.{IsCaseOf, IsNodeHeld, number_of, parts_in};
ghost use Rattle.tree_edit.specs.Writable.{FindsToWrite, GivesBack, is_bad_stream_unit, kept_from_writing, stream_to_write};

use file_record::BaseFile;
use file_room::{is_of_directory, read_standard};
use share_table::Opens;
use sparse_io::{FoundStream, find_stream, look_at_names};
use std::alloc::Global;
use tree_model::{Access, No};
use upcase::UpCase;
use vol_bytes::Name;

// What `write` does with a file, and what others may do with it meanwhile.
const TO_WRITE: Access = Access {
    r: false,
    w: true,
    d: false,
};

const ALL_ACCESS: Access = Access {
    r: true,
    w: true,
    d: true,
};

// The units that the name of a stream has at most.
const LONGEST_NAME: usize = 255;

/// How a stream is edited.
#[derive(Clone, Copy, PartialEq, Eq, Debug)]
pub enum Way {
    /// Bytes go over bytes where they lie.
    InPlace,
    /// In the record of its file, as a value that may get another length or go.
    InRecord,
    /// In clusters of its own, which are given back where it loses them.
    InClusters,
    /// Out of the record of its file, a value that moves into clusters.
    IntoClusters,
}

/// A stream that is to be edited, with what its file shows of itself.
#[derive(Drop)]
pub struct Writable {
    /// The file, loaded.
    pub held: BaseFile,
    pub stream: FoundStream,
    pub way: Way,
    /// The four times of the file, in the order of `$STANDARD_INFORMATION`.
    pub times: [u64; 4],
    /// Its DOS flags that are shown.
    pub flags: u16,
}

impl Writable {
    /// The times of the file once its bytes are changed at this moment.
    pub fn times_at(&self, moment: u64) -> [u64; 4]
        ensures { result ≡ slice_set (slice_set self.now.times 1 moment) 2 moment }
    {
        let mut times = self.times;
        times[1] = moment;
        times[2] = moment;
        times
    }
}

// Whether no stream can have this unit in its name.
fn is_bad_unit(unit: u16) -> bool
    ensures { result ≡ is_bad_stream_unit unit }
{
    unit == 0 || unit == u16::from(b'/') || unit == u16::from(b':') || unit == u16::from(b'\\')
}

// Whether no stream can be made of this name.
fn is_bad_stream_name(name: &[u16]) -> bool
    ensures { result ≡ is_bad_stream_name name.now }
{
    if name.len() > LONGEST_NAME {
        return true;
    }
    'units: for unit in name {
        if is_bad_unit(*unit) {
            return true;
        }
    }
    false
}

// The stream of a name that is missing: a write would make it, where it may have this name.
fn missing(held: &BaseFile, name: &Name) -> Result<Option<FoundStream>, No>
    ensures found { (view : VolumeView) → IsNodeHeld view held.now
        → content_named (read view) name.now (node_of (read view) (number_of held.now)) ≡ None
        → FindsToWrite (stream_to_write (read view) name.now (node_of (read view) (number_of held.now))) view held.now name.now result }
    ensures none { IfOk result (λ found. found ≡ None) }
{
    if is_bad_stream_name(name.as_slice()) {
        return Err(No::BadName);
    }
    if is_of_directory(held, name) {
        return Err(No::IsDir);
    }
    Ok(None)
}

// A stream that was found by its name: one of a file, or a named one of a directory, that is not packed.
fn plain(held: &BaseFile, name: &Name, found: FoundStream) -> Result<Option<FoundStream>, No>
    ensures found { (view : VolumeView) → IsNodeHeld view held.now → IsStream view held.now.parts name.now found
        → FindsToWrite (stream_to_write (read view) name.now (node_of (read view) (number_of held.now))) view held.now name.now result }
    ensures same { IfOk result (λ stream. stream ≡ Some found) }
{
    if is_of_directory(held, name) {
        return Err(No::IsDir);
    }
    if found.packed {
        return Err(No::Packed);
    }
    Ok(Some(found))
}

/// The stream of a name that is to be written, none where it would be made.
pub fn stream_to_write(
    alloc: Global,
    held: &BaseFile,
    upcase: &UpCase,
    name: &Name,
) -> Result<Option<FoundStream>, No>
    ensures found { (view : VolumeView) → IsNodeHeld view held.now → IsCaseOf view upcase.now
        → FindsToWrite (stream_to_write (read view) name.now (node_of (read view) (number_of held.now))) view held.now name.now result }
    ensures place { IfOk result (λ found. IfSome found (λ stream. stream.part < length (parts_in held.now))) }
{
    match find_stream(alloc, &held.parts, upcase, name) {
        Ok(None) => missing(held, name),
        Ok(Some(found)) => plain(held, name, found),
        Err(_) => Err(No::Memory),
    }
}

/// Why a file is not written: an open of it that does not share writing.
pub fn kept_from_writing(opens: &Opens, file: u64) -> Option<No>
    ensures { result ≡ kept_from_writing opens.now file }
{
    match opens.conflict(file, TO_WRITE, ALL_ACCESS) {
        Some((session, handle)) => Some(No::Shared { session, handle }),
        None => None,
    }
}

/// The stream that was found in a file that is held, to be edited this way, with the file's times and flags.
pub fn given(held: BaseFile, stream: FoundStream, way: Way) -> Writable
    ensures { GivesBack result held stream way }
{
    look_at_names(&held.parts);
    let standard = read_standard(&held.parts);
    let times = standard.times;
    Writable {
        held,
        stream,
        way,
        times,
        flags: standard.flags,
    }
}
