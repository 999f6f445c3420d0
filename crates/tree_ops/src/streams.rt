//! Edits of a stream, by the path of its file or by a handle: bytes written into it, zeros, another length, or that it goes.
ghost use Rattle.std.specs.Prelude.{◌≡◌, ◌≤◌, ◌<◌, ◌+◌, ◌*◌, ◌/◌, ◌^◌, ℕ, All, List, None, IfErr, IfOk, IfSome, IsSome, IsTrue};
ghost use Rattle.std.specs.Prelude.{MatchResult, OnErr, OnOk, false, length};
ghost use Rattle.vol_disk.specs.Contents.{WhereTold};
ghost use Rattle.vol_stage.specs.Staged.{GoesOn, disk_of, image};
ghost use Rattle.mft_table.specs.InUse.{IsInUse};
ghost use Rattle.mft_table.specs.Mft.{faults_of, is_mft_broken, mounted_of, stage_of, view};
ghost use Rattle.mft_table.specs.MirrorClusters.{IsMirrorInside};
ghost use Rattle.file_record.specs.FileNos.{CountsNo, IsReadNo};
ghost use Rattle.stream_changes.specs.Given.{KeepsDevice};
ghost use Rattle.tree_model.specs.Facts.{IsVolumeOf};
ghost use Rattle.tree_model.specs.Reading.{read};
ghost use Rattle.tree_model.specs.Tree.{node_of};
ghost use Rattle.tree_read.specs.Answered.{Answered, Counts, IsFailed, with_ok};
ghost use Rattle.tree_read.specs.Nodes.{number_of, parts_in};
ghost use Rattle.tree_read.specs.Standings.{IsStanding};
ghost use Rattle.stream_changes.specs.Below.{TellsStored};
ghost use Rattle.tree_ops.specs.Edits.{CanEdit, EditsFound, EditsSo, EndsAs, IsClear, IsFoundFor, IsNear, MftStill, StagesSo};
ghost use Rattle.tree_ops.specs.Edits.{hwrite_edit, stream_edit, stream_wanted};
ghost use Rattle.tree_ops.specs.declared.streams.StreamEdit.TheVariants as s;

use crate::edit::finish;
use crate::place::mark_place;
use file_record::FileNo;
use mark_write::Flag;
use mft_table::Mft;
use share_table::Opens;
use std::alloc::Global;
use stream_changes::{
    Writable, find_punchable, find_to_drop, find_to_resize, find_writable, find_writable_through,
    punch_value, remove_stream, resize_stream, write_stream,
};
use tree_model::{Access, No, Path};
use tree_read::{Standing, Stop};
use vol_bytes::{Name, Octets};
use vol_disk::Disk;

// What `hwrite` does with a file.
const TO_WRITE: Access = Access {
    r: false,
    w: true,
    d: false,
};

/// What is done with a stream.
#[derive(Clone, Copy)]
pub enum StreamEdit<'c> {
    /// Bytes are written into it, from one on.
    Write { from: u64, bytes: &'c Octets },
    /// Zeros go over its bytes from one on, as far as so many lie below its size.
    Punch { from: u64, len: u64 },
    /// It gets so many bytes.
    Resize { size: u64 },
    /// It goes.
    Remove,
}

// The stream of the file that a path leads to, where it can be edited so.
fn find_stream<D: Disk>(
    alloc: Global,
    mft: &mut Mft<'_, D>,
    last: &mut Option<Standing>,
    opens: &Opens,
    path: &Path,
    name: &Name,
    what: StreamEdit<'_>,
) -> Result<Writable, Stop>
    requires volume { IsInUse D.Disk mft.old }
    requires image { WhereTold (image D.Disk (stage_of D.Disk mft.old)) (λ bytes. IsVolumeOf bytes (view D.Disk mft.old)) }
    requires last { IsTrue (view D.Disk mft.old).told → IfSome last.old (IsStanding (view D.Disk mft.old)) }
    ensures answered { Answered D.Disk mft.old mft.new (λ volume. stream_wanted what.entry volume opens.now path.now name.now)
        (with_ok (λ found. number_of found.held) result) }
    ensures can { IfOk result (λ found. IsTrue (view D.Disk mft.old).told → IsFoundFor what.entry (view D.Disk mft.old) found name.now) }
    ensures near { IfOk result (λ found. IsNear what.entry) }
    ensures part { IfOk result (λ found. found.stream.part < length (parts_in found.held)) }
    ensures inside { IfOk result (λ found. number_of found.held < length (mounted_of D.Disk mft.old).records) }
    ensures last { IsTrue (view D.Disk mft.old).told → IfSome last.new (IsStanding (view D.Disk mft.old)) }
{
    match what {
        StreamEdit::Write { from, bytes } => {
            let len = bytes.as_slice().len();
            find_writable(alloc, mft, last, opens, path, name, from, len)
        }
        StreamEdit::Punch { from, len } => {
            find_punchable(alloc, mft, last, opens, path, name, from, len)
        }
        StreamEdit::Resize { size } => find_to_resize(alloc, mft, last, opens, path, name, size),
        StreamEdit::Remove => find_to_drop(alloc, mft, last, opens, path, name),
    }
}

// Does it with the stream that was found, and then sets the four times of its file, which shows the flags that it had. All of it is staged.
fn put_stream<D: Disk>(
    alloc: Global,
    mft: &mut Mft<'_, D>,
    found: &Writable,
    times: &[u64; 4],
    what: StreamEdit<'_>,
) -> Result<(), FileNo>
    requires volume { IsInUse D.Disk mft.old }
    requires mirror { IsMirrorInside (mounted_of D.Disk mft.old) }
    requires sound { is_mft_broken D.Disk mft.old ≡ false }
    requires inside { number_of found.now.held < length (mounted_of D.Disk mft.old).records }
    requires near { IsNear what }
    requires part { found.now.stream.part < length (parts_in found.now.held) }
    requires can { IsTrue (view D.Disk mft.old).told → (name : List ℕ) × IsFoundFor what (view D.Disk mft.old) found.now name }
    ensures edits { OnOk result (IsTrue (view D.Disk mft.old).told → (name : List ℕ)
        → (can : IsFoundFor what.entry (view D.Disk mft.old) found.now name)
        → EditsSo what.entry found.now.way (view D.Disk mft.old) (view D.Disk mft.new) (number_of found.now.held) can.stream.is.part.name
        can.stream.bytes times.now found.now.flags) }
    ensures places { OnOk result (IsTrue (view D.Disk mft.old).told → StagesSo D.Disk what.entry (number_of found.now.held) mft.old
        mft.new) }
    ensures tables { OnOk result (TellsStored D.Disk mft.new) }
    ensures device { KeepsDevice D.Disk mft.old mft.new }
    ensures err { IfErr result IsReadNo }
    ensures faults { MatchResult result (λ _. faults_of D.Disk mft.new ≡ faults_of D.Disk mft.old)
        (CountsNo (faults_of D.Disk mft.old) (faults_of D.Disk mft.new)) }
{
    let stream = &found.stream;
    let number = found.held.parts.number();
    match what {
        StreamEdit::Write { from, bytes } => {
            write_stream(alloc, mft, found, from, bytes.as_slice(), times)
        }
        StreamEdit::Punch { from, len } => {
            punch_value(alloc, mft, stream, number, times, found.flags, from, len)
        }
        StreamEdit::Resize { size } => resize_stream(alloc, mft, found, size, times),
        StreamEdit::Remove => remove_stream(alloc, mft, found, times),
    }
}

// Stages the edit of the stream that was found, and the moment as the time at which its file was modified, and its record changed. Where it
// fails nothing is staged.
fn stage_stream<D: Disk>(
    alloc: Global,
    mft: &mut Mft<'_, D>,
    found: &Writable,
    moment: u64,
    what: StreamEdit<'_>,
) -> Result<(), Stop>
    requires volume { IsInUse D.Disk mft.old }
    requires mirror { IsMirrorInside (mounted_of D.Disk mft.old) }
    requires clear { IsClear D.Disk mft.old }
    requires inside { number_of found.now.held < length (mounted_of D.Disk mft.old).records }
    requires near { IsNear what }
    requires part { found.now.stream.part < length (parts_in found.now.held) }
    requires can { IsTrue (view D.Disk mft.old).told → (name : List ℕ) × IsFoundFor what (view D.Disk mft.old) found.now name }
    ensures edits { OnOk result (IsTrue (view D.Disk mft.old).told → (name : List ℕ)
        → IsFoundFor what.entry (view D.Disk mft.old) found.now name
        → EditsFound what.entry (view D.Disk mft.old) (view D.Disk mft.new) (number_of found.now.held) name moment) }
    ensures places { OnOk result (IsTrue (view D.Disk mft.old).told → StagesSo D.Disk what.entry (number_of found.now.held) mft.old
        mft.new) }
    ensures tables { OnOk result (TellsStored D.Disk mft.new) }
    ensures device { OnOk result (KeepsDevice D.Disk mft.old mft.new) }
    ensures still { OnErr result (MftStill D.Disk mft.old mft.new) }
    ensures counts { Counts result (faults_of D.Disk mft.old) (faults_of D.Disk mft.new) }
    ensures failed { IfErr result IsFailed }
{
    let touched = found.times_at(moment);
    match put_stream(alloc, mft, found, &touched, what) {
        Ok(()) => Ok(()),
        Err(no) => {
            mft.discard();
            Err(Stop::from(no))
        }
    }
}

/// Edits a stream of the file that a path leads to, and writes the moment as the time at which that file was modified, and
/// its record changed: all that is read is read first, then what changes is staged, and then the volume is marked, where it is not, its log
/// is emptied, and what is staged is written. `mark` is where the mark lies once an edit was done, and `last` the directory in which the
/// last path ended.
///
/// # Errors
///
/// The refusal that is due, and `Memory`: nothing is staged then, and nothing was written. `Device` where the disk failed.
pub fn edit_stream<D: Disk>(
    alloc: Global,
    mft: &mut Mft<'_, D>,
    last: &mut Option<Standing>,
    mark: &mut Option<Flag>,
    opens: &Opens,
    moment: u64,
    path: &Path,
    name: &Name,
    what: StreamEdit<'_>,
) -> Result<(), Stop>
    requires can { CanEdit D.Disk mft.old mark.old }
    requires last { IsTrue (view D.Disk mft.old).told → IfSome last.old (IsStanding (view D.Disk mft.old)) }
    ensures ends { EndsAs D.Disk mft.old mft.new mark.old mark.new (stream_edit what.entry opens.now path.now name.now moment) result }
    ensures last { OnErr result (IsTrue (view D.Disk mft.old).told → IfSome last.new (IsStanding (view D.Disk mft.old))) }
    ensures forgets { OnOk result (last.new ≡ None) }
    ensures goes_on { GoesOn D.Disk (stage_of D.Disk mft.old) (stage_of D.Disk mft.new) }
    ensures settled { D.settled (disk_of D.Disk (stage_of D.Disk mft.new)) ≡ D.settled (disk_of D.Disk (stage_of D.Disk mft.old)) }
    ensures counts { Counts result (faults_of D.Disk mft.old) (faults_of D.Disk mft.new) }
{
    let found = find_stream(alloc, mft, last, opens, path, name, what)?;
    let place = mark_place(alloc, mft, *mark)?;
    stage_stream(alloc, mft, &found, moment, what)?;
    finish(mft, last, mark, &place)
}

/// Writes bytes into the stream of a handle, from byte `from` on, as `edit_stream` does.
/// Condition: the files of all opens are there.
///
/// # Errors
///
/// `NoHandle`, where the session has none that may write, the refusal that is due, and `Memory`: nothing is staged then, and nothing was
/// written. `Device` where the disk failed.
pub fn hwrite<D: Disk>(
    alloc: Global,
    mft: &mut Mft<'_, D>,
    last: &mut Option<Standing>,
    mark: &mut Option<Flag>,
    opens: &Opens,
    moment: u64,
    session: u8,
    handle: u32,
    from: u64,
    bytes: &Octets,
) -> Result<(), Stop>
    requires can { CanEdit D.Disk mft.old mark.old }
    requires last { IsTrue (view D.Disk mft.old).told → IfSome last.old (IsStanding (view D.Disk mft.old)) }
    requires files { IsTrue (view D.Disk mft.old).told
        → All (λ entry. IsSome (node_of (read (view D.Disk mft.old)) entry.file)) opens.now }
    ensures ends { EndsAs D.Disk mft.old mft.new mark.old mark.new
        (hwrite_edit (s.Write from bytes.entry) opens.now session handle moment) result }
    ensures last { OnErr result (IsTrue (view D.Disk mft.old).told → IfSome last.new (IsStanding (view D.Disk mft.old))) }
    ensures forgets { OnOk result (last.new ≡ None) }
    ensures goes_on { GoesOn D.Disk (stage_of D.Disk mft.old) (stage_of D.Disk mft.new) }
    ensures settled { D.settled (disk_of D.Disk (stage_of D.Disk mft.new)) ≡ D.settled (disk_of D.Disk (stage_of D.Disk mft.old)) }
    ensures counts { Counts result (faults_of D.Disk mft.old) (faults_of D.Disk mft.new) }
{
    let Some(entry) = opens.through(session, handle, TO_WRITE) else {
        return Err(Stop::No(No::NoHandle));
    };
    let found = find_writable_through(alloc, mft, entry, from, bytes.as_slice().len())?;
    let place = mark_place(alloc, mft, *mark)?;
    stage_stream(
        alloc,
        mft,
        &found,
        moment,
        StreamEdit::Write { from, bytes },
    )?;
    finish(mft, last, mark, &place)
}
