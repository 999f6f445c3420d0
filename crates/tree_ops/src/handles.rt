//! What commands do with the opens of sessions.
ghost use Rattle.std.specs.Prelude.{◌≡◌, All, IfSome, IsSome, IsTrue, OnErr, OnOk, filter, not};
ghost use Rattle.list_laws.specs.Ordered.{put_in_order};
ghost use Rattle.mft_table.specs.InUse.{IsInUse};
ghost use Rattle.mft_table.specs.Mft.{view};
ghost use Rattle.share_table.specs.Adding.{MayAdd, opened};
ghost use Rattle.tree_model.specs.Opens.{is_handle, open_above};
ghost use Rattle.tree_model.specs.Reading.{read};
ghost use Rattle.tree_model.specs.Shown.{Tells};
ghost use Rattle.tree_model.specs.Subjects.{stream_name};
ghost use Rattle.tree_model.specs.Tree.{node_of};
ghost use Rattle.tree_read.specs.Answered.{Answered};
ghost use Rattle.tree_read.specs.Standings.{IsStanding};
ghost use Rattle.tree_ops.specs.Wanted.{IsOpened, as_stop, close_wanted, hread_wanted, open_of, open_wanted};

use crate::built::Opening;
use mft_table::Mft;
use share_table::{Opens, ShareNo};
use std::alloc::Global;
use tree_model::{Access, Answer, No};
use tree_read::{Standing, Stop, find_plain, name_or, read_through};
use vol_bytes::Name;
use vol_disk::Disk;

// What `hread` does with a file.
const TO_READ: Access = Access {
    r: true,
    w: false,
    d: false,
};

// Adds an open of a file whose stream may be opened.
fn add_open(
    opens: &mut Opens,
    session: u8,
    file: u64,
    name: &Name,
    opening: Opening<'_>,
) -> Result<Answer, No>
    ensures tells { Tells (open_of opens.old session opening.entry.access opening.entry.share file) result }
    ensures may { OnOk result (MayAdd opens.old session file opening.entry.access opening.entry.share) }
    ensures added { OnOk result (opens.new
        ≡ put_in_order open_above (opened opens.old session file name.now opening.entry.access opening.entry.share) opens.old) }
    ensures kept { OnErr result (opens.new ≡ opens.old) }
{
    match opens.add(session, file, name, opening.access, opening.share) {
        Ok(handle) => Ok(Answer::Handle(handle)),
        Err(ShareNo::TooManyHandles) => Err(No::TooManyHandles),
        Err(ShareNo::Shared { session, handle }) => Err(No::Shared { session, handle }),
        // An open that is added needs no handle.
        Err(ShareNo::NoHandle) | Err(ShareNo::Memory) => Err(No::Memory),
    }
}

/// `open`: a handle of the stream. `last` is the directory in which the last path ended, before the call and behind it.
///
/// # Errors
///
/// The refusal of the first component that is bad, `IsDir`, `NoStream`, `Packed`, `TooManyHandles` and `Shared`; `Memory` and
/// `Device`. Nothing is opened then.
pub fn open<D: Disk>(
    alloc: Global,
    mft: &mut Mft<'_, D>,
    last: &mut Option<Standing>,
    opens: &mut Opens,
    session: u8,
    opening: Opening<'_>,
) -> Result<Answer, Stop>
    requires volume { IsInUse D.Disk mft.old }
    requires last { IsTrue (view D.Disk mft.old).told → IfSome last.old (IsStanding (view D.Disk mft.old)) }
    ensures answered { Answered D.Disk mft.old mft.new (λ volume. open_wanted (read volume) opens.old session opening.entry.path.now
        (stream_name opening.entry.stream.now) opening.entry.access opening.entry.share) result }
    ensures last { IsTrue (view D.Disk mft.old).told → IfSome last.new (IsStanding (view D.Disk mft.old)) }
    ensures opened { OnOk result (IsOpened (view D.Disk mft.old) opens.old session opening.entry opens.new) }
    ensures kept { OnErr result (opens.new ≡ opens.old) }
{
    let unnamed = Name::from_vec(Vec::new(alloc));
    let name = name_or(opening.stream, &unnamed);
    let file = find_plain(alloc, mft, last, opening.path, name)?;
    Ok(add_open(opens, session, file, name, opening)?)
}

/// `hread`: bytes of a range of the stream of a handle.
/// Condition: the files of all opens are there.
///
/// # Errors
///
/// `NoHandle`, `NoStream`, `Packed` and `TooBig`; `Memory` and `Device`.
pub fn hread<D: Disk>(
    alloc: Global,
    mft: &mut Mft<'_, D>,
    opens: &Opens,
    session: u8,
    handle: u32,
    at: u64,
    len: u64,
) -> Result<Answer, Stop>
    requires volume { IsInUse D.Disk mft.old }
    requires files { IsTrue (view D.Disk mft.old).told
        → All (λ entry. IsSome (node_of (read (view D.Disk mft.old)) entry.file)) opens.now }
    ensures answered { Answered D.Disk mft.old mft.new (λ volume. hread_wanted (read volume) opens.now session handle at len) result }
{
    match opens.through(session, handle, TO_READ) {
        Some(entry) => read_through(alloc, mft, entry, at, len),
        None => Err(Stop::No(No::NoHandle)),
    }
}

/// `close`: a handle is given back.
///
/// # Errors
///
/// `NoHandle` exactly where the session does not have it.
pub fn close(opens: &mut Opens, session: u8, handle: u32) -> Result<Answer, Stop>
    ensures wanted { result ≡ as_stop (close_wanted opens.old session handle) }
    ensures closed { OnOk result (opens.new ≡ filter (λ entry. not (is_handle session handle entry)) opens.old) }
    ensures kept { OnErr result (opens.new ≡ opens.old) }
{
    match opens.close(session, handle) {
        Ok(()) => Ok(Answer::Done),
        Err(_) => Err(Stop::No(No::NoHandle)),
    }
}
