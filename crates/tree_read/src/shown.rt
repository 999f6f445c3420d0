//! What is shown of a file that is held, and of the one that a path leads to.
ghost use Rattle.std.specs.Prelude.{◌≡◌, IfSome, IsTrue};
ghost use Rattle.mft_table.specs.Mft.{view};
ghost use Rattle.tree_model.specs.Reading.{read};
ghost use Rattle.mft_table.specs.InUse.{IsInUse};
ghost use Rattle.tree_read.specs.Answered.{Answered};
ghost use Rattle.tree_read.specs.Nodes.{IsNodeHeld, number_of};
ghost use Rattle.tree_read.specs.Shown.{links_shown, ls_shown, of_path, shown_by};
ghost use Rattle.tree_read.specs.Standings.{IsStanding};

use crate::data::{cat, objid, read, reparse};
use crate::links::links_to;
use crate::node::{attr, is_directory, sec, stat, streams};
use crate::standing::Standing;
use crate::stop::Stop;
use crate::walk::{list_shown, resolve};
use file_record::BaseFile;
use mft_table::Mft;
use share_table::Opens;
use std::alloc::Global;
use tree_model::{Answer, No, Path};
use vol_bytes::Name;
use vol_disk::Disk;

/// What is shown of a file, by the command that shows it.
#[derive(Clone, Copy)]
pub enum Shown<'c> {
    Ls,
    Stat,
    Links,
    /// All bytes of a stream, of the unnamed one where none is named.
    Cat {
        stream: &'c Option<Name>,
    },
    /// Those of a range.
    Read {
        stream: &'c Option<Name>,
        at: u64,
        len: u64,
    },
    Streams,
    Attr,
    Sec,
    Reparse,
    Objid,
}

// `ls`.
fn ls<D: Disk>(alloc: Global, mft: &mut Mft<'_, D>, held: &BaseFile) -> Result<Answer, Stop>
    requires volume { IsInUse D.Disk mft.old }
    requires held { IsTrue (view D.Disk mft.old).told → IsNodeHeld (view D.Disk mft.old) held.now }
    ensures answered { Answered D.Disk mft.old mft.new (λ volume. ls_shown (read volume) (number_of held.now)) result }
{
    if !is_directory(held) {
        return Err(Stop::No(No::NotDir));
    }
    Ok(Answer::List(list_shown(alloc, mft, held)?))
}

// `links`.
fn links<D: Disk>(alloc: Global, mft: &mut Mft<'_, D>, held: &BaseFile) -> Result<Answer, Stop>
    requires volume { IsInUse D.Disk mft.old }
    requires held { IsTrue (view D.Disk mft.old).told → IsNodeHeld (view D.Disk mft.old) held.now }
    ensures answered { Answered D.Disk mft.old mft.new (λ volume. links_shown (read volume) (number_of held.now)) result }
{
    Ok(Answer::Links(links_to(alloc, mft, held)?))
}

// What is shown of a file that is loaded.
fn show_node<D: Disk>(
    alloc: Global,
    mft: &mut Mft<'_, D>,
    opens: &Opens,
    what: Shown<'_>,
    held: &BaseFile,
) -> Result<Answer, Stop>
    requires volume { IsInUse D.Disk mft.old }
    requires held { IsTrue (view D.Disk mft.old).told → IsNodeHeld (view D.Disk mft.old) held.now }
    ensures answered { Answered D.Disk mft.old mft.new
        (λ volume. shown_by what.entry (read volume) opens.now (number_of held.now)) result }
{
    match what {
        Shown::Ls => ls(alloc, mft, held),
        Shown::Stat => match stat(alloc, held, &mft.mounted().upcase) {
            Ok(answer) => Ok(answer),
            Err(refused) => Err(Stop::No(refused)),
        },
        Shown::Links => links(alloc, mft, held),
        Shown::Cat { stream } => cat(alloc, mft, opens, held, stream),
        Shown::Read { stream, at, len } => read(alloc, mft, opens, held, stream, at, len),
        Shown::Streams => match streams(alloc, held, &mft.mounted().upcase) {
            Ok(answer) => Ok(answer),
            Err(refused) => Err(Stop::No(refused)),
        },
        Shown::Attr => Ok(attr(held)),
        Shown::Sec => Ok(sec(held)),
        Shown::Reparse => reparse(alloc, mft, held),
        Shown::Objid => objid(alloc, mft, held),
    }
}

/// What is shown of the file that a path leads to, beside the opens that are kept, or the refusal that is due. `last` is the
/// directory in which the last path ended, before the call and behind it.
///
/// # Errors
///
/// The refusal of the first component that is bad, or of what is shown; `Memory`, and `Device` where the disk failed.
pub fn show_at<D: Disk>(
    alloc: Global,
    mft: &mut Mft<'_, D>,
    last: &mut Option<Standing>,
    opens: &Opens,
    path: &Path,
    what: Shown<'_>,
) -> Result<Answer, Stop>
    requires volume { IsInUse D.Disk mft.old }
    requires last { IsTrue (view D.Disk mft.old).told → IfSome last.old (IsStanding (view D.Disk mft.old)) }
    ensures answered { Answered D.Disk mft.old mft.new
        (λ volume. of_path (read volume) path.now (shown_by what.entry (read volume) opens.now)) result }
    ensures last { IsTrue (view D.Disk mft.old).told → IfSome last.new (IsStanding (view D.Disk mft.old)) }
{
    let reached = resolve(alloc, mft, last, path)?;
    show_node(alloc, mft, opens, what, &reached.held)
}
