//! A path is walked from the root, and a directory is listed.
ghost use Rattle.std.specs.Prelude.{◌≡◌, ◌++◌, Contains, IfOk, IfSome, IsTrue, Ok, OnOk};
ghost use Rattle.std.specs.Option.{option_to_list};
ghost use Rattle.mft_table.specs.Mft.{view};
ghost use Rattle.tree_model.specs.Answers.{ls_line, listing};
ghost use Rattle.tree_model.specs.Paths.{found_file, lookup, passed, reached, resolve};
ghost use Rattle.tree_model.specs.Reading.{directory_links, read};
ghost use Rattle.tree_read.specs.Above.{AreAbove};
ghost use Rattle.tree_read.specs.Answered.{Answered, Finds, with_ok};
ghost use Rattle.tree_read.specs.Below.{kind_below};
ghost use Rattle.tree_read.specs.Nodes.{IsFileHeld, IsNodeHeld, number_of};
ghost use Rattle.tree_read.specs.Standings.{IsStanding, led_to, number_within};
ghost use Rattle.tree_read.specs.Walks.{IsDirectoryHeld, IsShownDirectory, found_by, listed_kind, passed_below, reached_below, sought_at};
ghost use Rattle.mft_table.specs.InUse.{IsInUse};

use crate::above::Above;
use crate::below::{Below, load_below};
use crate::load::load_file;
use crate::standing::{Standing, are_same_names, copied_names};
use crate::stop::Stop;
use dir_index::{list_in, lookup_in};
use file_record::BaseFile;
use mft_table::Mft;
use ntfs_def::records::ROOT;
use std::alloc::{AllocError, Global};
use tree_model::{Found, Link, Listed, Listing, No, Path};
use vol_bytes::Name;
use vol_disk::Disk;

/// What a path leads to, loaded.
#[derive(Drop)]
pub struct Reached {
    pub found: Found,
    pub held: BaseFile,
}

// The link of a name in a directory that is shown.
fn seek<D: Disk>(
    alloc: Global,
    mft: &mut Mft<'_, D>,
    dir: &BaseFile,
    name: &Name,
) -> Result<Link, Stop>
    requires volume { IsInUse D.Disk mft.old }
    requires directory { IsTrue (view D.Disk mft.old).told → IsDirectoryHeld (view D.Disk mft.old) dir.now }
    ensures answered { Answered D.Disk mft.old mft.new (λ volume. sought_at (read volume) (number_of dir.now) name.now) result }
    ensures among { IfOk result (λ link. IsTrue (view D.Disk mft.old).told
        → Contains (directory_links (view D.Disk mft.old) (number_of dir.now)) link) }
{
    match lookup_in(alloc, mft, &dir.parts, name)? {
        Some(link) => Ok(link),
        None => Err(Stop::No(No::NotFound)),
    }
}

// The directory that a component before the last one leads through.
fn passed_below(below: Below) -> Result<BaseFile, No>
    ensures { result ≡ passed_below below }
{
    match below {
        Below::Hidden => Err(No::Hidden),
        Below::File(_) => Err(No::NotDir),
        Below::Directory(held) => Ok(held),
        Below::Point(_) => Err(No::Reparse),
    }
}

// What the last component leads to.
fn reached_below(link: Link, below: Below) -> Result<Reached, No>
    ensures { result ≡ reached_below link below }
{
    match below {
        Below::Hidden => Err(No::Hidden),
        Below::File(held) | Below::Directory(held) | Below::Point(held) => Ok(Reached {
            found: Found::Link(link),
            held,
        }),
    }
}

// One component before the last one.
fn pass<D: Disk>(
    alloc: Global,
    mft: &mut Mft<'_, D>,
    dir: &BaseFile,
    name: &Name,
) -> Result<BaseFile, Stop>
    requires volume { IsInUse D.Disk mft.old }
    requires directory { IsTrue (view D.Disk mft.old).told → IsDirectoryHeld (view D.Disk mft.old) dir.now }
    ensures answered { Answered D.Disk mft.old mft.new
        (λ volume. passed (read volume) (lookup (read volume) (number_of dir.now) name.now)) (with_ok number_of result) }
    ensures held { IfOk result (λ inner. IsTrue (view D.Disk mft.old).told → IsFileHeld (view D.Disk mft.old) (number_of inner) inner) }
{
    let link = seek(alloc, mft, dir, name)?;
    let below = load_below(
        alloc,
        mft,
        &mut Above::new(alloc),
        dir.parts.number(),
        &link,
    )?;
    Ok(passed_below(below)?)
}

/// What the last name of a path leads to, in the directory that the others lead to: anything that is shown.
///
/// # Errors
///
/// `NotFound`, `Hidden` and `Memory`. `Device` where the disk failed.
pub fn reach<D: Disk>(
    alloc: Global,
    mft: &mut Mft<'_, D>,
    dir: &BaseFile,
    name: &Name,
) -> Result<Reached, Stop>
    requires volume { IsInUse D.Disk mft.old }
    requires directory { IsTrue (view D.Disk mft.old).told → IsDirectoryHeld (view D.Disk mft.old) dir.now }
    ensures answered { Answered D.Disk mft.old mft.new
        (λ volume. reached (read volume) (lookup (read volume) (number_of dir.now) name.now)) (with_ok found_by result) }
    ensures number { IfOk result (λ to. number_of to.held ≡ found_file to.found) }
    ensures held { IfOk result (λ to. IsTrue (view D.Disk mft.old).told
        → IsFileHeld (view D.Disk mft.old) (found_file to.found) to.held) }
{
    let link = seek(alloc, mft, dir, name)?;
    let below = load_below(
        alloc,
        mft,
        &mut Above::new(alloc),
        dir.parts.number(),
        &link,
    )?;
    Ok(reached_below(link, below)?)
}

// The directory that names lead to from the root: each of them leads through a directory that is shown and has no reparse point.
fn walk_down<D: Disk>(alloc: Global, mft: &mut Mft<'_, D>, names: &[Name]) -> Result<BaseFile, Stop>
    requires volume { IsInUse D.Disk mft.old }
    ensures answered { Answered D.Disk mft.old mft.new (λ volume. led_to (read volume) ROOT names.now) (with_ok number_of result) }
    ensures held { IfOk result (λ dir. IsTrue (view D.Disk mft.old).told → IsDirectoryHeld (view D.Disk mft.old) dir) }
{
    let mut dir = load_file(alloc, mft, ROOT)?;
    'names: for name in names {
        dir = pass(alloc, mft, &dir, name)?;
    }
    Ok(dir)
}

/// The directory that names lead to from the root, with these names: the one in which the last path ended, where these names led to
/// it; else it is walked down to.
///
/// # Errors
///
/// The refusal of the first name that is bad, and `Memory`. `Device` where the disk failed.
pub fn enter<D: Disk>(
    alloc: Global,
    mft: &mut Mft<'_, D>,
    last: Option<Standing>,
    names: &[Name],
) -> Result<Standing, Stop>
    requires volume { IsInUse D.Disk mft.old }
    requires last { IsTrue (view D.Disk mft.old).told → IfSome last (IsStanding (view D.Disk mft.old)) }
    ensures answered { Answered D.Disk mft.old mft.new (λ volume. led_to (read volume) ROOT names.now) (with_ok number_within result) }
    ensures standing { IfOk result (λ standing. IsTrue (view D.Disk mft.old).told → IsStanding (view D.Disk mft.old) standing) }
{
    if let Some(standing) = last {
        if are_same_names(&standing.names, names) {
            return Ok(standing);
        }
    }
    let directory = walk_down(alloc, mft, names)?;
    let names = copied_names(alloc, names)?;
    Ok(Standing { names, directory })
}

/// What a path leads to: each component before the last one is a directory that is shown and has no reparse point, the last one
/// is anything that is shown. Where the last path ended in the same directory, that one is taken; otherwise the root is loaded, and
/// for each component what its name leads to, once; of a file the directories above its other names too. Behind it `last` is the
/// directory in which this path ended, none where the path stopped on the way there, and for the root the one that it was.
///
/// # Errors
///
/// The refusal of the first component that is bad, and `Memory`. `Device` where the disk failed.
pub fn resolve<D: Disk>(
    alloc: Global,
    mft: &mut Mft<'_, D>,
    last: &mut Option<Standing>,
    path: &Path,
) -> Result<Reached, Stop>
    requires volume { IsInUse D.Disk mft.old }
    requires last { IsTrue (view D.Disk mft.old).told → IfSome last.old (IsStanding (view D.Disk mft.old)) }
    ensures answered { Answered D.Disk mft.old mft.new (λ volume. resolve (read volume) path.now) (with_ok found_by result) }
    ensures number { IfOk result (λ to. number_of to.held ≡ found_file to.found) }
    ensures held { IfOk result (λ to. IsTrue (view D.Disk mft.old).told → IsNodeHeld (view D.Disk mft.old) to.held) }
    ensures last { IsTrue (view D.Disk mft.old).told → IfSome last.new (IsStanding (view D.Disk mft.old)) }
{
    let Some((name, names)) = path.as_slice().split_last() else {
        return Ok(Reached {
            found: Found::Root,
            held: load_file(alloc, mft, ROOT)?,
        });
    };
    let standing = enter(alloc, mft, last.take(), names)?;
    let reached = reach(alloc, mft, &standing.directory, name);
    *last = Some(standing);
    reached
}

// The line of a link of a directory that is shown, where it has one.
fn list_link<D: Disk>(
    alloc: Global,
    mft: &mut Mft<'_, D>,
    above: &mut Above,
    dir: u64,
    link: Link,
) -> Result<Option<Listed>, Stop>
    requires volume { IsInUse D.Disk mft.old }
    requires directory { IsTrue (view D.Disk mft.old).told → IsShownDirectory (view D.Disk mft.old) dir }
    requires above { IsTrue (view D.Disk mft.old).told → AreAbove (view D.Disk mft.old) above.old }
    requires among { IsTrue (view D.Disk mft.old).told → Contains (directory_links (view D.Disk mft.old) dir) link }
    ensures found { Finds D.Disk mft.old mft.new
        (λ volume line. AreAbove volume above.new × (line ≡ ls_line (read volume) link)) result }
{
    if link.is_dos() {
        return Ok(None);
    }
    let below = load_below(alloc, mft, above, dir, &link)?;
    Ok(listed_below(link.name, &below))
}

// The line of a link that is no DOS name.
fn listed_below(name: Name, below: &Below) -> Option<Listed>
    ensures { result ≡ listed_kind name (kind_below below.now) }
{
    match below {
        Below::Hidden => None,
        Below::File(_) => Some(Listed { dir: false, name }),
        Below::Directory(_) | Below::Point(_) => Some(Listed { dir: true, name }),
    }
}

// Puts a line behind the others, where there is one.
fn add_line(lines: &mut Vec<Listed>, line: Option<Listed>) -> Result<(), AllocError>
    ensures { OnOk result (lines.new.items ≡ lines.old.items ++ option_to_list line) }
{
    match line {
        Some(line) => Ok(lines.push(line)?),
        None => Ok(()),
    }
}

/// The links of a directory that is shown, in name order, that are neither hidden nor DOS names.
///
/// # Errors
///
/// `Memory`, and `Device` where the disk failed.
pub fn list_shown<D: Disk>(
    alloc: Global,
    mft: &mut Mft<'_, D>,
    dir: &BaseFile,
) -> Result<Listing, Stop>
    requires volume { IsInUse D.Disk mft.old }
    requires directory { IsTrue (view D.Disk mft.old).told → IsDirectoryHeld (view D.Disk mft.old) dir.now }
    ensures answered { Answered D.Disk mft.old mft.new (λ volume. Ok (listing (read volume) (number_of dir.now))) result }
{
    let mut above = Above::new(alloc);
    let mut lines = Vec::new(alloc);
    'links: for link in list_in(alloc, mft, &dir.parts)? {
        let line = list_link(alloc, mft, &mut above, dir.parts.number(), link)?;
        add_line(&mut lines, line)?;
    }
    Ok(Listing::from_vec(lines))
}
