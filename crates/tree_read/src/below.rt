//! What a link leads to: hidden records, files, directories, and directories with a reparse point.
ghost use Rattle.std.specs.Prelude.{◌≡◌, ◌-◌, All, Contains, IfOk, IfSome, IsTrue, Some, false, if◌then◌else◌};
ghost use Rattle.std.specs.List.{list_any};
ghost use Rattle.mft_table.specs.Mft.{view};
ghost use Rattle.tree_model.specs.Reading.{directory_links};
ghost use Rattle.tree_read.specs.Above.{AreAbove, leads_hidden};
ghost use Rattle.tree_read.specs.Answered.{Finds};
ghost use Rattle.tree_read.specs.Below.{IsBelow, held_below, kind_below};
ghost use Rattle.tree_read.specs.FileLinks.{has_point_held};
ghost use Rattle.tree_read.specs.Kinds.{Directory, Point};
ghost use Rattle.tree_read.specs.Nodes.{number_of};
ghost use Rattle.tree_read.specs.Walks.{IsShownDirectory};
ghost use Rattle.volume_def.specs.Readable.{IsDirectory};
ghost use Rattle.mft_table.specs.InUse.{IsInUse};

use crate::above::Above;
use crate::load::load_file;
use crate::node::is_directory;
use crate::outline::{has_point, links_of};
use crate::stop::Stop;
use file_record::BaseFile;
use mft_table::Mft;
use ntfs_def::records::{FIRST_ORDINARY, ROOT};
use std::alloc::Global;
use tree_model::{Link, No};
use vol_disk::Disk;

/// What a link leads to, loaded where it is shown.
#[derive(Drop)]
pub enum Below {
    /// A record of the system, what lies below one, or the root by a name of its own.
    Hidden,
    File(BaseFile),
    Directory(BaseFile),
    /// A directory with a reparse point.
    Point(BaseFile),
}

// Whether the way up from a directory, of at most so many steps, leads to a record of the system.
fn leads_to_system<D: Disk>(
    alloc: Global,
    mft: &mut Mft<'_, D>,
    above: &mut Above,
    dir: u64,
    most: u64,
) -> Result<bool, Stop>
    requires volume { IsInUse D.Disk mft.old }
    requires directory { IsTrue (view D.Disk mft.old).told → IsDirectory (view D.Disk mft.old) dir }
    requires above { IsTrue (view D.Disk mft.old).told → AreAbove (view D.Disk mft.old) above.old }
    requires most { IsTrue (view D.Disk mft.old).told → most ≡ (view D.Disk mft.old).layout.count - 1 }
    ensures found { Finds D.Disk mft.old mft.new
        (λ volume found. AreAbove volume above.new × (found ≡ leads_hidden volume dir)) result }
{
    let mut at = dir;
    let mut left = most;
    'steps: while left > 0 && at >= FIRST_ORDINARY {
        if let Some(known) = above.leads(at) {
            return Ok(known);
        }
        match above.parent(alloc, mft, at)? {
            Some(parent) => at = parent,
            None => return Ok(false),
        }
        left -= 1;
    }
    Ok(at < FIRST_ORDINARY && at != ROOT)
}

// The same for the directory of a name, and it is noted. Of `dir` it is known that it does not lead there.
fn leads_elsewhere<D: Disk>(
    alloc: Global,
    mft: &mut Mft<'_, D>,
    above: &mut Above,
    dir: u64,
    link: &Link,
    most: u64,
) -> Result<bool, Stop>
    requires volume { IsInUse D.Disk mft.old }
    requires directory { IsTrue (view D.Disk mft.old).told → IsDirectory (view D.Disk mft.old) link.now.parent }
    requires above { IsTrue (view D.Disk mft.old).told → AreAbove (view D.Disk mft.old) above.old }
    requires most { IsTrue (view D.Disk mft.old).told → most ≡ (view D.Disk mft.old).layout.count - 1 }
    requires shown { IsTrue (view D.Disk mft.old).told → leads_hidden (view D.Disk mft.old) dir ≡ false }
    ensures found { Finds D.Disk mft.old mft.new
        (λ volume found. AreAbove volume above.new × (found ≡ leads_hidden volume link.now.parent)) result }
{
    if link.parent == dir {
        return Ok(false);
    }
    let found = leads_to_system(alloc, mft, above, link.parent, most)?;
    match above.note(link.parent, found, most) {
        Ok(()) => Ok(found),
        Err(_) => Err(Stop::No(No::Memory)),
    }
}

// Whether one of the names of a file stands in a directory that leads to a record of the system. Of `dir` it is known that it does
// not.
fn stands_in_hidden<D: Disk>(
    alloc: Global,
    mft: &mut Mft<'_, D>,
    above: &mut Above,
    dir: u64,
    links: &[Link],
) -> Result<bool, Stop>
    requires volume { IsInUse D.Disk mft.old }
    requires directories { IsTrue (view D.Disk mft.old).told
        → All (λ link. IsDirectory (view D.Disk mft.old) link.parent) links.now }
    requires above { IsTrue (view D.Disk mft.old).told → AreAbove (view D.Disk mft.old) above.old }
    requires shown { IsTrue (view D.Disk mft.old).told → leads_hidden (view D.Disk mft.old) dir ≡ false }
    ensures found { Finds D.Disk mft.old mft.new (λ volume found. AreAbove volume above.new
        × (found ≡ list_any (λ link. leads_hidden volume link.parent) links.now)) result }
{
    let most = mft.mounted().records.count().saturating_sub(1);
    for link in links {
        if leads_elsewhere(alloc, mft, above, dir, link, most)? {
            return Ok(true);
        }
    }
    Ok(false)
}

// What a link leads to that leads to a directory that is shown.
fn directory_below(file: BaseFile) -> Below
    ensures kind { kind_below result ≡ (if has_point_held file.parts then Point else Directory) }
    ensures held { held_below result ≡ Some file }
{
    if has_point(&file.parts) {
        Below::Point(file)
    } else {
        Below::Directory(file)
    }
}

/// What a link of a directory that is shown leads to. The file is loaded, and where it is no directory those above its other names
/// too, up to the root, where they are not kept yet.
///
/// # Errors
///
/// `Memory`, and `Device` where the disk failed.
pub fn load_below<D: Disk>(
    alloc: Global,
    mft: &mut Mft<'_, D>,
    above: &mut Above,
    dir: u64,
    link: &Link,
) -> Result<Below, Stop>
    requires volume { IsInUse D.Disk mft.old }
    requires directory { IsTrue (view D.Disk mft.old).told → IsShownDirectory (view D.Disk mft.old) dir }
    requires above { IsTrue (view D.Disk mft.old).told → AreAbove (view D.Disk mft.old) above.old }
    requires link { IsTrue (view D.Disk mft.old).told → Contains (directory_links (view D.Disk mft.old) dir) link.now }
    ensures number { IfOk result (λ below. IfSome (held_below below) (λ held. number_of held ≡ link.now.child)) }
    ensures found { Finds D.Disk mft.old mft.new (λ volume below. AreAbove volume above.new × IsBelow volume link.now below) result }
{
    if link.child < FIRST_ORDINARY {
        return Ok(Below::Hidden);
    }
    let file = load_file(alloc, mft, link.child)?;
    if is_directory(&file) {
        return Ok(directory_below(file));
    }
    let links = links_of(alloc, &file.parts)?;
    if stands_in_hidden(alloc, mft, above, dir, &links)? {
        return Ok(Below::Hidden);
    }
    Ok(Below::File(file))
}
