//! The links to a file, by the paths that lead to them.
ghost use Rattle.std.specs.Prelude.{◌≡◌, ◌∷◌, ◌++◌, [], All, IfOk, IsTrue, Ok, OnOk, false, length, map, reverse};
ghost use Rattle.ntfs_def.specs.KeyOrder.{fold_of};
ghost use Rattle.volume_def.specs.Files.{records_of};
ghost use Rattle.mft_table.specs.Mft.{view};
ghost use Rattle.tree_model.specs.Answers.{path_above, path_to, shown_link, shown_links};
ghost use Rattle.tree_model.specs.Hidden.{is_hidden};
ghost use Rattle.list_laws.specs.Ordered.{in_order};
ghost use Rattle.tree_model.specs.Reading.{read};
ghost use Rattle.tree_model.specs.Tree.{link_above};
ghost use Rattle.tree_read.specs.Above.{AreAbove};
ghost use Rattle.tree_read.specs.FileLinks.{links_held};
ghost use Rattle.tree_read.specs.Answered.{Answered, Finds};
ghost use Rattle.tree_read.specs.Lines.{shown_in};
ghost use Rattle.tree_read.specs.Nodes.{IsNodeHeld, number_of};
ghost use Rattle.volume_def.specs.Readable.{IsDirectory};
ghost use Rattle.mft_table.specs.InUse.{IsInUse};

use crate::above::Above;
use crate::line::Line;
use crate::outline::links_of;
use crate::stop::Stop;
use file_record::BaseFile;
use mft_table::Mft;
use ntfs_def::records::ROOT;
use std::alloc::{AllocError, Global};
use tree_model::{Link, No, Path, ShownLink, ShownLinks, compare_links};
use upcase::UpCase;
use vol_bytes::Name;
use vol_disk::Disk;

// Puts a link's name behind other names.
fn put_name(alloc: Global, link: &Link, names: &mut Vec<Name>) -> Result<(), AllocError>
    ensures { OnOk result (names.new.items ≡ names.old.items ++ link.now.name ∷ []) }
{
    let name = Name::from_vec(Vec::from_slice(alloc, link.name.as_slice())?);
    names.push(name)?;
    Ok(())
}

// The names on the way up from a link that stands in a directory that is shown, its own first.
fn names_up<D: Disk>(
    alloc: Global,
    mft: &mut Mft<'_, D>,
    above: &mut Above,
    link: &Link,
) -> Result<Vec<Name>, Stop>
    requires volume { IsInUse D.Disk mft.old }
    requires directory { IsTrue (view D.Disk mft.old).told → IsDirectory (view D.Disk mft.old) link.now.parent }
    requires shown { IsTrue (view D.Disk mft.old).told → is_hidden (records_of (view D.Disk mft.old)) link.now.parent ≡ false }
    requires above { IsTrue (view D.Disk mft.old).told → AreAbove (view D.Disk mft.old) above.old }
    ensures found { Finds D.Disk mft.old mft.new (λ volume names. AreAbove volume above.new × (reverse names.items
        ≡ path_to (read volume) (length (read volume).links) link.now.parent ++ link.now.name ∷ [])) result }
{
    let mut names = Vec::new(alloc);
    put_name(alloc, link, &mut names)?;
    let mut at = link.parent;
    let mut left = mft.mounted().records.count();
    'steps: while left > 0 && at != ROOT {
        above.learn(alloc, mft, at)?;
        let up = match above.name(at) {
            Some(up) => up,
            None => return Ok(names),
        };
        match put_name(alloc, up, &mut names) {
            Ok(()) => {}
            Err(_) => return Err(Stop::No(No::Memory)),
        }
        at = up.parent;
        left -= 1;
    }
    Ok(names)
}

// The path of a link that stands in a directory that is shown.
fn path_of<D: Disk>(
    alloc: Global,
    mft: &mut Mft<'_, D>,
    above: &mut Above,
    link: &Link,
) -> Result<Vec<Name>, Stop>
    requires volume { IsInUse D.Disk mft.old }
    requires directory { IsTrue (view D.Disk mft.old).told → IsDirectory (view D.Disk mft.old) link.now.parent }
    requires shown { IsTrue (view D.Disk mft.old).told → is_hidden (records_of (view D.Disk mft.old)) link.now.parent ≡ false }
    requires above { IsTrue (view D.Disk mft.old).told → AreAbove (view D.Disk mft.old) above.old }
    ensures found { Finds D.Disk mft.old mft.new (λ volume names. AreAbove volume above.new
        × (names.items ≡ path_to (read volume) (length (read volume).links) link.now.parent ++ link.now.name ∷ [])) result }
{
    let mut names = names_up(alloc, mft, above, link)?;
    names.reverse();
    Ok(names)
}

// The line of a link that stands in a directory that is shown.
fn line_of<D: Disk>(
    alloc: Global,
    mft: &mut Mft<'_, D>,
    above: &mut Above,
    link: &Link,
) -> Result<Line, Stop>
    requires volume { IsInUse D.Disk mft.old }
    requires directory { IsTrue (view D.Disk mft.old).told → IsDirectory (view D.Disk mft.old) link.now.parent }
    requires shown { IsTrue (view D.Disk mft.old).told → is_hidden (records_of (view D.Disk mft.old)) link.now.parent ≡ false }
    requires above { IsTrue (view D.Disk mft.old).told → AreAbove (view D.Disk mft.old) above.old }
    ensures found { Finds D.Disk mft.old mft.new (λ volume line. AreAbove volume above.new
        × (line.shown ≡ shown_link (read volume) link.now)) result }
{
    let names = path_of(alloc, mft, above, link)?;
    let shown = ShownLink {
        space: link.space,
        path: Path::from_vec(names),
    };
    match Line::new(alloc, shown) {
        Ok(line) => Ok(line),
        Err(no) => Err(Stop::No(no)),
    }
}

/// The lines of links that stand in directories that are shown, in their order.
///
/// # Errors
///
/// `Device` where the disk failed, and `Memory`.
pub fn lines_of<D: Disk>(
    alloc: Global,
    mft: &mut Mft<'_, D>,
    links: &[Link],
) -> Result<Vec<Line>, Stop>
    requires volume { IsInUse D.Disk mft.old }
    requires directories { IsTrue (view D.Disk mft.old).told → All (λ link. IsDirectory (view D.Disk mft.old) link.parent) links.now }
    requires shown { IsTrue (view D.Disk mft.old).told
        → All (λ link. is_hidden (records_of (view D.Disk mft.old)) link.parent ≡ false) links.now }
    ensures found { Finds D.Disk mft.old mft.new (λ volume lines.
        shown_in lines.items ≡ map (shown_link (read volume)) links.now) result }
{
    let mut above = Above::new(alloc);
    let mut lines = Vec::new(alloc);
    for link in links {
        let line = line_of(alloc, mft, &mut above, link)?;
        match lines.push(line) {
            Ok(()) => {}
            Err(_) => return Err(Stop::No(No::Memory)),
        }
    }
    Ok(lines)
}

// Puts links in order, by their directories and names.
fn sort_links(case: &UpCase, links: &mut Vec<Link>) -> Result<(), AllocError>
    ensures { OnOk result (links.new.items ≡ in_order (link_above (fold_of case.now)) links.old.items) }
{
    links.sort_by(|a, b| compare_links(case, a, b))?;
    Ok(())
}

// Puts lines in byte order of their paths' texts.
fn sort_lines(lines: &mut Vec<Line>) -> Result<(), AllocError>
    ensures { OnOk result (shown_in lines.new.items ≡ in_order path_above (shown_in lines.old.items)) }
{
    lines.sort_by(|a, b| a.text.as_slice().cmp(b.text.as_slice()))?;
    Ok(())
}

// Lines without their texts.
fn without_text(alloc: Global, lines: Vec<Line>) -> Result<Vec<ShownLink>, AllocError>
    ensures { IfOk result (λ shown. shown.items ≡ shown_in lines.items) }
{
    lines.into_iter().map(|line| line.shown).collect(alloc)
}

/// What lines show, in byte order of their paths' texts.
///
/// # Errors
///
/// Want of memory alone.
pub fn in_order(alloc: Global, lines: Vec<Line>) -> Result<Vec<ShownLink>, AllocError>
    ensures { IfOk result (λ shown. shown.items ≡ in_order path_above (shown_in lines.items)) }
{
    let mut lines = lines;
    sort_lines(&mut lines)?;
    without_text(alloc, lines)
}

/// The links to a file that is held, in order by their directories and names.
///
/// # Errors
///
/// Want of memory alone.
pub fn links_in_order(
    alloc: Global,
    case: &UpCase,
    held: &BaseFile,
) -> Result<Vec<Link>, AllocError>
    ensures { IfOk result (λ links. links.items ≡ in_order (link_above (fold_of case.now)) (links_held held.now.parts)) }
{
    let mut links = links_of(alloc, &held.parts)?;
    sort_links(case, &mut links)?;
    Ok(links)
}

/// All links to a file that is held, by the paths that lead to them, in byte order of the paths' texts.
///
/// # Errors
///
/// `Device` where the disk failed, and `Memory`.
pub fn links_to<D: Disk>(
    alloc: Global,
    mft: &mut Mft<'_, D>,
    held: &BaseFile,
) -> Result<ShownLinks, Stop>
    requires volume { IsInUse D.Disk mft.old }
    requires held { IsTrue (view D.Disk mft.old).told → IsNodeHeld (view D.Disk mft.old) held.now }
    ensures answered { Answered D.Disk mft.old mft.new (λ volume. Ok (shown_links (read volume) (number_of held.now))) result }
{
    if held.parts.number() == ROOT {
        return Ok(ShownLinks::from_vec(Vec::new(alloc)));
    }
    let links = links_in_order(alloc, &mft.mounted().upcase, held)?;
    let lines = lines_of(alloc, mft, links.as_slice())?;
    match in_order(alloc, lines) {
        Ok(shown) => Ok(ShownLinks::from_vec(shown)),
        Err(_) => Err(Stop::No(No::Memory)),
    }
}
