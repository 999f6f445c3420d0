//! The lines of `ls` and `links` over a tree in plain lists.
ghost use Rattle.std.specs.Prelude.{◌≡◌, ◌≤◌, [], ◌∷◌, ◌++◌, IfErr, IfOk, length};
ghost use Rattle.std.specs.List.{insert};
ghost use Rattle.tree_model.specs.Answers.{listing, path_above, path_to, shown_link, shown_links};
ghost use Rattle.list_laws.specs.Ordered.{put_in_order};
ghost use Rattle.plain_tree.specs.Plain.{lent, tree_of};
ghost use Rattle.tree_model.specs.Tree.{first_name};
ghost use Rattle.tree_model.specs.declared.reply.No.TheVariants as no;

use crate::copies::copied_name;
use crate::tree::PlainTree;
use ntfs_def::records::ROOT;
use std::alloc::Global;
use tree_model::{Link, Listed, Listing, No, Path, ShownLink, ShownLinks, path_text};
use vol_bytes::Name;

impl PlainTree {
    // What `ls` shows of a directory.
    pub(crate) fn listing(&self, alloc: Global, dir: u64) -> Result<Listing, No>
        ensures ok { IfOk result (λ lines. lines ≡ listing (tree_of self.now) dir) }
        ensures err { IfErr result (λ refused. refused ≡ no.Memory) }
    {
        let links = self.links_in_order(alloc, dir)?;
        let mut lines = Vec::new(alloc);
        'links: for link in links.as_slice() {
            if let Some((is_dir, shown)) = self.ls_line(link) {
                lines.push(Listed {
                    dir: is_dir,
                    name: copied_name(alloc, &shown.name)?,
                })?;
            }
        }
        Ok(Listing::from_vec(lines))
    }

    // The first name of a file that is no DOS name.
    pub(crate) fn first_name(&self, file: u64) -> Option<&Link>
        ensures { lent result ≡ first_name (tree_of self.now).links file }
    {
        'links: for link in &self.links {
            if link.child == file && !link.is_dos() {
                return Some(link);
            }
        }
        None
    }

    // The path of a link: a name for each directory on the way, and its own.
    fn path_of(&self, alloc: Global, link: &Link) -> Result<Vec<Name>, No>
        ensures ok { IfOk result (λ names. names.items
            ≡ path_to (tree_of self.now) (length self.now.links.items) link.now.parent ++ link.now.name ∷ []) }
        ensures err { IfErr result (λ refused. refused ≡ no.Memory) }
    {
        let mut names = Vec::new(alloc);
        names.push(copied_name(alloc, &link.name)?)?;
        let mut dir = link.parent;
        let mut left = self.links.len();
        'steps: while left > 0 {
            if dir == ROOT {
                return Ok(names);
            }
            let Some(up) = self.first_name(dir) else {
                return Ok(names);
            };
            names.insert(0, copied_name(alloc, &up.name)?)?;
            dir = up.parent;
            left -= 1;
        }
        Ok(names)
    }

    // The line of `links` for a link.
    fn shown_link(&self, alloc: Global, link: &Link) -> Result<ShownLink, No>
        ensures ok { IfOk result (λ line. line ≡ shown_link (tree_of self.now) link.now) }
        ensures err { IfErr result (λ refused. refused ≡ no.Memory) }
    {
        let path = self.path_of(alloc, link)?;
        Ok(ShownLink {
            space: link.space,
            path: Path::from_vec(path),
        })
    }

    // What `links` shows of a file.
    pub(crate) fn shown_links(&self, alloc: Global, file: u64) -> Result<ShownLinks, No>
        ensures ok { IfOk result (λ lines. lines ≡ shown_links (tree_of self.now) file) }
        ensures err { IfErr result (λ refused. refused ≡ no.Memory) }
    {
        let links = self.links.as_slice();
        let mut lines = Vec::new(alloc);
        let mut left = links.len();
        'links: while left > 0 {
            left -= 1;
            let link = &links[left];
            if link.child == file {
                lines = put_line(alloc, lines, self.shown_link(alloc, link)?)?;
            }
        }
        Ok(ShownLinks::from_vec(lines))
    }
}

// Whether a line stands behind another, by the texts of their paths.
fn is_behind(alloc: Global, line: &ShownLink, other: &ShownLink) -> Result<bool, No>
    ensures ok { IfOk result (λ behind. behind ≡ path_above line.now other.now) }
    ensures err { IfErr result (λ refused. refused ≡ no.Memory) }
{
    let text = path_text(alloc, line.path.as_slice())?;
    let other_text = path_text(alloc, other.path.as_slice())?;
    let order = text.as_slice().cmp(other_text.as_slice());
    Ok(order.is_gt())
}

// The place of a line among others that are in order.
fn place_of(alloc: Global, lines: &[ShownLink], line: &ShownLink) -> Result<usize, No>
    ensures place { IfOk result (λ place. insert lines.now place line.now ≡ put_in_order path_above line.now lines.now) }
    ensures within { IfOk result (λ place. place ≤ length lines.now) }
    ensures err { IfErr result (λ refused. refused ≡ no.Memory) }
{
    'lines: for (place, other) in lines.iter().enumerate() {
        let behind = is_behind(alloc, line, other)?;
        if !behind {
            return Ok(place);
        }
    }
    Ok(lines.len())
}

// One line more, in order.
fn put_line(alloc: Global, lines: Vec<ShownLink>, line: ShownLink) -> Result<Vec<ShownLink>, No>
    ensures ok { IfOk result (λ more. more.items ≡ put_in_order path_above line lines.items) }
    ensures err { IfErr result (λ refused. refused ≡ no.Memory) }
{
    let mut lines = lines;
    let place = place_of(alloc, lines.as_slice(), &line)?;
    lines.insert(place, line)?;
    Ok(lines)
}
