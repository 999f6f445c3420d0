//! A tree in plain lists: a slow program beside the definitions, which tests compare faster ones with.
ghost use Rattle.std.specs.Prelude.{◌≡◌, [], ◌∷◌, filter, find};
ghost use Rattle.ntfs_def.specs.KeyOrder.{fold_of};
ghost use Rattle.ntfs_def.specs.declared.records.TheConstants.{ROOT};
ghost use Rattle.tree_model.specs.Paths.{links_in_order, last_place, lookup, passed, reached, resolve};
ghost use Rattle.plain_tree.specs.Plain.{is_named, lent, lent_found, lent_place, tree_of, is_called};
ghost use Rattle.list_laws.specs.Ordered.{least};
ghost use Rattle.tree_model.specs.Tree.{compare_links, link_above, node_of, shown_node};

use ntfs_def::records::ROOT;
use std::cmp::Ordering;
use tree_model::{Link, No, Node, Path, compare_links};
use upcase::UpCase;
use vol_bytes::Name;

/// A tree of files: what units of names are compared as, the files by record number, the links that are shown, DOS
/// names too, and those that are hidden. Of several files of one number the first counts. Whether a link is hidden is asked of
/// the files alone: of a tree that a volume reads as, links in `hidden` lead to none of `nodes` but the root, and all
/// others to one of them.
#[derive(Debug, Drop)]
pub struct PlainTree {
    pub case: UpCase,
    pub nodes: Vec<(u64, Node)>,
    pub links: Vec<Link>,
    pub hidden: Vec<Link>,
}

impl PlainTree {
    // The file of this number.
    pub(crate) fn node(&self, file: u64) -> Option<&Node>
        ensures { lent result ≡ node_of (tree_of self.now) file }
    {
        'nodes: for (number, node) in &self.nodes {
            if *number == file {
                return Some(node);
            }
        }
        None
    }

    // Links by directory and name.
    pub(crate) fn compare(&self, a: &Link, b: &Link) -> Ordering
        ensures { result ≡ compare_links (fold_of self.now.case) a.now b.now }
    {
        compare_links(&self.case, a, b)
    }

    // Whether a name is exactly this one, or the same.
    pub(crate) fn is_called(&self, name: &[u16], wanted: &[u16], exact: bool) -> bool
        ensures { result ≡ is_called (fold_of self.now.case) exact name.now wanted.now }
    {
        if exact {
            name == wanted
        } else {
            self.case.same(name, wanted)
        }
    }

    // The first in order of `best` and of those links that have this name in the directory.
    fn first_among<'t>(
        &'t self,
        best: Option<&'t Link>,
        links: &'t [Link],
        dir: u64,
        name: &[u16],
        exact: bool,
    ) -> Option<&'t Link>
        ensures { lent result ≡ least (link_above (fold_of self.now.case)) (lent best.entry)
            (filter (is_named (fold_of self.now.case) dir name.now exact) links.now) }
    {
        let mut best = best;
        'links: for link in links {
            if link.parent == dir && self.is_called(link.name.as_slice(), name, exact) {
                best = self.first_of(best, link);
            }
        }
        best
    }

    fn first_of<'t>(&self, best: Option<&'t Link>, link: &'t Link) -> Option<&'t Link>
        ensures { lent result ≡ least (link_above (fold_of self.now.case)) (lent best.entry) (link.now ∷ []) }
    {
        match best {
            Some(first) if self.compare(first, link).is_le() => Some(first),
            _ => Some(link),
        }
    }

    // The first in order of the links of a directory, hidden ones too, that have this name.
    fn first_named(&self, dir: u64, name: &[u16], exact: bool) -> Option<&Link>
        ensures { lent result
            ≡ find (λ link. is_called (fold_of self.now.case) exact link.name name.now) (links_in_order (tree_of self.now) dir) }
    {
        let shown = self.first_among(None, &self.links, dir, name, exact);
        self.first_among(shown, &self.hidden, dir, name, exact)
    }

    // A name in a directory: the exact one, else the first that is the same.
    fn lookup(&self, dir: u64, name: &[u16]) -> Option<&Link>
        ensures { lent result ≡ lookup (tree_of self.now) dir name.now }
    {
        match self.first_named(dir, name, true) {
            Some(link) => Some(link),
            None => self.first_named(dir, name, false),
        }
    }

    // The file that a link leads to, where the link is not hidden.
    pub(crate) fn shown_node(&self, link: &Link) -> Option<&Node>
        ensures { lent result ≡ shown_node (tree_of self.now) link.now }
    {
        if link.child == ROOT {
            None
        } else {
            self.node(link.child)
        }
    }

    // The directory that a component before the last one leads to.
    fn passed(&self, link: Option<&Link>) -> Result<u64, No>
        ensures { result ≡ passed (tree_of self.now) (lent link.entry) }
    {
        let Some(link) = link else {
            return Err(No::NotFound);
        };
        let Some(node) = self.shown_node(link) else {
            return Err(No::Hidden);
        };
        if !node.dir {
            Err(No::NotDir)
        } else if node.point.is_some() {
            Err(No::Reparse)
        } else {
            Ok(link.child)
        }
    }

    // The link that the last component leads to.
    fn reached<'t>(&self, link: Option<&'t Link>) -> Result<Option<&'t Link>, No>
        ensures { lent_found result ≡ reached (tree_of self.now) (lent link.entry) }
    {
        let Some(link) = link else {
            return Err(No::NotFound);
        };
        match self.shown_node(link) {
            Some(_) => Ok(Some(link)),
            None => Err(No::Hidden),
        }
    }

    // The directory in which the last name of a path stands, and that name.
    fn last_place<'n>(&self, first: &'n Name, rest: &'n [Name]) -> Result<(u64, &'n Name), No>
        ensures { lent_place result ≡ last_place (tree_of self.now) ROOT first.now rest.now }
    {
        let mut dir = ROOT;
        let mut name = first;
        'names: for next in rest {
            dir = self.passed(self.lookup(dir, name.as_slice()))?;
            name = next;
        }
        Ok((dir, name))
    }

    /// What a path leads to: the link that was taken there, `None` for the root.
    ///
    /// # Errors
    ///
    /// Of the first component that is bad: `NotFound`, `Hidden`, and before the last component `NotDir` and
    /// `Reparse`.
    pub fn resolve(&self, path: &Path) -> Result<Option<&Link>, No>
        ensures { lent_found result ≡ resolve (tree_of self.now) path.now }
    {
        let Some((first, rest)) = path.as_slice().split_first() else {
            return Ok(None);
        };
        let (dir, name) = self.last_place(first, rest)?;
        self.reached(self.lookup(dir, name.as_slice()))
    }
}
