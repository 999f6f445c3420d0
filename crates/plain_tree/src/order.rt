//! Links of a tree in plain lists, put in order one after another.
ghost use Rattle.std.specs.Prelude.{◌≡◌, ◌≤◌, IfErr, IfOk, filter, length};
ghost use Rattle.std.specs.List.{insert};
ghost use Rattle.ntfs_def.specs.KeyOrder.{fold_of};
ghost use Rattle.list_laws.specs.Ordered.{put_all, put_in_order};
ghost use Rattle.tree_model.specs.Paths.{links_in_order};
ghost use Rattle.plain_tree.specs.Plain.{tree_of};
ghost use Rattle.tree_model.specs.Tree.{is_in, link_above};
ghost use Rattle.tree_model.specs.declared.reply.No.TheVariants as no;

use crate::copies::copied_link;
use crate::tree::PlainTree;
use std::alloc::Global;
use tree_model::{Link, No};

impl PlainTree {
    // Whether a link stands behind another.
    fn is_behind(&self, link: &Link, other: &Link) -> bool
        ensures { result ≡ link_above (fold_of self.now.case) link.now other.now }
    {
        self.compare(link, other).is_gt()
    }

    // The place of a link among others that are in order.
    pub(crate) fn place_of(&self, links: &[Link], link: &Link) -> usize
        ensures place { insert links.now result link.now ≡ put_in_order (link_above (fold_of self.now.case)) link.now links.now }
        ensures within { result ≤ length links.now }
    {
        'links: for (place, other) in links.iter().enumerate() {
            if !self.is_behind(link, other) {
                return place;
            }
        }
        links.len()
    }

    // One link more, in order.
    pub(crate) fn put_link(&self, links: Vec<Link>, link: Link) -> Result<Vec<Link>, No>
        ensures ok { IfOk result (λ more. more.items ≡ put_in_order (link_above (fold_of self.now.case)) link links.items) }
        ensures err { IfErr result (λ refused. refused ≡ no.Memory) }
    {
        let mut links = links;
        let place = self.place_of(links.as_slice(), &link);
        links.insert(place, link)?;
        Ok(links)
    }

    // The links of a directory among these, put in order among others.
    fn put_links_in(
        &self,
        alloc: Global,
        links: &[Link],
        dir: u64,
        others: Vec<Link>,
    ) -> Result<Vec<Link>, No>
        ensures ok { IfOk result
            (λ all. all.items ≡ put_all (link_above (fold_of self.now.case)) (filter (is_in dir) links.now) others.items) }
        ensures err { IfErr result (λ refused. refused ≡ no.Memory) }
    {
        let mut all = others;
        let mut left = links.len();
        'links: while left > 0 {
            left -= 1;
            let link = &links[left];
            if link.parent == dir {
                all = self.put_link(all, copied_link(alloc, link)?)?;
            }
        }
        Ok(all)
    }

    // All links of a directory in name order, DOS and hidden ones too.
    pub(crate) fn links_in_order(&self, alloc: Global, dir: u64) -> Result<Vec<Link>, No>
        ensures ok { IfOk result (λ links. links.items ≡ links_in_order (tree_of self.now) dir) }
        ensures err { IfErr result (λ refused. refused ≡ no.Memory) }
    {
        let hidden = self.put_links_in(alloc, self.hidden.as_slice(), dir, Vec::new(alloc))?;
        let all = self.put_links_in(alloc, self.links.as_slice(), dir, hidden)?;
        Ok(all)
    }
}
