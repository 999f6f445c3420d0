//! What edits make of the files of a tree in plain lists.
ghost use Rattle.std.specs.Prelude.{◌≡◌, IfErr, IfOk, None};
ghost use Rattle.std.specs.Option.{MatchOption};
ghost use Rattle.tree_model.specs.Effects.{add_link, changed, put_point, stamp, stamped, touch};
ghost use Rattle.plain_tree.specs.Plain.{IsFirstOf, tree_of};
ghost use Rattle.tree_model.specs.Tree.{node_of};
ghost use Rattle.tree_model.specs.declared.reply.No.TheVariants as no;

use crate::tree::PlainTree;
use tree_model::{Link, No, Point};

impl PlainTree {
    // The place of a file among the nodes.
    fn place_of_node(&self, file: u64) -> Option<usize>
        ensures { MatchOption result (node_of (tree_of self.now) file ≡ None) (IsFirstOf self.now.nodes.items file) }
    {
        'nodes: for (place, (number, _)) in self.nodes.iter().enumerate() {
            if *number == file {
                return Some(place);
            }
        }
        None
    }

    /// What `setattr` makes of the tree at this moment: the file has these flags, where it is there.
    pub fn set_flags(&mut self, now: u64, file: u64, flags: u16)
        ensures { tree_of self.new ≡ changed file (λ node. stamped now (record node { flags = flags })) (tree_of self.old) }
    {
        if let Some(place) = self.place_of_node(file) {
            let node = &mut self.nodes[place].1;
            node.flags = flags;
            node.times[2] = now;
        }
    }

    /// What `setsec` makes of the tree at this moment: the file has this security id, where it is there.
    pub fn set_security(&mut self, now: u64, file: u64, id: u32)
        ensures { tree_of self.new ≡ changed file (λ node. stamped now (record node { security = id })) (tree_of self.old) }
    {
        if let Some(place) = self.place_of_node(file) {
            let node = &mut self.nodes[place].1;
            node.security = id;
            node.times[2] = now;
        }
    }

    /// What `mkreparse` and `rmreparse` make of the tree at this moment: the file has this reparse point or none, where it
    /// is there.
    pub fn set_point(&mut self, now: u64, file: u64, point: Option<Point>)
        ensures { tree_of self.new ≡ put_point now file point (tree_of self.old) }
    {
        if let Some(place) = self.place_of_node(file) {
            let node = &mut self.nodes[place].1;
            node.point = point;
            node.times[2] = now;
        }
    }

    /// The record of a file was changed at this moment.
    pub fn stamp(&mut self, now: u64, file: u64)
        ensures { tree_of self.new ≡ stamp now file (tree_of self.old) }
    {
        if let Some(place) = self.place_of_node(file) {
            self.nodes[place].1.times[2] = now;
        }
    }

    /// The contents of a file were changed at this moment.
    pub fn touch(&mut self, now: u64, file: u64)
        ensures { tree_of self.new ≡ touch now file (tree_of self.old) }
    {
        if let Some(place) = self.place_of_node(file) {
            let node = &mut self.nodes[place].1;
            node.times[1] = now;
            node.times[2] = now;
        }
    }

    /// One link more, in order.
    ///
    /// # Errors
    ///
    /// `Memory`; the tree is as it was.
    #[tactic(auto, unfolding(crate::specs::Plain::tree_of))]
    pub fn add_link(&mut self, link: Link) -> Result<(), No>
        ensures ok { IfOk result (λ _. tree_of self.new ≡ add_link link (tree_of self.old)) }
        ensures err { IfErr result (λ refused. (refused ≡ no.Memory) × (tree_of self.new ≡ tree_of self.old)) }
    {
        let place = self.place_of(self.links.as_slice(), &link);
        self.links.insert(place, link)?;
        Ok(())
    }
}
