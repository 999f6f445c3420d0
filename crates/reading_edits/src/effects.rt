//! The effects of commands that change names, as steps of trees.
ghost use Rattle.std.specs.Prelude.{◌≡◌, ℕ, List, Some, false, true};
ghost use Rattle.tree_model.specs.Drops.{is_last_name};
ghost use Rattle.tree_model.specs.Effects.{add_link, changed, drop_link, link_to, new_node, security_of, stamp, touch, tree_after};
ghost use Rattle.tree_model.specs.Subjects.{Located, Machine, NameIn};
ghost use Rattle.tree_model.specs.Tree.{Tree, node_of};
ghost use Rattle.tree_model.specs.declared.command.Command.TheVariants as c;
ghost use Rattle.tree_model.specs.declared.tree.Link.{Link};
ghost use Rattle.tree_model.specs.declared.tree.Node.{Node};
ghost use Rattle.name_edits.specs.Dropped.{AreDropped};
ghost use Rattle.reading_edits.specs.Steps.{with_node, without_links, without_node};

/// A node in whose place a change of it is put is changed (`changed`), and links that go one after another, where they are those that go
/// with one, are that link dropped (`dropped`).
pub fn steps_made()
    ensures changed { (tree : Tree) (f : ℕ) (node : Node) (change : Node → Node) → node_of tree f ≡ Some node
        → with_node f (change node) tree ≡ changed f change tree }
    ensures dropped { (tree : Tree) (link : Link) (gone : List Link) → AreDropped tree link gone
        → without_links gone tree ≡ drop_link link tree }
{}

/// What a command makes of the tree, step by step: a file or a directory that is made is put in, then its link, then the times of its
/// directory (`create`, `mkdir`); a further name is a link, the times of the file, and of the directory (`ln`). Links go one after another,
/// then the node with the last of them (`rm_last`, `rmdir`), or the times of the file (`rm_other`), and the times of the directory. A file
/// that moves loses its links first (`mv`).
pub fn commands_made()
    ensures create { (m : Machine) (at : Located) (path : List (List ℕ)) (f parent : ℕ) (name : List ℕ) → at.new ≡ NameIn parent name
        → touch m.now parent (add_link (link_to f parent name) (with_node f (new_node false m.now (security_of m.tree parent)) m.tree))
        ≡ tree_after m (c.Create path) at f }
    ensures mkdir { (m : Machine) (at : Located) (path : List (List ℕ)) (f parent : ℕ) (name : List ℕ) → at.new ≡ NameIn parent name
        → touch m.now parent (add_link (link_to f parent name) (with_node f (new_node true m.now (security_of m.tree parent)) m.tree))
        ≡ tree_after m (c.Mkdir path) at f }
    ensures ln { (m : Machine) (at : Located) (old new : List (List ℕ)) (file parent : ℕ) (name : List ℕ) → at.new ≡ NameIn parent name
        → touch m.now parent (stamp m.now at.file (add_link (link_to at.file parent name) m.tree)) ≡ tree_after m (c.Ln old new) at file }
    ensures rm_last { (m : Machine) (at : Located) (path : List (List ℕ)) (file : ℕ) (link : Link) (gone : List Link) → at.link ≡ Some link
        → AreDropped m.tree link gone → is_last_name m.tree link ≡ true
        → touch m.now link.parent (without_node link.child (without_links gone m.tree)) ≡ tree_after m (c.Rm path) at file }
    ensures rm_other { (m : Machine) (at : Located) (path : List (List ℕ)) (file : ℕ) (link : Link) (gone : List Link) → at.link ≡ Some link
        → AreDropped m.tree link gone → is_last_name m.tree link ≡ false
        → touch m.now link.parent (stamp m.now link.child (without_links gone m.tree)) ≡ tree_after m (c.Rm path) at file }
    ensures rmdir { (m : Machine) (at : Located) (path : List (List ℕ)) (file : ℕ) (link : Link) (gone : List Link) → at.link ≡ Some link
        → AreDropped m.tree link gone → is_last_name m.tree link ≡ true
        → touch m.now link.parent (without_node link.child (without_links gone m.tree)) ≡ tree_after m (c.Rmdir path) at file }
    ensures mv { (m : Machine) (at : Located) (old new : List (List ℕ)) (file : ℕ) (link : Link) (gone : List Link) (parent : ℕ)
        (name : List ℕ) → at.link ≡ Some link → at.new ≡ NameIn parent name → AreDropped m.tree link gone
        → touch m.now parent (stamp m.now at.file (add_link (link_to at.file parent name)
        (touch m.now link.parent (without_links gone m.tree)))) ≡ tree_after m (c.Mv old new) at file }
{}
