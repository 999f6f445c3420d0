//! The parts of the tree.
ghost use Rattle.std.specs.Prelude.{◌≡◌};
ghost use Rattle.ntfs_def.specs.KeyOrder.{fold_of};
ghost use Rattle.tree_model.specs.Tree.{compare_links};

use crate::lists::{RawAttrs, Streams};
use std::cmp::Ordering;
use upcase::UpCase;
use vol_bytes::{Name, Octets};

/// The DOS flags that commands show and set: read-only, hidden, system, archive, temporary, offline and not indexed.
pub const SHOWN_FLAGS: u16 = 0x3127;

/// What a stream or an attribute holds.
#[derive(Debug, Drop)]
pub enum Content {
    /// Its bytes.
    Plain(Octets),
    /// Compressed or encrypted content, of which the real size alone is told, in bytes.
    Packed(u64),
}

/// A stream of a file; the unnamed one has the empty name.
#[derive(Debug, Drop)]
pub struct Stream {
    pub name: Name,
    pub content: Content,
}

/// A reparse point.
#[derive(Debug, Drop)]
pub struct Point {
    pub tag: u32,
    pub bytes: Octets,
}

/// An attribute that no other part of the tree shows, by its type and name.
#[derive(Debug, Drop)]
pub struct RawAttr {
    pub kind: u32,
    pub name: Name,
    pub value: Content,
}

/// A file or a directory.
#[derive(Debug, Drop)]
pub struct Node {
    pub dir: bool,
    /// Creation, modification, record change and access, in 100 nanoseconds since the year 1601.
    pub times: [u64; 4],
    /// The DOS flags that commands show and set.
    pub flags: u16,
    /// The id of the security descriptor.
    pub security: u32,
    /// The streams, in name order.
    pub streams: Streams,
    pub point: Option<Point>,
    /// All other attributes, by type and name.
    pub others: RawAttrs,
}

/// A name of a file in a directory, both by record number, with the name's namespace.
#[derive(Debug, Drop)]
pub struct Link {
    pub parent: u64,
    pub name: Name,
    pub space: u8,
    pub child: u64,
}

impl Link {
    ghost use Rattle.tree_model.specs.Tree.{is_dos};

    /// Whether it is a DOS name: the short partner of a Win32 name.
    pub fn is_dos(&self) -> bool
        ensures { result ≡ is_dos self.now }
    {
        self.space == 2
    }
}

/// Links by directory and name: the names by the table of case, and those that are the same by their units, namespaces and files.
pub fn compare_links(case: &UpCase, a: &Link, b: &Link) -> Ordering
    ensures { result ≡ compare_links (fold_of case.now) a.now b.now }
{
    let names = case.compare(a.name.as_slice(), b.name.as_slice());
    let rest = a.space.cmp(&b.space).then(a.child.cmp(&b.child));
    a.parent.cmp(&b.parent).then(names.then(rest))
}

/// What a path leads to.
#[derive(Debug, Drop)]
pub enum Found {
    /// The root, which no link leads to that is shown.
    Root,
    /// What this link names.
    Link(Link),
}
