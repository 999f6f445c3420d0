//! Small types over vectors, which contracts see as lists.
ghost use Rattle.std.specs.Prelude.{◌≡◌};

use crate::reply::{Listed, ShownLink, ShownStream};
use crate::tree::{RawAttr, Stream};
use std::marker::Model;
use vol_bytes::Name;

/// The names of a path from the root on; the root has none.
#[derive(Debug, Drop)]
pub struct Path {
    names: Vec<Name>,
}

impl Model for Path {
    ghost use Rattle.std.specs.Prelude.{List, ℕ};

    ghost Value = { List (List ℕ) };

    ghost view = { λ it. it.names.items };
}

impl Path {
    /// A path of these names. It takes no memory.
    pub fn from_vec(items: Vec<Name>) -> Path
        ensures { result ≡ items.items }
    {
        Path { names: items }
    }

    /// Its names.
    pub fn as_slice(&self) -> &[Name]
        ensures { result.now ≡ self.now }
    {
        self.names.as_slice()
    }

    /// Its names in the vector that holds them. It takes no memory.
    pub fn into_vec(self) -> Vec<Name>
        ensures { result.items ≡ self }
    {
        self.names
    }
}

/// The streams of a file, in name order.
#[derive(Debug, Drop)]
pub struct Streams {
    streams: Vec<Stream>,
}

impl Model for Streams {
    ghost use Rattle.std.specs.Prelude.{List};
    ghost use Rattle.tree_model.specs.declared.tree.Stream.{Stream};

    ghost Value = { List Stream };

    ghost view = { λ it. it.streams.items };
}

impl Streams {
    /// These streams. It takes no memory.
    pub fn from_vec(items: Vec<Stream>) -> Streams
        ensures { result ≡ items.items }
    {
        Streams { streams: items }
    }

    /// The streams.
    pub fn as_slice(&self) -> &[Stream]
        ensures { result.now ≡ self.now }
    {
        self.streams.as_slice()
    }

    /// The streams in the vector that holds them. It takes no memory.
    pub fn into_vec(self) -> Vec<Stream>
        ensures { result.items ≡ self }
    {
        self.streams
    }
}

/// The attributes of a file that no other part of the tree shows, by type and name.
#[derive(Debug, Drop)]
pub struct RawAttrs {
    attributes: Vec<RawAttr>,
}

impl Model for RawAttrs {
    ghost use Rattle.std.specs.Prelude.{List};
    ghost use Rattle.tree_model.specs.declared.tree.RawAttr.{RawAttr};

    ghost Value = { List RawAttr };

    ghost view = { λ it. it.attributes.items };
}

impl RawAttrs {
    /// These attributes. It takes no memory.
    pub fn from_vec(items: Vec<RawAttr>) -> RawAttrs
        ensures { result ≡ items.items }
    {
        RawAttrs { attributes: items }
    }

    /// The attributes.
    pub fn as_slice(&self) -> &[RawAttr]
        ensures { result.now ≡ self.now }
    {
        self.attributes.as_slice()
    }

    /// The attributes in the vector that holds them. It takes no memory.
    pub fn into_vec(self) -> Vec<RawAttr>
        ensures { result.items ≡ self }
    {
        self.attributes
    }
}

/// The lines of `ls`, in name order.
#[derive(Debug, Drop)]
pub struct Listing {
    lines: Vec<Listed>,
}

impl Model for Listing {
    ghost use Rattle.std.specs.Prelude.{List};
    ghost use Rattle.tree_model.specs.declared.reply.Listed.{Listed};

    ghost Value = { List Listed };

    ghost view = { λ it. it.lines.items };
}

impl Listing {
    /// These lines. It takes no memory.
    pub fn from_vec(items: Vec<Listed>) -> Listing
        ensures { result ≡ items.items }
    {
        Listing { lines: items }
    }

    /// The lines.
    pub fn as_slice(&self) -> &[Listed]
        ensures { result.now ≡ self.now }
    {
        self.lines.as_slice()
    }

    /// The lines in the vector that holds them. It takes no memory.
    pub fn into_vec(self) -> Vec<Listed>
        ensures { result.items ≡ self }
    {
        self.lines
    }
}

/// The lines of `links`, in byte order of their paths.
#[derive(Debug, Drop)]
pub struct ShownLinks {
    lines: Vec<ShownLink>,
}

impl Model for ShownLinks {
    ghost use Rattle.std.specs.Prelude.{List};
    ghost use Rattle.tree_model.specs.declared.reply.ShownLink.{ShownLink};

    ghost Value = { List ShownLink };

    ghost view = { λ it. it.lines.items };
}

impl ShownLinks {
    /// These lines. It takes no memory.
    pub fn from_vec(items: Vec<ShownLink>) -> ShownLinks
        ensures { result ≡ items.items }
    {
        ShownLinks { lines: items }
    }

    /// The lines.
    pub fn as_slice(&self) -> &[ShownLink]
        ensures { result.now ≡ self.now }
    {
        self.lines.as_slice()
    }

    /// The lines in the vector that holds them. It takes no memory.
    pub fn into_vec(self) -> Vec<ShownLink>
        ensures { result.items ≡ self }
    {
        self.lines
    }
}

/// The lines of `streams`, in name order.
#[derive(Debug, Drop)]
pub struct ShownStreams {
    lines: Vec<ShownStream>,
}

impl Model for ShownStreams {
    ghost use Rattle.std.specs.Prelude.{List};
    ghost use Rattle.tree_model.specs.declared.reply.ShownStream.{ShownStream};

    ghost Value = { List ShownStream };

    ghost view = { λ it. it.lines.items };
}

impl ShownStreams {
    /// These lines. It takes no memory.
    pub fn from_vec(items: Vec<ShownStream>) -> ShownStreams
        ensures { result ≡ items.items }
    {
        ShownStreams { lines: items }
    }

    /// The lines.
    pub fn as_slice(&self) -> &[ShownStream]
        ensures { result.now ≡ self.now }
    {
        self.lines.as_slice()
    }

    /// The lines in the vector that holds them. It takes no memory.
    pub fn into_vec(self) -> Vec<ShownStream>
        ensures { result.items ≡ self }
    {
        self.lines
    }
}
