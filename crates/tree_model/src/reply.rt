//! What comes of a command.
ghost use Rattle.std.specs.Prelude.{◌≡◌};

use crate::lists::{Listing, Path, ShownLinks, ShownStreams};
use std::alloc::{AllocError, AllocFailed};
use thiserror::Error;
use vol_bytes::{Name, Octets};

/// A line of `ls`.
#[derive(Debug, Drop)]
pub struct Listed {
    pub dir: bool,
    pub name: Name,
}

/// A line of `links`: the namespace of a name, and the path to it.
#[derive(Debug, Drop)]
pub struct ShownLink {
    pub space: u8,
    pub path: Path,
}

/// A line of `streams`. The size is in bytes; the unnamed stream has the empty name.
#[derive(Debug, Drop)]
pub struct ShownStream {
    pub packed: bool,
    pub size: u64,
    pub name: Name,
}

/// What a command that is done shows before `ok`. Sizes are in bytes, times in 100 nanoseconds since the year 1601.
#[derive(Debug, Drop)]
pub enum Answer {
    /// Nothing.
    Done,
    List(Listing),
    Stat {
        dir: bool,
        links: u64,
        size: u64,
        flags: u16,
        security: u32,
        created: u64,
        modified: u64,
        changed: u64,
        accessed: u64,
    },
    Links(ShownLinks),
    Data(Octets),
    Streams(ShownStreams),
    /// The DOS flags.
    Attr(u16),
    /// The id of the security descriptor.
    Sec(u32),
    /// A security descriptor.
    Sd(Octets),
    Reparse {
        tag: u32,
        bytes: Octets,
    },
    ObjectId(Octets),
    /// All clusters, those without an owner, all records, and those from 24 on that are not in use.
    Df {
        clusters: u64,
        free: u64,
        records: u64,
        free_records: u64,
    },
    Handle(u32),
}

/// Why a line or a command is refused.
#[derive(Clone, Copy, Debug, PartialEq, Eq, Error)]
pub enum No {
    /// The line is no line of a script.
    #[error("the line is not in the grammar")]
    Syntax,
    /// The line has more than 70,000 bytes.
    #[error("the line is too long")]
    Long,
    /// The session has no such handle, or not with the access that is needed.
    #[error("no such handle")]
    NoHandle,
    /// A name on the path is not there.
    #[error("not found")]
    NotFound,
    /// A file stands where a directory is needed.
    #[error("not a directory")]
    NotDir,
    /// A directory on the path has a reparse point.
    #[error("a reparse point is on the path")]
    Reparse,
    /// The path leads to a hidden record.
    #[error("hidden")]
    Hidden,
    /// The name to be dropped is a DOS name.
    #[error("a DOS name")]
    DosName,
    /// The new name may not be given.
    #[error("a bad name")]
    BadName,
    /// A directory stands where a file is needed.
    #[error("a directory")]
    IsDir,
    /// The stream is not there.
    #[error("no such stream")]
    NoStream,
    /// There is no reparse point.
    #[error("no reparse point")]
    NoReparse,
    /// The new name is there already.
    #[error("exists")]
    Exists,
    /// The directory has a name in it.
    #[error("not empty")]
    NotEmpty,
    /// The directory would come to lie in itself.
    #[error("a loop of directories")]
    Loop,
    /// The stream is compressed or encrypted.
    #[error("a packed stream")]
    Packed,
    /// The tag's top bit is clear.
    #[error("a bad tag")]
    BadTag,
    /// The id has no security descriptor.
    #[error("no such security descriptor")]
    NoSecurity,
    /// A length, a size or an end is above its limit.
    #[error("too big")]
    TooBig,
    /// The file has as many names as it may get.
    #[error("too many links")]
    TooManyLinks,
    /// The session has as many handles as it may get.
    #[error("too many handles")]
    TooManyHandles,
    /// An open that is kept conflicts.
    #[error("shared: {session} {handle}")]
    Shared { session: u8, handle: u32 },
    /// A file's attribute list would become too long.
    #[error("too many parts: {length} {more}")]
    TooManyParts { length: u64, more: u64 },
    /// An index is too deep: of a directory, of reparse points or of object ids.
    #[error("an index is too deep")]
    TooDeep,
    /// Record 0 has no room for the table to grow.
    #[error("the table of records is full: {need} {free}")]
    MftFull { need: u64, free: u64 },
    /// There are too few free clusters.
    #[error("no room: {need} {free}")]
    NoRoom { need: u64, free: u64 },
    /// There was no memory.
    #[error("out of memory")]
    Memory,
    /// The command is not built yet, or not for such a volume, or such a file.
    #[error("not built")]
    Unbuilt,
    /// The node to be removed has an object id or a reparse point, and its keys in a view index may not be dropped yet.
    #[error("an object id or a reparse point")]
    Linked,
}

impl From<AllocError> for No {
    ghost use Rattle.tree_model.specs.declared.reply.No.TheVariants.{Memory};

    ghost from_gives = { λ _ e. e ≡ Memory };

    fn from(_: AllocError) -> No {
        No::Memory
    }
}

impl<T: Drop> From<AllocFailed<T>> for No {
    ghost use Rattle.tree_model.specs.declared.reply.No.TheVariants.{Memory};

    ghost from_gives = { λ _ e. e ≡ Memory };

    fn from(_: AllocFailed<T>) -> No {
        No::Memory
    }
}

/// What comes of a command.
#[derive(Debug, Drop)]
pub enum Reply {
    Ok(Answer),
    No(No),
    /// The disk failed.
    Device,
}
