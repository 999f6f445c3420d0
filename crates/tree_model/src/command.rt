//! Commands.
use crate::lists::Path;
use crate::opens::Access;
use vol_bytes::{Name, Octets};

/// A command of a script, by its words. Where a path comes with a `stream`, both are a target: a stream of the
/// file there, `None` for the unnamed one. Offsets, lengths and sizes are in bytes, times in 100 nanoseconds since
/// the year 1601.
#[derive(Debug, Drop)]
pub enum Command {
    /// Sets the moment that later edits write.
    Time {
        now: u64,
    },
    /// Lists a directory.
    Ls {
        path: Path,
    },
    /// Shows what a file is.
    Stat {
        path: Path,
    },
    /// Shows all names of a file.
    Links {
        path: Path,
    },
    /// Shows a stream.
    Cat {
        path: Path,
        stream: Option<Name>,
    },
    /// Shows a range of a stream.
    Read {
        path: Path,
        stream: Option<Name>,
        at: u64,
        len: u64,
    },
    /// Makes a file.
    Create {
        path: Path,
    },
    /// Makes a directory.
    Mkdir {
        path: Path,
    },
    /// Removes a name of a file, and the file with the last that is no DOS name.
    Rm {
        path: Path,
    },
    /// Removes an empty directory.
    Rmdir {
        path: Path,
    },
    /// Gives a file one more name.
    Ln {
        old: Path,
        new: Path,
    },
    /// Gives a file or a directory another name.
    Mv {
        old: Path,
        new: Path,
    },
    /// Writes bytes into a stream, which is made where it is missing.
    Write {
        path: Path,
        stream: Option<Name>,
        at: u64,
        bytes: Octets,
    },
    /// Gives a stream this size; it is made where it is missing.
    Truncate {
        path: Path,
        stream: Option<Name>,
        size: u64,
    },
    /// Zeroes a range of a stream.
    Punch {
        path: Path,
        stream: Option<Name>,
        at: u64,
        len: u64,
    },
    /// Lists the streams of a file.
    Streams {
        path: Path,
    },
    /// Removes a named stream.
    Rmstream {
        path: Path,
        name: Name,
    },
    /// Shows the DOS flags.
    Attr {
        path: Path,
    },
    /// Sets the DOS flags.
    Setattr {
        path: Path,
        flags: u16,
    },
    /// Shows the id of the security descriptor.
    Sec {
        path: Path,
    },
    /// Sets the id of the security descriptor.
    Setsec {
        path: Path,
        id: u32,
    },
    /// Shows a security descriptor.
    Sd {
        id: u32,
    },
    /// Shows the reparse point.
    Reparse {
        path: Path,
    },
    /// Sets the reparse point.
    Mkreparse {
        path: Path,
        tag: u32,
        bytes: Octets,
    },
    /// Removes the reparse point.
    Rmreparse {
        path: Path,
    },
    /// Shows the object id.
    Objid {
        path: Path,
    },
    /// Counts clusters and records.
    Df,
    /// Opens a stream.
    Open {
        path: Path,
        stream: Option<Name>,
        access: Access,
        share: Access,
    },
    /// Shows a range of the stream of a handle.
    Hread {
        handle: u32,
        at: u64,
        len: u64,
    },
    /// Writes bytes into the stream of a handle.
    Hwrite {
        handle: u32,
        at: u64,
        bytes: Octets,
    },
    /// Gives a handle back.
    Close {
        handle: u32,
    },
}
