//! Opens of files.
use vol_bytes::Name;

/// What an open may do, or lets others do: read, write and delete.
#[derive(Clone, Copy, Debug, PartialEq, Eq)]
pub struct Access {
    pub r: bool,
    pub w: bool,
    pub d: bool,
}

/// An open that is kept: its session and handle, the file by its record number, the stream as it was named (the
/// unnamed one has the empty name), what it may do, and what it lets others do.
#[derive(Debug, Drop)]
pub struct OpenEntry {
    pub session: u8,
    pub handle: u32,
    pub file: u64,
    pub stream: Name,
    pub access: Access,
    pub share: Access,
}
