//! The body of a new file: its empty stream, or of a directory the root of its index.
ghost use Rattle.std.specs.Prelude.{◌≡◌, ◌<◌, ◌≤◌, ◌*◌, ◌/◌, IfOk, length, true};
ghost use Rattle.ntfs_def.specs.Shape.{IsOneAttribute};
ghost use Rattle.made_edits.specs.Comes.{body_bytes, empty_root};

use ntfs_def::index_root::DIRECTORY_INDEX;
use ntfs_def::kinds::{DATA, FILE_NAME, INDEX_ROOT};
use ntfs_def::lengths::INDEX_RECORD;
use record_bytes::{LAST_ENTRY, index_root, resident};
use std::alloc::{AllocError, Global};

// The rule by which an index of names is in order.
const BY_NAME: u8 = 1;

// The clusters of an index record, where a cluster has so many sectors.
fn record_clusters(sectors: u64) -> u8
    requires some { 0 < sectors }
    requires few { sectors ≤ 8 }
    ensures { result ≡ 4096 / (512 * sectors) }
{
    (INDEX_RECORD as u64 / (512 * sectors)) as u8
}

// The root of an index of names that has none yet, where a cluster has so many sectors.
fn empty_root(alloc: Global, sectors: u64) -> Result<Vec<u8>, AllocError>
    requires some { 0 < sectors }
    requires few { sectors ≤ 8 }
    ensures root { IfOk result (λ root. root.items ≡ empty_root (512 * sectors)) }
    ensures len { IfOk result (λ root. length root.items ≡ 48) }
{
    index_root(
        alloc,
        FILE_NAME as u8,
        BY_NAME,
        record_clusters(sectors),
        0,
        &LAST_ENTRY,
    )
}

// The index of a new directory, as an attribute.
fn new_index(alloc: Global, sectors: u64) -> Result<Vec<u8>, AllocError>
    requires some { 0 < sectors }
    requires few { sectors ≤ 8 }
    ensures bytes { IfOk result (λ index. index.items ≡ body_bytes true (512 * sectors)) }
    ensures one { IfOk result (λ index. IsOneAttribute index.items) }
    ensures len { IfOk result (λ index. length index.items ≡ 80) }
{
    let root = empty_root(alloc, sectors)?;
    resident(alloc, INDEX_ROOT, DIRECTORY_INDEX, 1, &root)
}

/// The body of a new file as an attribute: its empty stream, or of a directory the root of its index, where a cluster has so many sectors.
///
/// # Errors
///
/// Want of memory alone.
pub fn new_body(alloc: Global, directory: bool, sectors: u64) -> Result<Vec<u8>, AllocError>
    requires some { 0 < sectors }
    requires few { sectors ≤ 8 }
    ensures bytes { IfOk result (λ body. body.items ≡ body_bytes directory (512 * sectors)) }
    ensures one { IfOk result (λ body. IsOneAttribute body.items) }
    ensures few { IfOk result (λ body. length body.items ≤ 80) }
{
    if directory {
        new_index(alloc, sectors)
    } else {
        resident(alloc, DATA, &[], 1, &[])
    }
}
