//! The values of a new volume's attributes, and the entries of its small indexes.
ghost use Rattle.std.specs.Prelude.{◌≡◌, ◌≤◌, ◌<◌, ◌+◌, ◌*◌, ◌^◌, ◌++◌, IfOk, OnOk, length};
ghost use Rattle.record_bytes.specs.Entries.{last_entry, view_entry};
ghost use Rattle.volume_format.specs.Plan.{descriptor_header, extend_entries, name_value, root_value, standard_value};

use crate::Places;
use ntfs_def::standard_information;
use record_bytes::{LAST_ENTRY, index_root, push_name_entry, push_view_entry, push_wide};
use std::alloc::{AllocError, Global};

/// What stands before the only security descriptor: its hash, its id, its place and its size.
pub const DESCRIPTOR_HEADER: [u8; 20] = [
    0, 0x18, 0, 0, 0, 1, 0, 0, 0, 0, 0, 0, 0, 0, 0, 0, 40, 0, 0, 0,
];

/// `$STANDARD_INFORMATION`: hidden, system, and the security id 256.
pub fn standard_value() -> [u8; 72]
    ensures { result ≡ standard_value }
{
    let mut value = [0; 72];
    value[standard_information::FLAGS] = 6;
    value[standard_information::SECURITY + 1] = 1;
    value
}

/// `$FILE_NAME`: a name in the directory `parent`.
#[tactic(auto, using(record_bytes::proofs::NewRecordLaws::wide_laws))]
pub fn name_value(
    alloc: Global,
    parent: u8,
    directory: u8,
    letters: &[u8],
) -> Result<Vec<u8>, AllocError>
    requires { length letters.now ≤ 255 }
    ensures value { IfOk result (λ value. value.items ≡ name_value parent directory letters.now) }
    ensures len { IfOk result (λ value. length value.items ≡ 66 + 2 * length letters.now) }
{
    let mut value = Vec::new(alloc);
    value.extend_from_slice(&[parent, 0, 0, 0, 0, 0, parent, 0])?;
    value.extend_from_slice(&[0; 48])?;
    value.extend_from_slice(&[6, 0, 0, directory, 0, 0, 0, 0, letters.len() as u8, 3])?;
    push_wide(&mut value, letters)?;
    Ok(value)
}

/// `$INDEX_ROOT` of an index of this volume, with these entries.
pub fn root_value(
    alloc: Global,
    places: &Places,
    kind: u8,
    collation: u8,
    children: u8,
    entries: &[u8],
) -> Result<Vec<u8>, AllocError>
    requires { length entries.now < 240 }
    ensures value { IfOk result (λ value. value.items ≡ root_value places.now kind collation children entries.now) }
    ensures len { IfOk result (λ value. length value.items ≡ 32 + length entries.now) }
{
    let clusters = (4096 / places.size()) as u8;
    index_root(alloc, kind, collation, clusters, children, entries)
}

/// The entries of a view index with one key, that of the only security descriptor.
pub fn key_entries(alloc: Global, key: &[u8]) -> Result<Vec<u8>, AllocError>
    requires { length key.now ≤ 8 }
    ensures entries { IfOk result (λ entries. entries.items ≡ view_entry key.now descriptor_header ++ last_entry) }
    ensures len { IfOk result (λ entries. length entries.items ≤ 64) }
{
    let mut entries = Vec::new(alloc);
    push_view_entry(&mut entries, key, &DESCRIPTOR_HEADER)?;
    entries.extend_from_slice(&LAST_ENTRY)?;
    Ok(entries)
}

/// The entries of `$Extend`.
pub fn extend_entries(alloc: Global) -> Result<Vec<u8>, AllocError>
    ensures entries { IfOk result (λ entries. entries.items ≡ extend_entries) }
    ensures len { IfOk result (λ entries. length entries.items ≤ 224) }
{
    let mut entries = Vec::new(alloc);
    let object_ids = name_value(alloc, 11, 0, b"$ObjId")?;
    push_name_entry(&mut entries, 24, 1, &object_ids)?;
    let reparse = name_value(alloc, 11, 0, b"$Reparse")?;
    push_name_entry(&mut entries, 25, 1, &reparse)?;
    entries.extend_from_slice(&LAST_ENTRY)?;
    Ok(entries)
}
