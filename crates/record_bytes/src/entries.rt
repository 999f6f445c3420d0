//! The entries of an index as bytes, and the value of `$INDEX_ROOT`.
ghost use Rattle.std.specs.Prelude.{◌≡◌, ◌≤◌, ◌<◌, ◌+◌, ◌++◌, IfOk, OnOk, length};
ghost use Rattle.ntfs_def.specs.Rounded.{up_to_8};
ghost use Rattle.record_bytes.specs.Entries.{index_root, name_entry, reference_bytes, view_entry};

use crate::attribute::{push_fill, push_padded, up_to_8};
use std::alloc::{AllocError, Global};

/// The last entry of a node without children.
pub const LAST_ENTRY: [u8; 16] = [0, 0, 0, 0, 0, 0, 0, 0, 16, 0, 0, 0, 2, 0, 0, 0];

/// The last entry of a node above the index record 0.
pub const LAST_ABOVE: [u8; 24] = [
    0, 0, 0, 0, 0, 0, 0, 0, 24, 0, 0, 0, 3, 0, 0, 0, 0, 0, 0, 0, 0, 0, 0, 0,
];

/// The value of `$INDEX_ROOT` with these entries, whose index records have 4,096 bytes in so many clusters.
pub fn index_root(
    alloc: Global,
    kind: u8,
    collation: u8,
    clusters: u8,
    children: u8,
    entries: &[u8],
) -> Result<Vec<u8>, AllocError>
    requires { length entries.now < 240 }
    ensures value { IfOk result (λ value. value.items ≡ index_root kind collation clusters children entries.now) }
    ensures len { IfOk result (λ value. length value.items ≡ 32 + length entries.now) }
{
    let used = (16 + entries.len()) as u8;
    let mut value = Vec::new(alloc);
    value.extend_from_slice(&[kind, 0, 0, 0, collation, 0, 0, 0])?;
    value.extend_from_slice(&[0, 0x10, 0, 0, clusters, 0, 0, 0])?;
    value.extend_from_slice(&[16, 0, 0, 0, used, 0, 0, 0, used, 0, 0, 0, children, 0, 0, 0])?;
    value.extend_from_slice(entries)?;
    Ok(value)
}

/// A directory's entry of a name of record `number`.
pub fn push_name_entry(
    entries: &mut Vec<u8>,
    number: u8,
    sequence: u8,
    name: &[u8],
) -> Result<(), AllocError>
    requires { length name.now ≤ 232 }
    ensures entry { OnOk result (entries.new.items ≡ entries.old.items ++ name_entry (reference_bytes number sequence) name.now) }
    ensures len { OnOk result (length entries.new.items ≡ length entries.old.items + (16 + up_to_8 (length name.now))) }
{
    let len = (16 + up_to_8(name.len())) as u8;
    entries.extend_from_slice(&[number, 0, 0, 0, 0, 0, sequence, 0])?;
    entries.extend_from_slice(&[len, 0, name.len() as u8, 0, 0, 0, 0, 0])?;
    push_padded(entries, name)?;
    Ok(())
}

/// An entry of a view index.
pub fn push_view_entry(entries: &mut Vec<u8>, key: &[u8], content: &[u8]) -> Result<(), AllocError>
    requires { length key.now + length content.now ≤ 232 }
    ensures entry { OnOk result (entries.new.items ≡ entries.old.items ++ view_entry key.now content.now) }
    ensures len { OnOk result (length entries.new.items
        ≡ length entries.old.items + (16 + up_to_8 (length key.now + length content.now))) }
{
    let both = key.len() + content.len();
    let len = (16 + up_to_8(both)) as u8;
    entries.extend_from_slice(&[
        (16 + key.len()) as u8,
        0,
        content.len() as u8,
        0,
        0,
        0,
        0,
        0,
    ])?;
    entries.extend_from_slice(&[len, 0, key.len() as u8, 0, 0, 0, 0, 0])?;
    entries.extend_from_slice(key)?;
    entries.extend_from_slice(content)?;
    push_fill(entries, both)?;
    Ok(())
}
