//! The link that a name of a file says, as the key of an entry of a directory and as the value of an attribute.
ghost use Rattle.std.specs.Prelude.{◌≡◌, IfOk, IsTrue};
ghost use Rattle.vol_bytes.specs.Field.{u64_at};
ghost use Rattle.ntfs_def.specs.FileName.{is_name_key, key_units};
ghost use Rattle.ntfs_def.specs.Node.{IsOwnEntry, item_in};
ghost use Rattle.ntfs_def.specs.declared.index.NodeForm.TheVariants.{Names};
ghost use Rattle.dir_index.specs.Links.{key_link, link_in};

use ntfs_def::file_name::{UNITS, UNITS_LEN, is_name_key};
use ntfs_def::{file_name, index_record, reference};
use std::alloc::{AllocError, Global};
use tree_model::Link;
use vol_bytes::{Name, u16_at, u64_at};

/// The key of an entry.
#[tactic(auto, unfolding(ntfs_def::specs::Node::item_at))]
pub(crate) fn key_in(entry: &[u8]) -> &[u8]
    requires { IsOwnEntry Names entry.now }
    ensures { result.now ≡ (item_in entry.now).key }
{
    &entry[index_record::KEY..index_record::KEY + u16_at(entry, index_record::KEY_LEN) as usize]
}

// The reference of the file that an entry names.
#[tactic(auto, unfolding(ntfs_def::specs::Node::item_at))]
fn reference_in(entry: &[u8]) -> u64
    requires { IsOwnEntry Names entry.now }
    ensures { result ≡ u64_at (item_in entry.now).head 0 }
{
    u64_at(entry, 0)
}

// The units of a key.
#[tactic(auto, unfolding(ntfs_def::specs::Units::units_at))]
fn units_in(alloc: Global, key: &[u8]) -> Result<Vec<u16>, AllocError>
    requires { IsTrue (is_name_key key.now) }
    ensures { IfOk result (λ units. units.items ≡ key_units key.now) }
{
    (0..key[UNITS_LEN] as usize)
        .map(|k| u16_at(key, UNITS + 2 * k))
        .collect(alloc)
}

/// The link that the value of a `$FILE_NAME` says, of the file of a number. `None` exactly where the value is no whole name.
///
/// # Errors
///
/// Want of memory alone.
#[tactic(auto, unfolding(ntfs_def::specs::FileName::name_in))]
pub fn link_of_key(alloc: Global, key: &[u8], child: u64) -> Result<Option<Link>, AllocError>
    ensures { IfOk result (λ link. link ≡ key_link child key.now) }
{
    if !is_name_key(key) {
        return Ok(None);
    }
    let units = units_in(alloc, key)?;
    Ok(Some(Link {
        parent: u64_at(key, 0) % reference::NUMBERS,
        name: Name::from_vec(units),
        space: key[file_name::NAMESPACE],
        child,
    }))
}

/// The link that an entry says, of a node of names. `None` exactly where its key is no name.
///
/// # Errors
///
/// Want of memory alone.
pub fn link_of_entry(alloc: Global, entry: &[u8]) -> Result<Option<Link>, AllocError>
    requires { IsOwnEntry Names entry.now }
    ensures { IfOk result (λ link. link ≡ link_in entry.now) }
{
    link_of_key(
        alloc,
        key_in(entry),
        reference_in(entry) % reference::NUMBERS,
    )
}
