//! The directory in which a path ended, so that the next path in it need not be walked to it again.
ghost use Rattle.std.specs.Prelude.{◌≡◌, ◌↔◌, IfOk, IsTrue};

use file_record::BaseFile;
use std::alloc::{AllocError, Global};
use vol_bytes::Name;

/// A directory that is held, and the names that lead to it from the root.
#[derive(Drop)]
pub struct Standing {
    pub names: Vec<Name>,
    pub directory: BaseFile,
}

/// Whether two lists have the same names, unit by unit.
pub fn are_same_names(one: &[Name], other: &[Name]) -> bool
    ensures { IsTrue result ↔ (one.now ≡ other.now) }
{
    let mut rest = other;
    'names: for name in one {
        let Some((first, behind)) = rest.split_first() else {
            return false;
        };
        if first.as_slice() != name.as_slice() {
            return false;
        }
        rest = behind;
    }
    rest.is_empty()
}

/// These names again.
///
/// # Errors
///
/// `AllocError` where there is no memory.
pub fn copied_names(alloc: Global, names: &[Name]) -> Result<Vec<Name>, AllocError>
    ensures { IfOk result (λ copy. copy.items ≡ names.now) }
{
    let mut copy = Vec::new(alloc);
    'names: for name in names {
        copy.push(Name::from_vec(Vec::from_slice(alloc, name.as_slice())?))?;
    }
    Ok(copy)
}
