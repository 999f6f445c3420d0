//! UTF-16 units as they are stored.
ghost use Rattle.std.specs.Prelude.{◌≡◌, IfOk};
ghost use Rattle.ntfs_def.specs.Units.{units_in};

use std::alloc::{AllocError, Global};
use vol_bytes::u16_at;

/// The units in bytes, two bytes each, of which a last odd one is left out.
///
/// # Errors
///
/// Want of memory alone.
#[tactic(auto, unfolding(crate::specs::Units::units_at))]
pub fn read_units(alloc: Global, bytes: &[u8]) -> Result<Vec<u16>, AllocError>
    ensures { IfOk result (λ units. units.items ≡ units_in bytes.now) }
{
    (0..bytes.len() / 2)
        .map(|k| u16_at(bytes, 2 * k))
        .collect(alloc)
}
