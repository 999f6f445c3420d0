//! Which records are in use.
ghost use Rattle.std.specs.Prelude.{◌≤◌, ◌*◌, ◌^◌, length};

mod bitmap;

pub use bitmap::used_laws;

/// Which records of the table are in use, as far as they are noted.
#[derive(Debug, Drop)]
pub struct Used {
    // A bit for each record, the lowest of a byte first.
    bits: Vec<u8>,
    count: u64,
    ghost room: { count ≤ 8 * length bits.items },
    ghost small: { length bits.items ≤ 2 ^ 32 },
}
