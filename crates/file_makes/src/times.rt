//! One moment written four times.
ghost use Rattle.std.specs.Prelude.{◌≡◌, ◌+◌, ◌≤◌, ◌∷◌, [], length};
ghost use Rattle.vol_bytes.specs.Field.{SameOutside, u64_at};

use vol_bytes::put_u64;

/// Writes a moment four times, one behind the other.
pub fn put_moment(bytes: &mut [u8], at: usize, moment: u64)
    requires { at + 0x20 ≤ length bytes.old }
    ensures times { u64_at bytes.new at ∷ u64_at bytes.new (at + 0x08) ∷ u64_at bytes.new (at + 0x10) ∷ u64_at bytes.new (at + 0x18) ∷ []
        ≡ moment ∷ moment ∷ moment ∷ moment ∷ [] }
    ensures rest { SameOutside bytes.old bytes.new at (at + 0x20) }
{
    put_u64(bytes, at, moment);
    put_u64(bytes, at + 0x08, moment);
    put_u64(bytes, at + 0x10, moment);
    put_u64(bytes, at + 0x18, moment);
}
