//! Flags of a range of clusters, in bytes as they are stored, and in memory.
ghost use Rattle.std.specs.Prelude.{◌≡◌, ◌⊎◌, ◌+◌, ◌*◌, ◌<◌, ◌≤◌, ◌^◌, ℕ, IsTrue, length};
ghost use Rattle.list_laws.specs.Bits.{bit_in};
ghost use Rattle.cluster_bitmap.specs.Words.{bit_for};
ghost use Rattle.stored_bits.specs.PutFlags.{AreAll};

use cluster_bitmap::Bits;

// Sets one flag in bytes, or clears it. All others stay.
fn put_flag(bytes: &mut [u8], flag: usize, value: bool)
    requires { flag < 8 * length bytes.old }
    ensures len { length bytes.new ≡ length bytes.old }
    ensures here { bit_in bytes.new flag ≡ bit_for value }
    ensures others { (k : ℕ) → (k < flag) ⊎ (flag + 1 ≤ k) → bit_in bytes.new k ≡ bit_in bytes.old k }
{
    if value {
        bytes[flag / 8] |= 1u8 << (flag % 8);
        return;
    }
    bytes[flag / 8] &= !(1u8 << (flag % 8));
}

/// Sets or clears so many flags from one on, in bytes that have them, the lowest bit of a byte first. All others stay.
pub fn put_flags(bytes: &mut [u8], from: usize, len: usize, value: bool)
    requires inside { from + len ≤ 8 * length bytes.old }
    requires small { from + len < 2 ^ 64 }
    ensures len { length bytes.new ≡ length bytes.old }
    ensures here { (k : ℕ) → from ≤ k → k < from + len → bit_in bytes.new k ≡ bit_for value }
    ensures others { (k : ℕ) → (k < from) ⊎ (from + len ≤ k) → bit_in bytes.new k ≡ bit_in bytes.old k }
{
    let mut flag = from;
    'flags: while flag < from + len {
        put_flag(bytes, flag, value);
        flag += 1;
    }
}

/// Whether the flags of a range are there, and each is taken, or each is free.
pub fn are_all(bits: &Bits, taken: bool, at: u64, len: u64) -> bool
    ensures each { IsTrue result → AreAll taken bits.now at len }
    ensures inside { IsTrue result → at + len ≤ length bits.now }
    ensures all { AreAll taken bits.now at len → 0 < len → IsTrue result }
{
    if at > bits.count() || len > bits.count() - at {
        return false;
    }
    let mut flag = at;
    'flags: while flag < at + len {
        if bits.is_set(flag) != taken {
            return false;
        }
        flag += 1;
    }
    true
}
