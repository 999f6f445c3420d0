//! Bits of bytes, the lowest bit of a byte first, as the bitmaps of a volume have them.
ghost use Rattle.std.specs.Prelude.{◌≡◌, ◌≢◌, ℕ, ◌+◌, ◌-◌, ◌*◌, ◌^◌, ◌<◌, ◌≤◌, length};
ghost use Rattle.std.specs.Int.{bit_at};
ghost use Rattle.list_laws.specs.Bits.{bit_in};
ghost use Rattle.list_laws.specs.BitRanges.{DiffersFirst, Fills, IsLeastWithin, SetsBit};

// The bits from `low` up to `high` of a byte, set.
fn mask(low: u64, high: u64) -> u8
    requires order { low < high }
    requires byte { high ≤ 8 }
    ensures inside { (i : ℕ) → low ≤ i → i < high → bit_at result i ≡ 1 }
    ensures below { (i : ℕ) → i < low → bit_at result i ≡ 0 }
    ensures above { (i : ℕ) → high ≤ i → bit_at result i ≡ 0 }
{
    (u8::MAX << low) & (u8::MAX >> (8 - high))
}

/// Sets the bits of a range, a byte at a time, up to the first that is set already, which is the answer. Other bits of that
/// bit's byte may be set too.
pub fn fill(bits: &mut [u8], from: u64, end: u64) -> Option<u64>
    requires room { end ≤ 8 * length bits.old }
    ensures { Fills bits.old bits.new from end result }
{
    let mut at = from;
    'bytes: while at < end {
        let low = at % 8;
        let high = (low + (end - at)).min(8);
        let mask = mask(low, high);
        let byte = (at / 8) as usize;
        let taken = bits[byte] & mask;
        bits[byte] |= mask;
        if taken != 0 {
            return Some(at - low + u64::from(taken.trailing_zeros()));
        }
        at += high - low;
    }
    None
}

// The lowest bit in which two bytes that differ do.
fn lowest_difference(a: u8, b: u8) -> u32
    requires { a ≢ b }
    ensures { DiffersFirst a b result }
{
    (a ^ b).trailing_zeros()
}

/// The first bit of a piece of a bitmap that differs from that of the bits. The piece begins with byte `from` of the bitmap,
/// and where it goes on behind the bits it is not looked at.
pub fn first_difference(bits: &[u8], piece: &[u8], from: usize) -> Option<u64>
    requires small { length bits.now ≤ 2 ^ 32 }
    ensures { IsLeastWithin (λ k. k < 8 * length bits.now → bit_in piece.now (k - 8 * from) ≡ bit_in bits.now k)
        (8 * from) (8 * (from + length piece.now)) result }
{
    if from >= bits.len() {
        return None;
    }
    for (i, byte) in piece.iter().enumerate() {
        if i >= bits.len() - from {
            return None;
        }
        let own = bits[from + i];
        if *byte != own {
            return Some(8 * (from + i) as u64 + u64::from(lowest_difference(*byte, own)));
        }
    }
    None
}

/// Sets a bit.
pub fn set_bit(bits: &mut [u8], k: u64)
    requires { k < 8 * length bits.old }
    ensures { SetsBit bits.old bits.new k }
{
    bits[(k / 8) as usize] |= 1u8 << (k % 8);
}
