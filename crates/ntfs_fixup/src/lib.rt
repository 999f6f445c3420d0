//! Opens and seals the blocks of a volume that are protected by an update sequence: file records and
//! index records. A block of any number of strides of 512 bytes is handled in place.
#![tactic(auto)]

ghost use Rattle.std.specs.Prelude.{◌≡◌, ◌↔◌, IfErr, IsOk, IsTrue, MatchOption, OnErr, OnOk};
ghost use Rattle.ntfs_def.specs.Fixup.{HasArray, IsFirstTorn, IsSealed, Seals, array_place, bare_of, next_number, opened_of};
ghost use Rattle.ntfs_fixup.specs.FixFault.{Refuses};
ghost use Rattle.ntfs_fixup.specs.Marks.{Marks};

mod laws;

pub use laws::{edited_alike, one_answer, patched_alike, sealed_opens};
use ntfs_def::protected_block::{ARRAY_COUNT, ARRAY_PLACE};
use thiserror::Error;
use vol_bytes::{put_u16, u16_at};

/// The bytes of a stride.
const STRIDE: usize = 512;

/// The place of the last two bytes of a stride in it.
const STRIDE_END: usize = 510;

/// Why a block does not open.
#[derive(Clone, Copy, Debug, PartialEq, Eq, Error)]
pub enum FixFault {
    /// The block is not whole strides, or its update sequence array does not have one number more
    /// than there are strides, or does not lie in the bytes 8 to 509.
    #[error("no update sequence array of the block's size")]
    Array,
    /// The first stride that does not end with the update sequence number.
    #[error("stride {stride} was not written with its block")]
    Torn { stride: usize },
}

fn has_array(block: &[u8]) -> bool
    ensures { IsTrue result ↔ HasArray block.now }
{
    if block.is_empty() || block.len() % STRIDE != 0 {
        return false;
    }
    let place = u16_at(block, ARRAY_PLACE) as usize;
    let count = u16_at(block, ARRAY_COUNT) as usize;
    count == block.len() / STRIDE + 1 && place >= 8 && place + 2 * count <= STRIDE_END
}

fn first_torn(block: &[u8]) -> Option<usize>
    requires { HasArray block.now }
    ensures { MatchOption result (IsSealed block.now) (IsFirstTorn block.now) }
{
    let place = u16_at(block, ARRAY_PLACE) as usize;
    let number = u16_at(block, place);
    for stride in 0..block.len() / STRIDE {
        if u16_at(block, STRIDE * stride + STRIDE_END) != number {
            return Some(stride);
        }
    }
    None
}

// Puts back what the strides end with in truth.
fn restore(block: &mut [u8])
    requires { HasArray block.old }
    ensures { block.new ≡ opened_of block.old }
{
    let place = u16_at(block, ARRAY_PLACE) as usize;
    let strides = block.len() / STRIDE;
    for stride in 0..strides {
        let pair = place + 2 * (stride + 1);
        block[STRIDE * stride + STRIDE_END] = block[pair];
        block[STRIDE * stride + STRIDE_END + 1] = block[pair + 1];
    }
}

/// Opens a stored block: puts back what its strides end with in truth.
///
/// # Errors
///
/// `Array` where there is no such array as the block's size asks for, else `Torn` with the first
/// stride that does not end with the update sequence number. The block is then as before.
pub fn unseal(block: &mut [u8]) -> Result<(), FixFault>
    ensures sealed { IsOk result ↔ IsSealed block.old }
    ensures opened { OnOk result (block.new ≡ opened_of block.old) }
    ensures array { OnOk result (HasArray block.new) }
    ensures err { IfErr result (Refuses block.old) }
    ensures kept { OnErr result (block.new ≡ block.old) }
{
    if !has_array(block) {
        return Err(FixFault::Array);
    }
    if let Some(stride) = first_torn(block) {
        return Err(FixFault::Torn { stride });
    }
    restore(block);
    Ok(())
}

fn next_number(number: u16) -> u16
    ensures { result ≡ next_number number }
{
    if number < 0xFFFE { number + 1 } else { 1 }
}

// Moves what the strides end with into the array at `place`, and ends them with the number.
fn mark(block: &mut [u8], place: usize, number: u16)
    requires array { HasArray block.old }
    requires place { place ≡ array_place block.old }
    ensures { Marks block.old block.new number }
{
    put_u16(block, place, number);
    let strides = block.len() / STRIDE;
    for stride in 0..strides {
        let pair = place + 2 * (stride + 1);
        block[pair] = block[STRIDE * stride + STRIDE_END];
        block[pair + 1] = block[STRIDE * stride + STRIDE_END + 1];
        put_u16(block, STRIDE * stride + STRIDE_END, number);
    }
}

/// Seals a block to be stored: moves what its strides end with into the array, and ends each of them
/// with the next update sequence number. The block is one that opened, or a new one with an array.
pub fn seal(block: &mut [u8])
    requires { HasArray block.old }
    ensures seals { Seals block.old block.new }
    ensures bare { bare_of (opened_of block.new) ≡ bare_of block.old }
{
    let place = u16_at(block, ARRAY_PLACE) as usize;
    let number = next_number(u16_at(block, place));
    mark(block, place, number);
}
