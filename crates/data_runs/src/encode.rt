//! The written form of runs.
ghost use Rattle.std.specs.Prelude.{◌≡◌, ℕ, ◌+◌, ◌^◌, ◌<◌, ◌≤◌, pos, ◌-ℤ◌, List, length};
ghost use Rattle.std.specs.Int.{w64};
ghost use Rattle.byteorder.specs.Endian.{little_bytes, low_bytes};
ghost use Rattle.ntfs_def.specs.Runs.{EndsInReach};
ghost use Rattle.data_runs.specs.Written.{IsFewest, IsOffsetText, IsRunText, PutsText, SpellsShortest};

use byteorder::{ByteOrder, LittleEndian};
use ntfs_def::Run;

fn fewest_bytes(number: u64) -> usize
    requires { number < 2 ^ 63 }
    ensures fewest { IsFewest number result }
    ensures few { result ≤ 8 }
{
    (64 - number.leading_zeros()) as usize / 8 + 1
}

// The bytes that a signed number takes.
fn number_len(number: i64) -> usize
    ensures shortest { SpellsShortest (little_bytes result (low_bytes w64 result number)) number }
    ensures some { 1 ≤ result }
    ensures few { result ≤ 8 }
{
    if number < 0 {
        return fewest_bytes(-(number + 1) as u64);
    }
    fewest_bytes(number as u64)
}

// Writes a signed number at a place, and tells the place behind it.
fn put_number(out: &mut [u8], at: usize, number: i64) -> usize
    requires { (text : List ℕ) → SpellsShortest text number → at + length text ≤ length out.old }
    ensures { PutsText (λ text. SpellsShortest text number) out.old out.new at result }
{
    let len = number_len(number);
    LittleEndian::write_int(&mut out[at..at + len], number, len);
    at + len
}

// How far a place is from the last one.
fn way_from(last: u64, place: u64) -> i64
    requires last { last ≤ 2 ^ 62 }
    requires place { place ≤ 2 ^ 62 }
    ensures { result ≡ pos place -ℤ pos last }
{
    place as i64 - last as i64
}

// The bytes that the place of a run takes.
fn offset_len(last: u64, len: u64, lcn: Option<u64>) -> usize
    requires last { last ≤ 2 ^ 62 }
    requires reach { EndsInReach len lcn }
    ensures exact { (text : List ℕ) → IsOffsetText last lcn text → length text ≡ result }
    ensures few { result ≤ 8 }
{
    match lcn {
        None => 0,
        Some(place) => number_len(way_from(last, place)),
    }
}

// Writes the place of a run, and tells the place in the text behind it.
fn put_offset(out: &mut [u8], at: usize, last: u64, len: u64, lcn: Option<u64>) -> usize
    requires last { last ≤ 2 ^ 62 }
    requires reach { EndsInReach len lcn }
    requires room { (text : List ℕ) → IsOffsetText last lcn text → at + length text ≤ length out.old }
    ensures { PutsText (IsOffsetText last lcn) out.old out.new at result }
{
    match lcn {
        None => at,
        Some(place) => put_number(out, at, way_from(last, place)),
    }
}

// The bytes that a run takes behind one at `last`.
pub fn run_len(last: u64, run: &Run) -> usize
    requires last { last ≤ 2 ^ 62 }
    requires len { run.now.len ≤ 2 ^ 62 }
    requires reach { EndsInReach run.now.len run.now.lcn }
    ensures exact { (text : List ℕ) → IsRunText last run.now text → length text ≡ result }
    ensures few { result ≤ 17 }
{
    1 + number_len(run.len as i64) + offset_len(last, run.len, run.lcn)
}

// Writes a run behind one at `last`, and tells the place in the text behind it.
pub fn put_run(out: &mut [u8], at: usize, last: u64, run: &Run) -> usize
    requires last { last ≤ 2 ^ 62 }
    requires len { run.now.len ≤ 2 ^ 62 }
    requires reach { EndsInReach run.now.len run.now.lcn }
    requires room { (text : List ℕ) → IsRunText last run.now text → at + length text ≤ length out.old }
    ensures { PutsText (IsRunText last run.now) out.old out.new at result }
{
    let middle = put_number(out, at + 1, run.len as i64);
    let end = put_offset(out, middle, last, run.len, run.lcn);
    out[at] = (middle - at - 1 + 16 * (end - middle)) as u8;
    end
}
