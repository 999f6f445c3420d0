//! A bitmap in memory: which clusters of a volume, or which records of its table, are taken.
#![tactic(auto)]

ghost use Rattle.std.specs.Prelude.{◌≡◌, ℕ, ◌+◌, ◌-◌, ◌*◌, ◌^◌, ◌<◌, ◌≤◌, not, count_by, length, slice_get, Some, IfOk, IfSome, IfNone};
ghost use Rattle.std.specs.Int.{bit_at};
ghost use Rattle.list_laws.specs.Bits.{bit_in, flags_in};
ghost use Rattle.cluster_bitmap.specs.Flags.{IsFirstRun, IsFree, IsTaken, with_given, with_taken};
ghost use Rattle.cluster_bitmap.specs.Words.{bit_of, clear_below, bit_for, IsClear, seen};

mod laws;

use byteorder::{ByteOrder, LittleEndian};
pub use laws::{given_range_laws, taken_range_laws};
use std::alloc::{AllocError, Global};
use std::marker::Model;
use thiserror::Error;

/// Why there is no bitmap.
#[derive(Clone, Copy, Debug, PartialEq, Eq, Error)]
pub enum BitsNo {
    /// There was no memory for it.
    #[error("out of memory")]
    Memory,
}

impl From<AllocError> for BitsNo {
    fn from(_error: AllocError) -> BitsNo {
        BitsNo::Memory
    }
}

// A bitmap of more bits is in no memory.
const MOST: u64 = 1 << 62;

/// A flag for each cluster or record, true where it is taken.
#[derive(Drop)]
pub struct Bits {
    // The bits behind the last flag are set, so that none counts as free.
    words: Vec<u64>,
    count: u64,
}

impl Model for Bits {
    ghost use Rattle.std.specs.Prelude.{Bool, List};
    ghost use Rattle.cluster_bitmap.specs.Flags.{IsFree, with_taken};
    ghost use Rattle.cluster_bitmap.specs.Words.{flags_of, IsPadded};

    ghost Value = { List Bool };

    ghost view = { λ bits. flags_of bits.words.items bits.count };

    ghost invariant = { λ bits. IsPadded bits.words.items bits.count };
}

impl Bits {
    /// The first `count` bits of a stored bitmap. A count above 2^62 finds no memory.
    pub fn load(alloc: Global, bytes: &[u8], count: u64) -> Result<Bits, BitsNo>
        requires { count ≤ 8 * length bytes.now }
        ensures flags { IfOk result (λ bits. bits ≡ flags_in bytes.now count) }
        ensures count { IfOk result (λ bits. length bits ≡ count) }
    {
        if count > MOST {
            return Err(BitsNo::Memory);
        }
        let mut words = read_words(alloc, bytes, count)?;
        pad(&mut words, count);
        Ok(Bits { words, count })
    }

    /// The flags.
    pub fn count(&self) -> u64
        ensures { result ≡ length self.now }
    {
        self.count
    }

    /// The flags that are free.
    pub fn count_free(&self) -> u64
        ensures { result ≡ count_by not self.now }
    {
        clear_bits(&self.words)
    }

    /// Whether the flag is taken.
    pub fn is_set(&self, at: u64) -> bool
        requires { at < length self.now }
        ensures { slice_get self.now at ≡ Some result }
    {
        self.words[(at / 64) as usize] >> (at % 64) & 1 == 1
    }

    /// Takes the flags of a range, which are free. All others stay.
    pub fn take(&mut self, at: u64, len: u64)
        requires { IsFree self.old at len }
        ensures flags { self.new ≡ with_taken self.old at len }
        ensures count { length self.new ≡ length self.old }
    {
        if len > 0 {
            put_range(&mut self.words, at, len, true);
        }
    }

    /// Gives the flags of a range back, which are taken. All others stay.
    pub fn give(&mut self, at: u64, len: u64)
        requires { IsTaken self.old at len }
        ensures flags { self.new ≡ with_given self.old at len }
        ensures count { length self.new ≡ length self.old }
    {
        if len > 0 {
            put_range(&mut self.words, at, len, false);
        }
    }

    /// The first start of a free run of this length at or after `from`, else the first of all. A place past the end
    /// counts as the end.
    pub fn find_run(&self, len: u64, from: u64) -> Option<u64>
        requires { 0 < len }
        ensures some { IfSome result (λ at. IsFirstRun self.now len from at) }
        ensures none { IfNone result ((at : ℕ) → IsFree self.now at len → ⊥) }
    {
        let end = 64 * self.words.len() as u64;
        let start = from.min(end);
        match find_in(&self.words, len, start, end) {
            Some(at) => Some(at),
            None => find_in(&self.words, len, 0, start),
        }
    }
}

// The eight bytes at a place as a number, the lowest first. Those behind the end are zeros.
fn word_at(bytes: &[u8], at: usize) -> u64
    requires { at < length bytes.now }
    ensures { (i : ℕ) → i < 64 → i < 8 * (length bytes.now - at) → bit_at result i ≡ bit_in bytes.now (8 * at + i) }
{
    let rest = &bytes[at..];
    LittleEndian::read_uint(rest, rest.len().min(8))
}

// The first bits of bytes in words, and the bits that come with the last of them.
fn read_words(alloc: Global, bytes: &[u8], count: u64) -> Result<Vec<u64>, AllocError>
    requires bytes { count ≤ 8 * length bytes.now }
    requires small { count ≤ 2 ^ 62 }
    ensures enough { IfOk result (λ words. count ≤ 64 * length words.items) }
    ensures few { IfOk result (λ words. 64 * length words.items < count + 64) }
    ensures bits { IfOk result (λ words. (at : ℕ) → at < count → bit_of words.items at ≡ bit_in bytes.now at) }
{
    let mut words = Vec::with_capacity(alloc, count.div_ceil(64) as usize)?;
    for place in 0..count.div_ceil(64) {
        words.push(word_at(bytes, 8 * place as usize))?;
    }
    Ok(words)
}

// Sets the bits from `count` on.
fn pad(words: &mut [u64], count: u64)
    requires enough { count ≤ 64 * length words.old }
    requires few { 64 * length words.old < count + 64 }
    ensures len { length words.new ≡ length words.old }
    ensures set { (at : ℕ) → count ≤ at → at < 64 * length words.new → bit_of words.new at ≡ 1 }
    ensures kept { (at : ℕ) → at < count → bit_of words.new at ≡ bit_of words.old at }
{
    let within = count % 64;
    if within != 0 {
        words[(count / 64) as usize] |= u64::MAX << within;
    }
}

// The bits from `low` up to `high` of a word, set.
fn mask(low: u64, high: u64) -> u64
    requires order { low < high }
    requires word { high ≤ 64 }
    ensures inside { (i : ℕ) → low ≤ i → i < high → bit_at result i ≡ 1 }
    ensures below { (i : ℕ) → i < low → bit_at result i ≡ 0 }
    ensures above { (i : ℕ) → high ≤ i → bit_at result i ≡ 0 }
{
    (u64::MAX << low) & (u64::MAX >> (64 - high))
}

// A word with its bits from `low` up to `high` put to a value.
fn put_within(word: u64, low: u64, high: u64, value: bool) -> u64
    requires order { low < high }
    requires word { high ≤ 64 }
    ensures inside { (i : ℕ) → low ≤ i → i < high → bit_at result i ≡ bit_for value }
    ensures below { (i : ℕ) → i < low → bit_at result i ≡ bit_at word i }
    ensures above { (i : ℕ) → high ≤ i → i < 64 → bit_at result i ≡ bit_at word i }
{
    if value {
        word | mask(low, high)
    } else {
        word & !mask(low, high)
    }
}

// Puts the bits of a range to a value, a word at a time.
fn put_range(words: &mut [u64], at: u64, len: u64, value: bool)
    requires end { at + len ≤ 64 * length words.old }
    requires small { length words.old ≤ 2 ^ 57 }
    ensures len { length words.new ≡ length words.old }
    ensures inside { (k : ℕ) → at ≤ k → k < at + len → bit_of words.new k ≡ bit_for value }
    ensures below { (k : ℕ) → k < at → bit_of words.new k ≡ bit_of words.old k }
    ensures above { (k : ℕ) → at + len ≤ k → bit_of words.new k ≡ bit_of words.old k }
{
    let end = at + len;
    let mut place = at;
    'words: while place < end {
        let low = place % 64;
        let high = (low + (end - place)).min(64);
        let word = (place / 64) as usize;
        words[word] = put_within(words[word], low, high, value);
        place += high - low;
    }
}

// A word, or its bits turned round.
fn turned(word: u64, set: bool) -> u64
    ensures { (i : ℕ) → i < 64 → bit_at result i ≡ seen set (bit_at word i) }
{
    if set { word } else { !word }
}

// The first bit from `at` on that is set, or that is clear; else the end.
fn next_bit(words: &[u64], at: u64, set: bool) -> u64
    requires at { at ≤ 64 * length words.now }
    requires small { length words.now ≤ 2 ^ 57 }
    ensures from { at ≤ result }
    ensures end { result ≤ 64 * length words.now }
    ensures here { result < 64 * length words.now → seen set (bit_of words.now result) ≡ 1 }
    ensures before { (k : ℕ) → at ≤ k → k < result → seen set (bit_of words.now k) ≡ 0 }
{
    let first = (at / 64) as usize;
    if first == words.len() {
        return at;
    }
    let rest = turned(words[first], set) >> (at % 64);
    if rest != 0 {
        return at + rest.trailing_zeros() as u64;
    }
    let mut place = first + 1;
    'words: while place < words.len() {
        let word = turned(words[place], set);
        if word != 0 {
            return 64 * place as u64 + word.trailing_zeros() as u64;
        }
        place += 1;
    }
    64 * words.len() as u64
}

// The first start from `from` up to `end` of a run of clear bits of this length.
fn find_in(words: &[u64], len: u64, from: u64, end: u64) -> Option<u64>
    requires len { 0 < len }
    requires from { from ≤ end }
    requires end { end ≤ 64 * length words.now }
    requires small { length words.now ≤ 2 ^ 57 }
    ensures some { IfSome result (λ at. (from ≤ at) × (at < end) × IsClear words.now at len
        × ((b : ℕ) → from ≤ b → b < at → IsClear words.now b len → ⊥)) }
    ensures none { IfNone result ((b : ℕ) → from ≤ b → b < end → IsClear words.now b len → ⊥) }
{
    let mut at = from;
    'runs: while at < end {
        let start = next_bit(words, at, false);
        if end <= start {
            return None;
        }
        let stop = next_bit(words, start, true);
        if len <= stop - start {
            return Some(start);
        }
        at = stop;
    }
    None
}

// How many bits of the words are clear.
fn clear_bits(words: &[u64]) -> u64
    requires { length words.now ≤ 2 ^ 57 }
    ensures { result ≡ clear_below words.now (64 * length words.now) }
{
    let mut total = 0;
    'words: for word in words {
        total += word.count_zeros() as u64;
    }
    total
}
