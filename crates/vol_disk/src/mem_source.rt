//! A source of bytes in memory.
ghost use Rattle.std.specs.Prelude.{◌≡◌, ◌↔◌, ◌<◌, ◌≤◌, [], ◌++◌, Some, length, take, drop, min, vec_len, is_ok, IsErr, IfOk, OnErr};
ghost use Rattle.vol_disk.specs.Listing.{IsListed, listed_after};

use crate::listed::Listed;
use crate::{Failed, Source};

/// Bytes in memory as a source. It gives as many as are left and fit, and fails exactly at the
/// calls that are listed.
#[derive(Drop)]
pub struct MemSource {
    bytes: Vec<u8>,
    taken: usize,
    listed: Listed,
    ghost within: { taken ≤ vec_len bytes },
}

impl MemSource {
    ghost use Rattle.vol_disk.specs.MemStreams.{source_calls};

    /// A source of these bytes; `fails` numbers the calls that fail, from 1.
    pub fn new(bytes: Vec<u8>, fails: Vec<u64>) -> MemSource
        ensures left { ⟦<MemSource as Source>⟧.left result ≡ Some bytes.items }
        ensures fails { (source_calls result).numbers.items ≡ fails.items }
        ensures calls { (source_calls result).calls ≡ 0 }
        ensures faults { ⟦<MemSource as Source>⟧.faults result ≡ 0 }
    {
        MemSource {
            bytes,
            taken: 0,
            listed: Listed {
                numbers: fails,
                calls: 0,
                faults: 0,
            },
        }
    }
}

// Copies as many bytes as there are and fit, and tells how many.
fn copy_front(from: &[u8], into: &mut [u8]) -> usize
    ensures count { result ≡ min (length into.old) (length from.now) }
    ensures copied { into.new ≡ take result from.now ++ drop result into.old }
{
    let n = into.len().min(from.len());
    into[..n].copy_from_slice(&from[..n]);
    n
}

impl Source for MemSource {
    ghost use Rattle.vol_disk.specs.Stream.{Gives};
    ghost use Rattle.vol_disk.specs.MemStreams.{left_of, source_calls};

    ghost left = { λ source. Some (drop source.taken source.bytes.items) };

    ghost faults = { λ source. source.listed.faults };

    fn read(&mut self, into: &mut [u8]) -> Result<usize, Failed>
        ensures fails { IsErr result ↔ IsListed (source_calls self.old) }
        ensures count { IfOk result (λ n. n ≡ min (length into.old) (length (left_of self.old))) }
        ensures front { IfOk result (λ n. into.new ≡ take n (left_of self.old) ++ drop n into.old) }
        ensures rest { IfOk result (λ n. left_of self.new ≡ drop n (left_of self.old)) }
        ensures kept { OnErr result (left_of self.new ≡ left_of self.old) }
        ensures untouched { OnErr result (into.new ≡ into.old) }
        ensures calls { source_calls self.new ≡ listed_after (is_ok result) (source_calls self.old) }
        ensures faults { (source_calls self.old).faults ≤ (source_calls self.new).faults }

        // The same, as each source gives its bytes.
        ensures gives { IfOk result (λ n. Gives n (left_of self.old) into.new (Some (left_of self.new))) }
        ensures end { IfOk result (λ n. n ≡ 0 → 0 < length into.old → left_of self.old ≡ []) }
    {
        if self.listed.is_next() {
            return Err(self.listed.fail());
        }
        let n = copy_front(&self.bytes[self.taken..], into);
        self.taken += n;
        Ok(n)
    }
}
