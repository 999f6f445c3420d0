//! A sink that remembers how its text began.
ghost use Rattle.std.specs.Prelude.{◌≡◌, ◌+◌, ◌<◌, ◌≤◌, [], ◌++◌, length, take, IfOk, OnOk, OnErr};
ghost use Rattle.vol_disk.specs.Count.{Rose};
ghost use Rattle.vol_disk.specs.Stream.{IsAppended};

use arrayvec::ArrayVec;
use vol_disk::{Failed, Sink};

/// More bytes than a line that refuses a volume has.
const FRONT: usize = 40;

/// The first bytes of a text.
pub type Front = ArrayVec<u8, FRONT>;

/// A sink over another that remembers the first bytes that it took.
#[derive(Drop)]
pub struct FrontSink<K: Sink + Drop> {
    inner: K,
    front: Front,
}

/// Keeps as many of the bytes as there is room for.
pub fn remember<const N: usize>(front: &mut ArrayVec<u8, N>, bytes: &[u8])
    ensures front { front.new.items ≡ take N (front.old.items ++ bytes.now) }
    ensures fit { length front.old.items ≤ N }
{
    let room = front.remaining_capacity().min(bytes.len());
    front.try_extend_from_slice(&bytes[..room]).unwrap();
}

impl<K: Sink + Drop> FrontSink<K> {
    ghost use Rattle.edge.specs.Fronts.{front_of, inner_of};

    /// All goes to `inner`.
    pub fn new(inner: K) -> FrontSink<K>
        ensures inner { inner_of result ≡ inner }
        ensures front { front_of result ≡ [] }
    {
        FrontSink {
            inner,
            front: Front::new(),
        }
    }

    /// The first bytes that it took, at most 40.
    pub fn front(&self) -> &[u8]
        ensures { result.now ≡ front_of self.now }
    {
        self.front.as_slice()
    }
}

impl<K: Sink + Drop> Sink for FrontSink<K> {
    ghost use Rattle.edge.specs.Fronts.{front_of, inner_of};

    ghost got = { λ sink. K.Sink.got sink.inner };

    ghost faults = { λ sink. K.Sink.faults sink.inner };

    fn write(&mut self, from: &[u8]) -> Result<usize, Failed>
        requires { 0 < length from.now }
        ensures some { IfOk result (λ n. 0 < n) }
        ensures within { IfOk result (λ n. n ≤ length from.now) }
        ensures got { IfOk result (λ n. IsAppended (K.Sink.got (inner_of self.old)) (take n from.now) (K.Sink.got (inner_of self.new))) }
        ensures kept { OnErr result (K.Sink.got (inner_of self.new) ≡ K.Sink.got (inner_of self.old)) }

        ensures faults { K.Sink.faults (inner_of self.old) ≤ K.Sink.faults (inner_of self.new) }
        ensures quiet { OnOk result (K.Sink.faults (inner_of self.new) ≡ K.Sink.faults (inner_of self.old)) }
        ensures cause { OnErr result (Rose (K.Sink.faults (inner_of self.old)) (K.Sink.faults (inner_of self.new))) }

        ensures remembers { IfOk result (λ n. front_of self.new ≡ take 40 (front_of self.old ++ take n from.now)) }
        ensures forgets_none { OnErr result (front_of self.new ≡ front_of self.old) }
    {
        let n = self.inner.write(from)?;
        remember(&mut self.front, &from[..n]);
        Ok(n)
    }
}
