//! The orders of the keys of indexes. Keys are compared where they lie, and none is copied.
#![tactic(auto)]

ghost use Rattle.std.specs.Prelude.{◌≡◌, ◌↔◌, ℕ, List, Bool, IsTrue};
ghost use Rattle.std.specs.declared.cmp.Ordering.{Ordering};
ghost use Rattle.std.specs.declared.cmp.Ordering.TheVariants.{Equal};
ghost use Rattle.std.specs.Cmp.{IsTotalOrder};

mod names;
mod numbers;

pub use names::{FileNameOrder, FoldedOrder};
pub use numbers::{HashOrder, IdOrder, WordsOrder};
use std::cmp::Ordering;

/// An order of keys: a total order, by the parts of a key that it compares.
pub trait Collation {
    /// The order, on all bytes.
    ghost order: { Self → List ℕ → List ℕ → Ordering };

    /// The numbers of a key that are compared.
    ghost parts: { Self → List ℕ → List ℕ };

    /// Which bytes are keys.
    ghost valid: { Self → List ℕ → Bool };

    /// On which side of the second key the first one stands; `Equal` exactly where the compared parts are equal.
    fn compare(&self, a: &[u8], b: &[u8]) -> Ordering
        requires left { IsTrue (valid self.now a.now) }
        requires right { IsTrue (valid self.now b.now) }
        ensures { result ≡ order self.now a.now b.now };

    /// Whether bytes are a key of this order.
    fn is_valid(&self, key: &[u8]) -> bool
        ensures { result ≡ valid self.now key.now };

    ghost is_order: { (it : Self) → IsTotalOrder (order it) };

    ghost ties: { (it : Self) (a b : List ℕ) → (order it a b ≡ Equal) ↔ (parts it a ≡ parts it b) };
}
