//! The least of the numbers that break a clause.
ghost use Rattle.std.specs.Prelude.{◌≡◌};
ghost use Rattle.list_laws.specs.Least.{least_of};

/// The lesser of two numbers, where there are such.
pub fn least_of(a: Option<u64>, b: Option<u64>) -> Option<u64>
    ensures { result ≡ least_of a b }
{
    match (a, b) {
        (Some(a), Some(b)) => Some(a.min(b)),
        (Some(a), None) => Some(a),
        (None, b) => b,
    }
}
