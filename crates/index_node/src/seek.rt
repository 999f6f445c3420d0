//! A key is sought among the entries of a node.
ghost use Rattle.std.specs.Prelude.{◌≡◌, IsTrue, IfSome};
ghost use Rattle.std.specs.Option.{option_map};
ghost use Rattle.index_node.specs.Seek.{HitsKey, Seeks};
ghost use Rattle.index_node.specs.View.{node_of_view, number_of, view_of};

use crate::{NodeView, Place};
use collation::Collation;
use std::cmp::Ordering;

/// The place of the first entry whose key is not below this one, and whether it is equal; `None` where a key before it is
/// not valid. The node is gone over once.
pub fn seek_in<'r, C: Collation>(
    node: &NodeView<'r>,
    order: &C,
    key: &[u8],
) -> Option<(Place<'r>, bool)>
    requires key { IsTrue (C.valid order.now key.now) }
    ensures place { Seeks (λ x. C.order order.now x key.now) (C.valid order.now) (node_of_view node.now).entries
        (option_map (λ at. (number_of at.0, at.1)) result) }
    ensures view { IfSome result (λ at. view_of at.0 ≡ node.now) }
    ensures key { IfSome result (λ at. HitsKey (C.valid order.now) (node_of_view node.now).entries (number_of at.0) at.1) }
{
    let mut place = node.first_place();
    'places: while place.has_key() {
        let entry = place.key();
        if !order.is_valid(entry) {
            return None;
        }
        match order.compare(entry, key) {
            Ordering::Less => place.advance(),
            Ordering::Equal => return Some((place, true)),
            Ordering::Greater => return Some((place, false)),
        }
    }
    Some((place, false))
}
