//! The key of an entry, and the entry that a search ends at.
ghost use Rattle.std.specs.Prelude.{◌≡◌, ◌+◌, ◌<◌, ◌≤◌, IsTrue, None, length, IfErr, IfOk, IfSome, true};
ghost use Rattle.std.specs.Option.{option_map};
ghost use Rattle.ntfs_def.specs.Node.{item_in, key_len};
ghost use Rattle.index_node.specs.View.{form_of_view, node_of_view, number_of, view_of};
ghost use Rattle.index_node.specs.Seek.{HitsKey, Seeks};
ghost use Rattle.index_tree.specs.Search.{IsKeyed, Picks};

use crate::IndexNo;
use collation::Collation;
use index_node::Place;
use ntfs_def::index_record;
use std::alloc::{AllocError, Global};
use vol_bytes::{Octets, u16_at};

/// The key of an entry by itself.
pub fn key_of(entry: &[u8]) -> &[u8]
    requires { 16 + key_len entry.now 0 ≤ length entry.now }
    ensures { result.now ≡ (item_in entry.now).key }
{
    let len = u16_at(entry, index_record::KEY_LEN) as usize;
    &entry[index_record::KEY..index_record::KEY + len]
}

/// The bytes of an entry.
pub fn copy(alloc: Global, entry: &[u8]) -> Result<Octets, AllocError>
    ensures { IfOk result (λ octets. octets ≡ entry.now) }
{
    Ok(Octets::from_vec(Vec::from_slice(alloc, entry)?))
}

/// The bytes of the entry at a place, where it is hit.
pub fn entry_hit<C: Collation>(
    alloc: Global,
    _order: &C,
    place: &Place<'_>,
    hit: bool,
) -> Result<Option<Octets>, IndexNo>
    requires inside { hit ≡ true → number_of place.now < length (node_of_view (view_of place.now)).entries }
    requires key { HitsKey (C.valid _order.now) (node_of_view (view_of place.now)).entries (number_of place.now) hit }
    ensures picks { IfOk result (Picks None hit (node_of_view (view_of place.now)).entries (number_of place.now)) }
    ensures keyed { IfOk result (λ found. IfSome found (IsKeyed (form_of_view (view_of place.now)) (C.valid _order.now))) }
    ensures memory { IfErr result (λ no. no ≡ IndexNo.Memory) }
{
    if hit {
        Ok(Some(copy(alloc, place.entry())?))
    } else {
        Ok(None)
    }
}
