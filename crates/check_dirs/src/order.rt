//! The entries of an index by themselves: whether their keys are valid, and ascend.
ghost use Rattle.std.specs.Prelude.{◌≡◌, ◌↔◌, IsTrue};
ghost use Rattle.vol_bytes.specs.Field.{u64_at};
ghost use Rattle.ntfs_def.specs.Node.{item_in};
ghost use Rattle.index_tree.specs.Walk.{items_in};
ghost use Rattle.check_dirs.specs.Entries.{AreOrdered, AreValid, AreWhole, IsPlace, IsWhole, Rise};

use collation::Collation;
use ntfs_def::index_record::{KEY, KEY_LEN};
use std::cmp::Ordering;
use vol_bytes::{Octets, u16_at, u64_at};

/// The key of an entry.
#[tactic(auto, unfolding(ntfs_def::specs::Node::item_at))]
pub fn key_of(entry: &[u8]) -> &[u8]
    requires { IsWhole entry.now }
    ensures { result.now ≡ (item_in entry.now).key }
{
    &entry[KEY..KEY + u16_at(entry, KEY_LEN) as usize]
}

/// The eight bytes in front of an entry as a number: in a directory the file's reference.
#[tactic(auto, unfolding(ntfs_def::specs::Node::item_at))]
pub fn head_of(entry: &[u8]) -> u64
    requires { IsWhole entry.now }
    ensures { result ≡ u64_at (item_in entry.now).head 0 }
{
    u64_at(&entry[0..8], 0)
}

// Whether each key is valid.
fn are_valid<C: Collation>(order: &C, entries: &[Octets]) -> bool
    requires { AreWhole entries.now }
    ensures { IsTrue result ↔ AreValid (C.valid order.now) entries.now }
{
    for i in 0..entries.len() {
        if !order.is_valid(key_of(entries[i].as_slice())) {
            return false;
        }
    }
    true
}

// Whether each key is below the next one.
fn rise<C: Collation>(order: &C, entries: &[Octets]) -> bool
    requires whole { AreWhole entries.now }
    requires valid { AreValid (C.valid order.now) entries.now }
    ensures { IsTrue result ↔ Rise (C.order order.now) entries.now }
{
    for i in 1..entries.len() {
        let one = key_of(entries[i - 1].as_slice());
        let next = key_of(entries[i].as_slice());
        if order.compare(one, next) != Ordering::Less {
            return false;
        }
    }
    true
}

/// Whether each key is valid, and below all later ones.
pub fn are_ordered<C: Collation>(order: &C, entries: &[Octets]) -> bool
    requires { AreWhole entries.now }
    ensures { IsTrue result ↔ AreOrdered (C.order order.now) (C.valid order.now) (items_in entries.now) }
{
    if !are_valid(order, entries) {
        return false;
    }
    rise(order, entries)
}

/// Where the entry with this key stands, which is sought by halves; `None` where there is none.
pub fn place_of<C: Collation>(order: &C, entries: &[Octets], key: &[u8]) -> Option<usize>
    requires whole { AreWhole entries.now }
    requires ordered { AreOrdered (C.order order.now) (C.valid order.now) (items_in entries.now) }
    requires key { IsTrue (C.valid order.now key.now) }
    ensures { IsPlace (λ other. C.order order.now other key.now) entries.now result }
{
    let mut low = 0;
    let mut high = entries.len();
    'halves: while low < high {
        let middle = low + (high - low) / 2;
        match order.compare(key_of(entries[middle].as_slice()), key) {
            Ordering::Less => low = middle + 1,
            Ordering::Equal => return Some(middle),
            Ordering::Greater => high = middle,
        }
    }
    None
}
