//! A name that is sought, in the orders of the keys of a directory.
ghost use Rattle.std.specs.Prelude.{◌≡◌, ◌<◌, IsTrue, length, map, slice_index};
ghost use Rattle.std.specs.Ordering.{nat_cmp};
ghost use Rattle.ntfs_def.specs.KeyOrder.{by_numbers, fold_of};
ghost use Rattle.dir_index.specs.Sought.{is_sought_key, sought_units};

use collation::Collation;
use ntfs_def::file_name::{UNITS, UNITS_LEN, is_name_key};
use std::cmp::Ordering;
use upcase::UpCase;
use vol_bytes::u16_at;

/// The order of a directory, by which exactly a name is sought: keys by their folded units, and equal ones by their plain
/// units. The empty key, which no name has, stands for the name, so this may have any number of units.
#[derive(Clone, Copy, Debug)]
pub struct ExactName<'s> {
    pub upcase: &'s UpCase,
    pub name: &'s [u16],
}

/// The same by folded units alone, by which a name is sought that is the same by the table of case.
#[derive(Clone, Copy, Debug)]
pub struct FoldedName<'s> {
    pub upcase: &'s UpCase,
    pub name: &'s [u16],
}

// Whether bytes are a name's key, or the empty key.
fn is_sought_key(key: &[u8]) -> bool
    ensures { result ≡ is_sought_key key.now }
{
    key.is_empty() || is_name_key(key)
}

// How many units a key is compared by.
fn unit_count(name: &[u16], key: &[u8]) -> usize
    requires { IsTrue (is_sought_key key.now) }
    ensures { result ≡ length (sought_units name.now key.now) }
{
    if key.is_empty() {
        name.len()
    } else {
        key[UNITS_LEN] as usize
    }
}

// A unit that a key is compared by, by its place.
fn unit_at(name: &[u16], key: &[u8], place: usize) -> u16
    requires key { IsTrue (is_sought_key key.now) }
    requires inside { place < length (sought_units name.now key.now) }
    ensures { result ≡ slice_index (sought_units name.now key.now) place }
{
    if key.is_empty() {
        name[place]
    } else {
        u16_at(key, UNITS + 2 * place)
    }
}

// Units by what they are compared as. Equal ones are so by any table, and none is asked.
fn compare_unit(upcase: &UpCase, unit: u16, other: u16) -> Ordering
    ensures { result ≡ nat_cmp (fold_of upcase.now unit) (fold_of upcase.now other) }
{
    if unit == other {
        return Ordering::Equal;
    }
    upcase.fold(unit).cmp(&upcase.fold(other))
}

fn compare_folded(upcase: &UpCase, name: &[u16], a: &[u8], b: &[u8]) -> Ordering
    requires left { IsTrue (is_sought_key a.now) }
    requires right { IsTrue (is_sought_key b.now) }
    ensures { result ≡ by_numbers (map (fold_of upcase.now) (sought_units name.now a.now))
        (map (fold_of upcase.now) (sought_units name.now b.now)) }
{
    let units = unit_count(name, a);
    let others = unit_count(name, b);
    for place in 0..units.min(others) {
        let unit = unit_at(name, a, place);
        let other = unit_at(name, b, place);
        match compare_unit(upcase, unit, other) {
            Ordering::Less => return Ordering::Less,
            Ordering::Equal => {}
            Ordering::Greater => return Ordering::Greater,
        }
    }
    units.cmp(&others)
}

fn compare_plain(name: &[u16], a: &[u8], b: &[u8]) -> Ordering
    requires left { IsTrue (is_sought_key a.now) }
    requires right { IsTrue (is_sought_key b.now) }
    ensures { result ≡ by_numbers (sought_units name.now a.now) (sought_units name.now b.now) }
{
    let units = (0..unit_count(name, a)).map(|place| unit_at(name, a, place));
    let others = (0..unit_count(name, b)).map(|place| unit_at(name, b, place));
    units.cmp(others)
}

#[tactic(auto, unfolding(crate::specs::Sought::exact_order))]
impl Collation for ExactName<'_> {
    ghost use Rattle.dir_index.specs.Sought.{exact_order};
    ghost use Rattle.dir_index.specs.SoughtLaws.{exact_ties, exact_total};

    ghost order = { λ it. exact_order (fold_of it.upcase.now) it.name.now };

    ghost parts = { λ it. sought_units it.name.now };

    ghost valid = { λ it. is_sought_key };

    fn compare(&self, a: &[u8], b: &[u8]) -> Ordering {
        compare_folded(self.upcase, self.name, a, b).then_with(|| compare_plain(self.name, a, b))
    }

    fn is_valid(&self, key: &[u8]) -> bool {
        is_sought_key(key)
    }

    ghost is_order = { λ it. exact_total (fold_of it.upcase.now) it.name.now };

    ghost ties = { λ it. exact_ties (fold_of it.upcase.now) it.name.now };
}

#[tactic(auto, unfolding(crate::specs::Sought::folded_order))]
impl Collation for FoldedName<'_> {
    ghost use Rattle.dir_index.specs.Sought.{folded_order};
    ghost use Rattle.dir_index.specs.SoughtLaws.{folded_ties, folded_total};

    ghost order = { λ it. folded_order (fold_of it.upcase.now) it.name.now };

    ghost parts = { λ it key. map (fold_of it.upcase.now) (sought_units it.name.now key) };

    ghost valid = { λ it. is_sought_key };

    fn compare(&self, a: &[u8], b: &[u8]) -> Ordering {
        compare_folded(self.upcase, self.name, a, b)
    }

    fn is_valid(&self, key: &[u8]) -> bool {
        is_sought_key(key)
    }

    ghost is_order = { λ it. folded_total (fold_of it.upcase.now) it.name.now };

    ghost ties = { λ it. folded_ties (fold_of it.upcase.now) it.name.now };
}
