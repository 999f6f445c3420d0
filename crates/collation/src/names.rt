//! The orders of names.
ghost use Rattle.std.specs.Prelude.{◌≡◌, ◌<◌, ◌+◌, ◌*◌, IsTrue, map};
ghost use Rattle.vol_bytes.specs.Field.{u16_at};
ghost use Rattle.ntfs_def.specs.FileName.{is_name_key, key_units, unit_count};
ghost use Rattle.ntfs_def.specs.KeyOrder.{by_numbers, fold_of, fold_order, name_order};

use crate::Collation;
use ntfs_def::file_name::{UNITS, UNITS_LEN, is_name_key};
use std::cmp::Ordering;
use upcase::UpCase;
use vol_bytes::u16_at;

/// The order of a directory: names by their folded units, and equal ones by their plain units.
#[derive(Debug, Drop)]
pub struct FileNameOrder {
    pub upcase: UpCase,
}

/// The order of names by their folded units alone. The keys of a directory never fall by it.
#[derive(Clone, Copy, Debug)]
pub struct FoldedOrder<'u> {
    pub names: &'u FileNameOrder,
}

// A unit of a key, by its place in the name.
fn unit_at(key: &[u8], place: u8) -> u16
    requires key { IsTrue (is_name_key key.now) }
    requires inside { place < unit_count key.now }
    ensures { result ≡ u16_at key.now (0x42 + 2 * place) }
{
    u16_at(key, UNITS + 2 * place as usize)
}

fn compare_folded(upcase: &UpCase, a: &[u8], b: &[u8]) -> Ordering
    requires left { IsTrue (is_name_key a.now) }
    requires right { IsTrue (is_name_key b.now) }
    ensures { result ≡ by_numbers (map (fold_of upcase.now) (key_units a.now)) (map (fold_of upcase.now) (key_units b.now)) }
{
    let units = (0..a[UNITS_LEN]).map(|place| unit_at(a, place));
    let others = (0..b[UNITS_LEN]).map(|place| unit_at(b, place));
    units
        .map(|unit| upcase.fold(unit))
        .cmp(others.map(|unit| upcase.fold(unit)))
}

fn compare_plain(a: &[u8], b: &[u8]) -> Ordering
    requires left { IsTrue (is_name_key a.now) }
    requires right { IsTrue (is_name_key b.now) }
    ensures { result ≡ by_numbers (key_units a.now) (key_units b.now) }
{
    let units = (0..a[UNITS_LEN]).map(|place| unit_at(a, place));
    let others = (0..b[UNITS_LEN]).map(|place| unit_at(b, place));
    units.cmp(others)
}

#[tactic(auto, unfolding(ntfs_def::specs::KeyOrder::name_order))]
impl Collation for FileNameOrder {
    ghost use Rattle.ntfs_def.proofs.KeyOrderLaws.{name_ties, name_total};

    ghost order = { λ it. name_order (fold_of it.upcase) };

    ghost parts = { λ it. key_units };

    ghost valid = { λ it. is_name_key };

    fn compare(&self, a: &[u8], b: &[u8]) -> Ordering {
        compare_folded(&self.upcase, a, b).then_with(|| compare_plain(a, b))
    }

    fn is_valid(&self, key: &[u8]) -> bool {
        is_name_key(key)
    }

    ghost is_order = { λ it. name_total (fold_of it.upcase) };

    ghost ties = { λ it. name_ties (fold_of it.upcase) };
}

#[tactic(auto, unfolding(ntfs_def::specs::KeyOrder::fold_order))]
impl<'u> Collation for FoldedOrder<'u> {
    ghost use Rattle.ntfs_def.proofs.KeyOrderLaws.{fold_ties, fold_total};

    ghost order = { λ it. fold_order (fold_of it.names.now.upcase) };

    ghost parts = { λ it key. map (fold_of it.names.now.upcase) (key_units key) };

    ghost valid = { λ it. is_name_key };

    fn compare(&self, a: &[u8], b: &[u8]) -> Ordering {
        compare_folded(&self.names.upcase, a, b)
    }

    fn is_valid(&self, key: &[u8]) -> bool {
        is_name_key(key)
    }

    ghost is_order = { λ it. fold_total (fold_of it.names.now.upcase) };

    ghost ties = { λ it. fold_ties (fold_of it.names.now.upcase) };
}
