//! Whether each DOS name stands beside a Win32 name of its file and directory, and is the only DOS name there.
ghost use Rattle.std.specs.Prelude.{◌≡◌, ◌↔◌, ◌<◌, ◌%◌, ◌^◌, All, IfOk, IsTrue, length, map, slice_index, slice_index_or};
ghost use Rattle.std.specs.List.Sorted.{IsNonDecreasing, IsPermutation};
ghost use Rattle.list_laws.specs.Least.{IsLeastFailing};
ghost use Rattle.volume_clauses.specs.declared.pairs.NameKey.{NameKey};
ghost use Rattle.volume_clauses.specs.Pairs.{ArePaired, IsInRange, IsPairedName, key_of, order_of};
ghost use Rattle.list_laws.specs.Beside.{IsBeside};

use ntfs_def::reference::number_in;
use record_notes::{DOS, NameFact, Names, WIN32};
use std::alloc::{AllocError, Global};

/// What a name is paired by, in the order of sorting.
#[derive(Clone, Copy, Debug, PartialEq, Eq, PartialOrd, Ord)]
pub struct NameKey {
    /// The file that has the name.
    pub file: u64,
    /// The number of the directory that has the name.
    pub directory: u64,
    /// As the name has it.
    pub namespace: u8,
}

fn key_of(name: NameFact) -> NameKey
    ensures key { result ≡ key_of name }
    ensures range { IsInRange result }
{
    NameKey {
        file: name.file,
        directory: number_in(name.parent),
        namespace: name.namespace,
    }
}

fn sort_keys(keys: &mut Vec<NameKey>)
    requires { All IsInRange keys.old.items }
    ensures sorted { IsNonDecreasing (map order_of keys.new.items) }
    ensures same { IsPermutation keys.old.items keys.new.items }
{
    keys.sort_unstable();
}

/// The keys of all names, sorted.
///
/// # Errors
///
/// Where memory is out.
pub fn sorted_keys(alloc: Global, names: &Names) -> Result<Vec<NameKey>, AllocError>
    ensures range { IfOk result (λ keys. All IsInRange keys.items) }
    ensures sorted { IfOk result (λ keys. IsNonDecreasing (map order_of keys.items)) }
    ensures same { IfOk result (λ keys. IsPermutation (map key_of names.now.names.items) keys.items) }
{
    let mut keys = Vec::new(alloc);
    for name in names.facts() {
        keys.push(key_of(*name))?;
    }
    sort_keys(&mut keys);
    Ok(keys)
}

// Whether the name before the one at `i` is its partner, and the one behind it another.
fn stands_beside(keys: &[NameKey], i: usize) -> bool
    requires range { All IsInRange keys.now }
    requires inside { i < length keys.now }
    requires dos { slice_index (map order_of keys.now) i % 2 ^ 8 ≡ 2 }
    ensures { IsTrue result ↔ IsBeside (map order_of keys.now) i }
{
    if i == 0 {
        return false;
    }
    let key = keys[i];
    let partner = NameKey {
        namespace: WIN32,
        ..key
    };
    if keys[i - 1] != partner {
        return false;
    }
    if i + 1 == keys.len() {
        return true;
    }
    keys[i + 1] != key
}

// Whether the name at `i` is no DOS name, or has its partner and none like it.
fn is_paired(keys: &[NameKey], i: usize) -> bool
    requires range { All IsInRange keys.now }
    requires sorted { IsNonDecreasing (map order_of keys.now) }
    requires inside { i < length keys.now }
    ensures { (d : NameKey) → IsTrue result ↔ IsPairedName keys.now (slice_index_or keys.now i d) }
{
    keys[i].namespace != DOS || stands_beside(keys, i)
}

/// The least file that has a DOS name without its partner, or two DOS names in one directory.
pub fn first_unpaired(keys: &[NameKey]) -> Option<u64>
    requires range { All IsInRange keys.now }
    requires sorted { IsNonDecreasing (map order_of keys.now) }
    ensures { IsLeastFailing (ArePaired keys.now) result }
{
    for (i, key) in keys.iter().enumerate() {
        if !is_paired(keys, i) {
            return Some(key.file);
        }
    }
    None
}
