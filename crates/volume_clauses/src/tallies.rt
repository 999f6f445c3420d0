//! What the names of each file come to.
ghost use Rattle.std.specs.Prelude.{◌≡◌, ◌<◌, ◌+◌, ◌^◌, ◌∷◌, ◌++◌, [], ℕ, All, IfOk, List, length, slice_index};
ghost use Rattle.record_notes.specs.Names.{PlacedName, told_name};
ghost use Rattle.volume_clauses.specs.Tallies.{IsTally, parent_within, places_in_file, tally_at};

use ntfs_def::reference::number_in;
use record_notes::{DOS, NameFact, Names};
use std::alloc::{AllocError, Global};

/// What the names of a file come to.
#[derive(Clone, Copy, Debug)]
pub struct Tally {
    /// How many names it has.
    pub names: usize,
    /// How many of them are no DOS names.
    pub not_dos: usize,
    /// The number of the directory that has the first of these.
    pub parent: Option<u64>,
}

const NONE: Tally = Tally {
    names: 0,
    not_dos: 0,
    parent: None,
};

// A tally with one name more.
fn with_name(tally: Tally, name: &NameFact) -> Tally
    requires names { tally.names + 1 < 2 ^ 64 }
    requires not_dos { tally.not_dos + 1 < 2 ^ 64 }
    ensures { (places : List PlacedName) → IsTally places tally → IsTally (places ++ (told_name name.now).place ∷ []) result }
{
    let names = tally.names + 1;
    if name.namespace == DOS {
        return Tally { names, ..tally };
    }
    Tally {
        names,
        not_dos: tally.not_dos + 1,
        parent: tally.parent.or(Some(number_in(name.parent))),
    }
}

/// The tallies of the files below `count`, by their numbers.
///
/// # Errors
///
/// Where memory is out.
pub fn tallies_of(alloc: Global, count: usize, names: &Names) -> Result<Vec<Tally>, AllocError>
    ensures all { IfOk result (λ tallies. length tallies.items ≡ count) }
    ensures each { IfOk result (λ tallies. (f : ℕ) → f < count
        → IsTally (places_in_file f names.now.names.items) (tally_at tallies.items f)) }
{
    let mut tallies = vec![in alloc; NONE; count]?;
    for name in names.facts() {
        let file = name.file as usize;
        if file < tallies.len() {
            tallies[file] = with_name(tallies[file], name);
        }
    }
    Ok(tallies)
}

/// The directory that has each file, by its number: that of its first name that is no DOS name, and the file itself where
/// there is none among so many files.
///
/// # Errors
///
/// Where memory is out.
pub fn parents_of(alloc: Global, tallies: &[Tally]) -> Result<Vec<usize>, AllocError>
    ensures all { IfOk result (λ parents. length parents.items ≡ length tallies.now) }
    ensures inside { IfOk result (λ parents. All (λ p. p < length tallies.now) parents.items) }
    ensures each { IfOk result (λ parents. (f : ℕ) → f < length tallies.now
        → slice_index parents.items f ≡ parent_within (length tallies.now) f (tally_at tallies.now f).parent) }
{
    let mut parents = Vec::new(alloc);
    for (f, tally) in tallies.iter().enumerate() {
        parents.push(parent_within(tallies.len(), f, tally.parent))?;
    }
    Ok(parents)
}

// The directory of file f, where it is among so many files, and else f.
fn parent_within(count: usize, f: usize, parent: Option<u64>) -> usize
    ensures value { result ≡ parent_within count f parent }
    ensures inside { f < count → result < count }
{
    match parent {
        Some(directory) if (directory as usize) < count => directory as usize,
        _ => f,
    }
}
