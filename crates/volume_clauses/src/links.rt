//! The clause on links, from what is noted of headers and names.
ghost use Rattle.std.specs.Prelude.{◌≡◌, ◌↔◌, ℕ, IfOk, IsTrue, length};
ghost use Rattle.volume_def.specs.Files.{Records};
ghost use Rattle.volume_def.specs.LinksClause.{MeetsLinks};
ghost use Rattle.volume_def.specs.ReferencesClause.{MeetsReferences};
ghost use Rattle.record_notes.specs.Heads.{EndsAtCount, HeadsNote, head_at};
ghost use Rattle.list_laws.specs.Least.{IsLeastFailing};
ghost use Rattle.volume_clauses.specs.Links.{HasPairs, IsFiled, IsLinked, MeetsFiling};
ghost use Rattle.volume_clauses.specs.Marks.{is_found, mark_at};
ghost use Rattle.record_notes.specs.Names.{NamesNote};
ghost use Rattle.volume_clauses.specs.Tallies.{tally_at};

use crate::climb::reaching;
use crate::marks::Mark;
use crate::pairs::{first_unpaired, sorted_keys};
use crate::tallies::{Tally, parents_of, tallies_of};
use ntfs_def::records::{FIRST_ORDINARY, ROOT};
use record_notes::{Head, Heads, Names, least_of};
use std::alloc::{AllocError, Global};

// Whether the base record f agrees with the tally of its names, and leads to the root where it is a directory.
fn is_linked(f: u64, head: &Head, tally: &Tally, reaches: bool) -> bool
    ensures { IsTrue result ↔ IsLinked f head.now tally.now reaches }
{
    if f >= FIRST_ORDINARY && (tally.names == 0 || head.links as usize != tally.names) {
        return false;
    }
    f == ROOT || !head.directory || (tally.not_dos == 1 && reaches)
}

// The same of any record, and that the root is a directory.
fn is_filed(f: u64, head: Option<Head>, tally: &Tally, reaches: bool) -> bool
    ensures { IsTrue result ↔ IsFiled f head tally.now reaches }
{
    match head {
        Some(head) if head.base == 0 => {
            (f != ROOT || head.directory) && is_linked(f, &head, tally, reaches)
        }
        _ => f != ROOT,
    }
}

// The first record that is not filed so.
fn first_misfiled(heads: &Heads, tallies: &[Tally], marks: &[Mark]) -> Option<u64>
    requires tallies { length tallies.now ≡ length heads.now.heads.items }
    requires marks { length marks.now ≡ length heads.now.heads.items }
    ensures { IsLeastFailing (λ f. IsFiled f (head_at heads.now f) (tally_at tallies.now f) (is_found (mark_at marks.now f))) result }
{
    for f in 0..heads.count() {
        let i = f as usize;
        if !is_filed(f, heads.get(f), &tallies[i], marks[i].is_found()) {
            return Some(f);
        }
    }
    if heads.count() <= ROOT {
        return Some(ROOT);
    }
    None
}

// The least file whose names are not as its record says, or that does not lead to the root.
fn first_wrong_filing(
    alloc: Global,
    heads: &Heads,
    names: &Names,
) -> Result<Option<u64>, AllocError>
    ensures { IfOk result (λ first. (records : Records) → EndsAtCount records → HeadsNote records records.count heads.now
        → NamesNote records records.count names.now → ((n : ℕ) → MeetsReferences records n)
        → IsLeastFailing (MeetsFiling records) first) }
{
    let tallies = tallies_of(alloc, heads.count() as usize, names)?;
    let parents = parents_of(alloc, &tallies)?;
    let marks = reaching(alloc, &parents, ROOT as usize)?;
    Ok(first_misfiled(heads, &tallies, &marks))
}

// The least file that has a DOS name without its partner, or two DOS names in one directory.
fn first_wrong_pair(alloc: Global, names: &Names) -> Result<Option<u64>, AllocError>
    ensures { IfOk result (λ first. (records : Records) → NamesNote records records.count names.now
        → IsLeastFailing (HasPairs records) first) }
{
    let keys = sorted_keys(alloc, names)?;
    Ok(first_unpaired(&keys))
}

/// The least file that breaks the clause on links, S11.
///
/// # Errors
///
/// Where memory is out.
pub fn first_wrong_link(
    alloc: Global,
    heads: &Heads,
    names: &Names,
) -> Result<Option<u64>, AllocError>
    ensures { IfOk result (λ first. (records : Records) → EndsAtCount records → HeadsNote records records.count heads.now
        → NamesNote records records.count names.now → ((n : ℕ) → MeetsReferences records n)
        → IsLeastFailing (MeetsLinks records) first) }
{
    let unpaired = first_wrong_pair(alloc, names)?;
    let misfiled = first_wrong_filing(alloc, heads, names)?;
    Ok(least_of(unpaired, misfiled))
}
