//! The clauses on lists and on extents, over all files: one reading of each file that has a list serves both.
ghost use Rattle.std.specs.Prelude.{◌≡◌, ◌+◌, ◌*◌, ℕ, Some, IfErr, IfOk, IsFalse, IsTrue, MatchResult, length};
ghost use Rattle.volume_def.specs.Files.{records_of};
ghost use Rattle.volume_def.specs.ListsClause.{MeetsLists};
ghost use Rattle.volume_def.specs.ShapeClause.{MeetsShape};
ghost use Rattle.volume_def.specs.Sound.Clause.{Extents, Lists};
ghost use Rattle.volume_def.specs.Table.{cluster_bytes};
ghost use Rattle.mft_table.specs.Mft.{MftReads, faults_of, view};
ghost use Rattle.mft_table.specs.MountNos.{CountsMount};
ghost use Rattle.record_notes.specs.Facts.{FactsNote};
ghost use Rattle.list_laws.specs.Least.{IsLeastFailing, least_of};
ghost use Rattle.record_notes.specs.Spread.{SpreadNote};
ghost use Rattle.record_notes.specs.Unlisted.{MeetsListed};
ghost use Rattle.check_records.specs.Listed.{MeetsListedLists};
ghost use Rattle.clause_order.specs.Refusals.{DecidesFirst, IsFault};
ghost use Rattle.check_records.specs.Views.{IsOfVolume};

use crate::listed::judge_file;
use mft_table::{Mft, MountNo};
use record_notes::{Extension, Facts, SpreadFiles, least_of, split_file};
use std::alloc::Global;
use vol_disk::Disk;

/// The least base record that breaks the clause on lists and, where none does, the one that breaks the clause on extents.
#[derive(Clone, Copy, Debug)]
pub struct WrongFiles {
    pub lists: Option<u64>,
    pub extents: Option<u64>,
}

// The lesser of the first that breaks a clause and one more, where that breaks it.
fn first_with(first: Option<u64>, f: u64, right: bool) -> Option<u64>
    ensures holds { IsTrue right → result ≡ first }
    ensures breaks { IsFalse right → result ≡ least_of first (Some f) }
{
    if right {
        first
    } else {
        least_of(first, Some(f))
    }
}

// The least of the files with a list that break the clauses. They come in rising number, so the first wrong list that is
// read is the least: no file behind it is read, and the clause on extents is not asked where a list is wrong.
fn first_wrong_listed<D: Disk>(
    alloc: Global,
    mft: &mut Mft<'_, D>,
    spread: &SpreadFiles,
) -> Result<WrongFiles, MountNo>
    ensures lists { IfOk result (λ wrong. IsTrue (view D.Disk mft.old).told → ((n : ℕ) → MeetsShape (view D.Disk mft.old) n)
        → SpreadNote (records_of (view D.Disk mft.old)) (view D.Disk mft.old).layout.count spread.now
        → IsLeastFailing (MeetsListedLists (view D.Disk mft.old)) wrong.lists) }
    ensures extents { IfOk result (λ wrong. IsTrue (view D.Disk mft.old).told → ((n : ℕ) → MeetsShape (view D.Disk mft.old) n)
        → SpreadNote (records_of (view D.Disk mft.old)) (view D.Disk mft.old).layout.count spread.now
        → ((n : ℕ) → MeetsLists (view D.Disk mft.old) n)
        → IsLeastFailing (MeetsListed (records_of (view D.Disk mft.old)) (cluster_bytes (view D.Disk mft.old).layout)) wrong.extents) }
    ensures err { IfErr result IsFault }
    ensures faults { MatchResult result (λ _. faults_of D.Disk mft.new ≡ faults_of D.Disk mft.old)
        (CountsMount (faults_of D.Disk mft.old) (faults_of D.Disk mft.new)) }
    ensures reads { MftReads D.Disk mft.old mft.new (514 * length spread.now.listed.items + 2 * length spread.now.extensions.items) }
{
    let sorted = spread.by_file(alloc)?;
    let mut rest: &[Extension] = &sorted;
    let mut extents = None;
    for f in &spread.listed {
        let (own, behind) = split_file(rest, *f);
        rest = behind;
        let verdict = judge_file(alloc, mft, *f, own)?;
        if !verdict.listed {
            return Ok(WrongFiles {
                lists: Some(*f),
                extents: None,
            });
        }
        extents = first_with(extents, *f, verdict.whole);
    }
    Ok(WrongFiles {
        lists: None,
        extents,
    })
}

/// The least base record that breaks the clause on lists and, where none does, the one that breaks the clause on extents.
///
/// # Errors
///
/// `Device` and `Memory` alone.
pub fn first_wrong_files<D: Disk>(
    alloc: Global,
    mft: &mut Mft<'_, D>,
    facts: &Facts,
) -> Result<WrongFiles, MountNo>
    ensures lists { IfOk result (λ wrong. IsTrue (view D.Disk mft.old).told
        → FactsNote (records_of (view D.Disk mft.old)) (view D.Disk mft.old).layout.count facts.now
        → DecidesFirst Lists (view D.Disk mft.old) wrong.lists) }
    ensures extents { IfOk result (λ wrong. IsTrue (view D.Disk mft.old).told → IsOfVolume (view D.Disk mft.old).layout facts.now
        → FactsNote (records_of (view D.Disk mft.old)) (view D.Disk mft.old).layout.count facts.now
        → DecidesFirst Extents (view D.Disk mft.old) wrong.extents) }
    ensures err { IfErr result IsFault }
    ensures faults { MatchResult result (λ _. faults_of D.Disk mft.new ≡ faults_of D.Disk mft.old)
        (CountsMount (faults_of D.Disk mft.old) (faults_of D.Disk mft.new)) }
    ensures reads { MftReads D.Disk mft.old mft.new
        (514 * length facts.now.spread.listed.items + 2 * length facts.now.spread.extensions.items) }
{
    let listed = first_wrong_listed(alloc, mft, &facts.spread)?;
    Ok(WrongFiles {
        lists: least_of(facts.spread.first_spread_file(&facts.heads), listed.lists),
        extents: facts.unlisted.first_wrong_file(listed.extents),
    })
}
