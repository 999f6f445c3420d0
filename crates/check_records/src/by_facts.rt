//! The clauses that are decided by the facts of the pass alone.
ghost use Rattle.std.specs.Prelude.{IfOk};
ghost use Rattle.volume_def.specs.Files.{records_of};
ghost use Rattle.volume_def.specs.Sound.Clause.{Attributes, Limits, Links, Owners, References};
ghost use Rattle.volume_def.specs.View.{VolumeView};
ghost use Rattle.record_notes.specs.Facts.{FactsNote};
ghost use Rattle.clause_order.specs.Refusals.{DecidesFirst};
ghost use Rattle.check_records.specs.Views.{IsOfVolume};

use record_notes::Facts;
use std::alloc::{AllocError, Global};

/// The least record that breaks the clause on attributes.
pub fn first_wrong_attributes(facts: &Facts) -> Option<u64>
    ensures { (view : VolumeView) → FactsNote (records_of view) view.layout.count facts.now → DecidesFirst Attributes view result }
{
    facts.first_wrong_record()
}

/// The least cluster that breaks the clause on owners.
pub fn first_wrong_owner(facts: &Facts) -> Option<u64>
    ensures { (view : VolumeView) → IsOfVolume view.layout facts.now → FactsNote (records_of view) view.layout.count facts.now
        → DecidesFirst Owners view result }
{
    facts.owners.first_wrong_cluster()
}

/// The least record that breaks the clause on references.
pub fn first_wrong_reference(facts: &Facts) -> Option<u64>
    ensures { (view : VolumeView) → FactsNote (records_of view) view.layout.count facts.now → DecidesFirst References view result }
{
    volume_clauses::first_wrong_reference(&facts.heads, &facts.names)
}

/// The least base record that breaks the clause on links.
///
/// # Errors
///
/// Want of memory alone.
pub fn first_wrong_link(alloc: Global, facts: &Facts) -> Result<Option<u64>, AllocError>
    ensures { IfOk result (λ first. (view : VolumeView) → FactsNote (records_of view) view.layout.count facts.now
        → DecidesFirst Links view first) }
{
    let first = volume_clauses::first_wrong_link(alloc, &facts.heads, &facts.names)?;
    Ok(first)
}

/// The least file that breaks the clause on limits.
pub fn first_long_file(facts: &Facts) -> Option<u64>
    ensures { (view : VolumeView) → FactsNote (records_of view) view.layout.count facts.now → DecidesFirst Limits view result }
{
    volume_clauses::first_long_file(&facts.long)
}
