//! The clause on references, from what is noted of headers and names.
ghost use Rattle.volume_def.specs.Files.{Records};
ghost use Rattle.volume_def.specs.ReferencesClause.{MeetsReferences};
ghost use Rattle.record_notes.specs.Heads.{EndsAtCount, HeadsNote};
ghost use Rattle.list_laws.specs.Least.{IsLeastFailing};
ghost use Rattle.record_notes.specs.Names.{NamesNote};
ghost use Rattle.volume_clauses.specs.References.{MeetsBase, MeetsParents};

use record_notes::{Heads, Names, least_of};

// The first record whose base reference names no base record.
fn first_wrong_base(heads: &Heads) -> Option<u64>
    ensures { (records : Records) → EndsAtCount records → HeadsNote records records.count heads.now
        → IsLeastFailing (MeetsBase records) result }
{
    for n in 0..heads.count() {
        if let Some(head) = heads.get(n) {
            if head.base != 0 && !heads.names_base(head.base) {
                return Some(n);
            }
        }
    }
    None
}

// The first record that holds a name whose parent reference names no directory.
fn first_wrong_parent(heads: &Heads, names: &Names) -> Option<u64>
    ensures { (records : Records) → EndsAtCount records → HeadsNote records records.count heads.now
        → NamesNote records records.count names.now → IsLeastFailing (MeetsParents records) result }
{
    for name in names.facts() {
        if !heads.names_directory(name.parent) {
            return Some(name.holder);
        }
    }
    None
}

/// The least record that breaks the clause on references, S10: its base reference names no base record in use, or a name
/// that it holds stands in no directory.
pub fn first_wrong_reference(heads: &Heads, names: &Names) -> Option<u64>
    ensures { (records : Records) → EndsAtCount records → HeadsNote records records.count heads.now
        → NamesNote records records.count names.now → IsLeastFailing (MeetsReferences records) result }
{
    least_of(first_wrong_base(heads), first_wrong_parent(heads, names))
}
