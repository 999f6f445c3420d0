//! Whether an attribute list names each other part of its file once, and nothing else: the entries that it has and those
//! that the parts call for are sorted, and compared.
ghost use Rattle.std.specs.Prelude.{◌≡◌, ◌↔◌, ◌++◌, ◌<◌, ◌^◌, Some, IfOk, OnOk, IsTrue, map};
ghost use Rattle.volume_def.specs.Files.{Records, part_of, record_of};
ghost use Rattle.volume_def.specs.ListsClause.{entries_in};
ghost use Rattle.list_laws.specs.SameItems.{SameItems};
ghost use Rattle.attr_list.specs.View.{entries_of, entry_shown};
ghost use Rattle.attr_view.specs.View.{attribute_of, viewed_block};
ghost use Rattle.file_clauses.specs.Lists.{NamesEach, entry_order, wanted_of};

use attr_list::{EntryView, ListView};
use attr_view::{AttrView, RecordView};
use ntfs_def::kinds::ATTRIBUTE_LIST;
use ntfs_def::reference::{NUMBERS, number_in, reference_to, sequence_in};
use std::alloc::{AllocError, Global};
use std::cmp::Ordering;

// The order in which entries are compared.
fn compare(a: &EntryView<'_>, b: &EntryView<'_>) -> Ordering
    ensures { result ≡ entry_order (entry_shown a.now) (entry_shown b.now) }
{
    number_in(a.holder)
        .cmp(&number_in(b.holder))
        .then(sequence_in(a.holder).cmp(&sequence_in(b.holder)))
        .then(a.id.cmp(&b.id))
        .then(a.kind.cmp(&b.kind))
        .then(a.first.cmp(&b.first))
        .then(a.name.cmp(b.name))
}

fn is_same(a: &EntryView<'_>, b: &EntryView<'_>) -> bool
    ensures { IsTrue result ↔ entry_shown a.now ≡ entry_shown b.now }
{
    a.kind == b.kind
        && a.first == b.first
        && a.holder == b.holder
        && a.id == b.id
        && a.name == b.name
}

// Whether two lists have the same entries in the same order.
fn same_in_order(a: &[EntryView<'_>], b: &[EntryView<'_>]) -> bool
    ensures { IsTrue result ↔ map entry_shown a.now ≡ map entry_shown b.now }
{
    if a.len() != b.len() {
        return false;
    }
    for i in 0..a.len() {
        if !is_same(&a[i], &b[i]) {
            return false;
        }
    }
    true
}

// Whether two lists have the same entries, each as often.
fn same_entries(entries: &mut [EntryView<'_>], wanted: &mut [EntryView<'_>]) -> bool
    ensures { IsTrue result ↔ SameItems (map entry_shown wanted.old) (map entry_shown entries.old) }
{
    entries.sort_unstable_by(compare);
    wanted.sort_unstable_by(compare);
    same_in_order(entries, wanted)
}

// The entries of a list, in order.
fn entries_of<'b>(alloc: Global, list: &ListView<'b>) -> Result<Vec<EntryView<'b>>, AllocError>
    ensures { IfOk result (λ entries. map entry_shown entries.items ≡ entries_of list.now) }
{
    let mut entries = Vec::with_capacity(alloc, list.count())?;
    for entry in list.entries() {
        entries.push(entry)?;
    }
    Ok(entries)
}

/// Whether a value is a list that has exactly the wanted entries, each as often, in any order. The wanted are put into
/// another order.
///
/// # Errors
///
/// Want of memory alone.
pub fn names_each(
    alloc: Global,
    value: &[u8],
    wanted: &mut [EntryView<'_>],
) -> Result<bool, AllocError>
    ensures { IfOk result (λ right. IsTrue right ↔ NamesEach (map entry_shown wanted.old) value.now) }
{
    let Ok(list) = ListView::new(value) else {
        return Ok(false);
    };
    let mut entries = entries_of(alloc, &list)?;
    let same = same_entries(&mut entries, wanted);
    Ok(same)
}

// What a list has to say of an attribute that record `n` holds.
fn wanted_entry<'b>(n: u64, sequence: u16, attribute: &AttrView<'b>) -> EntryView<'b>
    ensures { n < 2 ^ 48 → entry_shown result ≡ wanted_of n sequence (part_of n (attribute_of attribute.now)) }
{
    let first = match attribute.sizes() {
        Some(sizes) => sizes.first,
        None => 0,
    };
    EntryView {
        kind: attribute.kind(),
        name: attribute.name(),
        first,
        holder: reference_to(n % NUMBERS, sequence),
        id: attribute.id(),
    }
}

/// Adds what the list of its file has to say of each attribute of record `n` that is no list.
///
/// # Errors
///
/// Want of memory alone.
pub fn add_wanted<'b>(
    n: u64,
    view: &RecordView<'b>,
    wanted: &mut Vec<EntryView<'b>>,
) -> Result<(), AllocError>
    ensures { OnOk result ((records : Records) → n < 2 ^ 48 → records.record_at n ≡ Some (record_of n (viewed_block view.now))
        → map entry_shown wanted.new.items
        ≡ map entry_shown wanted.old.items ++ entries_in records (record_of n (viewed_block view.now)).parts) }
{
    let sequence = view.header().sequence;
    for attribute in view.attributes() {
        if attribute.kind() != ATTRIBUTE_LIST {
            wanted.push(wanted_entry(n, sequence, &attribute))?;
        }
    }
    Ok(())
}
