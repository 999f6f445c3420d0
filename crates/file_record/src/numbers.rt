//! The numbers of the records that hold the parts of a file.
ghost use Rattle.std.specs.Prelude.{◌≡◌, ◌≤◌, ◌<◌, ℕ, Contains, IfErr, IfOk, IsTrue, MatchResult, OnOk, length};
ghost use Rattle.std.specs.List.Sorted.{IsStrictlyIncreasing};
ghost use Rattle.ntfs_def.specs.Fixup.{opened_of};
ghost use Rattle.volume_def.specs.Readable.{IsFile, WhereReadable};
ghost use Rattle.volume_def.specs.Files.{part_of};
ghost use Rattle.volume_def.specs.ListsClause.{IsReadableList};
ghost use Rattle.attr_view.specs.View.{attribute_of, viewed_block};
ghost use Rattle.mft_table.specs.Mft.{MftReads, faults_of, view};
ghost use Rattle.file_record.specs.FileNos.{CountsNo, IsReadNo};
ghost use Rattle.file_record.specs.Numbers.{AddsListed, AreNumbers};
ghost use Rattle.file_record.specs.Records.{IsRecordOf, list_reads, reads_for_list};

use crate::FileNo;
use crate::list::{add_named, list_of, read_list};
use attr_view::{AttrView, RecordView};
use mft_table::Mft;
use std::alloc::Global;
use vol_disk::Disk;

// Puts numbers in order, each once.
fn sort_once(numbers: &mut Vec<u64>)
    ensures rising { IsStrictlyIncreasing numbers.new.items }
    ensures keeps { (n : ℕ) → Contains numbers.old.items n → Contains numbers.new.items n }
    ensures adds_none { (n : ℕ) → Contains numbers.new.items n → Contains numbers.old.items n }
    ensures few { length numbers.new.items ≤ length numbers.old.items }
{
    numbers.sort_unstable();
    numbers.dedup();
}

// Adds the numbers of the records that an attribute list names.
fn add_listed<D: Disk>(
    alloc: Global,
    mft: &mut Mft<'_, D>,
    list: &AttrView<'_>,
    numbers: &mut Vec<u64>,
) -> Result<(), FileNo>
    ensures added { OnOk result (AddsListed (view D.Disk mft.old) (attribute_of list.now) numbers.old.items numbers.new.items) }
    ensures err { IfErr result IsReadNo }
    ensures faults { MatchResult result (λ _. faults_of D.Disk mft.new ≡ faults_of D.Disk mft.old)
        (CountsNo (faults_of D.Disk mft.old) (faults_of D.Disk mft.new)) }
    ensures reads { MftReads D.Disk mft.old mft.new 512 }
    ensures fetched { IsTrue (view D.Disk mft.old).told → (n : ℕ)
        → IsReadableList (view D.Disk mft.old) (part_of n (attribute_of list.now))
        → MftReads D.Disk mft.old mft.new (list_reads (view D.Disk mft.old) (part_of n (attribute_of list.now))) }
{
    if let Some(value) = list.value() {
        return add_named(value, numbers);
    }
    if let (Some(sizes), Some(text)) = (list.sizes(), list.runs()) {
        let value = read_list(alloc, mft, &sizes, text)?;
        add_named(&value, numbers)?;
    }
    Ok(())
}

/// The numbers of the records that hold parts of a file, each once and in order: that of its base record, and those that
/// its attribute list names.
pub fn numbers_of<D: Disk>(
    alloc: Global,
    mft: &mut Mft<'_, D>,
    number: u64,
    base: &RecordView<'_>,
) -> Result<Vec<u64>, FileNo>
    requires { IsTrue (view D.Disk mft.old).told → IsRecordOf (view D.Disk mft.old) number number
        × (viewed_block base.now ≡ opened_of ((view D.Disk mft.old).block number)) }
    ensures rising { IfOk result (λ numbers. IsStrictlyIncreasing numbers.items) }
    ensures few { IfOk result (λ numbers. length numbers.items ≤ 10083) }
    ensures base { IfOk result (λ numbers. Contains numbers.items number) }
    ensures numbers { IfOk result (λ numbers. WhereReadable (view D.Disk mft.old) (IsFile (view D.Disk mft.old) number
        → AreNumbers (view D.Disk mft.old) number numbers.items)) }
    ensures err { IfErr result IsReadNo }
    ensures faults { MatchResult result (λ _. faults_of D.Disk mft.new ≡ faults_of D.Disk mft.old)
        (CountsNo (faults_of D.Disk mft.old) (faults_of D.Disk mft.new)) }
    ensures reads { MftReads D.Disk mft.old mft.new 512 }
    ensures fetched { WhereReadable (view D.Disk mft.old) (IsFile (view D.Disk mft.old) number
        → MftReads D.Disk mft.old mft.new (reads_for_list (view D.Disk mft.old) number)) }
{
    let mut numbers = Vec::new(alloc);
    numbers.push(number)?;
    if let Some(list) = list_of(base) {
        add_listed(alloc, mft, &list, &mut numbers)?;
    }
    sort_once(&mut numbers);
    Ok(numbers)
}
