//! A record of the table, read for a file.
ghost use Rattle.std.specs.Prelude.{◌≡◌, ◌<◌, ◌==◌, ◌&&◌, IfErr, IfNone, IfOk, IfSome, IsTrue, MatchResult, length};
ghost use Rattle.std.specs.Option.{option_map};
ghost use Rattle.ntfs_def.specs.Fixup.{opened_of};
ghost use Rattle.ntfs_def.specs.Record.{header_of, is_in_use};
ghost use Rattle.ntfs_def.specs.Shape.{HasShape};
ghost use Rattle.volume_def.specs.Files.{file_of, record_of};
ghost use Rattle.mft_table.specs.Mft.{MftReads, faults_of, mounted_of, view};
ghost use Rattle.file_record.specs.FileNos.{CountsNo, IsReadNo};
ghost use Rattle.file_record.specs.Records.{IsBlockOf, IsRecordOf};

use crate::{FileNo, Held};
use attr_view::RecordView;
use mft_table::{Mft, MftNo};
use ntfs_def::{is_in_use, record_header, reference};
use vol_bytes::u64_at;
use vol_disk::Disk;

// The number of the base record that an extension record names.
#[tactic(auto, unfolding(ntfs_def::specs::Record::header_of))]
fn base_of(block: &[u8; 1024]) -> Option<u64>
    ensures { result ≡ option_map (λ base. base.number) (header_of block.now).base }
{
    let base = u64_at(block, record_header::BASE);
    if base == 0 {
        return None;
    }
    Some(base % reference::NUMBERS)
}

// Whether an opened block of this number is in use, and belongs to the file.
fn is_of_file(block: &[u8; 1024], n: u64, number: u64) -> bool
    ensures { result ≡ (is_in_use block.now && (file_of n (record_of n block.now) == number)) }
{
    is_in_use(block) && base_of(block).unwrap_or(n) == number
}

// How many attributes an opened block has, where it is a record of the file.
fn count_of(block: &[u8; 1024], n: u64, number: u64) -> Option<usize>
    ensures some { IfSome result (λ count. IsBlockOf number n block.now × HasShape block.now count) }
    ensures none { IfNone result (¬ (IsBlockOf number n block.now)) }
{
    if !is_of_file(block, n, number) {
        return None;
    }
    match RecordView::new(block) {
        Ok(view) => Some(view.count()),
        Err(_) => None,
    }
}

/// Reads record `n`, and tells how many attributes it has where it is a record of the file.
pub fn read_record_of<D: Disk>(
    mft: &mut Mft<'_, D>,
    n: u64,
    number: u64,
    into: &mut [u8; 1024],
) -> Result<Option<usize>, FileNo>
    requires { n < length (mounted_of D.Disk mft.old).records }
    ensures own { IfOk result (λ found. IsTrue (view D.Disk mft.old).told → IfSome found (λ _.
        IsRecordOf (view D.Disk mft.old) number n × (into.new ≡ opened_of ((view D.Disk mft.old).block n)))) }
    ensures other { IfOk result (λ found. IsTrue (view D.Disk mft.old).told
        → IfNone found (¬ (IsRecordOf (view D.Disk mft.old) number n))) }
    ensures shape { IfOk result (λ found. IfSome found (HasShape into.new)) }
    ensures err { IfErr result IsReadNo }
    ensures faults { MatchResult result (λ _. faults_of D.Disk mft.new ≡ faults_of D.Disk mft.old)
        (CountsNo (faults_of D.Disk mft.old) (faults_of D.Disk mft.new)) }
    ensures reads { MftReads D.Disk mft.old mft.new 2 }
{
    match mft.read_record(n, into) {
        Ok(()) => Ok(count_of(into, n, number)),
        Err(MftNo::Torn { .. }) => Ok(None),
        Err(_) => Err(FileNo::Device),
    }
}

impl Held {
    /// Reads record `n`, where it is one of file `number`: `None` where it lies past the table, does not open, has no shape,
    /// is not in use or belongs to another file.
    ///
    /// # Errors
    ///
    /// `Device` where the disk failed.
    pub fn read<D: Disk>(mft: &mut Mft<'_, D>, n: u64, number: u64) -> Result<Option<Held>, FileNo>
        ensures number { IfOk result (λ found. IfSome found (λ held. held.number ≡ n)) }
        ensures inside { IfOk result (λ found. IfSome found (λ _. n < length (mounted_of D.Disk mft.old).records)) }
        ensures own { IfOk result (λ found. IsTrue (view D.Disk mft.old).told → IfSome found (λ held.
            IsRecordOf (view D.Disk mft.old) number n × (held.block ≡ opened_of ((view D.Disk mft.old).block n)))) }
        ensures other { IfOk result (λ found. IsTrue (view D.Disk mft.old).told
            → IfNone found (¬ (IsRecordOf (view D.Disk mft.old) number n))) }
        ensures err { IfErr result IsReadNo }
        ensures faults { MatchResult result (λ _. faults_of D.Disk mft.new ≡ faults_of D.Disk mft.old)
            (CountsNo (faults_of D.Disk mft.old) (faults_of D.Disk mft.new)) }
        ensures reads { MftReads D.Disk mft.old mft.new 2 }
    {
        if n >= mft.mounted().records.count() {
            return Ok(None);
        }
        let mut block = [0; 1024];
        let Some(count) = read_record_of(mft, n, number, &mut block)? else {
            return Ok(None);
        };
        Ok(Some(Held {
            number: n,
            block,
            count,
        }))
    }
}
