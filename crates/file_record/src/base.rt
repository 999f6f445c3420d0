//! A file, loaded with the header of its base record.
ghost use Rattle.std.specs.Prelude.{◌≡◌, IfErr, IfNone, IfOk, IfSome, IsTrue, MatchResult, All};
ghost use Rattle.volume_def.specs.Readable.{IsFile, WhereReadable};
ghost use Rattle.mft_table.specs.Mft.{MftReads, faults_of, view};
ghost use Rattle.file_record.specs.Base.{HasBaseRecord};
ghost use Rattle.file_record.specs.FileNos.{CountsNo, IsReadNo};
ghost use Rattle.file_record.specs.Held.{AreParts, AreRising, IsCurrent, file_number, held_of};
ghost use Rattle.file_record.specs.Holds.{IsHeldBase};
ghost use Rattle.file_record.specs.Records.{IsRecordOf, file_reads};

use crate::load::load_from;
use crate::{FileNo, FileParts, Held};
use attr_view::RecordHeader;
use mft_table::Mft;
use std::alloc::Global;
use vol_disk::Disk;

/// A file: the header of its base record, and its parts.
#[derive(Drop)]
pub struct BaseFile {
    /// The header of the base record.
    pub header: RecordHeader,
    /// The parts of the file.
    pub parts: FileParts,
}

// The base record of a file, with its header.
#[derive(Drop)]
struct BaseRecord {
    header: RecordHeader,
    held: Held,
}

// Reads the base record of a file.
fn read_base<D: Disk>(mft: &mut Mft<'_, D>, number: u64) -> Result<Option<BaseRecord>, FileNo>
    ensures number { IfOk result (λ found. IfSome found (λ base. base.held.number ≡ number)) }
    ensures base { IfOk result (λ found. IsTrue (view D.Disk mft.old).told
        → IfSome found (λ base. HasBaseRecord (view D.Disk mft.old) number base.header)) }
    ensures held { IfOk result (λ found. IsTrue (view D.Disk mft.old).told
        → IfSome found (λ base. IsHeldBase (view D.Disk mft.old) base.held)) }
    ensures other { IfOk result (λ found. WhereReadable (view D.Disk mft.old) (IfNone found (¬ (IsFile (view D.Disk mft.old) number)))) }
    ensures err { IfErr result IsReadNo }
    ensures faults { MatchResult result (λ _. faults_of D.Disk mft.new ≡ faults_of D.Disk mft.old)
        (CountsNo (faults_of D.Disk mft.old) (faults_of D.Disk mft.new)) }
    ensures reads { MftReads D.Disk mft.old mft.new 2 }
{
    let Some(held) = Held::read(mft, number, number)? else {
        return Ok(None);
    };
    let header = held.view().header();
    if header.base != 0 {
        return Ok(None);
    }
    Ok(Some(BaseRecord { header, held }))
}

/// Loads the file of a number, with the header of its base record: `None` where there is none of that number, since the
/// record lies past the table, is not in use, or is no base record. A base record that does not open, or that has no
/// shape, is none either; on a volume whose files can be read there is no such record.
///
/// # Errors
///
/// `Device` where the disk failed, and `Memory`.
pub fn load_base<D: Disk>(
    alloc: Global,
    mft: &mut Mft<'_, D>,
    number: u64,
) -> Result<Option<BaseFile>, FileNo>
    ensures number { IfOk result (λ found. IfSome found (λ file. file_number file.parts ≡ number)) }
    ensures header { IfOk result (λ found. IsTrue (view D.Disk mft.old).told
        → IfSome found (λ file. HasBaseRecord (view D.Disk mft.old) number file.header)) }
    ensures other { IfOk result (λ found. WhereReadable (view D.Disk mft.old) (IfNone found (¬ (IsFile (view D.Disk mft.old) number)))) }
    ensures rising { IfOk result (λ found. IfSome found (λ file. AreRising (held_of file.parts))) }
    ensures held { IfOk result (λ found. IsTrue (view D.Disk mft.old).told
        → IfSome found (λ file. IsCurrent (view D.Disk mft.old) file.parts)) }
    ensures own { IfOk result (λ found. IsTrue (view D.Disk mft.old).told → IfSome found (λ file.
        All (λ one. IsRecordOf (view D.Disk mft.old) number one.number) (held_of file.parts))) }
    ensures parts { IfOk result (λ found. WhereReadable (view D.Disk mft.old)
        (IfSome found (λ file. AreParts (view D.Disk mft.old) file.parts))) }
    ensures err { IfErr result IsReadNo }
    ensures faults { MatchResult result (λ _. faults_of D.Disk mft.new ≡ faults_of D.Disk mft.old)
        (CountsNo (faults_of D.Disk mft.old) (faults_of D.Disk mft.new)) }
    ensures reads { MftReads D.Disk mft.old mft.new 20678 }
    ensures none { IfOk result (λ found. IfNone found (MftReads D.Disk mft.old mft.new 2)) }
    ensures fetched { WhereReadable (view D.Disk mft.old) (IsFile (view D.Disk mft.old) number
        → MftReads D.Disk mft.old mft.new (file_reads (view D.Disk mft.old) number)) }
{
    let Some(base) = read_base(mft, number)? else {
        return Ok(None);
    };
    let parts = load_from(alloc, mft, &base.held)?;
    Ok(Some(BaseFile {
        header: base.header,
        parts,
    }))
}
