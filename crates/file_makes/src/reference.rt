//! References: of a directory, and of a file that comes.
ghost use Rattle.std.specs.Prelude.{◌≡◌, ◌<◌, ◌^◌, IfErr, IfOk, IsTrue, MatchResult, length};
ghost use Rattle.ntfs_def.specs.Record.{reference_in};
ghost use Rattle.volume_def.specs.Freed.{sequence_at_first};
ghost use Rattle.mft_table.specs.Mft.{MftReads, faults_of, mounted_of, view};
ghost use Rattle.file_record.specs.Extensions.{reference_of};
ghost use Rattle.file_record.specs.FileNos.{CountsNo, IsReadNo};
ghost use Rattle.made_edits.specs.Comes.{new_reference};

use file_record::{FileNo, load_base};
use mft_table::Mft;
use ntfs_def::reference::reference_to;
use std::alloc::Global;
use vol_disk::Disk;

/// The reference of a file, by its number. Where there is no such file, as never where it is shown, `Memory` is answered.
///
/// # Errors
///
/// `Device` where the disk failed, and `Memory`.
pub fn reference_of<D: Disk>(alloc: Global, mft: &mut Mft<'_, D>, f: u64) -> Result<u64, FileNo>
    requires { f < 2 ^ 48 }
    ensures reference { IfOk result (λ reference. IsTrue (view D.Disk mft.old).told
        → reference_in reference ≡ reference_of (view D.Disk mft.old) f) }
    ensures err { IfErr result IsReadNo }
    ensures faults { MatchResult result (λ _. faults_of D.Disk mft.new ≡ faults_of D.Disk mft.old)
        (CountsNo (faults_of D.Disk mft.old) (faults_of D.Disk mft.new)) }
    ensures reads { MftReads D.Disk mft.old mft.new 20678 }
{
    let Some(base) = load_base(alloc, mft, f)? else {
        return Err(FileNo::Memory);
    };
    Ok(reference_to(f, base.header.sequence))
}

// The sequence number of a record that is taken, by that of its block.
fn sequence_at_first(sequence: u16) -> u16
    ensures { result ≡ sequence_at_first sequence }
{
    if sequence == 0 { 1 } else { sequence }
}

/// The reference that a file has in a record that is free.
///
/// # Errors
///
/// `Device` where the disk failed.
pub fn next_reference<D: Disk>(mft: &mut Mft<'_, D>, n: u64) -> Result<u64, FileNo>
    requires inside { n < length (mounted_of D.Disk mft.old).records }
    requires few { n < 2 ^ 48 }
    ensures reference { IfOk result (λ reference. IsTrue (view D.Disk mft.old).told
        → reference_in reference ≡ new_reference (view D.Disk mft.old) n) }
    ensures err { IfErr result IsReadNo }
    ensures faults { MatchResult result (λ _. faults_of D.Disk mft.new ≡ faults_of D.Disk mft.old)
        (CountsNo (faults_of D.Disk mft.old) (faults_of D.Disk mft.new)) }
    ensures reads { MftReads D.Disk mft.old mft.new 2 }
{
    match mft.stored_sequence(n) {
        Ok(stored) => Ok(reference_to(n, sequence_at_first(stored))),
        Err(_) => Err(FileNo::Device),
    }
}
