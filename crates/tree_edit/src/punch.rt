//! Bytes of a stream that is a value are punched: they become zeros.
ghost use Rattle.std.specs.Prelude.{◌≡◌, ◌≤◌, ◌<◌, ◌+◌, ◌^◌, false, IfErr, IsTrue, MatchResult, OnOk, length};
ghost use Rattle.volume_def.specs.FileNames.{names_of};
ghost use Rattle.volume_def.specs.Files.{records_of};
ghost use Rattle.mft_table.specs.InUse.{IsInUse};
ghost use Rattle.mft_table.specs.Mft.{KeepsDisk, faults_of, is_mft_broken, mounted_of, view};
ghost use Rattle.mft_table.specs.MirrorClusters.{IsMirrorInside};
ghost use Rattle.file_record.specs.FileNos.{CountsNo, IsReadNo};
ghost use Rattle.stream_overwrites.specs.Overwritten.{PunchesValue};
ghost use Rattle.tree_edit.specs.Punchable.{CanPunch};
ghost use Rattle.file_changes.specs.Values.{StagesValue};
ghost use Rattle.file_changes.specs.Staged.{TellsStored};

use file_changes::put_bytes;
use file_record::FileNo;
use mft_table::Mft;
use sparse_io::FoundStream;
use std::alloc::Global;
use vol_disk::Disk;

/// Writes zeros over the bytes of a stream that is a value, from byte `from` on, as far as so many lie below its size, and then sets the
/// four times of its file, in the order of its `$STANDARD_INFORMATION`, and its DOS flags. All of it is staged.
///
/// # Errors
///
/// `Device` where the disk failed, and `Memory`. Whoever called gives up what was staged.
pub fn punch_value<D: Disk>(
    alloc: Global,
    mft: &mut Mft<'_, D>,
    found: &FoundStream,
    number: u64,
    times: &[u64; 4],
    flags: u16,
    from: u64,
    len: u64,
) -> Result<(), FileNo>
    requires near { from + len ≤ 2 ^ 40 }
    requires inside { number < length (mounted_of D.Disk mft.old).records }
    requires mirror { IsMirrorInside (mounted_of D.Disk mft.old) }
    requires sound { is_mft_broken D.Disk mft.old ≡ false }
    requires volume { IsInUse D.Disk mft.old }
    requires can { IsTrue (view D.Disk mft.old).told → CanPunch (view D.Disk mft.old) found.now number }
    ensures punched { OnOk result (IsTrue (view D.Disk mft.old).told → (can : CanPunch (view D.Disk mft.old) found.now number)
        → PunchesValue (view D.Disk mft.old) (view D.Disk mft.new) number can.name from len times.now flags) }
    ensures places { IsTrue (view D.Disk mft.old).told
        → StagesValue D.Disk number (names_of (records_of (view D.Disk mft.old)) number) mft.old mft.new }
    ensures tables { OnOk result (TellsStored D.Disk mft.new) }
    ensures disk { KeepsDisk D.Disk mft.old mft.new }
    ensures err { IfErr result IsReadNo }
    ensures faults { MatchResult result (λ _. faults_of D.Disk mft.new ≡ faults_of D.Disk mft.old)
        (CountsNo (faults_of D.Disk mft.old) (faults_of D.Disk mft.new)) }
{
    let at = from.min(found.size);
    let end = (from + len).min(found.size);
    let zeros = vec![in alloc; 0u8; (end - at) as usize]?;
    put_bytes(
        alloc,
        mft,
        number,
        found.part,
        at as usize,
        &zeros,
        times,
        flags,
    )
}
