//! What a file tells in its `$STANDARD_INFORMATION`, its four times and its DOS flags, set.
ghost use Rattle.std.specs.Prelude.{◌≡◌, ◌≤◌, ◌<◌, ℕ, false, IfErr, MatchOption, MatchResult, OnErr, OnOk, length};
ghost use Rattle.ntfs_def.specs.declared.kinds.TheConstants.{STANDARD_INFORMATION};
ghost use Rattle.volume_def.specs.Coverage.{IsApart};
ghost use Rattle.volume_def.specs.Readable.{IsFile, WhereReadable};
ghost use Rattle.index_store.specs.Mft.{KeepsDisk, faults_of, is_mft_broken, mounted_of, view};
ghost use Rattle.index_store.specs.MirrorClusters.{IsMirrorInside};
ghost use Rattle.index_store.specs.FileNos.{CountsNo, IsReadNo};
ghost use Rattle.index_store.specs.Held.{parts_held};
ghost use Rattle.index_store.specs.FileRecordWritten.{PartHeld};
ghost use Rattle.dir_index.specs.Standard.{IsInitialized, IsTooShort, SetsStandard, StagesNothing, StagesRecordOf, TellsNode, TellsNodeAt};

use index_store::{FileNo, FileParts, Mft, find_first};
use ntfs_def::kinds::STANDARD_INFORMATION;
use ntfs_def::standard_information::{ACCESSED, CREATED, FLAGS, MODIFIED, RECORD_CHANGED};
use std::alloc::Global;
use tree_model::SHOWN_FLAGS;
use vol_bytes::{put_u32, put_u64, u32_at};
use vol_disk::Disk;

/// The bytes of a value up to what no call sets.
const FRONT: usize = 0x24;

// The front of a value with these times, and these DOS flags in place of those that are shown.
fn front_with(value: &[u8], times: &[u64; 4], flags: u16) -> [u8; FRONT]
    requires { 36 ≤ length value.now }
    ensures { TellsNode value.now times.now flags result }
{
    let mut front = [0; FRONT];
    put_u64(&mut front, CREATED, times[0]);
    put_u64(&mut front, MODIFIED, times[1]);
    put_u64(&mut front, RECORD_CHANGED, times[2]);
    put_u64(&mut front, ACCESSED, times[3]);
    let hidden = u32_at(value, FLAGS) & !u32::from(SHOWN_FLAGS);
    put_u32(&mut front, FLAGS, hidden | u32::from(flags));
    front
}

// The same of a part of a file; `None` where it is no value that is long enough.
fn front_of(file: &FileParts, i: usize, times: &[u64; 4], flags: u16) -> Option<[u8; FRONT]>
    requires { i < length (parts_held file.now) }
    ensures { MatchOption result (PartHeld file.now i IsTooShort)
        (λ front. PartHeld file.now i (TellsNodeAt times.now flags front)) }
{
    let attribute = file.attr(i);
    let Some(value) = attribute.value() else {
        return None;
    };
    if value.len() < FRONT {
        return None;
    }
    Some(front_with(value, times, flags))
}

/// Sets the four times of a file, in the order of its `$STANDARD_INFORMATION`, and its DOS flags, in the value of that attribute,
/// and stages the record that holds it: the flags are these, beside those of the value that are not shown. All else of the volume
/// is as it was.
///
/// # Errors
///
/// `Device` where the disk failed, and `Memory`. Nothing is staged then.
pub fn set_node<D: Disk>(
    alloc: Global,
    mft: &mut Mft<'_, D>,
    number: u64,
    times: &[u64; 4],
    flags: u16,
) -> Result<(), FileNo>
    requires inside { number < length (mounted_of D.Disk mft.old).records }
    requires mirror { IsMirrorInside (mounted_of D.Disk mft.old) }
    requires sound { is_mft_broken D.Disk mft.old ≡ false }
    ensures set { OnOk result (WhereReadable (view D.Disk mft.old) (IsFile (view D.Disk mft.old) number
        → IsApart (view D.Disk mft.old).layout → IsInitialized (view D.Disk mft.old) number
        → SetsStandard (view D.Disk mft.old) (view D.Disk mft.new) number times.now flags)) }
    ensures places { StagesRecordOf D.Disk number mft.old mft.new }
    ensures kept { OnErr result (StagesNothing D.Disk mft.old mft.new) }
    ensures disk { KeepsDisk D.Disk mft.old mft.new }
    ensures err { IfErr result IsReadNo }
    ensures faults { MatchResult result (λ _. faults_of D.Disk mft.new ≡ faults_of D.Disk mft.old)
        (CountsNo (faults_of D.Disk mft.old) (faults_of D.Disk mft.new)) }
{
    let mut file = FileParts::load(alloc, mft, number)?;
    let Some(first) = find_first(&file, STANDARD_INFORMATION, &[]) else {
        return Ok(());
    };
    let Some(front) = front_of(&file, first.index, times, flags) else {
        return Ok(());
    };
    file.write_bytes(mft, first.index, 0, &front)
}
