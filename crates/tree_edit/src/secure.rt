//! The security id of a file is set, and the file's times and flags are told anew.
ghost use Rattle.std.specs.Prelude.{◌≡◌, ◌<◌, false, IfErr, IsTrue, MatchResult, OnOk, length};
ghost use Rattle.volume_def.specs.FileNames.{names_of};
ghost use Rattle.volume_def.specs.Files.{records_of};
ghost use Rattle.mft_table.specs.InUse.{IsInUse};
ghost use Rattle.mft_table.specs.Mft.{KeepsDisk, faults_of, is_mft_broken, mounted_of, view};
ghost use Rattle.mft_table.specs.MirrorClusters.{IsMirrorInside};
ghost use Rattle.file_record.specs.FileNos.{CountsNo, IsReadNo};
ghost use Rattle.attribute_edits.specs.Attributes.{SetsSecurity};
ghost use Rattle.tree_edit.specs.Securable.{CanSecure};
ghost use Rattle.file_changes.specs.Values.{StagesValue};
ghost use Rattle.file_changes.specs.Staged.{TellsStored};

use file_changes::put_bytes;
use file_record::FileNo;
use mft_table::Mft;
use ntfs_def::standard_information::SECURITY;
use std::alloc::Global;
use vol_disk::Disk;

/// Sets the security id of a file that is shown, in its `$STANDARD_INFORMATION`, which is part `i` of it, and then the four times of the
/// file, in the order of that attribute, and its DOS flags. All of it is staged.
///
/// # Errors
///
/// `Device` where the disk failed, and `Memory`. Whoever called gives up what was staged.
pub fn set_security<D: Disk>(
    alloc: Global,
    mft: &mut Mft<'_, D>,
    number: u64,
    i: usize,
    id: u32,
    times: &[u64; 4],
    flags: u16,
) -> Result<(), FileNo>
    requires inside { number < length (mounted_of D.Disk mft.old).records }
    requires mirror { IsMirrorInside (mounted_of D.Disk mft.old) }
    requires sound { is_mft_broken D.Disk mft.old ≡ false }
    requires volume { IsInUse D.Disk mft.old }
    requires can { IsTrue (view D.Disk mft.old).told → CanSecure (view D.Disk mft.old) number i }
    ensures secured { OnOk result (IsTrue (view D.Disk mft.old).told
        → SetsSecurity (view D.Disk mft.old) (view D.Disk mft.new) number id times.now flags) }
    ensures places { IsTrue (view D.Disk mft.old).told
        → StagesValue D.Disk number (names_of (records_of (view D.Disk mft.old)) number) mft.old mft.new }
    ensures tables { OnOk result (TellsStored D.Disk mft.new) }
    ensures disk { KeepsDisk D.Disk mft.old mft.new }
    ensures err { IfErr result IsReadNo }
    ensures faults { MatchResult result (λ _. faults_of D.Disk mft.new ≡ faults_of D.Disk mft.old)
        (CountsNo (faults_of D.Disk mft.old) (faults_of D.Disk mft.new)) }
{
    let bytes = id.to_le_bytes();
    put_bytes(alloc, mft, number, i, SECURITY, &bytes, times, flags)
}
