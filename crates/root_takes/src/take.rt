//! An entry goes out of the root of an index without records.
ghost use Rattle.std.specs.Prelude.{◌≡◌, false, IfErr, IsTrue, MatchResult, OnOk, true};
ghost use Rattle.ntfs_def.specs.FileName.{is_name_key, key_units};
ghost use Rattle.mft_table.specs.Mft.{KeepsDisk, faults_of, is_mft_broken, mounted_of, view};
ghost use Rattle.mft_table.specs.MirrorClusters.{IsMirrorInside};
ghost use Rattle.file_record.specs.FileNos.{CountsNo, IsReadNo};
ghost use Rattle.file_record.specs.Held.{IsHeldFile, file_number};
ghost use Rattle.file_record.specs.Written.{IsWholeFile};
ghost use Rattle.record_edits.specs.Between.{IsReady};
ghost use Rattle.record_calls.specs.Marks.{marks_of};
ghost use Rattle.dir_index.specs.Standard.{StagesRecordOf};
ghost use Rattle.index_puts.specs.Held.{HoldsItems};
ghost use Rattle.tree_model.specs.RootEntry.{has_root_entry};
ghost use Rattle.root_puts.specs.CanPut.{CanPutInRoot};
ghost use Rattle.root_takes.specs.Exits.{ExitsRoot};

use crate::set::set_value;
use crate::value::shrunk_at;
use dir_index::find_first;
use file_record::{FileNo, FileParts};
use mft_table::Mft;
use ntfs_def::index_root::DIRECTORY_INDEX;
use ntfs_def::kinds::INDEX_ROOT;
use std::alloc::Global;
use upcase::UpCase;
use vol_disk::Disk;

/// Takes the entry of a key out of the root of the index of a directory that is held, which has no records. The record that holds the root
/// is staged, with its copy where the mirror has one; nothing else of the volume changes. By condition, where the contents are told: the
/// directory is held whole as the volume has it, its index is right by itself, whichever names the directory has, the volume stands as
/// between two calls, and the root has an entry of the key (`has_root_entry`).
///
/// # Errors
///
/// `Memory`. Whoever called gives up what was staged.
pub fn take_in_root<D: Disk>(
    alloc: Global,
    mft: &mut Mft<'_, D>,
    dir: &mut FileParts,
    upcase: UpCase,
    key: &[u8],
) -> Result<(), FileNo>
    requires held { IsTrue (view D.Disk mft.old).told → HoldsItems (view D.Disk mft.old) dir.old upcase }
    requires can { IsTrue (view D.Disk mft.old).told → CanPutInRoot (view D.Disk mft.old) (marks_of (mounted_of D.Disk mft.old)) dir.old }
    requires mirror { IsMirrorInside (mounted_of D.Disk mft.old) }
    requires sound { is_mft_broken D.Disk mft.old ≡ false }
    requires entry { IsTrue (view D.Disk mft.old).told
        → has_root_entry (view D.Disk mft.old) (file_number dir.old) (key_units key.now) ≡ true }
    requires key { IsTrue (is_name_key key.now) }
    ensures taken { OnOk result (IsTrue (view D.Disk mft.old).told
        → ExitsRoot (view D.Disk mft.old) (view D.Disk mft.new) (file_number dir.old) key.now) }
    ensures ready { OnOk result (IsTrue (view D.Disk mft.old).told → IsReady (view D.Disk mft.new) (marks_of (mounted_of D.Disk mft.new))) }
    ensures held { OnOk result (IsTrue (view D.Disk mft.old).told → IsHeldFile (view D.Disk mft.new) dir.new) }
    ensures whole { OnOk result (IsTrue (view D.Disk mft.old).told → IsWholeFile (view D.Disk mft.new) dir.new) }
    ensures file { file_number dir.new ≡ file_number dir.old }
    ensures places { StagesRecordOf D.Disk (file_number dir.old) mft.old mft.new }
    ensures disk { KeepsDisk D.Disk mft.old mft.new }
    ensures err { IfErr result IsReadNo }
    ensures faults { MatchResult result (λ _. faults_of D.Disk mft.new ≡ faults_of D.Disk mft.old)
        (CountsNo (faults_of D.Disk mft.old) (faults_of D.Disk mft.new)) }
{
    let Some(first) = find_first(dir, INDEX_ROOT, DIRECTORY_INDEX) else {
        return Ok(());
    };
    let place = dir.place_of(first.index);
    let Some(root) = shrunk_at(alloc, dir, place, upcase, key)? else {
        return Ok(());
    };
    set_value(mft, dir, place, root.as_slice())
}
