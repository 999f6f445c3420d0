//! An entry put into the index of a directory that is held.
ghost use Rattle.std.specs.Prelude.{◌≡◌, false, IfErr, IsTrue, MatchResult, OnOk};
ghost use Rattle.ntfs_def.specs.FileName.{is_name_key};
ghost use Rattle.ntfs_def.specs.Node.{item_in};
ghost use Rattle.ntfs_def.specs.declared.index.NodeForm.TheVariants.{Names};
ghost use Rattle.index_node.specs.Edit.{IsShortEntry};
ghost use Rattle.mft_table.specs.Mft.{KeepsDisk, faults_of, is_mft_broken, mounted_of, view};
ghost use Rattle.mft_table.specs.MirrorClusters.{IsMirrorInside};
ghost use Rattle.file_record.specs.FileNos.{CountsNo, IsReadNo};
ghost use Rattle.file_record.specs.Held.{file_number};
ghost use Rattle.made_edits.specs.Marks.{marks_of};
ghost use Rattle.made_edits.specs.Comes.{EntersIndex};
ghost use Rattle.file_makes.specs.Enters.{CanEnter, StagesEntry};

use file_record::{FileNo, FileParts};
use made_edits::{has_root_room, put_in_root, put_item};
use mft_table::Mft;
use std::alloc::Global;
use upcase::UpCase;
use vol_disk::Disk;

/// Puts an entry, without a child's number, into the index of a directory that is held: into its root, where the index has no records and
/// the root has room, and else into the record of it in which the search for the entry's key ends. What holds it is staged.
///
/// # Errors
///
/// `Device` where the disk failed, and `Memory`. Whoever called gives up what was staged.
pub fn put_in_index<D: Disk>(
    alloc: Global,
    mft: &mut Mft<'_, D>,
    dir: &mut FileParts,
    upcase: UpCase,
    entry: &[u8],
) -> Result<(), FileNo>
    requires entry { IsShortEntry Names false entry.now }
    requires key { IsTrue (is_name_key (item_in entry.now).key) }
    requires mirror { IsMirrorInside (mounted_of D.Disk mft.old) }
    requires sound { is_mft_broken D.Disk mft.old ≡ false }
    requires can { IsTrue (view D.Disk mft.old).told
        → CanEnter (view D.Disk mft.old) (marks_of (mounted_of D.Disk mft.old)) dir.old upcase entry.now }
    ensures enters { OnOk result (IsTrue (view D.Disk mft.old).told
        → EntersIndex (view D.Disk mft.old) (view D.Disk mft.new) (file_number dir.old) (item_in entry.now)) }
    ensures places { IsTrue (view D.Disk mft.old).told → StagesEntry D.Disk (file_number dir.old) mft.old mft.new }
    ensures disk { KeepsDisk D.Disk mft.old mft.new }
    ensures err { IfErr result IsReadNo }
    ensures faults { MatchResult result (λ _. faults_of D.Disk mft.new ≡ faults_of D.Disk mft.old)
        (CountsNo (faults_of D.Disk mft.old) (faults_of D.Disk mft.new)) }
{
    if has_root_room(dir, entry.len()) {
        put_in_root(alloc, mft, dir, upcase, entry)
    } else {
        put_item(alloc, mft, dir, upcase, entry)
    }
}
