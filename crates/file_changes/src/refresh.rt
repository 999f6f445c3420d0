//! The entries of the names of a file tell anew what they repeat of it.
ghost use Rattle.std.specs.Prelude.{◌≡◌, false, IfErr, IsTrue, MatchResult, OnOk};
ghost use Rattle.mft_table.specs.Mft.{KeepsDisk, faults_of, is_mft_broken, mounted_of, view};
ghost use Rattle.mft_table.specs.MirrorClusters.{IsMirrorInside};
ghost use Rattle.file_record.specs.FileNos.{CountsNo, IsReadNo};
ghost use Rattle.dir_index.specs.Refreshed.{RefreshesEntry};
ghost use Rattle.file_changes.specs.Links.{CanTell, CanTellAll, RefreshesLinks};
ghost use Rattle.file_changes.specs.Staged.{IsOfDirectory, StagesFew, StagesLinks};

use dir_index::{DuplicatedInformation, refresh_entry};
use file_record::FileNo;
use mft_table::Mft;
use std::alloc::Global;
use tree_model::Link;
use vol_disk::Disk;

// The entry of a name tells this; where nothing is told, its directory may be no record of the table, and nothing is done.
fn refresh_link<D: Disk>(
    alloc: Global,
    mft: &mut Mft<'_, D>,
    link: &Link,
    told: &DuplicatedInformation,
) -> Result<(), FileNo>
    requires mirror { IsMirrorInside (mounted_of D.Disk mft.old) }
    requires sound { is_mft_broken D.Disk mft.old ≡ false }
    requires can { IsTrue (view D.Disk mft.old).told → CanTell (view D.Disk mft.old) (mounted_of D.Disk mft.old).upcase link.now }
    ensures refreshed { OnOk result (IsTrue (view D.Disk mft.old).told
        → RefreshesEntry (view D.Disk mft.old) (view D.Disk mft.new) link.now.parent link.now.name told.now) }
    ensures places { IsTrue (view D.Disk mft.old).told
        → StagesFew D.Disk 12 (IsOfDirectory (view D.Disk mft.old) link.now.parent) mft.old mft.new }
    ensures disk { KeepsDisk D.Disk mft.old mft.new }
    ensures err { IfErr result IsReadNo }
    ensures faults { MatchResult result (λ _. faults_of D.Disk mft.new ≡ faults_of D.Disk mft.old)
        (CountsNo (faults_of D.Disk mft.old) (faults_of D.Disk mft.new)) }
{
    if link.parent >= mft.mounted().records.count() {
        return Ok(());
    }
    refresh_entry(alloc, mft, link.parent, link.name.as_slice(), told)
}

/// The entries of names of one file tell this, one after another.
///
/// # Errors
///
/// `Device` where the disk failed, and `Memory`. Whoever called gives up what was staged.
pub fn refresh_links<D: Disk>(
    alloc: Global,
    mft: &mut Mft<'_, D>,
    links: &[Link],
    told: &DuplicatedInformation,
) -> Result<(), FileNo>
    requires mirror { IsMirrorInside (mounted_of D.Disk mft.old) }
    requires sound { is_mft_broken D.Disk mft.old ≡ false }
    requires can { IsTrue (view D.Disk mft.old).told → CanTellAll (view D.Disk mft.old) (mounted_of D.Disk mft.old).upcase links.now }
    ensures refreshed { OnOk result (IsTrue (view D.Disk mft.old).told
        → RefreshesLinks told.now (view D.Disk mft.old) (view D.Disk mft.new) links.now) }
    ensures places { IsTrue (view D.Disk mft.old).told → StagesLinks D.Disk links.now mft.old mft.new }
    ensures disk { KeepsDisk D.Disk mft.old mft.new }
    ensures err { IfErr result IsReadNo }
    ensures faults { MatchResult result (λ _. faults_of D.Disk mft.new ≡ faults_of D.Disk mft.old)
        (CountsNo (faults_of D.Disk mft.old) (faults_of D.Disk mft.new)) }
{
    for link in links {
        refresh_link(alloc, mft, link, told)?;
    }
    Ok(())
}
