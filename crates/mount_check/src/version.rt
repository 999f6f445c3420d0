//! What record 3 says of the volume: its version, and whether it was closed.
ghost use Rattle.std.specs.Prelude.{◌≡◌, ◌↔◌, ◌%◌, ◌<◌, ℕ, IfErr, IfOk, IsSomeAnd, IsTrue, MatchResult, length};
ghost use Rattle.std.specs.Option.{option_copied};
ghost use Rattle.vol_bytes.specs.Field.{u16_at};
ghost use Rattle.ntfs_def.specs.Attribute.{attribute_place};
ghost use Rattle.ntfs_def.specs.declared.records.TheConstants.{VOLUME};
ghost use Rattle.attr_view.specs.View.{attributes_of, viewed_block};
ghost use Rattle.volume_def.specs.VersionClause.{HasVersion, IsClean, IsVersionAt};
ghost use Rattle.mft_table.specs.Mft.{MftReads, faults_of, view};
ghost use Rattle.mft_table.specs.MountNos.{CountsMount};
ghost use Rattle.mount_check.specs.Views.{HasComeTo};

use crate::records::{read_in_use, view_of};
use attr_view::RecordView;
use file_clauses::find_version;
use mft_table::{Mft, MountNo};
use ntfs_def::kinds::VOLUME_INFORMATION;
use ntfs_def::records::VOLUME;
use ntfs_def::volume_information::FLAGS;
use vol_disk::Disk;

// Whether an attribute of a record tells the version, as the clause asks for it.
fn has_version(opened: &RecordView<'_>) -> bool
    ensures { IsTrue result ↔ (i : ℕ) × (i < length (attributes_of opened.now))
        × IsVersionAt (viewed_block opened.now) (attribute_place (viewed_block opened.now) i) }
{
    find_version(opened).is_some()
}

/// Whether the volume says that its version is 3.1.
///
/// # Errors
///
/// `Device` alone.
pub fn meets_version<D: Disk>(mft: &mut Mft<'_, D>) -> Result<bool, MountNo>
    ensures meets { IfOk result (λ meets. IsTrue (view D.Disk mft.old).told → HasComeTo (view D.Disk mft.old) 11
        → IsTrue meets ↔ HasVersion ((view D.Disk mft.old).block VOLUME)) }
    ensures err { IfErr result (λ no. no ≡ MountNo.Device) }
    ensures faults { MatchResult result (λ _. faults_of D.Disk mft.new ≡ faults_of D.Disk mft.old)
        (CountsMount (faults_of D.Disk mft.old) (faults_of D.Disk mft.new)) }
    ensures reads { MftReads D.Disk mft.old mft.new 2 }
{
    let mut block = [0; 1024];
    let used = read_in_use(mft, VOLUME, &mut block)?;
    if !used {
        return Ok(false);
    }
    match view_of(&block) {
        Some(opened) => Ok(has_version(&opened)),
        None => Ok(false),
    }
}

// Whether a value of `$VOLUME_INFORMATION` says that the volume was closed. One that is too short does not say otherwise.
fn says_clean(value: Option<&[u8]>) -> bool
    ensures { IsTrue result ↔ IsSomeAnd (option_copied value.entry) (λ value. u16_at value 0x0A % 2 ≡ 0) }
{
    let Some(value) = value else {
        return false;
    };
    if value.len() <= FLAGS {
        return true;
    }
    value[FLAGS] % 2 == 0
}

/// Whether the volume was closed.
///
/// # Errors
///
/// `Device` alone.
pub fn is_clean<D: Disk>(mft: &mut Mft<'_, D>) -> Result<bool, MountNo>
    ensures clean { IfOk result (λ clean. IsTrue (view D.Disk mft.old).told → HasComeTo (view D.Disk mft.old) 15
        → IsTrue clean ↔ IsClean (view D.Disk mft.old)) }
    ensures err { IfErr result (λ no. no ≡ MountNo.Device) }
    ensures faults { MatchResult result (λ _. faults_of D.Disk mft.new ≡ faults_of D.Disk mft.old)
        (CountsMount (faults_of D.Disk mft.old) (faults_of D.Disk mft.new)) }
    ensures reads { MftReads D.Disk mft.old mft.new 2 }
{
    let mut block = [0; 1024];
    let used = read_in_use(mft, VOLUME, &mut block)?;
    if !used {
        return Ok(false);
    }
    let Some(opened) = view_of(&block) else {
        return Ok(false);
    };
    Ok(says_clean(opened.first_value(VOLUME_INFORMATION)))
}
