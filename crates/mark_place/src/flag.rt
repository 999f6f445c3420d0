//! Where the dirty flag lies.
ghost use Rattle.std.specs.Prelude.{◌≡◌, ◌<◌, ℕ, IfErr, IfNone, IfOk, IfSome, IsSome, IsTrue, MatchResult, Some, length};
ghost use Rattle.ntfs_def.specs.Attribute.{attributes};
ghost use Rattle.ntfs_def.specs.Shape.{HasShape};
ghost use Rattle.ntfs_def.specs.declared.records.TheConstants.{VOLUME};
ghost use Rattle.volume_def.specs.Coverage.{IsApart};
ghost use Rattle.volume_def.specs.ShapeClause.{MeetsShape};
ghost use Rattle.volume_def.specs.VersionClause.{HasVersion};
ghost use Rattle.vol_stage.specs.Staged.{disk_of};
ghost use Rattle.mft_table.specs.Mft.{MftReads, faults_of, mounted_of, stage_of, view};
ghost use Rattle.mft_table.specs.MftNos.{CountsNo};
ghost use Rattle.mft_table.specs.MirrorClusters.{IsMirrorInside};
ghost use Rattle.mark_write.specs.Flags.{LiesAt};
ghost use Rattle.volume_mark.specs.Mark.{IsFlagOf};
ghost use Rattle.mark_place.specs.Flags.{IsFlagByte, IsFlagIn};

use attr_view::RecordView;
use file_clauses::find_version;
use mark_write::Flag;
use mft_table::{Mft, MftNo};
use ntfs_def::records::VOLUME;
use ntfs_def::volume_information::FLAGS;
use vol_disk::{Disk, SECTOR};

// The byte of an opened record at which the flags of its `$VOLUME_INFORMATION` stand; `None` where it tells no version 3.1.
fn flag_byte(block: &[u8; 1024]) -> Option<usize>
    ensures some { IfSome result (IsFlagByte block.now) }
    ensures inside { IfSome result (λ byte. byte < 1024) }
    ensures none { IfNone result ((count : ℕ) → HasShape block.now count → (byte : ℕ) → ¬ (IsFlagByte block.now byte)) }
{
    let Ok(opened) = RecordView::new(block) else {
        return None;
    };
    let i = find_version(&opened)?;
    let place = opened.attr(i).value_place()?;
    Some(place + FLAGS)
}

// The flag by the opened record 3; `None` where it tells none, and where both of its sectors are one.
fn flag_in<D: Disk>(mft: &Mft<'_, D>, block: &[u8; 1024]) -> Option<Flag>
    requires record { VOLUME < length (mounted_of D.Disk mft.now).records }
    requires mirror { IsMirrorInside (mounted_of D.Disk mft.now) }
    ensures flag { IfSome result (IsFlagIn (view D.Disk mft.now).layout block.now) }
    ensures lies { IfSome result (LiesAt (D.size (disk_of D.Disk (stage_of D.Disk mft.now)))) }
    ensures none { IfNone result (IsApart (view D.Disk mft.now).layout → (count : ℕ) → HasShape block.now count
        → (byte : ℕ) → ¬ (IsFlagByte block.now byte)) }
{
    let byte = flag_byte(block)?;
    let half = (byte / SECTOR) as u64;
    let home = mft.place(2 * VOLUME + half);
    let copy = mft.copy_place(VOLUME) + half;
    if home == copy {
        return None;
    }
    Some(Flag {
        home,
        copy,
        at: byte % SECTOR,
    })
}

/// Where the dirty flag of the volume lies, as record 3 tells it; `None` where it does not, or where both of its sectors are one, as
/// on no accepted volume. The table has a record 3, and the mirror lies on the volume.
///
/// Source: Linux-NTFS documentation, attribute $VOLUME_INFORMATION.
///
/// # Errors
///
/// `Device` alone.
pub fn find_flag<D: Disk>(mft: &mut Mft<'_, D>) -> Result<Option<Flag>, MftNo>
    requires mirror { IsMirrorInside (mounted_of D.Disk mft.old) }
    ensures flag { IfOk result (λ found. IfSome found (λ flag. IsTrue (view D.Disk mft.old).told
        → IsFlagOf (view D.Disk mft.old) flag)) }
    ensures lies { IfOk result (λ found. IfSome found (LiesAt (D.size (disk_of D.Disk (stage_of D.Disk mft.old))))) }
    ensures some { IfOk result (λ found. IsTrue (view D.Disk mft.old).told → VOLUME < (view D.Disk mft.old).layout.count
        → IsApart (view D.Disk mft.old).layout → MeetsShape (view D.Disk mft.old) VOLUME
        → HasVersion ((view D.Disk mft.old).block VOLUME) → IsSome found) }
    ensures err { IfErr result (λ no. no ≡ MftNo.Device) }
    ensures faults { MatchResult result (λ _. faults_of D.Disk mft.new ≡ faults_of D.Disk mft.old)
        (CountsNo (faults_of D.Disk mft.old) (faults_of D.Disk mft.new)) }
    ensures reads { MftReads D.Disk mft.old mft.new 2 }
{
    if VOLUME >= mft.mounted().records.count() {
        return Ok(None);
    }
    let mut block = [0; 1024];
    match mft.read_record(VOLUME, &mut block) {
        Ok(()) => Ok(flag_in(mft, &block)),
        Err(MftNo::Torn { .. }) => Ok(None),
        Err(no) => Err(no),
    }
}
