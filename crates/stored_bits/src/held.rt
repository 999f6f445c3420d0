//! The bitmap of clusters, as it is held while flags in it are cleared.
ghost use Rattle.std.specs.Prelude.{◌≡◌, ◌<◌, [], IfErr, IfNone, IfOk, IfSome, IsTrue, MatchResult, ℕ, false, is_some, length};
ghost use Rattle.ntfs_def.specs.declared.kinds.TheConstants.{DATA};
ghost use Rattle.volume_def.specs.Values.{first_part};
ghost use Rattle.volume_edits.specs.Owners.{HasOwners};
ghost use Rattle.mft_table.specs.InUse.{IsInUse};
ghost use Rattle.mft_table.specs.Mft.{MftReads, faults_of, mounted_of, view};
ghost use Rattle.file_record.specs.FileNos.{CountsNo, IsReadNo};
ghost use Rattle.file_record.specs.Held.{parts_held};
ghost use Rattle.sparse_io.specs.First.{TellsSizes, attribute_held};
ghost use Rattle.tree_model.specs.Ways.{has_placed_bits, in_extent};
ghost use Rattle.stored_bits.specs.HeldBits.{HoldsBits};

use file_record::{FileNo, FileParts};
use mft_table::Mft;
use ntfs_def::kinds::DATA;
use ntfs_def::records::CLUSTER_BITMAP;
use sparse_io::{FirstPart, FoundStream, find_first};
use std::alloc::Global;
use vol_disk::Disk;

/// The file of the bitmap of clusters, and its stream, which lies in clusters.
#[derive(Drop)]
pub struct HeldBits {
    pub file: FileParts,
    pub found: FoundStream,
}

// The part of a file that tells the sizes of its unnamed stream, where that lies in clusters.
fn placed_part(file: &FileParts) -> Option<FirstPart>
    ensures placed { is_some result ≡ in_extent (first_part (attribute_held file.now DATA [])) }
    ensures tells { IfSome result (TellsSizes file.now DATA []) }
{
    let first = find_first(file, DATA, &[])?;
    if file.attr(first.index).sizes().is_none() {
        return None;
    }
    Some(first)
}

/// Whether the bitmap of clusters lies in clusters itself. Nothing is staged.
///
/// # Errors
///
/// `Device` where the disk failed, and `Memory`.
pub fn bits_are_placed<D: Disk>(alloc: Global, mft: &mut Mft<'_, D>) -> Result<bool, FileNo>
    requires volume { IsInUse D.Disk mft.old }
    ensures placed { IfOk result (λ is. IsTrue (view D.Disk mft.old).told → is ≡ has_placed_bits (view D.Disk mft.old)) }
    ensures err { IfErr result IsReadNo }
    ensures faults { MatchResult result (λ _. faults_of D.Disk mft.new ≡ faults_of D.Disk mft.old)
        (CountsNo (faults_of D.Disk mft.old) (faults_of D.Disk mft.new)) }
    ensures reads { MftReads D.Disk mft.old mft.new 20678 }
{
    if CLUSTER_BITMAP >= mft.mounted().records.count() {
        // No sound volume is so.
        return Ok(false);
    }
    let file = FileParts::load(alloc, mft, CLUSTER_BITMAP)?;
    Ok(placed_part(&file).is_some())
}

/// Loads the bitmap of clusters; `None` where it does not lie in clusters. Nothing is staged.
///
/// # Errors
///
/// `Device` where the disk failed, and `Memory`.
pub fn hold_bits<D: Disk>(alloc: Global, mft: &mut Mft<'_, D>) -> Result<Option<HeldBits>, FileNo>
    requires owners { IsTrue (view D.Disk mft.old).told → HasOwners (view D.Disk mft.old) }
    requires volume { IsInUse D.Disk mft.old }
    ensures part { IfOk result (λ held. IfSome held (λ bits. bits.found.part < length (parts_held bits.file))) }
    ensures holds { IfOk result (λ held. IfSome held (λ bits. IsTrue (view D.Disk mft.old).told
        → HoldsBits (view D.Disk mft.old) (mounted_of D.Disk mft.old).upcase bits.file bits.found)) }
    ensures none { IfOk result (λ held. IfNone held (IsTrue (view D.Disk mft.old).told → has_placed_bits (view D.Disk mft.old) ≡ false)) }
    ensures err { IfErr result IsReadNo }
    ensures faults { MatchResult result (λ _. faults_of D.Disk mft.new ≡ faults_of D.Disk mft.old)
        (CountsNo (faults_of D.Disk mft.old) (faults_of D.Disk mft.new)) }
    ensures reads { MftReads D.Disk mft.old mft.new 20678 }
{
    if CLUSTER_BITMAP >= mft.mounted().records.count() {
        // No sound volume is so.
        return Ok(None);
    }
    let file = FileParts::load(alloc, mft, CLUSTER_BITMAP)?;
    let Some(first) = placed_part(&file) else {
        return Ok(None);
    };
    let found = FoundStream {
        part: first.index,
        packed: first.packed,
        size: first.len,
    };
    Ok(Some(HeldBits { file, found }))
}
