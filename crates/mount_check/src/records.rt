//! Records of the table, read for the clauses.
ghost use Rattle.std.specs.Prelude.{◌≡◌, ◌↔◌, ◌<◌, ℕ, IfErr, IfNone, IfOk, IfSome, IsTrue, MatchResult};
ghost use Rattle.ntfs_def.specs.Fixup.{opened_of};
ghost use Rattle.ntfs_def.specs.Record.{is_in_use};
ghost use Rattle.ntfs_def.specs.Shape.{HasShape};
ghost use Rattle.attr_view.specs.View.{viewed_block};
ghost use Rattle.volume_def.specs.ShapeClause.{MeetsShape};
ghost use Rattle.mft_table.specs.Mft.{MftReads, faults_of, view};
ghost use Rattle.mft_table.specs.MountNos.{CountsMount};

use attr_view::RecordView;
use mft_table::{Mft, MftNo, MountNo};
use ntfs_def::is_in_use;
use vol_disk::Disk;

/// Reads a record, opened, and tells whether it is in use. A record that does not open, and one past the table, is not.
///
/// # Errors
///
/// `Device` alone.
pub fn read_in_use<D: Disk>(
    mft: &mut Mft<'_, D>,
    n: u64,
    into: &mut [u8; 1024],
) -> Result<bool, MountNo>
    ensures used { IfOk result (λ used. IsTrue (view D.Disk mft.old).told → n < (view D.Disk mft.old).layout.count
        → MeetsShape (view D.Disk mft.old) n → IsTrue used ↔ IsTrue (is_in_use ((view D.Disk mft.old).block n))) }
    ensures read { IfOk result (λ used. IsTrue (view D.Disk mft.old).told → IsTrue used
        → into.new ≡ opened_of ((view D.Disk mft.old).block n)) }
    ensures inside { IfOk result (λ used. IsTrue used → n < (view D.Disk mft.old).layout.count) }
    ensures err { IfErr result (λ no. no ≡ MountNo.Device) }
    ensures faults { MatchResult result (λ _. faults_of D.Disk mft.new ≡ faults_of D.Disk mft.old)
        (CountsMount (faults_of D.Disk mft.old) (faults_of D.Disk mft.new)) }
    ensures reads { MftReads D.Disk mft.old mft.new 2 }
{
    if n >= mft.mounted().records.count() {
        return Ok(false);
    }
    match mft.read_record(n, into) {
        Ok(()) => Ok(is_in_use(into)),
        Err(MftNo::Torn { .. }) => Ok(false),
        Err(_) => Err(MountNo::Device),
    }
}

/// A view of an opened record, where it has the shape.
pub fn view_of(block: &[u8; 1024]) -> Option<RecordView<'_>>
    ensures some { IfSome result (λ view. viewed_block view ≡ block.now) }
    ensures none { IfNone result ((count : ℕ) → ¬ (HasShape block.now count)) }
{
    RecordView::new(block).ok()
}
