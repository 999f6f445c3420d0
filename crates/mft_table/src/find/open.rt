//! Records of the table, opened.
ghost use Rattle.std.specs.Prelude.{◌≡◌, IfNone, IfSome};
ghost use Rattle.ntfs_def.specs.Fixup.{opened_of};
ghost use Rattle.volume_def.specs.Table.{IsRecord};
ghost use Rattle.attr_view.specs.View.{viewed_block};

use attr_view::RecordView;
use ntfs_def::is_in_use;
use ntfs_fixup::unseal;

/// Opens a stored block in place, where it is a record that can be read: it is in use, it opens, and it
/// has the shape. Where it is none, its bytes may have been opened.
pub fn open_record(block: &mut [u8; 1024]) -> Option<RecordView<'_>>
    ensures some { IfSome result (λ view. IsRecord block.old × (viewed_block view ≡ opened_of block.old)) }
    ensures none { IfNone result (¬ (IsRecord block.old)) }
{
    if !is_in_use(block) {
        return None;
    }
    unseal(block).ok()?;
    RecordView::new(block).ok()
}
