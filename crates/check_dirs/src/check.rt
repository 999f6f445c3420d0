//! The check of one index.
ghost use Rattle.std.specs.Prelude.{◌≡◌, ◌↔◌, ◌≤◌, IfOk, IfSome, IsTrue, MatchResult, length};
ghost use Rattle.std.specs.Option.{option_map};
ghost use Rattle.vol_disk.specs.Contents.{WhereTold};
ghost use Rattle.index_tree.specs.Walk.{items_in};
ghost use Rattle.check_dirs.specs.Entries.{AreOrdered, AreWhole};
ghost use Rattle.check_dirs.specs.OrderedIndex.{HasFields, TellsIndex, key_rule};
ghost use Rattle.check_dirs.specs.Records.{CostsCheck, CountsNo, short_nodes};

use crate::gather::gather;
use crate::order::are_ordered;
use crate::{CheckNo, IndexRecords};
use collation::Collation;
use index_node::NodeView;
use ntfs_def::NodeForm;
use ntfs_def::index_root::{COLLATION, INDEXED_KIND, RECORD_SIZE};
use ntfs_def::kinds::FILE_NAME;
use ntfs_def::lengths::INDEX_RECORD;
use std::alloc::Global;
use vol_bytes::{Octets, u32_at};

// Whether the fields in front of a root are those of an index with this collation.
fn has_fields(root: &[u8], form: NodeForm, collation: u32) -> bool
    requires { 12 ≤ length root.now }
    ensures { IsTrue result ↔ HasFields form collation root.now }
{
    let kind = match form {
        NodeForm::Names => u32_at(root, INDEXED_KIND) == FILE_NAME,
        NodeForm::View => true,
    };
    kind && u32_at(root, COLLATION) == collation
        && u32_at(root, RECORD_SIZE) as usize == INDEX_RECORD
}

/// Checks an index by its root, the value of its `$INDEX_ROOT`, and its records: whether its nodes have their shape, no
/// record is met twice, all leaves have one depth of sixteen nodes at most, and its keys are valid and strictly ascend.
/// Of a directory (`NodeForm::Names`) the indexed type is asked for too. It gives the bytes of all entries in order, and
/// `None` exactly where the index breaks one of these.
///
/// Where the contents are not told, the entries that are given still are entries with valid keys that ascend.
///
/// # Errors
///
/// `Device` where the disk failed, and `Memory` where it did not.
pub fn check_index<R: IndexRecords, C: Collation>(
    alloc: Global,
    records: &mut R,
    form: NodeForm,
    collation: u32,
    order: &C,
    root: &[u8],
) -> Result<Option<Vec<Octets>>, CheckNo>
    requires { R.ready records.old }
    ensures index { IfOk result (λ found. WhereTold (R.records records.old) (λ r.
        TellsIndex form (key_rule collation (C.order order.now) (C.valid order.now)) (short_nodes form r) root.now
        (option_map (λ entries. entries.items) found))) }
    ensures whole { IfOk result (λ found. IfSome found (λ entries. AreWhole entries.items)) }
    ensures ordered { IfOk result (λ found. IfSome found (λ entries.
        AreOrdered (C.order order.now) (C.valid order.now) (items_in entries.items))) }

    ensures records { R.records records.new ≡ R.records records.old }
    ensures ready { R.ready records.new }
    ensures only_reads { R.only_reads records.old records.new }
    ensures fetched { WhereTold (R.records records.old) (λ r. CostsCheck r (R.fetched records.old) (R.fetched records.new)) }

    ensures faults { MatchResult result (λ _. R.faults records.new ≡ R.faults records.old)
        (CountsNo (R.faults records.old) (R.faults records.new)) }
{
    let Ok(node) = NodeView::new(root, form) else {
        return Ok(None);
    };
    if !node.is_short() {
        return Ok(None);
    }
    if !has_fields(root, form, collation) {
        return Ok(None);
    }
    let found = gather(alloc, records, &node)?;
    let Some(entries) = found else {
        return Ok(None);
    };
    if !are_ordered(order, &entries) {
        return Ok(None);
    }
    Ok(Some(entries))
}
