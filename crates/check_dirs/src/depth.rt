//! How deep the leaves of an index stand.
ghost use Rattle.std.specs.Prelude.{◌≡◌, ◌+◌, ◌*◌, ◌≤◌, IfOk, IfSome, MatchResult};
ghost use Rattle.vol_disk.specs.Contents.{WhereTold};
ghost use Rattle.check_dirs.specs.Gathered.{IsDepth};
ghost use Rattle.check_dirs.specs.Records.{CountsNo, short_nodes};

use crate::{CheckNo, IndexRecords};
use index_node::NodeView;
use ntfs_def::NodeForm;

/// How many nodes stand on the way from `child` down to the first leaf, if they are at most `level`.
///
/// # Errors
///
/// `Device` where the disk failed, and `Memory` where it did not.
pub fn depth_below<R: IndexRecords>(
    records: &mut R,
    form: NodeForm,
    child: Option<u64>,
    level: usize,
) -> Result<Option<usize>, CheckNo>
    requires { R.ready records.old }
    ensures depth { IfOk result (λ found. WhereTold (R.records records.old) (λ r. IsDepth (short_nodes form r) child level found)) }
    ensures small { IfOk result (λ found. IfSome found (λ depth. depth ≤ level)) }

    ensures records { R.records records.new ≡ R.records records.old }
    ensures ready { R.ready records.new }
    ensures only_reads { R.only_reads records.old records.new }
    ensures fetched { R.fetched records.new ≤ R.fetched records.old + 9 * level }

    ensures faults { MatchResult result (λ _. R.faults records.new ≡ R.faults records.old)
        (CountsNo (R.faults records.old) (R.faults records.new)) }
{
    let Some(vcn) = child else {
        return Ok(Some(0));
    };
    if level == 0 {
        return Ok(None);
    }
    let mut block = [0; 4096];
    let found = records.fetch(vcn, &mut block)?;
    if !found {
        return Ok(None);
    }
    let Ok(node) = NodeView::new(&block, form) else {
        return Ok(None);
    };
    if !node.is_short() {
        return Ok(None);
    }
    let Some(below) = depth_below(records, form, node.child(0), level - 1)? else {
        return Ok(None);
    };
    Ok(Some(below + 1))
}
