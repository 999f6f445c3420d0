//! The entries of an index are gathered in order, and each record is met once.
ghost use Rattle.std.specs.Prelude.{◌≡◌, ◌≤◌, ◌+◌, ◌*◌, ◌++◌, ◌∷◌, [], IfOk, IfErr, IfSome, IsTrue, MatchResult, OnOk, Some, length};
ghost use Rattle.std.specs.Option.{option_map};
ghost use Rattle.ntfs_def.specs.IndexTree.{Each};
ghost use Rattle.ntfs_def.specs.Node.{IsOwnEntry};
ghost use Rattle.vol_disk.specs.Contents.{WhereTold};
ghost use Rattle.index_node.specs.View.{form_of_view, node_of_view};
ghost use Rattle.check_dirs.specs.Gathered.{AreFew, AreMet, TellsNode, TellsTree, TellsWalk};
ghost use Rattle.check_dirs.specs.Records.{CostsCheck, CountsNo, short_nodes};

use crate::depth::depth_below;
use crate::met::Met;
use crate::{CheckNo, IndexRecords};
use index_node::NodeView;
use ntfs_def::NodeForm;
use std::alloc::Global;
use vol_bytes::Octets;

/// The most nodes below the root on a way to a leaf.
const MOST_DEPTH: usize = 15;

// Puts the bytes of an entry behind the others.
fn keep(alloc: Global, entry: &[u8], out: &mut Vec<Octets>) -> Result<(), CheckNo>
    ensures kept { OnOk result (out.new.items ≡ out.old.items ++ entry.now ∷ []) }
    ensures memory { IfErr result (λ no. no ≡ CheckNo.Memory) }
{
    let bytes = Vec::from_slice(alloc, entry)?;
    out.push(Octets::from_vec(bytes))?;
    Ok(())
}

// Gathers what stands under `child`: a tree of this depth. `false` where there is none.
#[cycle(gathering)]
fn gather_tree<R: IndexRecords>(
    alloc: Global,
    records: &mut R,
    form: NodeForm,
    child: Option<u64>,
    depth: usize,
    met: &mut Met,
    out: &mut Vec<Octets>,
) -> Result<bool, CheckNo>
    requires { R.ready records.old }
    ensures tells { IfOk result (λ good. WhereTold (R.records records.old) (λ r.
        TellsTree good (short_nodes form r) depth child met.old met.new out.old.items out.new.items)) }
    ensures own { OnOk result (Each (IsOwnEntry form) out.old.items → Each (IsOwnEntry form) out.new.items) }
    ensures met { IfOk result (λ good. WhereTold (R.records records.old) (λ r. IsTrue good → AreMet r met.old → AreMet r met.new)) }
    ensures few { WhereTold (R.records records.old) (λ r. AreMet r met.old → AreFew r met.new) }

    ensures records { R.records records.new ≡ R.records records.old }
    ensures ready { R.ready records.new }
    ensures only_reads { R.only_reads records.old records.new }
    ensures fetched { R.fetched records.new + 9 * length met.old ≤ R.fetched records.old + 9 * length met.new }

    ensures faults { MatchResult result (λ _. R.faults records.new ≡ R.faults records.old)
        (CountsNo (R.faults records.old) (R.faults records.new)) }
{
    let Some(vcn) = child else {
        return Ok(depth == 0);
    };
    gather_record(alloc, records, form, vcn, depth, met, out)
}

// Gathers what stands under the record of this number. It stands apart, so that an entry without a child has no block.
#[cycle(gathering)]
fn gather_record<R: IndexRecords>(
    alloc: Global,
    records: &mut R,
    form: NodeForm,
    vcn: u64,
    depth: usize,
    met: &mut Met,
    out: &mut Vec<Octets>,
) -> Result<bool, CheckNo>
    requires { R.ready records.old }
    ensures tells { IfOk result (λ good. WhereTold (R.records records.old) (λ r.
        TellsTree good (short_nodes form r) depth (Some vcn) met.old met.new out.old.items out.new.items)) }
    ensures own { OnOk result (Each (IsOwnEntry form) out.old.items → Each (IsOwnEntry form) out.new.items) }
    ensures met { IfOk result (λ good. WhereTold (R.records records.old) (λ r. IsTrue good → AreMet r met.old → AreMet r met.new)) }
    ensures few { WhereTold (R.records records.old) (λ r. AreMet r met.old → AreFew r met.new) }

    ensures records { R.records records.new ≡ R.records records.old }
    ensures ready { R.ready records.new }
    ensures only_reads { R.only_reads records.old records.new }
    ensures fetched { R.fetched records.new + 9 * length met.old ≤ R.fetched records.old + 9 * length met.new }

    ensures faults { MatchResult result (λ _. R.faults records.new ≡ R.faults records.old)
        (CountsNo (R.faults records.old) (R.faults records.new)) }
{
    if depth == 0 {
        return Ok(false);
    }
    let first = met.meet(vcn)?;
    if !first {
        return Ok(false);
    }
    let mut block = [0; 4096];
    let found = records.fetch(vcn, &mut block)?;
    if !found {
        return Ok(false);
    }
    let Ok(node) = NodeView::new(&block, form) else {
        return Ok(false);
    };
    if !node.is_short() {
        return Ok(false);
    }
    let good = gather_node(alloc, records, &node, depth - 1, met, out)?;
    Ok(good)
}

// Gathers what stands under a node, and its own entries.
#[cycle(gathering)]
fn gather_node<R: IndexRecords>(
    alloc: Global,
    records: &mut R,
    node: &NodeView<'_>,
    depth: usize,
    met: &mut Met,
    out: &mut Vec<Octets>,
) -> Result<bool, CheckNo>
    requires { R.ready records.old }
    ensures tells { IfOk result (λ good. WhereTold (R.records records.old) (λ r.
        TellsNode good (short_nodes (form_of_view node.now) r) depth (node_of_view node.now)
        met.old met.new out.old.items out.new.items)) }
    ensures own { OnOk result (Each (IsOwnEntry (form_of_view node.now)) out.old.items
        → Each (IsOwnEntry (form_of_view node.now)) out.new.items) }
    ensures met { IfOk result (λ good. WhereTold (R.records records.old) (λ r. IsTrue good → AreMet r met.old → AreMet r met.new)) }
    ensures few { WhereTold (R.records records.old) (λ r. AreMet r met.old → AreFew r met.new) }

    ensures records { R.records records.new ≡ R.records records.old }
    ensures ready { R.ready records.new }
    ensures only_reads { R.only_reads records.old records.new }
    ensures fetched { R.fetched records.new + 9 * length met.old ≤ R.fetched records.old + 9 * length met.new }

    ensures faults { MatchResult result (λ _. R.faults records.new ≡ R.faults records.old)
        (CountsNo (R.faults records.old) (R.faults records.new)) }
{
    let mut place = node.first_place();
    'places: while place.has_key() {
        let good = gather_tree(alloc, records, node.form(), place.child(), depth, met, out)?;
        if !good {
            return Ok(false);
        }
        keep(alloc, place.entry(), out)?;
        place.advance();
    }
    let last = place.child();
    let good = gather_tree(alloc, records, node.form(), last, depth, met, out)?;
    Ok(good)
}

/// The entries of what stands under the node of a root, in order; `None` where no index stands there, of at most
/// sixteen nodes on a way, with all its leaves at one depth and each record once.
///
/// # Errors
///
/// `Device` where the disk failed, and `Memory` where it did not.
pub fn gather<R: IndexRecords>(
    alloc: Global,
    records: &mut R,
    root: &NodeView<'_>,
) -> Result<Option<Vec<Octets>>, CheckNo>
    requires { R.ready records.old }
    ensures tells { IfOk result (λ found. WhereTold (R.records records.old) (λ r.
        TellsWalk (short_nodes (form_of_view root.now) r) (node_of_view root.now) (option_map (λ entries. entries.items) found))) }
    ensures own { IfOk result (λ found. IfSome found (λ entries. Each (IsOwnEntry (form_of_view root.now)) entries.items)) }

    ensures records { R.records records.new ≡ R.records records.old }
    ensures ready { R.ready records.new }
    ensures only_reads { R.only_reads records.old records.new }
    ensures fetched { WhereTold (R.records records.old) (λ r. CostsCheck r (R.fetched records.old) (R.fetched records.new)) }

    ensures faults { MatchResult result (λ _. R.faults records.new ≡ R.faults records.old)
        (CountsNo (R.faults records.old) (R.faults records.new)) }
{
    let depth = depth_below(records, root.form(), root.child(0), MOST_DEPTH)?;
    let Some(depth) = depth else {
        return Ok(None);
    };
    let mut met = Met::new(alloc);
    let mut out = Vec::new(alloc);
    let good = gather_node(alloc, records, root, depth, &mut met, &mut out)?;
    if !good {
        return Ok(None);
    }
    Ok(Some(out))
}
