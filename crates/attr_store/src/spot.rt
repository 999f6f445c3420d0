//! Where a cluster of a stream lies, by the extent that holds it.
ghost use Rattle.std.specs.Prelude.{◌≡◌, ℕ, IfOk};
ghost use Rattle.volume_def.specs.ExtentsClause.{AreAttribute};
ghost use Rattle.volume_def.specs.Values.{spot_at};
ghost use Rattle.attr_view.specs.View.{attribute_of};
ghost use Rattle.attr_store.specs.Sought.{IsAmong, parts_held_like, spot_in_text};

use crate::extents::{extent_sizes, extent_text, find_extent};
use attr_view::AttrView;
use data_runs::{Spot, read_runs};
use file_record::FileParts;
use std::alloc::{AllocError, Global};

// Where a cluster lies by the run text of an extent that begins here.
fn spot_in_text(alloc: Global, first: u64, text: &[u8], vcn: u64) -> Result<Spot, AllocError>
    ensures { IfOk result (λ spot. spot ≡ spot_in_text first text.now vcn) }
{
    match read_runs(alloc, text)? {
        Some(runs) => Ok(runs.spot(vcn.saturating_sub(first))),
        None => Ok(Spot::Outside),
    }
}

/// Where a cluster of the stream of an attribute lies. No disk is read.
pub fn spot_at(
    alloc: Global,
    file: &FileParts,
    stream: &AttrView<'_>,
    vcn: u64,
) -> Result<Spot, AllocError>
    requires among { IsAmong file.now (attribute_of stream.now) }
    ensures { IfOk result (λ spot. (size f : ℕ) → AreAttribute size f (parts_held_like file.now (attribute_of stream.now))
        → spot ≡ spot_at (parts_held_like file.now (attribute_of stream.now)) vcn) }
{
    match find_extent(file, stream, vcn) {
        Some(extent) => {
            let sizes = extent_sizes(&extent);
            spot_in_text(alloc, sizes.first, extent_text(&extent), vcn)
        }
        None => Ok(Spot::Outside),
    }
}
