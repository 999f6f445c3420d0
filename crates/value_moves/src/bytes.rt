//! The bytes of an attribute in clusters that comes in the place of a value.
ghost use Rattle.std.specs.Prelude.{◌≡◌, ◌*◌, ◌<◌, ◌≤◌, ◌^◌, ◌%◌, ◌↔◌, IfNone, IfOk, IfSome, IsSome, IsTrue, length};
ghost use Rattle.attr_view.specs.View.{attribute_of};
ghost use Rattle.extent_edits.specs.Extended.{IsNewRun};
ghost use Rattle.extent_edits.specs.Numbers.{sizes_over};
ghost use Rattle.value_moves.specs.Bytes.{MovesAttribute};
ghost use Rattle.value_moves.specs.Moved.{CanBeMoved};

use attr_view::{AttrView, Sizes};
use data_runs::Run;
use ntfs_def::attribute_header;
use record_bytes::non_resident;
use std::alloc::{AllocError, Global};

// Whether an attribute is a value without flags.
fn can_be_moved(attr: &AttrView<'_>) -> bool
    ensures { IsTrue result ↔ CanBeMoved (attribute_of attr.now) }
{
    attr.value().is_some() && attr.flags() == 0
}

// The name of an attribute, in bytes: 255 units of two at most.
fn name_of<'r>(attr: &AttrView<'r>) -> &'r [u8]
    ensures name { result.now ≡ (attribute_of attr.now).name }
    ensures few { length result.now ≤ 510 }
    ensures even { length result.now % 2 ≡ 0 }
{
    let name = attr.name();
    let units = attr.bytes()[attribute_header::NAME_LEN];
    let whole = name.len() == 2 * units as usize;
    prove!(whole);
    name
}

// The numbers of a stream of this run alone, in clusters of `cluster` bytes, with these two sizes.
fn sizes_over(run: Run, cluster: u64, real: u64, initialized: u64) -> Sizes
    requires some { 0 < run.len }
    requires told { run.len * cluster < 2 ^ 64 }
    ensures { result ≡ sizes_over run.len cluster real initialized }
{
    Sizes {
        allocated: run.len * cluster,
        real,
        initialized,
        first: 0,
        last: run.len - 1,
    }
}

/// The bytes of a value without flags that became an extent of this run, with these two sizes, in clusters of `cluster` bytes. `None`
/// exactly where it is no such value.
///
/// # Errors
///
/// Want of memory alone.
pub fn moved_attribute(
    alloc: Global,
    attr: &AttrView<'_>,
    cluster: u64,
    run: Run,
    real: u64,
    initialized: u64,
) -> Result<Option<Vec<u8>>, AllocError>
    requires run { IsNewRun run }
    requires placed { IsSome run.lcn }
    requires told { run.len * cluster < 2 ^ 64 }
    ensures moved { IfOk result (λ found. IfSome found (λ bytes.
        MovesAttribute cluster run real initialized (attribute_of attr.now) bytes.items)) }
    ensures none { IfOk result (λ found. IfNone found (¬ (CanBeMoved (attribute_of attr.now)))) }
{
    if !can_be_moved(attr) {
        return Ok(None);
    }
    let sizes = sizes_over(run, cluster, real, initialized);
    let bytes = non_resident(alloc, attr.kind(), name_of(attr), attr.id(), sizes, run)?;
    Ok(Some(bytes))
}
