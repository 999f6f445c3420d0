//! Whether bytes go over those of a stream in clusters that were written, or right behind them, and how many clusters more that takes.
ghost use Rattle.std.specs.Prelude.{◌≡◌, ◌<◌, ◌≤◌, ◌+◌, ◌-◌, ◌^◌, IfOk, IfSome, List, length, true, ℕ};
ghost use Rattle.ntfs_def.specs.Rounded.{clusters_for};
ghost use Rattle.volume_def.specs.Files.{part_clusters, part_of};
ghost use Rattle.volume_def.specs.Values.{first_part};
ghost use Rattle.volume_def.specs.View.{VolumeView};
ghost use Rattle.attr_view.specs.View.{attribute_of};
ghost use Rattle.tree_model.specs.StreamRoom.{parts_named};
ghost use Rattle.tree_model.specs.Ways.{in_extent};
ghost use Rattle.attr_store.specs.Held.{file_number, parts_held};
ghost use Rattle.sparse_io.specs.Behind.{TellsBehind, len_inside};
ghost use Rattle.sparse_io.specs.Held.{IsHeldWith, IsStream};

use crate::find::FoundStream;
use crate::over::{bytes_placed, look_at_names};
use attr_store::FileParts;
use attr_view::AttrView;
use data_runs::read_runs;
use std::alloc::{AllocError, Global};

/// How many clusters the runs of an attribute cover: none where it is a value, or its text is no run list.
///
/// # Errors
///
/// Want of memory alone.
pub fn clusters_covered(alloc: Global, attribute: &AttrView<'_>) -> Result<u64, AllocError>
    ensures { IfOk result (λ count. (holder : ℕ) → count ≡ part_clusters (part_of holder (attribute_of attribute.now))) }
{
    let Some(text) = attribute.runs() else {
        return Ok(0);
    };
    match read_runs(alloc, text)? {
        Some(runs) => Ok(runs.total_clusters()),
        None => Ok(0),
    }
}

// The clusters of `size` bytes that so many bytes fill.
fn clusters_for(bytes: u64, size: u64) -> u64
    requires { 0 < size }
    ensures clusters { result ≡ clusters_for bytes size }
    ensures few { result ≤ bytes }
{
    bytes.div_ceil(size)
}

// How many of so many bytes from `at` on lie in the first `total` clusters, where they take `more` behind these.
fn len_inside(total: u64, size: u64, at: u64, len: usize, more: u64) -> usize
    requires some { 0 < size }
    requires fits { at + len < 2 ^ 64 }
    requires more_is { more ≡ clusters_for (at + len) size - total }
    ensures len { result ≡ len_inside total size at len more }
    ensures fits { at + result < 2 ^ 64 }
{
    if more == 0 {
        return len;
    }
    (total * size).saturating_sub(at) as usize
}

/// How many clusters a stream in one extent needs behind its last one, where so many bytes go into it from `at` on, in clusters of `size`
/// bytes: `None` exactly where they begin behind what was written of it, or go into a hole. No disk is read.
///
/// # Errors
///
/// Want of memory alone.
pub fn clusters_behind(
    alloc: Global,
    file: &FileParts,
    found: &FoundStream,
    size: u64,
    at: u64,
    len: usize,
) -> Result<Option<u64>, AllocError>
    requires part { found.now.part < length (parts_held file.now) }
    requires size { 0 < size }
    requires fits { at + len < 2 ^ 64 }
    ensures tells { IfOk result (λ more. (view : VolumeView) (table name : List ℕ) → IsHeldWith view table file.now
        → (is : IsStream view file.now name found.now)
        → in_extent (first_part (parts_named view (file_number file.now) is.stream.name)) ≡ true
        → length (parts_named view (file_number file.now) is.stream.name) ≡ 1
        → TellsBehind size (parts_named view (file_number file.now) is.stream.name) at len more) }
    ensures few { IfOk result (λ more. IfSome more (λ count. count ≤ at + len)) }
{
    let stream = file.attr(found.part);
    look_at_names(file);
    let Some(sizes) = stream.sizes() else {
        return Ok(None);
    };
    let total = clusters_covered(alloc, &stream)?;
    let more = clusters_for(at + len as u64, size).saturating_sub(total);
    if at > sizes.initialized || (more > 0 && (len == 0 || at / size > total)) {
        return Ok(None);
    }
    let inside = len_inside(total, size, at, len, more);
    if bytes_placed(alloc, file, &stream, size, at, inside)? {
        return Ok(Some(more));
    }
    Ok(None)
}
