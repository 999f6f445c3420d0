//! The bytes of an attribute that is cut, an extent of a stream.
ghost use Rattle.std.specs.Prelude.{◌≡◌, ◌*◌, ◌+◌, ◌<◌, ◌≤◌, ◌^◌, ℕ, IfNone, IfOk, IfSome, List, OnOk, drop, false, length, sum_by};
ghost use Rattle.ntfs_def.specs.Attribute.{is_resident, runs_offset};
ghost use Rattle.ntfs_def.specs.Runs.{MeansRuns};
ghost use Rattle.ntfs_def.specs.Shape.{IsOneAttribute};
ghost use Rattle.ntfs_def.specs.declared.run_text.Run.{Run};
ghost use Rattle.volume_def.specs.Files.{content_of, content_runs};
ghost use Rattle.attr_view.specs.View.{attribute_of};
ghost use Rattle.edit_def.specs.Purses.{run_size};
ghost use Rattle.extent_edits.specs.Bytes.{CutsAttribute, CutsBytes};
ghost use Rattle.extent_edits.specs.Cut.{CanBeCut};

use crate::numbers::{
    clusters_for, has_compressed_len, put_numbers, sizes_at_end, stored_clusters,
};
use crate::text::cut_text;
use attr_view::{AttrView, Sizes};
use data_runs::{Run, RunList, read_runs};
use ntfs_def::attribute_header;
use std::alloc::{AllocError, Global};
use vol_bytes::u16_at;

/// The runs of an attribute, `None` exactly where it is a value or its text is no run list.
pub fn runs_of(alloc: Global, attr: &AttrView<'_>) -> Result<Option<RunList>, AllocError>
    ensures { IfOk result (λ found. found ≡ content_runs (content_of (attribute_of attr.now).body)) }
{
    match attr.runs() {
        Some(text) => read_runs(alloc, text),
        None => Ok(None),
    }
}

// The clusters that a run text tells, without those of holes.
fn stored_in(alloc: Global, text: &[u8]) -> Result<u64, AllocError>
    requires { (runs : List Run) × MeansRuns text.now runs }
    ensures { IfOk result (λ stored. (runs : List Run) → MeansRuns text.now runs → stored ≡ sum_by run_size runs) }
{
    match read_runs(alloc, text)? {
        Some(runs) => Ok(stored_clusters(runs.runs())),
        None => unreachable!(),
    }
}

// Cuts the text of an extent of these runs behind so many clusters, of `cluster` bytes, and writes these numbers into its header.
fn cut_bytes(
    alloc: Global,
    bytes: &mut [u8],
    runs: &[Run],
    clusters: u64,
    cluster: u64,
    sizes: &Sizes,
) -> Result<(), AllocError>
    requires one { IsOneAttribute bytes.old }
    requires extent { is_resident bytes.old 0 ≡ false }
    requires means { MeansRuns (drop (runs_offset bytes.old 0) bytes.old) runs.now }
    requires told { clusters * cluster < 2 ^ 64 }
    ensures { OnOk result (CutsBytes bytes.old bytes.new runs.now clusters cluster sizes.now) }
{
    let more = has_compressed_len(bytes);
    let from = u16_at(bytes, attribute_header::RUNS_OFFSET) as usize;
    cut_text(&mut bytes[from..], runs, clusters);
    let stored = stored_in(alloc, &bytes[from..])?;
    put_numbers(bytes, sizes, more, stored * cluster);
    Ok(())
}

/// The bytes of an attribute that is cut, an extent from cluster 0 of its stream on, so that the stream has `size` bytes, in clusters of
/// `cluster` bytes. `None` exactly where it cannot be cut so.
///
/// # Errors
///
/// Want of memory alone.
pub fn cut_attribute(
    alloc: Global,
    attr: &AttrView<'_>,
    cluster: u64,
    size: u64,
) -> Result<Option<Vec<u8>>, AllocError>
    requires { 0 < cluster }
    ensures cut { IfOk result (λ found. IfSome found (λ bytes. CutsAttribute cluster size (attribute_of attr.now) bytes.items)) }
    ensures none { IfOk result (λ found. IfNone found (¬ (CanBeCut cluster size (content_of (attribute_of attr.now).body)))) }
{
    let Some(was) = attr.sizes() else {
        return Ok(None);
    };
    let Some(runs) = runs_of(alloc, attr)? else {
        return Ok(None);
    };
    let Some(sizes) = sizes_at_end(&was, runs.total_clusters(), cluster, size) else {
        return Ok(None);
    };
    let mut bytes = Vec::from_slice(alloc, attr.bytes())?;
    cut_bytes(
        alloc,
        &mut bytes,
        runs.runs(),
        clusters_for(size, cluster),
        cluster,
        &sizes,
    )?;
    Ok(Some(bytes))
}
