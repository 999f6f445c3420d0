//! Where the table of records lies, by the table clause of the volume definition.
ghost use Rattle.std.specs.Prelude.{◌≡◌, ◌<◌, ◌≤◌, ◌+◌, ◌*◌, ◌/◌, ◌^◌, ◌↔◌, ℕ, List, All, IfOk, IfSome, IfNone, IsTrue};
ghost use Rattle.ntfs_def.specs.declared.run_text.Run.{Run};
ghost use Rattle.ntfs_def.specs.declared.run_text.Spot.TheVariants.{At};
ghost use Rattle.ntfs_def.specs.Runs.{spot_of, total_clusters};
ghost use Rattle.volume_def.specs.Table.{LieFromMft, FitTable, IsOnVolume, TableLayout};
ghost use Rattle.ntfs_boot.specs.Geometry.{FitsDisk};
ghost use Rattle.attr_view.specs.View.{viewed_block};
ghost use Rattle.mft_table.specs.Tables.{IsFoundBy, RecordTells};

use super::table_data::table_stream;
use crate::BlockReader;
use attr_view::RecordView;
use data_runs::{RunList, read_runs};
use ntfs_boot::Geometry;
use ntfs_def::lengths::RECORD;
use ntfs_def::{Run, Sizes, Spot};
use std::alloc::{AllocError, Global};

/// The fewest records that a table may have, and the most.
const LEAST_RECORDS: u64 = 24;

const MOST_RECORDS: u64 = 1 << 22;

/// Where the table of records lies, on a volume of this geometry.
#[derive(Drop)]
pub struct Table {
    pub geometry: Geometry,
    /// The clusters of the table.
    pub runs: RunList,
    /// The bytes of the table that were written. Those behind them read as zero.
    pub initialized: u64,
    /// The records of the table.
    pub count: u64,
}

impl Table {
    ghost use Rattle.mft_table.specs.Tables.{reader_layout, table_layout};

    /// Lends a reader of its blocks.
    pub fn blocks(&self) -> BlockReader<'_>
        ensures { reader_layout result ≡ table_layout self.now }
    {
        BlockReader {
            geometry: &self.geometry,
            runs: &self.runs,
            initialized: self.initialized,
            count: self.count,
        }
    }
}

// Whether a run has a place and lies within so many clusters.
fn is_on_volume(run: &Run, clusters: u64) -> bool
    ensures { IsTrue result ↔ IsOnVolume clusters run.now }
{
    let Some(lcn) = run.lcn else {
        return false;
    };
    lcn <= clusters && run.len <= clusters - lcn
}

// Whether each run does.
fn lie_on(runs: &[Run], clusters: u64) -> bool
    ensures { IsTrue result ↔ All (IsOnVolume clusters) runs.now }
{
    runs.iter().all(|run| is_on_volume(run, clusters))
}

// Whether the first 1,024 bytes lie from this cluster on, in clusters of so many bytes.
fn begin_at(runs: &RunList, mft: u64, size: u64) -> bool
    requires size { 512 ≤ size }
    requires mft { mft < 2 ^ 26 }
    ensures { IsTrue result ↔ ((k : ℕ) → k * size < 1024 → spot_of runs.now k ≡ At (mft + k)) }
{
    runs.spot(0) == Spot::At(mft) && (size >= RECORD as u64 || runs.spot(1) == Spot::At(mft + 1))
}

// Whether the runs lie on the volume, and the first record where the table begins.
fn are_placed(runs: &RunList, geometry: &Geometry, size: u64) -> bool
    requires geometry { FitsDisk geometry.now (2 ^ 55) }
    requires size { 512 ≤ size }
    ensures { IsTrue result ↔ LieFromMft geometry.now.mft size geometry.now.clusters runs.now }
{
    lie_on(runs.runs(), geometry.clusters) && begin_at(runs, geometry.mft, size)
}

// The clusters of the runs.
fn total_clusters(runs: &[Run]) -> u64
    requires { total_clusters runs.now < 2 ^ 64 }
    ensures { result ≡ total_clusters runs.now }
{
    runs.iter().map(|run| run.len).sum()
}

// Whether a table in so many clusters can have these sizes.
fn fit_table(sizes: &Sizes, clusters: u64, size: u64) -> bool
    ensures { IsTrue result ↔ FitTable sizes.now (clusters * size) }
{
    sizes.first == 0
        && u128::from(sizes.real) <= u128::from(clusters) * u128::from(size)
        && sizes.real / RECORD as u64 >= LEAST_RECORDS
        && sizes.real / RECORD as u64 <= MOST_RECORDS
        && sizes.initialized <= sizes.real
}

// Whether the table can have these sizes and runs.
fn is_table(geometry: &Geometry, sizes: &Sizes, runs: &RunList, size: u64) -> bool
    requires geometry { FitsDisk geometry.now (2 ^ 55) }
    requires size { 512 ≤ size }
    ensures { IsTrue result ↔ (LieFromMft geometry.now.mft size geometry.now.clusters runs.now
        × FitTable sizes.now (total_clusters runs.now * size)) }
{
    are_placed(runs, geometry, size) && fit_table(sizes, total_clusters(runs.runs()), size)
}

// Where the table lies, by the opened record 0, and `None` exactly where the table clause does not hold
// of it.
pub fn read_table(
    alloc: Global,
    geometry: &Geometry,
    view: &RecordView<'_>,
) -> Result<Option<Table>, AllocError>
    requires { FitsDisk geometry.now (2 ^ 55) }
    ensures some { IfOk result (λ found. IfSome found (IsFoundBy geometry.now (RecordTells geometry.now (viewed_block view.now)))) }
    ensures none { IfOk result (λ found. IfNone found
        ((layout : TableLayout) → ¬ (RecordTells geometry.now (viewed_block view.now) layout))) }
{
    let Some(stream) = table_stream(view) else {
        return Ok(None);
    };
    let Some(sizes) = stream.sizes() else {
        return Ok(None);
    };
    let Some(text) = stream.runs() else {
        return Ok(None);
    };
    let Some(runs) = read_runs(alloc, text)? else {
        return Ok(None);
    };
    if !is_table(geometry, &sizes, &runs, u64::from(geometry.cluster)) {
        return Ok(None);
    }
    Ok(Some(Table {
        geometry: *geometry,
        runs,
        initialized: sizes.initialized,
        count: sizes.real / RECORD as u64,
    }))
}
