//! Values of attributes, written in place into their clusters.
ghost use Rattle.std.specs.Prelude.{◌≡◌, ◌≢◌, ◌∷◌, [], ◌+◌, ◌*◌, ◌/◌, ◌%◌, ◌<◌, ◌≤◌, ◌^◌, ℕ, false};
ghost use Rattle.std.specs.Prelude.{IfErr, IfOk, IfSome, List, OnOk, Some, length};
ghost use Rattle.std.specs.List.{range_with_len};
ghost use Rattle.ntfs_def.specs.declared.kinds.TheConstants.{FILE_NAME};
ghost use Rattle.ntfs_def.specs.declared.run_text.Spot.{Spot};
ghost use Rattle.volume_def.specs.Coverage.{IsApart};
ghost use Rattle.volume_def.specs.ExtentsClause.{AreAttribute};
ghost use Rattle.volume_def.specs.Readable.{IsFile, WhereReadable};
ghost use Rattle.volume_def.specs.Table.{cluster_bytes};
ghost use Rattle.volume_def.specs.Values.{spot_at};
ghost use Rattle.file_record.specs.Clusters.{IsOwnStream, IsPlaced, IsWritable, WritesStream, stream_place, stream_sectors};
ghost use Rattle.attr_view.specs.View.{attribute_of};
ghost use Rattle.vol_stage.specs.Staged.{StagesOnly, spare};
ghost use Rattle.file_record.specs.Mft.{MftReserves, MftStages, is_mft_broken, stage_of, view};
ghost use Rattle.file_record.specs.declared.error.FileNo.TheVariants.{Memory};
ghost use Rattle.file_record.specs.Held.{AreParts, file_number, parts_held};
ghost use Rattle.attr_store.specs.First.{IsStored, attribute_held};
ghost use Rattle.attr_store.specs.Sought.{IsAmong, parts_held_like};
ghost use Rattle.attr_store.specs.Written.{LiesAs, StagesAtMost, run_in_text, run_sectors};

use crate::extents::{extent_sizes, extent_text, find_extent};
use crate::read::spanned_len;
use crate::stored::Stored;
use attr_view::AttrView;
use data_runs::{Run, read_runs};
use file_record::{FileNo, FileParts, Mft};
use std::alloc::{AllocError, Global};
use vol_disk::{Disk, SECTOR};

// Makes room for so many more staged sectors.
fn reserve<D: Disk>(mft: &mut Mft<'_, D>, count: usize) -> Result<(), FileNo>
    ensures keeps { MftReserves D.Disk mft.old mft.new }
    ensures room { OnOk result (count ≤ spare D.Disk (stage_of D.Disk mft.new)) }
    ensures memory { IfErr result (λ no. no ≡ Memory) }
{
    match mft.reserve(count) {
        Ok(()) => Ok(()),
        Err(_) => Err(FileNo::Memory),
    }
}

// Stages a sector, in room that was reserved. One past the end of the disk is left.
fn put_piece<D: Disk>(mft: &mut Mft<'_, D>, sector: u64, from: &[u8; 512])
    requires room { 0 < spare D.Disk (stage_of D.Disk mft.old) }
    requires sound { is_mft_broken D.Disk mft.old ≡ false }
    ensures written { (spot : ℕ → Spot) (k : ℕ) → length from.now ≡ 512
        → IsApart (view D.Disk mft.old).layout → IsOwnStream (view D.Disk mft.old).layout spot
        → stream_place (view D.Disk mft.old).layout spot k ≡ Some sector
        → WritesStream (view D.Disk mft.old) (view D.Disk mft.new) spot (512 * k) from.now }
    ensures stages { MftStages D.Disk (sector ∷ []) 1 mft.old mft.new }
{
    if sector < mft.sectors() {
        mft.put_sector(sector, from);
    }
}

// Stages bytes in whole sectors from one on, in room that was reserved. What would lie past the end of the disk is left.
fn put_sectors<D: Disk>(mft: &mut Mft<'_, D>, first: u64, from: &[u8])
    requires few { first < 2 ^ 60 }
    requires room { length from.now / 512 ≤ spare D.Disk (stage_of D.Disk mft.old) }
    requires sound { is_mft_broken D.Disk mft.old ≡ false }
    ensures written { (spot : ℕ → Spot) (k : ℕ) → length from.now % 512 ≡ 0
        → IsApart (view D.Disk mft.old).layout → IsOwnStream (view D.Disk mft.old).layout spot
        → ((j : ℕ) → j < length from.now / 512 → stream_place (view D.Disk mft.old).layout spot (k + j) ≡ Some (first + j))
        → WritesStream (view D.Disk mft.old) (view D.Disk mft.new) spot (512 * k) from.now }
    ensures stages { MftStages D.Disk (range_with_len first (length from.now / 512)) (length from.now / 512) mft.old mft.new }
{
    let mut sector = first;
    let mut rest = from;
    'sectors: while let Some((piece, behind)) = rest.split_first_chunk::<512>() {
        put_piece(mft, sector, piece);
        sector += 1;
        rest = behind;
    }
}

// Stages bytes in whole sectors from byte `skip` of a run on, in room that was reserved. What would lie in a hole, or past the
// end of the disk, is left.
fn put_run<D: Disk>(mft: &mut Mft<'_, D>, lcn: Option<u64>, skip: u64, from: &[u8])
    requires skip { skip < cluster_bytes (view D.Disk mft.old).layout }
    requires room { length from.now / 512 ≤ spare D.Disk (stage_of D.Disk mft.old) }
    requires sound { is_mft_broken D.Disk mft.old ≡ false }
    ensures written { (spot : ℕ → Spot) (k first : ℕ) → lcn ≡ Some first → length from.now % 512 ≡ 0
        → IsApart (view D.Disk mft.old).layout → IsOwnStream (view D.Disk mft.old).layout spot
        → ((j : ℕ) → j < length from.now / 512 → stream_place (view D.Disk mft.old).layout spot (k + j)
        ≡ Some (first * (view D.Disk mft.old).layout.cluster_sectors + skip / 512 + j))
        → WritesStream (view D.Disk mft.old) (view D.Disk mft.new) spot (512 * k) from.now }
    ensures stages { MftStages D.Disk (run_sectors (view D.Disk mft.old).layout.cluster_sectors lcn skip (length from.now))
        (length from.now / 512) mft.old mft.new }
{
    let Some(cluster) = lcn else {
        return;
    };
    if cluster < mft.sectors() {
        let first = cluster * mft.cluster_sectors() + skip / SECTOR as u64;
        put_sectors(mft, first, from);
    }
}

// What the run text of an extent that begins here has left of the run that holds a cluster.
fn run_in_text(alloc: Global, first: u64, text: &[u8], vcn: u64) -> Result<Option<Run>, AllocError>
    ensures { IfOk result (λ found. found ≡ run_in_text first text.now vcn) }
{
    match read_runs(alloc, text)? {
        Some(runs) => Ok(runs.run_from(vcn.saturating_sub(first))),
        None => Ok(None),
    }
}

/// The clusters of a stream from one on, as far as they lie one behind the other in one extent, or in one hole; `None` behind
/// the stream. No disk is read.
///
/// # Errors
///
/// Want of memory alone.
pub fn find_run(
    alloc: Global,
    file: &FileParts,
    stream: &AttrView<'_>,
    vcn: u64,
) -> Result<Option<Run>, AllocError>
    requires among { IsAmong file.now (attribute_of stream.now) }
    ensures some { IfOk result (λ found. IfSome found (λ run. (0 < run.len) × (vcn + run.len ≤ 2 ^ 64))) }
    ensures lies { IfOk result (λ found. (size f : ℕ) → AreAttribute size f (parts_held_like file.now (attribute_of stream.now))
        → LiesAs (spot_at (parts_held_like file.now (attribute_of stream.now))) vcn found) }
{
    let Some(extent) = find_extent(file, stream, vcn) else {
        return Ok(None);
    };
    let sizes = extent_sizes(&extent);
    let Some(run) = run_in_text(alloc, sizes.first, extent_text(&extent), vcn)? else {
        return Ok(None);
    };
    let most = (sizes.last - vcn).saturating_add(1);
    Ok(Some(Run {
        len: run.len.min(most),
        lcn: run.lcn,
    }))
}

// Stages bytes of a stream from byte `at` on, in room that was reserved. What would lie in a hole, or behind the stream, is
// left.
fn write_stream<D: Disk>(
    alloc: Global,
    mft: &mut Mft<'_, D>,
    file: &FileParts,
    wanted: &AttrView<'_>,
    at: u64,
    from: &[u8],
) -> Result<(), FileNo>
    requires fits { at + length from.now < 2 ^ 64 }
    requires aligned { at % 512 ≡ 0 }
    requires whole { length from.now % 512 ≡ 0 }
    requires among { IsAmong file.now (attribute_of wanted.now) }
    requires room { length from.now / 512 ≤ spare D.Disk (stage_of D.Disk mft.old) }
    requires sound { is_mft_broken D.Disk mft.old ≡ false }
    ensures written { OnOk result ((f : ℕ)
        → AreAttribute (cluster_bytes (view D.Disk mft.old).layout) f (parts_held_like file.now (attribute_of wanted.now))
        → IsApart (view D.Disk mft.old).layout
        → IsOwnStream (view D.Disk mft.old).layout (spot_at (parts_held_like file.now (attribute_of wanted.now)))
        → IsPlaced (cluster_bytes (view D.Disk mft.old).layout) (spot_at (parts_held_like file.now (attribute_of wanted.now))) at
        (length from.now)
        → WritesStream (view D.Disk mft.old) (view D.Disk mft.new) (spot_at (parts_held_like file.now (attribute_of wanted.now)))
        at from.now) }
    ensures places { (f : ℕ)
        → AreAttribute (cluster_bytes (view D.Disk mft.old).layout) f (parts_held_like file.now (attribute_of wanted.now))
        → StagesOnly D.Disk (stream_sectors (view D.Disk mft.old).layout (spot_at (parts_held_like file.now (attribute_of wanted.now))) at
        (length from.now)) (stage_of D.Disk mft.old) (stage_of D.Disk mft.new) }
    ensures stages { StagesAtMost D.Disk (length from.now / 512) mft.old mft.new }
    ensures memory { IfErr result (λ no. no ≡ Memory) }
{
    let size = mft.cluster_bytes();
    let mut place = at;
    let mut rest = from;
    'runs: while !rest.is_empty() {
        let Some(run) = find_run(alloc, file, wanted, place / size)? else {
            return Ok(());
        };
        let last = place / size + (run.len - 1);
        let (here, behind) = rest.split_at(spanned_len(last, size, place, rest.len()));
        put_run(mft, run.lcn, place % size, here);
        place += here.len() as u64;
        rest = behind;
    }
    Ok(())
}

/// Stages bytes of the value of an attribute from byte `at` on, in place, in whole sectors: no attribute gets another length,
/// no cluster is taken, and no record is written. The range lies in clusters, below the initialized size: what would lie in a
/// hole, or behind the stream, is left, and of a value that stands in a record all. The time is that of the bytes, and of the
/// run text once for each run that is touched.
///
/// # Errors
///
/// `Memory`. Some of the sectors are then staged: whoever called gives up what was staged.
pub fn write_stored<D: Disk>(
    alloc: Global,
    mft: &mut Mft<'_, D>,
    file: &FileParts,
    stored: &Stored,
    at: u64,
    from: &[u8],
) -> Result<(), FileNo>
    requires part { stored.now.part < length (parts_held file.now) }
    requires fits { at + length from.now < 2 ^ 64 }
    requires aligned { at % 512 ≡ 0 }
    requires whole { length from.now % 512 ≡ 0 }
    requires sound { is_mft_broken D.Disk mft.old ≡ false }
    ensures written { OnOk result (WhereReadable (view D.Disk mft.old) (AreParts (view D.Disk mft.old) file.now
        → IsFile (view D.Disk mft.old) (file_number file.now)
        → (kind : ℕ) (name : List ℕ) → IsStored file.now kind name stored.now → kind ≢ FILE_NAME
        → IsWritable (view D.Disk mft.old) (attribute_held file.now kind name) at (length from.now)
        → WritesStream (view D.Disk mft.old) (view D.Disk mft.new) (spot_at (attribute_held file.now kind name)) at from.now)) }
    ensures places { WhereReadable (view D.Disk mft.old) (AreParts (view D.Disk mft.old) file.now
        → IsFile (view D.Disk mft.old) (file_number file.now)
        → (kind : ℕ) (name : List ℕ) → IsStored file.now kind name stored.now → kind ≢ FILE_NAME
        → StagesOnly D.Disk (stream_sectors (view D.Disk mft.old).layout (spot_at (attribute_held file.now kind name)) at (length from.now))
        (stage_of D.Disk mft.old) (stage_of D.Disk mft.new)) }
    ensures stages { StagesAtMost D.Disk (length from.now / 512) mft.old mft.new }
    ensures memory { IfErr result (λ no. no ≡ Memory) }
{
    reserve(mft, from.len() / SECTOR)?;
    let attribute = file.attr(stored.part);
    write_stream(alloc, mft, file, &attribute, at, from)
}
