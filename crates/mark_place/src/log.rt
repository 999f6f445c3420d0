//! Where the log lies, as far as it was written.
ghost use Rattle.std.specs.Prelude.{◌≡◌, ◌+◌, ◌*◌, ◌<◌, ◌≤◌, ◌^◌, [], ℕ, All, IfErr, IfNone, IfOk, IfSome, MatchResult, Some};
ghost use Rattle.ntfs_def.specs.declared.kinds.TheConstants.{DATA};
ghost use Rattle.volume_def.specs.ExtentsClause.{AreAttribute};
ghost use Rattle.volume_def.specs.Files.{records_of};
ghost use Rattle.volume_def.specs.Readable.{WhereReadable};
ghost use Rattle.volume_def.specs.ReferencesClause.{MeetsReferences};
ghost use Rattle.volume_def.specs.Table.{TableLayout, cluster_bytes};
ghost use Rattle.volume_def.specs.Values.{spot_at};
ghost use Rattle.attr_view.specs.View.{attribute_of};
ghost use Rattle.vol_stage.specs.Staged.{disk_of};
ghost use Rattle.mft_table.specs.Mft.{MftReads, faults_of, stage_of, view};
ghost use Rattle.file_record.specs.FileNos.{CountsNo, IsReadNo};
ghost use Rattle.attr_store.specs.First.{TellsSizes, attribute_held};
ghost use Rattle.attr_store.specs.Sought.{IsAmong, parts_held_like};
ghost use Rattle.mark_write.specs.Logs.{span_sectors};
ghost use Rattle.volume_edits.specs.Owners.{HasOwners};
ghost use Rattle.mark_place.specs.LogSpans.{AreLogSpans, AreSpansOf, LiesBelow, clusters_written, log_sectors};

use attr_store::{FirstPart, find_first, find_run};
use attr_view::AttrView;
use file_record::{FileNo, FileParts, load_base};
use mark_write::Span;
use mft_table::Mft;
use ntfs_def::kinds::DATA;
use ntfs_def::records::LOG_FILE;
use std::alloc::{AllocError, Global};
use vol_disk::{Disk, SECTOR};

// The sectors of a run, so many of them, on a disk of `sectors`; `None` of a hole, and where they do not lie on it.
fn span_of_run(lcn: Option<u64>, per: u64, len: u64, sectors: u64) -> Option<Span>
    requires few { per ≤ 8 }
    requires some { 0 < per }
    requires long { 0 < len }
    requires small { sectors < 2 ^ 55 }
    ensures some { IfSome result (λ span. (cluster : ℕ) × (lcn ≡ Some cluster) × (span.first ≡ cluster * per) × (span.len ≡ len)
        × (span.first + span.len ≤ sectors)) }
    ensures none { IfNone result ((cluster : ℕ) → lcn ≡ Some cluster → sectors < cluster * per + len) }
{
    let cluster = lcn?;
    if cluster >= sectors {
        return None;
    }
    let first = cluster * per;
    if first >= sectors || len > sectors - first {
        return None;
    }
    Some(Span { first, len })
}

// The spans of the first `count` sectors of a stream.
fn spans_of(
    alloc: Global,
    file: &FileParts,
    stream: &AttrView<'_>,
    per: u64,
    count: u64,
    sectors: u64,
) -> Result<Vec<Span>, AllocError>
    requires among { IsAmong file.now (attribute_of stream.now) }
    requires few { per ≤ 8 }
    requires some { 0 < per }
    requires small { sectors < 2 ^ 55 }
    requires below { count ≤ 2 ^ 55 }
    ensures lie { IfOk result (λ spans. All (λ span. span.first + span.len ≤ sectors) spans.items) }
    ensures are { IfOk result (λ spans. (layout : TableLayout) (f : ℕ) → layout.cluster_sectors ≡ per
        → AreAttribute (cluster_bytes layout) f (parts_held_like file.now (attribute_of stream.now))
        → LiesBelow per sectors (spot_at (parts_held_like file.now (attribute_of stream.now)))
        → AreSpansOf layout (spot_at (parts_held_like file.now (attribute_of stream.now))) count spans.items) }
    ensures most { IfOk result (λ spans. span_sectors spans.items ≤ count) }
{
    let mut spans = Vec::new(alloc);
    let mut vcn = 0;
    'runs: while vcn * per < count {
        let Some(run) = find_run(alloc, file, stream, vcn)? else {
            return Ok(spans);
        };
        let left = count - vcn * per;
        let clusters = run.len.min(left.div_ceil(per));
        let len = left.min(clusters * per);
        if let Some(span) = span_of_run(run.lcn, per, len, sectors) {
            spans.push(span)?;
        }
        vcn += clusters;
    }
    Ok(spans)
}

// The part of a file that tells the sizes of its unnamed stream, where that was written in clusters.
fn written_part(file: &FileParts) -> Option<FirstPart>
    ensures some { IfSome result (λ first. TellsSizes file.now DATA [] first
        × (first.written ≡ clusters_written (attribute_held file.now DATA []))) }
    ensures none { IfNone result (clusters_written (attribute_held file.now DATA []) ≡ 0) }
{
    let first = find_first(file, DATA, &[])?;
    if first.packed || file.attr(first.index).sizes().is_none() {
        return None;
    }
    Some(first)
}

/// Where the log lies as far as it was written: the sectors in which the bytes of the unnamed `$DATA` of `$LogFile` stand up to its
/// initialized size, and no others. None are those of a log that stands in a record, or is packed, or of a volume without the file.
/// What it says of a volume holds where its files can be read, its references are right, and no cluster has two owners.
///
/// Source: Linux-NTFS documentation, file $LogFile.
///
/// # Errors
///
/// `Device` where the disk failed, and `Memory`.
pub fn find_log<D: Disk>(alloc: Global, mft: &mut Mft<'_, D>) -> Result<Vec<Span>, FileNo>
    ensures lie { IfOk result (λ spans.
        All (λ span. span.first + span.len ≤ D.size (disk_of D.Disk (stage_of D.Disk mft.old))) spans.items) }
    ensures log { IfOk result (λ spans. WhereReadable (view D.Disk mft.old) (HasOwners (view D.Disk mft.old)
        → ((n : ℕ) → MeetsReferences (records_of (view D.Disk mft.old)) n)
        → AreLogSpans (view D.Disk mft.old) spans.items × (span_sectors spans.items ≤ log_sectors (view D.Disk mft.old)))) }
    ensures err { IfErr result IsReadNo }
    ensures faults { MatchResult result (λ _. faults_of D.Disk mft.new ≡ faults_of D.Disk mft.old)
        (CountsNo (faults_of D.Disk mft.old) (faults_of D.Disk mft.new)) }
    ensures reads { MftReads D.Disk mft.old mft.new 20678 }
{
    let Some(file) = load_base(alloc, mft, LOG_FILE)? else {
        return Ok(Vec::new(alloc));
    };
    let Some(first) = written_part(&file.parts) else {
        return Ok(Vec::new(alloc));
    };
    let stream = file.parts.attr(first.index);
    let count = first.written.div_ceil(SECTOR as u64);
    let spans = spans_of(
        alloc,
        &file.parts,
        &stream,
        mft.cluster_sectors(),
        count,
        mft.sectors(),
    )?;
    Ok(spans)
}
