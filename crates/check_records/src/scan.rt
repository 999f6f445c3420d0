//! The pass over the table: each block is read once.
ghost use Rattle.std.specs.Prelude.{◌≡◌, ◌↔◌, ◌+◌, ◌*◌, ◌<◌, ◌≤◌, ◌^◌, IfErr, IfOk, IsTrue, MatchResult, OnOk};
ghost use Rattle.ntfs_def.specs.Record.{is_in_use};
ghost use Rattle.volume_def.specs.Files.{Records, record_in, records_of};
ghost use Rattle.volume_def.specs.Sound.{HoldBelow};
ghost use Rattle.volume_def.specs.Table.{IsWellFormed, LiesOn};
ghost use Rattle.vol_stage.specs.Staged.{StageReads, disk_of};
ghost use Rattle.mft_table.specs.Tables.{reader_layout};
ghost use Rattle.mft_table.specs.MountNos.{CountsMount};
ghost use Rattle.record_notes.specs.Facts.{FactsNote, SameVolume, records_known};
ghost use Rattle.check_records.specs.Refusals.{IsRefusalOf};
ghost use Rattle.check_records.specs.Views.{IsOfVolume, stage_view};

use clause_order::Clause;
use mft_table::{BlockReader, MountNo, open_record};
use ntfs_def::is_in_use;
use record_notes::Facts;
use std::alloc::{AllocError, Global};
use vol_disk::Disk;
use vol_stage::Stage;

// Notes the record that a stored block is, and tells whether the block is right: not in use, or of the shape.
fn note_block(
    alloc: Global,
    facts: &mut Facts,
    n: u64,
    block: &mut [u8; 1024],
) -> Result<bool, AllocError>
    requires { n < records_known facts.old }
    ensures same { SameVolume facts.old facts.new }
    ensures shape { IfOk result (λ right. IsTrue right ↔ (IsTrue (is_in_use block.old) → IsWellFormed block.old)) }
    ensures noted { IfOk result (λ right. IsTrue right → (records : Records) → records.record_at n ≡ record_in n block.old
        → FactsNote records n facts.old → FactsNote records (n + 1) facts.new) }
{
    if !is_in_use(block) {
        facts.note_unused()?;
        return Ok(true);
    }
    let Some(view) = open_record(block) else {
        return Ok(false);
    };
    facts.note(alloc, n, &view)?;
    Ok(true)
}

/// Reads each block of the table once, in order, and notes its records.
///
/// # Errors
///
/// `Refused` with the least record that breaks the clause on shape, `Device` and `Memory`.
pub fn scan_records<D: Disk>(
    alloc: Global,
    stage: &mut Stage<'_, D>,
    blocks: &BlockReader<'_>,
) -> Result<Facts, MountNo>
    requires table { LiesOn (D.size (disk_of D.Disk stage.old)) (reader_layout blocks.now) }
    requires clusters { (reader_layout blocks.now).clusters ≤ 2 ^ 26 }
    ensures shape { OnOk result (IsTrue (stage_view D.Disk stage.old (reader_layout blocks.now)).told
        → HoldBelow (stage_view D.Disk stage.old (reader_layout blocks.now)) 1) }
    ensures facts { IfOk result (λ facts. IsTrue (stage_view D.Disk stage.old (reader_layout blocks.now)).told
        → FactsNote (records_of (stage_view D.Disk stage.old (reader_layout blocks.now))) (reader_layout blocks.now).count facts) }
    ensures volume { IfOk result (IsOfVolume (reader_layout blocks.now)) }
    ensures err { IfErr result (IsRefusalOf (stage_view D.Disk stage.old (reader_layout blocks.now))) }
    ensures reads { StageReads D.Disk stage.old stage.new (2 * (reader_layout blocks.now).count) }
    ensures faults { MatchResult result (λ _. D.faults (disk_of D.Disk stage.new) ≡ D.faults (disk_of D.Disk stage.old))
        (CountsMount (D.faults (disk_of D.Disk stage.old)) (D.faults (disk_of D.Disk stage.new))) }
{
    let cluster_bytes = u64::from(blocks.geometry.cluster) / 512 * 512;
    let mut facts = Facts::new(alloc, cluster_bytes, blocks.geometry.clusters, blocks.count)?;
    let mut block = [0; 1024];
    for n in 0..blocks.count {
        blocks.read_block(stage, n, &mut block)?;
        let right = note_block(alloc, &mut facts, n, &mut block)?;
        if !right {
            return Err(Clause::Shape.refusal(n));
        }
    }
    Ok(facts)
}
