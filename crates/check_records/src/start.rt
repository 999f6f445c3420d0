//! The front of the check: the table of records is found, and gone over once.
ghost use Rattle.std.specs.Prelude.{◌≡◌, ◌+◌, ◌*◌, ◌≤◌, ◌^◌, ℕ, IfErr, IfOk, IsTrue, MatchResult, length};
ghost use Rattle.vol_disk.specs.Contents.{WhereTold};
ghost use Rattle.ntfs_boot.specs.Geometry.{FitsDisk};
ghost use Rattle.volume_def.specs.Files.{records_of};
ghost use Rattle.volume_def.specs.Sound.{HoldBelow};
ghost use Rattle.volume_def.specs.Table.{LiesOn};
ghost use Rattle.vol_stage.specs.Staged.{StageReads, disk_of, image};
ghost use Rattle.mft_table.specs.MountNos.{CountsMount};
ghost use Rattle.mft_table.specs.Mounted.{StandsOn, mounted_layout};
ghost use Rattle.mft_table.specs.Tables.{table_layout};
ghost use Rattle.record_notes.specs.Facts.{FactsNote};
ghost use Rattle.check_records.specs.Refusals.{IsRefusal};
ghost use Rattle.mft_table.specs.HeldTables.{HasTable};
ghost use Rattle.check_records.specs.Views.{IsOfVolume, stage_view};

use crate::scan::scan_records;
use cluster_bitmap::Bits;
use mft_table::{MountNo, Mounted, Table, find_table};
use ntfs_def::lengths::CASE_TABLE;
use record_notes::Facts;
use std::alloc::{AllocError, Global};
use upcase::UpCase;
use vol_disk::Disk;
use vol_stage::Stage;

/// A volume whose table of records was found and gone over once.
#[derive(Drop)]
pub struct Scanned {
    /// Where its records lie. Its bitmaps and its table of case are not read yet: no bit is set, and the table is zero.
    pub mounted: Mounted,
    pub facts: Facts,
}

// So many flags, none of them set.
fn clear_bits(alloc: Global, count: u64) -> Result<Bits, AllocError>
    requires { count ≤ 2 ^ 26 }
    ensures { IfOk result (λ bits. length bits ≡ count) }
{
    let bytes = vec![in alloc; 0; (count / 8 + 1) as usize]?;
    match Bits::load(alloc, &bytes, count) {
        Ok(bits) => Ok(bits),
        Err(_) => Err(AllocError),
    }
}

// A table of case that is zero.
fn clear_case(alloc: Global) -> Result<UpCase, AllocError> {
    let bytes = vec![in alloc; 0; CASE_TABLE]?;
    match UpCase::load(alloc, &bytes) {
        Ok(table) => Ok(table),
        Err(_) => Err(AllocError),
    }
}

// The tables of a volume of which the bitmaps and the table of case are not read yet.
fn first_tables(alloc: Global, table: Table) -> Result<Mounted, AllocError>
    requires clusters { table.geometry.clusters ≤ 2 ^ 26 }
    requires records { table.count ≤ 2 ^ 22 }
    ensures stands { IfOk result (λ mounted. (sectors : ℕ) → FitsDisk table.geometry sectors → LiesOn sectors (table_layout table)
        → StandsOn sectors mounted) }
    ensures layout { IfOk result (λ mounted. mounted_layout mounted ≡ table_layout table) }
    ensures geometry { IfOk result (λ mounted. mounted.geometry ≡ table.geometry) }
{
    let clusters = clear_bits(alloc, table.geometry.clusters)?;
    let records = clear_bits(alloc, table.count)?;
    let upcase = clear_case(alloc)?;
    Ok(Mounted {
        geometry: table.geometry,
        table: table.runs,
        initialized: table.initialized,
        clusters,
        records,
        upcase,
    })
}

/// Finds the table of records and reads each of its blocks once.
///
/// # Errors
///
/// `Refused` with the first of S1, S2 and S3 that fails, `Device` and `Memory`.
pub fn scan_volume<D: Disk>(alloc: Global, stage: &mut Stage<'_, D>) -> Result<Scanned, MountNo>
    ensures stands { IfOk result (λ scanned. StandsOn (D.size (disk_of D.Disk stage.old)) scanned.mounted) }
    ensures table { IfOk result (λ scanned. WhereTold (image D.Disk stage.old) (λ all. HasTable all scanned.mounted)) }
    ensures shape { IfOk result (λ scanned. IsTrue (stage_view D.Disk stage.old (mounted_layout scanned.mounted)).told
        → HoldBelow (stage_view D.Disk stage.old (mounted_layout scanned.mounted)) 1) }
    ensures facts { IfOk result (λ scanned. IsTrue (stage_view D.Disk stage.old (mounted_layout scanned.mounted)).told
        → FactsNote (records_of (stage_view D.Disk stage.old (mounted_layout scanned.mounted))) (mounted_layout scanned.mounted).count
        scanned.facts) }
    ensures volume { IfOk result (λ scanned. IsOfVolume (mounted_layout scanned.mounted) scanned.facts) }
    ensures records { IfOk result (λ scanned. 24 ≤ length scanned.mounted.records) }
    ensures err { IfErr result (IsRefusal (image D.Disk stage.old)) }
    ensures reads { StageReads D.Disk stage.old stage.new (3 + 2 * 2 ^ 22) }
    ensures fetched { IfOk result (λ scanned. StageReads D.Disk stage.old stage.new (3 + 2 * length scanned.mounted.records)) }
    ensures faults { MatchResult result (λ _. D.faults (disk_of D.Disk stage.new) ≡ D.faults (disk_of D.Disk stage.old))
        (CountsMount (D.faults (disk_of D.Disk stage.old)) (D.faults (disk_of D.Disk stage.new))) }
{
    let table = find_table(alloc, stage)?;
    let facts = scan_records(alloc, stage, &table.blocks())?;
    let mounted = first_tables(alloc, table)?;
    Ok(Scanned { mounted, facts })
}
