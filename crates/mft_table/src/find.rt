//! The table of a volume, found from its boot sector on.
ghost use Rattle.std.specs.Prelude.{◌≡◌, ◌*◌, ◌/◌, ◌^◌, ◌≤◌, ℕ, List, IfErr, IfNone, IfOk, IfSome, MatchResult};
ghost use Rattle.vol_disk.specs.Contents.{WhereTold, sector_in};
ghost use Rattle.ntfs_boot.specs.Geometry.{FitsDisk, geometry_of};
ghost use Rattle.volume_def.specs.Table.{TableLayout, LiesOn, MeetsTable};
ghost use Rattle.vol_stage.specs.Staged.{StageReads, disk_of, image};
ghost use Rattle.mft_table.specs.TableNos.{CountsNo, IsFoundIn, Refuses, RefusesAt};
ghost use Rattle.mft_table.specs.Tables.{BlockTells, IsFoundBy, table_layout};

mod boot_sector;
mod open;
mod table;
mod table_data;

use crate::TableNo;
use crate::blocks::read_two_sectors;
pub use boot_sector::read_boot_sector;
use ntfs_boot::Geometry;
pub use open::open_record;
use std::alloc::{AllocError, Global};
pub use table::Table;
use table::read_table;
use vol_disk::Disk;
use vol_stage::Stage;

// Where the table lies, by record 0 as it is stored, and `None` where the table clause does not hold.
fn table_in(
    alloc: Global,
    geometry: &Geometry,
    block: &mut [u8; 1024],
) -> Result<Option<Table>, AllocError>
    requires { FitsDisk geometry.now (2 ^ 55) }
    ensures some { IfOk result (λ found. IfSome found (IsFoundBy geometry.now (BlockTells geometry.now block.old))) }
    ensures none { IfOk result (λ found. IfNone found ((layout : TableLayout) → ¬ (BlockTells geometry.now block.old layout))) }
{
    match open_record(block) {
        Some(view) => read_table(alloc, geometry, &view),
        None => Ok(None),
    }
}

// Where the table of a volume of this geometry lies.
fn find_at<D: Disk>(
    alloc: Global,
    stage: &mut Stage<'_, D>,
    geometry: &Geometry,
) -> Result<Table, TableNo>
    requires { FitsDisk geometry.now (D.size (disk_of D.Disk stage.old)) }
    ensures geometry { IfOk result (λ table. table.geometry ≡ geometry.now) }
    ensures ok { IfOk result (λ table. WhereTold (image D.Disk stage.old) (λ all. (boot : List ℕ) → geometry.now ≡ geometry_of boot
        → MeetsTable (sector_in (Some all)) boot (table_layout table))) }
    ensures lies { IfOk result (λ table. LiesOn (D.size (disk_of D.Disk stage.old)) (table_layout table)) }
    ensures records { IfOk result (λ table. 24 ≤ table.count) }
    ensures err { IfErr result (λ no. WhereTold (image D.Disk stage.old) (λ all. (boot : List ℕ) → geometry.now ≡ geometry_of boot
        → RefusesAt (sector_in (Some all)) boot no)) }
    ensures reads { StageReads D.Disk stage.old stage.new 2 }
    ensures faults { MatchResult result (λ _. D.faults (disk_of D.Disk stage.new) ≡ D.faults (disk_of D.Disk stage.old))
        (CountsNo (D.faults (disk_of D.Disk stage.old)) (D.faults (disk_of D.Disk stage.new))) }
{
    let sector = geometry.mft * u64::from(geometry.cluster / 512);
    if sector + 2 > stage.sectors() {
        return Err(TableNo::Table);
    }
    let mut block = [0; 1024];
    read_two_sectors(stage, sector, &mut block)?;
    match table_in(alloc, geometry, &mut block)? {
        Some(table) => Ok(table),
        None => Err(TableNo::Table),
    }
}

/// Finds the table of records of a volume, from its boot sector and record 0 alone.
///
/// # Errors
///
/// `Boot` where the boot clause of the volume definition fails, with the first test that does; `Table`
/// where the boot clause holds and the table clause fails; `Device` where the disk failed.
pub fn find_table<D: Disk>(alloc: Global, stage: &mut Stage<'_, D>) -> Result<Table, TableNo>
    ensures ok { IfOk result (λ table. WhereTold (image D.Disk stage.old) (λ all. IsFoundIn all table)) }
    ensures fits { IfOk result (λ table. FitsDisk table.geometry (D.size (disk_of D.Disk stage.old))) }
    ensures lies { IfOk result (λ table. LiesOn (D.size (disk_of D.Disk stage.old)) (table_layout table)) }
    ensures records { IfOk result (λ table. 24 ≤ table.count) }
    ensures err { IfErr result (λ no. WhereTold (image D.Disk stage.old) (λ all. Refuses all no)) }
    ensures reads { StageReads D.Disk stage.old stage.new 3 }
    ensures faults { MatchResult result (λ _. D.faults (disk_of D.Disk stage.new) ≡ D.faults (disk_of D.Disk stage.old))
        (CountsNo (D.faults (disk_of D.Disk stage.old)) (D.faults (disk_of D.Disk stage.new))) }
{
    let boot = read_boot_sector(stage)?;
    match Geometry::read(&boot, stage.sectors()) {
        Ok(geometry) => find_at(alloc, stage, &geometry),
        Err(fault) => Err(TableNo::Boot(fault)),
    }
}
