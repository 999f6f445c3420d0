//! The items of a new volume are written in the order of their places.
ghost use Rattle.std.specs.Prelude.{◌≡◌, ◌⊎◌, ◌<◌, ◌≤◌, ℕ, IfOk, OnOk};
ghost use Rattle.vol_disk.specs.Contents.{IsTold, sector_in};
ghost use Rattle.vol_disk.specs.Count.{CountsFault};
ghost use Rattle.volume_format.specs.Plan.{case_at, items_end, mirror_at};
ghost use Rattle.volume_format.specs.Written.{FirstStand, ItemsStand, LastStand, NextStand, SameOutsideClusters, WritesOn, sector_at};

use crate::Places;
use crate::item::write_item;
use crate::places::{
    BOOT_LEN, CASE_LEN, LOG_LEN, MIRROR_LEN, NODE_LEN, SECURITY_LEN, TABLE_BITS_LEN, TABLE_LEN,
};
use crate::rules::{Bytes, CaseTable, EmptyLog, Ones, RecordBits, Security};
use vol_disk::{Disk, Failed};

// Writes `$Boot`, the table of records and the bitmap of records.
fn write_first<D: Disk>(
    disk: &mut D,
    places: &Places,
    boot: &[u8; 512],
    table: &[u8],
) -> Result<u64, Failed>
    requires { sector_at places.now (items_end places.now) ≤ D.size disk.old }
    ensures next { IfOk result (λ next. next ≡ mirror_at places.now) }
    ensures stand { OnOk result (IsTold (D.now disk.old) → FirstStand (sector_in (D.now disk.new)) places.now boot.now table.now) }
    ensures others { SameOutsideClusters (sector_in (D.now disk.old)) (sector_in (D.now disk.new)) places.now 0 (mirror_at places.now) }
    ensures keeps { WritesOn D.Disk disk.old disk.new }
    ensures faults { CountsFault result (D.faults disk.old) (D.faults disk.new) }
    ensures on_time { D.faults disk.old ≡ 0 → D.late disk.new ≡ D.late disk.old }
{
    let next = write_item(disk, places, 0, BOOT_LEN, &Bytes { bytes: boot })?;
    let next = write_item(disk, places, next, TABLE_LEN, &Bytes { bytes: table })?;
    let next = write_item(disk, places, next, TABLE_BITS_LEN, &RecordBits)?;
    Ok(next)
}

// Writes the mirror of the table, the log and the bitmap of clusters behind them.
fn write_next<D: Disk>(disk: &mut D, places: &Places, at: u64, table: &[u8]) -> Result<u64, Failed>
    requires place { at ≡ mirror_at places.now }
    requires room { sector_at places.now (items_end places.now) ≤ D.size disk.old }
    ensures next { IfOk result (λ next. next ≡ case_at places.now) }
    ensures stand { OnOk result (IsTold (D.now disk.old) → NextStand (sector_in (D.now disk.new)) places.now table.now) }
    ensures others { SameOutsideClusters (sector_in (D.now disk.old)) (sector_in (D.now disk.new)) places.now
        (mirror_at places.now) (case_at places.now) }
    ensures keeps { WritesOn D.Disk disk.old disk.new }
    ensures faults { CountsFault result (D.faults disk.old) (D.faults disk.new) }
    ensures on_time { D.faults disk.old ≡ 0 → D.late disk.new ≡ D.late disk.old }
{
    let taken = Ones {
        count: places.items_end(),
    };
    let next = write_item(disk, places, at, MIRROR_LEN, &Bytes { bytes: table })?;
    let next = write_item(disk, places, next, LOG_LEN, &EmptyLog)?;
    let next = write_item(disk, places, next, places.bits_len(), &taken)?;
    Ok(next)
}

// Writes the table of case, the security descriptors and the root's index record behind them.
fn write_last<D: Disk>(disk: &mut D, places: &Places, at: u64, root: &[u8]) -> Result<(), Failed>
    requires place { at ≡ case_at places.now }
    requires room { sector_at places.now (items_end places.now) ≤ D.size disk.old }
    ensures stand { OnOk result (IsTold (D.now disk.old) → LastStand (sector_in (D.now disk.new)) places.now root.now) }
    ensures others { SameOutsideClusters (sector_in (D.now disk.old)) (sector_in (D.now disk.new)) places.now
        (case_at places.now) (items_end places.now) }
    ensures keeps { WritesOn D.Disk disk.old disk.new }
    ensures faults { CountsFault result (D.faults disk.old) (D.faults disk.new) }
    ensures on_time { D.faults disk.old ≡ 0 → D.late disk.new ≡ D.late disk.old }
{
    let next = write_item(disk, places, at, CASE_LEN, &CaseTable)?;
    let next = write_item(disk, places, next, SECURITY_LEN, &Security)?;
    write_item(disk, places, next, NODE_LEN, &Bytes { bytes: root })?;
    Ok(())
}

/// Writes all items of a new volume. Sectors behind them stay.
pub fn write_items<D: Disk>(
    disk: &mut D,
    places: &Places,
    boot: &[u8; 512],
    table: &[u8],
    root: &[u8],
) -> Result<(), Failed>
    requires { sector_at places.now (items_end places.now) ≤ D.size disk.old }
    ensures stand { OnOk result (IsTold (D.now disk.old)
        → ItemsStand (sector_in (D.now disk.new)) places.now boot.now table.now root.now) }
    ensures others { (sector : ℕ) → sector_at places.now (items_end places.now) ≤ sector
        → sector_in (D.now disk.new) sector ≡ sector_in (D.now disk.old) sector }
    ensures keeps { WritesOn D.Disk disk.old disk.new }
    ensures faults { CountsFault result (D.faults disk.old) (D.faults disk.new) }
    ensures on_time { D.faults disk.old ≡ 0 → D.late disk.new ≡ D.late disk.old }
{
    let next = write_first(disk, places, boot, table)?;
    let next = write_next(disk, places, next, table)?;
    write_last(disk, places, next, root)?;
    Ok(())
}
