//! A new volume on a disk.
ghost use Rattle.std.specs.Prelude.{◌≡◌, ◌⊎◌, ◌↔◌, ◌≤◌, ℕ, Err, IfErr, IfOk, MatchResult, OnOk, is_some};
ghost use Rattle.vol_disk.specs.Contents.{IsTold, WhereTold, sector_in, settled_more};
ghost use Rattle.vol_disk.specs.Count.{CountsFault};
ghost use Rattle.tree_model.specs.Facts.{ReadsAs};
ghost use Rattle.volume_format.specs.Formatted.{IsNewVolume};
ghost use Rattle.volume_format.specs.FormatNos.{CountsNo};
ghost use Rattle.volume_format.specs.Options.{AreInRange, clusters_in, plan_of};
ghost use Rattle.volume_format.specs.Plan.{items_end};
ghost use Rattle.volume_format.specs.Reading.{new_tree};
ghost use Rattle.volume_format.specs.Written.{ItemsStand, sector_at};

use crate::made::{Made, make};
use crate::write::write_items;
use crate::{FormatNo, FormatOptions};
use std::alloc::Global;
use vol_disk::{Disk, Failed};

// Writes what was made, and settles it.
fn put<D: Disk>(disk: &mut D, made: &Made) -> Result<(), Failed>
    requires { sector_at made.now.places (items_end made.now.places) ≤ D.size disk.old }
    ensures stand { OnOk result (IsTold (D.now disk.new)
        → ItemsStand (sector_in (D.now disk.new)) made.now.places made.now.boot made.now.table.items made.now.root) }
    ensures others { (sector : ℕ) → sector_at made.now.places (items_end made.now.places) ≤ sector
        → sector_in (D.now disk.new) sector ≡ sector_in (D.now disk.old) sector }
    ensures settled { OnOk result (D.settled disk.new ≡ settled_more (D.settled disk.old) (D.now disk.new)) }
    ensures told { is_some (D.now disk.new) ≡ is_some (D.now disk.old) }
    ensures fenced { D.fenced disk.new ≡ D.fenced disk.old }
    ensures fetched { D.fetched disk.new ≡ D.fetched disk.old }
    ensures size { D.size disk.new ≡ D.size disk.old }
    ensures faults { CountsFault result (D.faults disk.old) (D.faults disk.new) }
    ensures on_time { D.faults disk.old ≡ 0 → D.late disk.new ≡ D.late disk.old }
{
    write_items(disk, &made.places, &made.boot, &made.table, &made.root)?;
    disk.settle()
}

/// Makes a new volume on a disk, and gives the number of its clusters. The volume reads as the root alone, and all other files
/// are hidden. Sectors behind its items stay.
///
/// # Errors
///
/// `Options` where an option is out of its range, and `Memory` where there is none: the disk is as it
/// was. `Device` where the disk failed.
pub fn format<D: Disk>(
    alloc: Global,
    disk: &mut D,
    options: &FormatOptions,
) -> Result<u64, FormatNo>
    ensures options { (result ≡ Err FormatNo.Options) ↔ ¬ (AreInRange (D.size disk.old) options.now) }
    ensures in_range { (result ≡ Err FormatNo.Options) ⊎ AreInRange (D.size disk.old) options.now }
    ensures untouched { IfErr result (λ no. (no ≡ FormatNo.Device) ⊎ (disk.new ≡ disk.old)) }
    ensures clusters { IfOk result (λ clusters. clusters ≡ clusters_in options.now.sectors options.now.cluster) }
    ensures volume { OnOk result (WhereTold (D.now disk.new) (IsNewVolume options.now (D.size disk.old))) }
    ensures reading { OnOk result (WhereTold (D.now disk.new) (λ contents. ReadsAs contents new_tree)) }
    ensures settled { OnOk result (D.settled disk.new ≡ settled_more (D.settled disk.old) (D.now disk.new)) }
    ensures others { (sector : ℕ) → sector_at (plan_of options.now) (items_end (plan_of options.now)) ≤ sector
        → sector_in (D.now disk.new) sector ≡ sector_in (D.now disk.old) sector }
    ensures told { is_some (D.now disk.new) ≡ is_some (D.now disk.old) }
    ensures fenced { D.fenced disk.new ≡ D.fenced disk.old }
    ensures fetched { D.fetched disk.new ≡ D.fetched disk.old }
    ensures size { D.size disk.new ≡ D.size disk.old }
    ensures faults { MatchResult result (λ _. D.faults disk.new ≡ D.faults disk.old)
        (CountsNo (D.faults disk.old) (D.faults disk.new)) }
    ensures on_time { D.faults disk.old ≡ 0 → D.late disk.new ≡ D.late disk.old }
{
    if !options.is_in_range(disk.sectors()) {
        return Err(FormatNo::Options);
    }
    let made = make(alloc, options)?;
    put(disk, &made)?;
    Ok(made.places.clusters())
}
