//! Items of a new volume: rows of bytes by a rule, written one behind the other in whole clusters.
ghost use Rattle.std.specs.Prelude.{◌≡◌, ◌⊎◌, ◌+◌, ◌*◌, ◌/◌, ◌<◌, ◌≤◌, ◌^◌, ℕ, IfOk, OnOk};
ghost use Rattle.vol_disk.specs.Contents.{IsTold, sector_in};
ghost use Rattle.vol_disk.specs.Count.{CountsFault};
ghost use Rattle.volume_format.specs.FitsPlan.{IsClusterSize};
ghost use Rattle.volume_format.specs.Items.{item_sector};
ghost use Rattle.volume_format.specs.Plan.{clusters_needed};
ghost use Rattle.volume_format.specs.Written.{SameOutsideClusters, Stands, WritesOn, sector_at, sectors_per};

use crate::Places;
use vol_disk::{Disk, Failed};

/// A row of bytes by a rule. Behind its last byte the rule goes on with what fills up the cluster.
pub trait Item {
    /// The byte at each place.
    ghost rule: { Self → ℕ → ℕ };

    /// The place behind the last byte that the rule gives.
    ghost limit: { Self → ℕ };

    /// The byte at a place.
    fn byte(&self, at: u64) -> u8
        requires { at < limit self.now }
        ensures { result ≡ rule self.now at };
}

// Lays out the sector `k` of an item.
fn fill<I: Item>(item: &I, k: u64, into: &mut [u8; 512])
    requires within { 512 * k + 512 ≤ I.limit item.now }
    requires small { k < 2 ^ 40 }
    ensures { into.new ≡ item_sector (I.rule item.now) k }
{
    for i in 0..512 {
        into[i] = item.byte(512 * k + i as u64);
    }
}

// Writes the first `count` sectors of an item from a sector on.
fn write_sectors<D: Disk, I: Item>(
    disk: &mut D,
    item: &I,
    first: u64,
    count: u64,
) -> Result<(), Failed>
    requires fits { first + count ≤ D.size disk.old }
    requires within { 512 * count ≤ I.limit item.now }
    requires few { count < 2 ^ 40 }
    ensures here { OnOk result (IsTold (D.now disk.old) → (k : ℕ) → k < count
        → sector_in (D.now disk.new) (first + k) ≡ item_sector (I.rule item.now) k) }
    ensures others { (sector : ℕ) → (sector < first) ⊎ (first + count ≤ sector)
        → sector_in (D.now disk.new) sector ≡ sector_in (D.now disk.old) sector }
    ensures keeps { WritesOn D.Disk disk.old disk.new }
    ensures faults { CountsFault result (D.faults disk.old) (D.faults disk.new) }
    ensures on_time { D.faults disk.old ≡ 0 → D.late disk.new ≡ D.late disk.old }
{
    let mut sector = [0; 512];
    for k in 0..count {
        fill(item, k, &mut sector);
        disk.write(first + k, &sector)?;
    }
    Ok(())
}

// The sectors of a cluster.
fn sectors_per(places: &Places) -> u64
    ensures per { result ≡ sectors_per places.now }
    ensures some { 0 < result }
    ensures few { result ≤ 8 }
    ensures whole { 512 * result ≡ places.now.size }
    ensures one { IsClusterSize places.now.size }
{
    places.size() / 512
}

/// Writes an item in whole clusters from a cluster on, and gives the cluster behind it.
pub fn write_item<D: Disk, I: Item>(
    disk: &mut D,
    places: &Places,
    at: u64,
    len: u64,
    item: &I,
) -> Result<u64, Failed>
    requires fits { sector_at places.now (at + clusters_needed places.now len) ≤ D.size disk.old }
    requires within { (len + 4095) / 4096 * 4096 ≤ I.limit item.now }
    requires few { len ≤ 2 ^ 24 }
    ensures next { IfOk result (λ next. next ≡ at + clusters_needed places.now len) }
    ensures stands { OnOk result (IsTold (D.now disk.old) → Stands (sector_in (D.now disk.new)) places.now at len (I.rule item.now)) }
    ensures others { SameOutsideClusters (sector_in (D.now disk.old)) (sector_in (D.now disk.new)) places.now
        at (at + clusters_needed places.now len) }
    ensures keeps { WritesOn D.Disk disk.old disk.new }
    ensures faults { CountsFault result (D.faults disk.old) (D.faults disk.new) }
    ensures on_time { D.faults disk.old ≡ 0 → D.late disk.new ≡ D.late disk.old }
{
    let per = sectors_per(places);
    let clusters = places.clusters_needed(len);
    write_sectors(disk, item, at * per, clusters * per)?;
    Ok(at + clusters)
}
