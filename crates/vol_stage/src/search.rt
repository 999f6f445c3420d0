//! The staged sectors, by rising number.
ghost use Rattle.std.specs.Prelude.{◌≡◌, ◌<◌, ◌≤◌, Contains, IfSome, IfNone};
ghost use Rattle.std.specs.List.Sorted.{IsPartitionPoint};
ghost use Rattle.vol_stage.specs.StagedWrites.{AreRising, places_of};

use vol_disk::Write;

/// The bytes that are staged for a sector.
pub fn find(writes: &[Write], sector: u64) -> Option<&[u8; 512]>
    requires { AreRising writes.now }
    ensures found { IfSome result (λ bytes. Contains writes.now (record { sector = sector; bytes = bytes.now })) }
    ensures none { IfNone result (¬ (Contains (places_of writes.now) sector)) }
{
    match writes.get(place_of(writes, sector)) {
        Some(write) if write.sector == sector => Some(&write.bytes),
        _ => None,
    }
}

// The first write that is not of a lower sector.
fn place_of(writes: &[Write], sector: u64) -> usize
    requires { AreRising writes.now }
    ensures { IsPartitionPoint (λ write. write.sector < sector) (λ write. sector ≤ write.sector) writes.now result }
{
    writes.partition_point(|write| write.sector < sector)
}
