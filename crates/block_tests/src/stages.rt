//! Sectors that are staged and written.
ghost use Rattle.std.specs.Prelude.{◌≡◌, ◌≤◌, false};
ghost use Rattle.vol_stage.specs.Staged.{disk_of, is_broken, reference_of};

use std::alloc::{AllocError, Global};
use vol_disk::{Disk, MemDisk};
use vol_stage::{Stage, StageNo};

const ZERO: [u8; 512] = [0; 512];

const ONE: [u8; 512] = [1; 512];

// Stages the first sectors, the last of them first, the lowest twice.
fn stage_first<D: Disk>(
    stage: &mut Stage<'_, D>,
    count: u64,
    from: &[u8; 512],
) -> Result<(), StageNo>
    requires sound { is_broken D.Disk stage.old ≡ false }
    requires inside { count ≤ D.size (disk_of D.Disk stage.old) }
    ensures sound { is_broken D.Disk stage.new ≡ false }
    ensures same_reference { reference_of D.Disk stage.new ≡ reference_of D.Disk stage.old }
    ensures size { D.size (disk_of D.Disk stage.new) ≡ D.size (disk_of D.Disk stage.old) }
{
    'sectors: for k in 0..count {
        stage.reserve(1)?;
        stage.put(count - 1 - k, from);
    }
    if count > 0 {
        stage.reserve(1)?;
        stage.put(0, from);
    }
    Ok(())
}

// Stages the first sectors, and writes them.
fn commit_first<D: Disk>(
    stage: &mut Stage<'_, D>,
    count: u64,
    from: &[u8; 512],
) -> Result<(), StageNo>
    requires sound { is_broken D.Disk stage.old ≡ false }
    requires inside { count ≤ D.size (disk_of D.Disk stage.old) }
    ensures same_reference { reference_of D.Disk stage.new ≡ reference_of D.Disk stage.old }
    ensures size { D.size (disk_of D.Disk stage.new) ≡ D.size (disk_of D.Disk stage.old) }
{
    stage_first(stage, count, from)?;
    stage.commit()?;
    Ok(())
}

// Writes the first sectors through a stage, and uses the disk again.
fn write_first<D: Disk>(
    alloc: Global,
    disk: &mut D,
    count: u64,
    from: &[u8; 512],
) -> Result<(), StageNo>
    requires { count ≤ D.size disk.old }
    ensures { D.size disk.new ≡ D.size disk.old }
{
    let mut stage = Stage::over(alloc, disk);
    let done = commit_first(&mut stage, count, from);
    let _ = stage.finish();
    done
}

// Whether a sector of the disk reads so.
fn shows<D: Disk>(disk: &mut D, sector: u64, wanted: &[u8; 512]) -> bool {
    if sector >= disk.sectors() {
        return false;
    }
    let mut into = [2; 512];
    disk.read(sector, &mut into).is_ok() && into == *wanted
}

#[test]
fn staged_sectors_are_written(rt: HostRuntime) -> Result<(), AllocError> {
    let mut disk = MemDisk::new(rt.alloc(), vec![in rt.alloc(); 0; 2_560_000]?);
    let done = [
        disk.reserve(4_000).is_ok(),
        write_first(rt.alloc(), &mut disk, 4_000, &ONE).is_ok(),
    ];
    assert_eq!(rt; done, [true, true]);
    for (sector, wanted) in [
        (0, ONE),
        (1, ONE),
        (3_999, ONE),
        (4_000, ZERO),
        (4_999, ZERO),
    ] {
        assert!(rt; shows(&mut disk, sector, &wanted), "sector {sector}");
    }
    Ok(())
}
