//! An edit and the closing on a disk in memory: the order of their writes.
ghost use Rattle.std.specs.Prelude.{◌≡◌, ◌<◌, ℕ, [], false, Contains, OnOk};
ghost use Rattle.vol_stage.specs.Staged.{disk_of, is_broken, places, reference_of};

use mark_write::{Flag, Span, close_marked, finish_edit};
use std::alloc::Global;
use std::test;
use vol_disk::{Disk, MemDisk};
use vol_stage::{Stage, StageNo};

// On a disk of eight sectors the edit is of the lowest three, the mark lies in 3 and 5, and the log in 6 and 7.
const EDITED: [u8; 512] = [0x11; 512];

// Stages the lowest three sectors, one of them twice.
fn stage_low<D: Disk>(stage: &mut Stage<'_, D>) -> Result<(), StageNo>
    requires size { 7 < D.size (disk_of D.Disk stage.old) }
    requires sound { is_broken D.Disk stage.old ≡ false }
    requires none { places D.Disk stage.old ≡ [] }
    ensures same_reference { reference_of D.Disk stage.new ≡ reference_of D.Disk stage.old }
    ensures size { D.size (disk_of D.Disk stage.new) ≡ D.size (disk_of D.Disk stage.old) }
    ensures sound { is_broken D.Disk stage.new ≡ false }
    ensures low { OnOk result ((n : ℕ) → Contains (places D.Disk stage.new) n → n < 3) }
{
    stage.reserve(4)?;
    stage.put(2, &EDITED);
    stage.put(0, &EDITED);
    stage.put(1, &EDITED);
    stage.put(0, &EDITED);
    Ok(())
}

// An edit, and the closing.
fn edit_and_close<D: Disk>(stage: &mut Stage<'_, D>) -> Result<(), StageNo>
    requires size { 7 < D.size (disk_of D.Disk stage.old) }
    requires sound { is_broken D.Disk stage.old ≡ false }
    requires none { places D.Disk stage.old ≡ [] }
    ensures same_reference { reference_of D.Disk stage.new ≡ reference_of D.Disk stage.old }
    ensures size { D.size (disk_of D.Disk stage.new) ≡ D.size (disk_of D.Disk stage.old) }
{
    let flag = Flag {
        home: 3,
        copy: 5,
        at: 10,
    };
    let log = [Span { first: 6, len: 2 }];
    stage_low(stage)?;
    finish_edit(stage, &flag, false, &log)?;
    close_marked(stage, &flag)
}

// The same through a stage over a disk, which is used again.
fn run<D: Disk>(alloc: Global, disk: &mut D) -> Result<(), StageNo>
    requires { 7 < D.size disk.old }
    ensures { D.size disk.new ≡ D.size disk.old }
{
    let mut stage = Stage::over(alloc, disk);
    let done = edit_and_close(&mut stage);
    let _ = stage.finish();
    done
}

#[test]
fn an_edit_is_written_in_order(rt: HostRuntime) -> Result<(), test::Fail> {
    let mut disk = MemDisk::new(rt.alloc(), vec![in rt.alloc(); 0; 4096]?);
    disk.reserve(16)?;
    assert_eq!(rt; run(rt.alloc(), &mut disk), Ok(()));
    // The sectors, and the byte of each at the mark's place.
    let wanted = [
        (3, 1),
        (5, 1),
        (6, 0xFF),
        (7, 0xFF),
        (0, 0x11),
        (1, 0x11),
        (2, 0x11),
        (5, 0),
        (3, 0),
    ];
    for (write, wanted) in disk.writes().iter().zip(wanted) {
        if (write.sector, write.bytes[10]) != wanted {
            return Err(wanted)?;
        }
    }
    assert!(rt; disk.writes().len() == 9 && disk.settles().len() == 1);
    Ok(())
}
