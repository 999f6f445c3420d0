//! The log, which is emptied before the first edit.
ghost use Rattle.std.specs.Prelude.{◌≡◌, ◌≢◌, ◌+◌, ◌<◌, ◌≤◌, ℕ, false, IfErr, OnOk, All, Contains};
ghost use Rattle.vol_disk.specs.Count.{CountsFault};
ghost use Rattle.vol_disk.specs.Contents.{IsTold, sector_in};
ghost use Rattle.vol_stage.specs.Staged.{disk_of, image, is_broken, places, GoesOn};
ghost use Rattle.mark_write.specs.Logs.{IsEmptied, IsOutside, IsWithin, empty_sector, span_sectors};

use vol_disk::Disk;
use vol_stage::{Stage, StageNo, image_laws};

// A sector of an empty log.
const EMPTY: [u8; 512] = [0xFF; 512];

/// Sectors of the log in a row.
#[derive(Clone, Copy, Debug, Drop)]
pub struct Span {
    pub first: u64,
    pub len: u64,
}

// Empties a sector, unless it is empty.
fn fill_sector<D: Disk>(stage: &mut Stage<'_, D>, sector: u64) -> Result<(), StageNo>
    requires place { sector < D.size (disk_of D.Disk stage.old) }
    requires sound { is_broken D.Disk stage.old ≡ false }
    requires plain { IsTold (image D.Disk stage.old) → ¬ (Contains (places D.Disk stage.old) sector) }
    ensures goes_on { GoesOn D.Disk stage.old stage.new }
    ensures filled { OnOk result (IsTold (image D.Disk stage.old) → sector_in (D.now (disk_of D.Disk stage.new)) sector ≡ empty_sector) }
    ensures others { (other : ℕ) → other ≢ sector
        → sector_in (D.now (disk_of D.Disk stage.new)) other ≡ sector_in (D.now (disk_of D.Disk stage.old)) other }
    ensures image { OnOk result (IsTold (image D.Disk stage.old) → (other : ℕ) → other ≢ sector
        → sector_in (image D.Disk stage.new) other ≡ sector_in (image D.Disk stage.old) other) }
    ensures settled { D.settled (disk_of D.Disk stage.new) ≡ D.settled (disk_of D.Disk stage.old) }
    ensures most { D.written (disk_of D.Disk stage.new) ≤ D.written (disk_of D.Disk stage.old) + 1 }
    ensures staged { places D.Disk stage.new ≡ places D.Disk stage.old }
    ensures sound { OnOk result (is_broken D.Disk stage.new ≡ false) }
    ensures faults { CountsFault result (D.faults (disk_of D.Disk stage.old)) (D.faults (disk_of D.Disk stage.new)) }
    ensures device { IfErr result (λ error. error ≡ StageNo.Device) }
{
    image_laws(stage);
    let mut bytes = [0; 512];
    stage.read(sector, &mut bytes)?;
    if bytes == EMPTY {
        return Ok(());
    }
    stage.write_now(sector, &EMPTY)
}

// Empties sectors in a row.
fn fill_span<D: Disk>(stage: &mut Stage<'_, D>, span: Span) -> Result<(), StageNo>
    requires place { span.first + span.len ≤ D.size (disk_of D.Disk stage.old) }
    requires sound { is_broken D.Disk stage.old ≡ false }
    requires plain { IsTold (image D.Disk stage.old) → (n : ℕ) → IsWithin span n → ¬ (Contains (places D.Disk stage.old) n) }
    ensures goes_on { GoesOn D.Disk stage.old stage.new }
    ensures filled { OnOk result (IsTold (image D.Disk stage.old) → (n : ℕ) → IsWithin span n
        → sector_in (D.now (disk_of D.Disk stage.new)) n ≡ empty_sector) }
    ensures others { (n : ℕ) → ¬ (IsWithin span n)
        → sector_in (D.now (disk_of D.Disk stage.new)) n ≡ sector_in (D.now (disk_of D.Disk stage.old)) n }
    ensures image { OnOk result (IsTold (image D.Disk stage.old) → (n : ℕ) → ¬ (IsWithin span n)
        → sector_in (image D.Disk stage.new) n ≡ sector_in (image D.Disk stage.old) n) }
    ensures settled { D.settled (disk_of D.Disk stage.new) ≡ D.settled (disk_of D.Disk stage.old) }
    ensures most { D.written (disk_of D.Disk stage.new) ≤ D.written (disk_of D.Disk stage.old) + span.len }
    ensures staged { places D.Disk stage.new ≡ places D.Disk stage.old }
    ensures sound { OnOk result (is_broken D.Disk stage.new ≡ false) }
    ensures faults { CountsFault result (D.faults (disk_of D.Disk stage.old)) (D.faults (disk_of D.Disk stage.new)) }
    ensures device { IfErr result (λ error. error ≡ StageNo.Device) }
{
    image_laws(stage);
    for k in 0..span.len {
        fill_sector(stage, span.first + k)?;
    }
    Ok(())
}

/// Empties the log: fills each sector of its spans with 0xFF, passing over those that are so.
///
/// # Errors
///
/// `Device` where the disk failed.
pub fn fill_log<D: Disk>(stage: &mut Stage<'_, D>, spans: &[Span]) -> Result<(), StageNo>
    requires place { All (λ span. span.first + span.len ≤ D.size (disk_of D.Disk stage.old)) spans.now }
    requires sound { is_broken D.Disk stage.old ≡ false }
    requires plain { IsTold (image D.Disk stage.old) → (n : ℕ) → Contains (places D.Disk stage.old) n → IsOutside spans.now n }
    ensures goes_on { GoesOn D.Disk stage.old stage.new }
    ensures filled { OnOk result (IsTold (image D.Disk stage.old) → IsEmptied spans.now (sector_in (D.now (disk_of D.Disk stage.new)))) }
    ensures others { (n : ℕ) → IsOutside spans.now n
        → sector_in (D.now (disk_of D.Disk stage.new)) n ≡ sector_in (D.now (disk_of D.Disk stage.old)) n }
    ensures image { OnOk result (IsTold (image D.Disk stage.old) → (n : ℕ) → IsOutside spans.now n
        → sector_in (image D.Disk stage.new) n ≡ sector_in (image D.Disk stage.old) n) }
    ensures settled { D.settled (disk_of D.Disk stage.new) ≡ D.settled (disk_of D.Disk stage.old) }
    ensures most { D.written (disk_of D.Disk stage.new) ≤ D.written (disk_of D.Disk stage.old) + span_sectors spans.now }
    ensures staged { places D.Disk stage.new ≡ places D.Disk stage.old }
    ensures sound { OnOk result (is_broken D.Disk stage.new ≡ false) }
    ensures faults { CountsFault result (D.faults (disk_of D.Disk stage.old)) (D.faults (disk_of D.Disk stage.new)) }
    ensures device { IfErr result (λ error. error ≡ StageNo.Device) }
{
    for span in spans {
        fill_span(stage, *span)?;
    }
    Ok(())
}
