//! Blocks of the table of records, read as they are stored.
ghost use Rattle.std.specs.Prelude.{◌≡◌, ◌+◌, ◌*◌, ◌≤◌, ◌<◌, ◌^◌, ◌++◌, ℕ, Some, IfErr, OnOk, OnErr};
ghost use Rattle.vol_disk.specs.Contents.{IsTold, sector_in};
ghost use Rattle.vol_disk.specs.Count.{CountsFault};
ghost use Rattle.volume_def.specs.Blocks.{block_of, cut_off, table_place, table_sector};
ghost use Rattle.volume_def.specs.Table.{LiesOn, two_sectors};
ghost use Rattle.vol_stage.specs.Staged.{StageReads, disk_of, image};

use data_runs::RunList;
use ntfs_boot::Geometry;
use ntfs_def::Spot;
use vol_disk::{Disk, SECTOR};
use vol_stage::{Stage, StageNo};

/// Reads blocks of a table as they are stored, in use or not. It is lent by what keeps the table.
#[derive(Clone, Copy)]
pub struct BlockReader<'t> {
    pub geometry: &'t Geometry,
    pub runs: &'t RunList,
    pub initialized: u64,
    pub count: u64,
}

// Puts one sector behind the other.
fn join(first: &[u8; 512], second: &[u8; 512], into: &mut [u8; 1024])
    ensures { into.new ≡ first.now ++ second.now }
{
    into[..SECTOR].copy_from_slice(first);
    into[SECTOR..].copy_from_slice(second);
}

// Makes the bytes from the n-th on zero.
fn cut(bytes: &mut [u8; 512], n: u64)
    ensures { bytes.new ≡ cut_off n bytes.old }
{
    if n < SECTOR as u64 {
        bytes[n as usize..].fill(0);
    }
}

/// Two sectors, one behind the other.
///
/// # Errors
///
/// `Device` where the disk failed; `into` is as before.
pub fn read_two_sectors<D: Disk>(
    stage: &mut Stage<'_, D>,
    sector: u64,
    into: &mut [u8; 1024],
) -> Result<(), StageNo>
    requires { sector + 2 ≤ D.size (disk_of D.Disk stage.old) }
    ensures read { OnOk result (IsTold (image D.Disk stage.old) → into.new ≡ two_sectors (sector_in (image D.Disk stage.old)) sector) }
    ensures kept { OnErr result (into.new ≡ into.old) }
    ensures reads { StageReads D.Disk stage.old stage.new 2 }
    ensures faults { CountsFault result (D.faults (disk_of D.Disk stage.old)) (D.faults (disk_of D.Disk stage.new)) }
    ensures device { IfErr result (λ error. error ≡ StageNo.Device) }
{
    let mut first = [0; 512];
    let mut second = [0; 512];
    stage.read(sector, &mut first)?;
    stage.read(sector + 1, &mut second)?;
    join(&first, &second, into);
    Ok(())
}

impl BlockReader<'_> {
    ghost use Rattle.mft_table.specs.Tables.{reader_layout};

    fn cluster_sectors(&self) -> u64
        ensures { result ≡ (reader_layout self.now).cluster_sectors }
    {
        u64::from(self.geometry.cluster) / SECTOR as u64
    }

    /// The sector of the disk at which a sector of the table lies.
    pub(crate) fn place(&self, sector: u64) -> Option<u64>
        requires some { 0 < (reader_layout self.now).cluster_sectors }
        requires fits { (place : ℕ) → table_place (reader_layout self.now) sector ≡ Some place → place < 2 ^ 64 }
        ensures { result ≡ table_place (reader_layout self.now) sector }
    {
        let per = self.cluster_sectors();
        match self.runs.spot(sector / per) {
            Spot::At(cluster) => Some(cluster * per + sector % per),
            Spot::Hole | Spot::Outside => None,
        }
    }

    // A sector of the table. It is zero in a hole, and behind the runs and the bytes that were written.
    fn read_sector<D: Disk>(
        &self,
        stage: &mut Stage<'_, D>,
        sector: u64,
        into: &mut [u8; 512],
    ) -> Result<(), StageNo>
        requires sector { sector < 2 ^ 23 }
        requires table { LiesOn (D.size (disk_of D.Disk stage.old)) (reader_layout self.now) }
        ensures read { OnOk result (IsTold (image D.Disk stage.old)
            → into.new ≡ table_sector (sector_in (image D.Disk stage.old)) (reader_layout self.now) sector) }
        ensures reads { StageReads D.Disk stage.old stage.new 1 }
        ensures faults { CountsFault result (D.faults (disk_of D.Disk stage.old)) (D.faults (disk_of D.Disk stage.new)) }
        ensures device { IfErr result (λ error. error ≡ StageNo.Device) }
    {
        match self.place(sector) {
            None => into.fill(0),
            Some(place) => {
                stage.read(place, into)?;
                let written = self.initialized.saturating_sub(SECTOR as u64 * sector);
                cut(into, written);
            }
        }
        Ok(())
    }

    /// Block `number` of the table, as it is stored.
    ///
    /// # Errors
    ///
    /// `Device` where the disk failed; `into` is as before.
    pub fn read_block<D: Disk>(
        &self,
        stage: &mut Stage<'_, D>,
        number: u64,
        into: &mut [u8; 1024],
    ) -> Result<(), StageNo>
        requires number { number < (reader_layout self.now).count }
        requires table { LiesOn (D.size (disk_of D.Disk stage.old)) (reader_layout self.now) }
        ensures read { OnOk result (IsTold (image D.Disk stage.old)
            → into.new ≡ block_of (sector_in (image D.Disk stage.old)) (reader_layout self.now) number) }
        ensures kept { OnErr result (into.new ≡ into.old) }
        ensures reads { StageReads D.Disk stage.old stage.new 2 }
        ensures faults { CountsFault result (D.faults (disk_of D.Disk stage.old)) (D.faults (disk_of D.Disk stage.new)) }
        ensures device { IfErr result (λ error. error ≡ StageNo.Device) }
    {
        let mut first = [0; 512];
        let mut second = [0; 512];
        self.read_sector(stage, 2 * number, &mut first)?;
        self.read_sector(stage, 2 * number + 1, &mut second)?;
        join(&first, &second, into);
        Ok(())
    }
}
