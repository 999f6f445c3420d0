//! Bytes of the image and of its clusters.
ghost use Rattle.std.specs.Prelude.{◌≡◌, ◌+◌, ◌-◌, ◌*◌, ◌<◌, ◌^◌, ◌++◌, IfErr, IfOk, IsTrue, OnOk, Some, drop, length, min};
ghost use Rattle.vol_disk.specs.Contents.{IsTold, sector_in};
ghost use Rattle.vol_disk.specs.Count.{CountsFault};
ghost use Rattle.volume_def.specs.Table.{cluster_bytes};
ghost use Rattle.volume_def.specs.Values.{pieces_touched, stored_bytes};
ghost use Rattle.vol_stage.specs.Staged.{image};
ghost use Rattle.mft_table.specs.Streams.{image_bytes, spot_on};

use crate::{Mft, MftNo};
use vol_disk::{Disk, SECTOR};

impl<D: Disk> Mft<'_, D> {
    ghost use Rattle.mft_table.specs.Mft.{MftReads, faults_of, stage_of, view};

    // A sector of the image; zeros where the disk has none.
    fn read_or_zero(&mut self, sector: u64, into: &mut [u8; 512]) -> Result<(), MftNo>
        ensures read { OnOk result (IsTold (image D.Disk (stage_of D.Disk self.old))
            → into.new ≡ image_bytes (sector_in (image D.Disk (stage_of D.Disk self.old))) (512 * sector) 512) }
        ensures device { IfErr result (λ no. no ≡ MftNo.Device) }
        ensures faults { CountsFault result (faults_of D.Disk self.old) (faults_of D.Disk self.new) }
        ensures reads { MftReads D.Disk self.old self.new 1 }
    {
        if sector < self.sectors() {
            return self.read_sector(sector, into);
        }
        into.fill(0);
        Ok(())
    }

    // Bytes of one sector, from its byte `skip` on, by way of a buffer; how many.
    fn read_part(&mut self, sector: u64, skip: usize, into: &mut [u8]) -> Result<usize, MftNo>
        requires { skip < 512 }
        ensures len { IfOk result (λ n. n ≡ min (512 - skip) (length into.old)) }
        ensures read { IfOk result (λ n. IsTold (image D.Disk (stage_of D.Disk self.old))
            → into.new ≡ image_bytes (sector_in (image D.Disk (stage_of D.Disk self.old))) (512 * sector + skip) n ++ drop n into.old) }
        ensures device { IfErr result (λ no. no ≡ MftNo.Device) }
        ensures faults { CountsFault result (faults_of D.Disk self.old) (faults_of D.Disk self.new) }
        ensures reads { MftReads D.Disk self.old self.new 1 }
    {
        let mut piece = [0; 512];
        self.read_or_zero(sector, &mut piece)?;
        let n = into.len().min(SECTOR - skip);
        into[..n].copy_from_slice(&piece[skip..skip + n]);
        Ok(n)
    }

    // Bytes of one sector, from its byte `skip` on; how many. A whole one is read into its place.
    fn read_piece(&mut self, sector: u64, skip: usize, into: &mut [u8]) -> Result<usize, MftNo>
        requires { skip < 512 }
        ensures len { IfOk result (λ n. n ≡ min (512 - skip) (length into.old)) }
        ensures read { IfOk result (λ n. IsTold (image D.Disk (stage_of D.Disk self.old))
            → into.new ≡ image_bytes (sector_in (image D.Disk (stage_of D.Disk self.old))) (512 * sector + skip) n ++ drop n into.old) }
        ensures device { IfErr result (λ no. no ≡ MftNo.Device) }
        ensures faults { CountsFault result (faults_of D.Disk self.old) (faults_of D.Disk self.new) }
        ensures reads { MftReads D.Disk self.old self.new 1 }
    {
        if skip > 0 {
            return self.read_part(sector, skip, into);
        }
        match into.first_chunk_mut::<512>() {
            Some(whole) => {
                self.read_or_zero(sector, whole)?;
                Ok(SECTOR)
            }
            None => self.read_part(sector, skip, into),
        }
    }

    // Bytes of the image, from byte `skip` of a sector on.
    fn read_image(&mut self, sector: u64, skip: u64, into: &mut [u8]) -> Result<(), MftNo>
        requires sector { sector < 2 ^ 60 }
        requires skip { skip < 512 }
        requires fits { skip + length into.old < 2 ^ 64 }
        ensures read { OnOk result (IsTold (image D.Disk (stage_of D.Disk self.old))
            → into.new ≡ image_bytes (sector_in (image D.Disk (stage_of D.Disk self.old))) (512 * sector + skip) (length into.old)) }
        ensures device { IfErr result (λ no. no ≡ MftNo.Device) }
        ensures faults { CountsFault result (faults_of D.Disk self.old) (faults_of D.Disk self.new) }
        ensures reads { MftReads D.Disk self.old self.new (pieces_touched skip (length into.old)) }
    {
        let mut done = 0;
        'pieces: while done < into.len() {
            let at = skip + done as u64;
            let piece = sector + at / SECTOR as u64;
            done += self.read_piece(piece, (at % SECTOR as u64) as usize, &mut into[done..])?;
        }
        Ok(())
    }

    /// Reads what lies from a cluster of the volume on, from its byte `skip` on. What lies past the end of the disk reads as
    /// zeros. Each piece of 512 bytes is read once.
    ///
    /// # Errors
    ///
    /// `Device` where the disk failed; what `into` then holds is not told.
    pub fn read_placed(&mut self, lcn: u64, skip: u64, into: &mut [u8]) -> Result<(), MftNo>
        requires skip { skip < cluster_bytes (view D.Disk self.old).layout }
        requires fits { skip + length into.old < 2 ^ 64 }
        ensures read { OnOk result (IsTrue (view D.Disk self.old).told → into.new
            ≡ stored_bytes (view D.Disk self.old).cluster (cluster_bytes (view D.Disk self.old).layout) (spot_on (Some lcn)) skip
            (length into.old)) }
        ensures device { IfErr result (λ no. no ≡ MftNo.Device) }
        ensures faults { CountsFault result (faults_of D.Disk self.old) (faults_of D.Disk self.new) }
        ensures reads { MftReads D.Disk self.old self.new (pieces_touched skip (length into.old)) }
    {
        if lcn < self.sectors() {
            let first = lcn * self.cluster_sectors() + skip / SECTOR as u64;
            return self.read_image(first, skip % SECTOR as u64, into);
        }
        into.fill(0);
        Ok(())
    }
}
