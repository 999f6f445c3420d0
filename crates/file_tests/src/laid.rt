//! Records and tables for the tests, laid from the published layout.
ghost use Rattle.std.specs.Prelude.{◌≡◌, IfOk, IsTrue, length};
ghost use Rattle.vol_stage.specs.Staged.{disk_of};
ghost use Rattle.mft_table.specs.MirrorClusters.{IsMirrorInside};
ghost use Rattle.mft_table.specs.Mounted.{StandsOn};

use cluster_bitmap::Bits;
use mft_table::{Mounted, find_table};
use std::alloc::Global;
use std::test;
use upcase::UpCase;
use vol_disk::Disk;
use vol_stage::Stage;

/// Puts bytes at a place.
pub fn put(image: &mut [u8], at: usize, bytes: &[u8])
    ensures { length image.new ≡ length image.old }
{
    if let Some(slot) = image.get_mut(at..) {
        let len = bytes.len().min(slot.len());
        slot[..len].copy_from_slice(&bytes[..len]);
    }
}

/// A record in use with one attribute, the unnamed `$DATA` from cluster 0 of the stream on, that has this run text.
pub fn record(text: &[u8]) -> [u8; 1024] {
    let len = 64 + (text.len().min(800) + 7) / 8 * 8;
    let mut block = [0; 1024];
    put(&mut block, 0x00, b"FILE");
    put(&mut block, 0x04, &[0x30, 0, 3, 0]);
    put(&mut block, 0x14, &[0x38, 0, 1]);
    put(&mut block, 0x18, &(0x38 + len as u32 + 8).to_le_bytes());
    put(&mut block, 0x1C, &[0, 4]);
    put(&mut block, 0x38, &[0x80, 0, 0, 0]);
    put(&mut block, 0x3C, &(len as u32).to_le_bytes());
    put(&mut block, 0x40, &[1, 0, 0x40]);
    put(&mut block, 0x58, &[0x40]);
    put(&mut block, 0x78, text);
    put(&mut block, 0x38 + len, &[0xFF; 4]);
    block
}

/// The tables of a volume on which nothing is taken.
pub fn mount<D: Disk>(alloc: Global, stage: &mut Stage<'_, D>) -> Result<Mounted, test::Fail>
    ensures stands { IfOk result (StandsOn (D.size (disk_of D.Disk stage.new))) }
    ensures size { D.size (disk_of D.Disk stage.new) ≡ D.size (disk_of D.Disk stage.old) }
{
    let table = find_table(alloc, stage)?;
    let clusters = vec![in alloc; 0; (table.geometry.clusters / 8 + 1) as usize]?;
    let records = vec![in alloc; 0; (table.count / 8 + 1) as usize]?;
    let case = vec![in alloc; 0; 131_072]?;
    Ok(Mounted {
        geometry: table.geometry,
        clusters: Bits::load(alloc, &clusters, table.geometry.clusters)?,
        records: Bits::load(alloc, &records, table.count)?,
        upcase: UpCase::load(alloc, &case)?,
        table: table.runs,
        initialized: table.initialized,
    })
}

/// Whether the copies lie in clusters of the volume, which are sectors.
pub fn has_mirror(mounted: &Mounted) -> bool
    ensures { IsTrue result → IsMirrorInside mounted.now }
{
    let geometry = &mounted.geometry;
    geometry.cluster == 512 && geometry.mirror < 1 << 32 && geometry.mirror + 7 < geometry.clusters
}
