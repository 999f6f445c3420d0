//! The geometry of a volume, from its boot sector.
#![tactic(auto)]

ghost use Rattle.std.specs.Prelude.{◌≡◌, ◌^◌, ◌<◌, ◌↔◌, None, Some, IsTrue, IfOk, IfErr};
ghost use Rattle.ntfs_def.specs.Boot.{boot_failing, cluster_sectors, has_cluster_sectors, has_end_mark, has_name, is_ntfs, spelled_size};
ghost use Rattle.ntfs_boot.specs.Geometry.{FitsDisk, geometry_of, number_of};

use ntfs_def::boot_sector::{
    CLUSTER_SECTORS, END_MARK, INDEX_SIZE, MFT, MIRROR, NAME, RECORD_SIZE, SECTOR_SIZE, SECTORS,
    SERIAL,
};
use thiserror::Error;
use vol_bytes::{u16_at, u64_at};
use vol_disk::SECTOR;

/// What a boot sector says of its volume.
#[derive(Clone, Copy, Debug, PartialEq, Eq)]
pub struct Geometry {
    /// The bytes of a cluster.
    pub cluster: u32,
    /// The sectors of the volume, without the one that holds the backup boot sector.
    pub sectors: u64,
    /// The clusters of the volume.
    pub clusters: u64,
    /// The first cluster of `$MFT`.
    pub mft: u64,
    /// The first cluster of `$MFTMirr`.
    pub mirror: u64,
    /// The serial number.
    pub serial: u64,
}

/// Why a sector is no boot sector of a volume that is read here. The first test that fails names it.
#[derive(Clone, Copy, Debug, PartialEq, Eq, Error)]
pub enum BootFault {
    #[error("no NTFS boot sector")]
    NotNtfs,
    #[error("a sector does not have 512 bytes")]
    SectorSize,
    #[error("a cluster does not have 1, 2, 4 or 8 sectors")]
    ClusterSize,
    #[error("a file record does not have 1024 bytes")]
    RecordSize,
    #[error("an index record does not have 4096 bytes")]
    IndexSize,
    #[error("the number of sectors or clusters is out of range")]
    Length,
    #[error("a copy of the table of records begins outside the volume")]
    Place,
}

impl BootFault {
    /// The number of the test, from 1.
    pub fn number(self) -> u8
        ensures { result ≡ number_of self }
    {
        match self {
            BootFault::NotNtfs => 1,
            BootFault::SectorSize => 2,
            BootFault::ClusterSize => 3,
            BootFault::RecordSize => 4,
            BootFault::IndexSize => 5,
            BootFault::Length => 6,
            BootFault::Place => 7,
        }
    }
}

fn has_name(boot: &[u8; 512]) -> bool
    ensures { result ≡ has_name boot.now }
{
    boot[NAME..NAME + 8].starts_with(b"NTFS    ")
}

fn has_end_mark(boot: &[u8; 512]) -> bool
    ensures { result ≡ has_end_mark boot.now }
{
    boot[END_MARK] == 0x55 && boot[END_MARK + 1] == 0xAA
}

fn is_ntfs(boot: &[u8; 512]) -> bool
    ensures { result ≡ is_ntfs boot.now }
{
    has_name(boot) && has_end_mark(boot)
}

fn has_cluster_sectors(boot: &[u8; 512]) -> bool
    ensures { result ≡ has_cluster_sectors boot.now }
{
    matches!(boot[CLUSTER_SECTORS], 1 | 2 | 4 | 8)
}

// Whether a signed byte spells the size 2^power: in clusters where it is positive, else as -power.
fn spells(byte: u8, cluster: u32, power: u32) -> bool
    requires cluster { cluster < 2 ^ 20 }
    requires power { power < 32 }
    ensures { IsTrue result ↔ (spelled_size cluster byte ≡ 2 ^ power) }
{
    if byte < 128 {
        byte as u32 * cluster == 1 << power
    } else {
        256 - byte as u32 == power
    }
}

impl Geometry {
    // What the sector says, whether it is a boot sector or not.
    fn of(boot: &[u8; 512]) -> Geometry
        requires { 0 < cluster_sectors boot.now }
        ensures { result ≡ geometry_of boot.now }
    {
        let cluster_sectors = boot[CLUSTER_SECTORS];
        let sectors = u64_at(boot, SECTORS);
        Geometry {
            cluster: SECTOR as u32 * cluster_sectors as u32,
            sectors,
            clusters: sectors / cluster_sectors as u64,
            mft: u64_at(boot, MFT),
            mirror: u64_at(boot, MIRROR),
            serial: u64_at(boot, SERIAL),
        }
    }

    /// The geometry of the volume that begins with this sector, on a disk of so many sectors.
    ///
    /// # Errors
    ///
    /// The first of the seven tests of the boot clause that fails.
    pub fn read(boot: &[u8; 512], sectors: u64) -> Result<Geometry, BootFault>
        ensures ok { IfOk result (λ geometry. (boot_failing boot.now sectors ≡ None) × (geometry ≡ geometry_of boot.now)) }
        ensures fits { IfOk result (λ geometry. FitsDisk geometry sectors) }
        ensures err { IfErr result (λ fault. boot_failing boot.now sectors ≡ Some (number_of fault)) }
    {
        if !is_ntfs(boot) {
            return Err(BootFault::NotNtfs);
        }
        if u16_at(boot, SECTOR_SIZE) as usize != SECTOR {
            return Err(BootFault::SectorSize);
        }
        if !has_cluster_sectors(boot) {
            return Err(BootFault::ClusterSize);
        }
        let geometry = Geometry::of(boot);
        if !spells(boot[RECORD_SIZE], geometry.cluster, 10) {
            return Err(BootFault::RecordSize);
        }
        if !spells(boot[INDEX_SIZE], geometry.cluster, 12) {
            return Err(BootFault::IndexSize);
        }
        if geometry.sectors == 0
            || geometry.sectors > sectors
            || geometry.clusters == 0
            || geometry.clusters > 1 << 26
        {
            return Err(BootFault::Length);
        }
        if geometry.mft >= geometry.clusters || geometry.mirror >= geometry.clusters {
            return Err(BootFault::Place);
        }
        Ok(geometry)
    }
}
