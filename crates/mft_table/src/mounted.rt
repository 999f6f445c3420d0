//! What is kept of a volume while it is in use.
ghost use Rattle.std.specs.Prelude.{◌≡◌, ◌≤◌, ◌^◌, length};

use crate::BlockReader;
use cluster_bitmap::Bits;
use data_runs::RunList;
use ntfs_boot::Geometry;
use upcase::UpCase;

/// The tables of a volume that was accepted: where its records lie, which of its clusters and records
/// are taken, and how its names are compared.
#[derive(Drop)]
pub struct Mounted {
    pub geometry: Geometry,
    /// The clusters of the table of records.
    pub table: RunList,
    /// The bytes of the table that were written. Those behind them read as zero.
    pub initialized: u64,
    /// A flag for each cluster of the volume, set where it is taken.
    pub clusters: Bits,
    /// A flag for each record of the table, set where it is taken.
    pub records: Bits,
    pub upcase: UpCase,
}

impl Mounted {
    ghost use Rattle.mft_table.specs.Tables.{reader_layout};
    ghost use Rattle.mft_table.specs.Mounted.{mounted_layout};

    /// Lends a reader of the table's blocks.
    pub fn blocks(&self) -> BlockReader<'_>
        ensures { reader_layout result ≡ mounted_layout self.now }
    {
        BlockReader {
            geometry: &self.geometry,
            runs: &self.table,
            initialized: self.initialized,
            count: self.records.count(),
        }
    }
}
