//! What is asked of a new volume.
ghost use Rattle.std.specs.Prelude.{◌↔◌, IsTrue};
ghost use Rattle.volume_format.specs.Options.{AreInRange};

use std::marker::Model;
use vol_bytes::Name;

/// The options of a new volume.
#[derive(Debug, Drop)]
pub struct FormatOptions {
    /// The sectors of the volume.
    pub sectors: u64,
    /// The bytes of a cluster.
    pub cluster: u32,
    /// The serial number.
    pub serial: u64,
    /// The label.
    pub label: Name,
}

impl Model for FormatOptions {
    ghost use Rattle.volume_format.specs.Options.{Options};

    ghost Value = { Options };

    ghost view = { λ options. record {
      sectors = options.sectors;
      cluster = options.cluster;
      serial = options.serial;
      label = options.label;
    } };
}

// The most clusters of a volume.
const MOST_CLUSTERS: u64 = 1 << 26;

impl FormatOptions {
    /// Whether each option is in its range, on a disk of so many sectors.
    pub fn is_in_range(&self, disk_sectors: u64) -> bool
        ensures { IsTrue result ↔ AreInRange disk_sectors self.now }
    {
        let units = self.label.as_slice().len();
        self.sectors >= 2048
            && self.sectors <= disk_sectors
            && matches!(self.cluster, 512 | 1024 | 2048 | 4096)
            && self.sectors / u64::from(self.cluster / 512) <= MOST_CLUSTERS
            && units >= 1
            && units <= 32
    }
}
