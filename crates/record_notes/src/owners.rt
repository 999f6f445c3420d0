//! The owners of clusters: which are owned, and the least that breaks the clause on owners (S7).
ghost use Rattle.std.specs.Prelude.{◌≤◌, ◌*◌, ◌^◌, length};

mod bitmap;
mod clusters;
mod note;

pub use bitmap::cluster_bits_laws;

/// The clusters that the runs noted so far own.
#[derive(Debug, Drop)]
struct OwnedClusters {
    // A bit for each cluster, the lowest of a byte first. It means nothing from the least bad cluster on.
    bits: Vec<u8>,
    clusters: u64,
    // The least cluster that is owned twice, or that is owned though the volume does not have it.
    least: Option<u64>,
    ghost room: { clusters ≤ 8 * length bits.items },
    ghost small: { length bits.items ≤ 2 ^ 32 },
}

/// What is noted of the owners of clusters.
#[derive(Debug, Drop)]
pub struct Owners {
    owned: OwnedClusters,
    // Whether the boot file has cluster 0.
    boot: bool,
}
