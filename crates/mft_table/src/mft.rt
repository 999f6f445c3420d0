//! The table of records in use: a stage, and what is kept of the volume.
ghost use Rattle.std.proofs.Props.{props};
ghost use Rattle.std.specs.Prelude.{◌≡◌, ◌<◌, ◌*◌, ◌^◌, ◌≤◌, IfSome, length};
ghost use Rattle.volume_def.specs.Table.{cluster_bytes};
ghost use Rattle.vol_stage.specs.Staged.{disk_of, image};
ghost use Rattle.mft_table.specs.Changes.{ShowAll, ShowAll-prop};
ghost use Rattle.mft_table.specs.Mounted.{StandsOn};

mod bits;
mod clusters;
mod commit;
mod free_records;
mod mark;
mod records;
mod sectors;
mod streams;
mod write;

use crate::Mounted;
use crate::changes::Change;
use vol_disk::{Disk, SECTOR};
use vol_stage::Stage;

/// The table of records of a volume in use.
///
/// It has no `Drop`: `into_parts` gives back what it was made of.
pub struct Mft<'d, D: Disk> {
    stage: Stage<'d, D>,
    mounted: Mounted,
    // What was changed of the tables since the last commit, the first change first. Each kind has a variant.
    changes: Vec<Change>,
    ghost stands: { StandsOn (D.size (disk_of D.Disk stage)) mounted } by { Prim.hlevel props },
    ghost shown: { ShowAll mounted changes.items } by { ShowAll-prop mounted changes.items },
}

impl<'d, D: Disk> Mft<'d, D> {
    ghost use Rattle.mft_table.specs.Mft.{committed_of, mounted_of, stage_of};

    /// Goes on with the tables that a mount gave. Nothing is read. A discard goes back to them until there is a commit.
    pub fn resume(stage: Stage<'d, D>, mounted: Mounted) -> Mft<'d, D>
        requires { StandsOn (D.size (disk_of D.Disk stage)) mounted }
        ensures stage { stage_of D.Disk result ≡ stage.entry }
        ensures mounted { mounted_of D.Disk result ≡ mounted }
        ensures committed { committed_of D.Disk result ≡ mounted }
    {
        let changes = Vec::new(stage.allocator());
        Mft {
            stage,
            mounted,
            changes,
        }
    }

    /// Gives the stage and the tables back. What is staged is still staged, and the tables are as they stand.
    pub fn into_parts(self) -> (Stage<'d, D>, Mounted)
        ensures stage { result.0 ≡ stage_of D.Disk self.entry }
        ensures mounted { result.1 ≡ mounted_of D.Disk self.entry }
    {
        let Mft {
            stage,
            mounted,
            changes: _,
        } = self;
        (stage, mounted)
    }
}

impl<D: Disk> Mft<'_, D> {
    ghost use Rattle.mft_table.specs.Mft.{mounted_of, stage_of, view};

    /// Lends the tables.
    pub fn mounted(&self) -> &Mounted
        ensures { result.now ≡ mounted_of D.Disk self.now }
    {
        &self.mounted
    }

    /// The number of sectors of the disk.
    pub fn sectors(&self) -> u64
        ensures size { result ≡ D.size (disk_of D.Disk (stage_of D.Disk self.now)) }
        ensures few { result < 2 ^ 55 }
        ensures length { IfSome (image D.Disk (stage_of D.Disk self.now)) (λ all. length all ≡ 512 * result) }
    {
        self.stage.sectors()
    }

    /// The sectors of a cluster.
    pub fn cluster_sectors(&self) -> u64
        ensures sectors { result ≡ (view D.Disk self.now).layout.cluster_sectors }
        ensures some { 0 < result }
        ensures few { result ≤ 8 }
    {
        u64::from(self.mounted.geometry.cluster) / SECTOR as u64
    }

    /// The bytes of a cluster.
    pub fn cluster_bytes(&self) -> u64
        ensures { result ≡ cluster_bytes (view D.Disk self.now).layout }
    {
        u64::from(self.mounted.geometry.cluster)
    }
}
