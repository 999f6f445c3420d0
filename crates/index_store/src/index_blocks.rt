//! The records of an index of a file, as the tree of the index reads them.
ghost use Rattle.std.specs.Prelude.{◌≡◌};
ghost use Rattle.attr_store.specs.Mft.{faults_of};
ghost use Rattle.index_store.specs.IndexBlocks.{block_no_of};

use crate::index::FoundIndex;
use crate::index_record::read_used_record;
use attr_store::{FileNo, FileParts, Mft};
use index_tree::{BlockNo, Blocks};
use std::alloc::Global;
use vol_disk::Disk;

/// The records of an index that was found in a file, read from the volume that has the file.
#[derive(Drop)]
pub struct IndexBlocks<'m, 'd, D: Disk> {
    pub alloc: Global,
    pub mft: &'m mut Mft<'d, D>,
    pub file: &'m FileParts,
    pub index: FoundIndex<'m>,
    /// The reads of records that were asked for.
    pub reads: u64,
}

// Why a record was not read, by why its file was not.
pub(crate) fn block_no(no: FileNo) -> BlockNo
    ensures { result ≡ block_no_of no }
{
    match no {
        FileNo::Device => BlockNo::Device,
        _ => BlockNo::Memory,
    }
}

impl<D: Disk> Blocks for IndexBlocks<'_, '_, D> {
    ghost use Rattle.index_store.specs.IndexBlocks.{IsReady, OnlyReads, records_under, sectors_under};
    ghost use Rattle.index_store.specs.IndexBlocksLaws.{OnlyReads-none, OnlyReads-then};

    ghost records = { records_under D.Disk };

    ghost only_reads = { OnlyReads D.Disk };

    ghost reads = { λ it. it.reads };

    ghost fetched = { sectors_under D.Disk };

    ghost taken = { λ it. 0 };

    ghost faults = { λ it. faults_of D.Disk it.mft.now };

    ghost full = { λ it. 0 };

    ghost ready = { IsReady D.Disk };

    fn read(&mut self, vcn: u64, into: &mut [u8; 4096]) -> Result<(), BlockNo> {
        self.reads = self.reads.saturating_add(1);
        match read_used_record(self.alloc, self.mft, self.file, &self.index, vcn, into) {
            Ok(()) => Ok(()),
            Err(no) => Err(block_no(no)),
        }
    }

    ghost only_reads_itself = { OnlyReads-none _ };

    ghost only_reads_on = { OnlyReads-then _ };
}
