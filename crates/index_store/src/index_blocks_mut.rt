//! The records of an index of a file, as the tree of the index reads and writes them.
use crate::index::FoundIndex;
use crate::index_blocks::block_no;
use crate::index_record::read_used_record;
use crate::record_write::write_used_record;
use attr_store::{FileParts, Mft};
use index_tree::{BlockNo, Blocks, WriteBlocks};
use std::alloc::Global;
use vol_disk::Disk;

/// The records of an index that was found in a file, read from the volume that has the file, and staged there in place.
///
/// Once a write failed nothing is told of the records, and they are not ready: whoever lent the volume gives up what was staged.
#[derive(Drop)]
pub struct IndexBlocksMut<'m, 'd, D: Disk> {
    pub alloc: Global,
    pub mft: &'m mut Mft<'d, D>,
    pub file: &'m FileParts,
    pub index: FoundIndex<'m>,
    /// The reads of records that were asked for.
    pub reads: u64,
    /// The writes of records that were asked for.
    pub written: u64,
    /// Whether one of them failed.
    pub failed: bool,
}

impl<D: Disk> Blocks for IndexBlocksMut<'_, '_, D> {
    ghost use Rattle.index_store.specs.IndexBlocks.{told_records};
    ghost use Rattle.index_store.specs.IndexBlocksMut.{IsWriteReady, OnlyReadsMut, fetched_under, parts_under, volume_under};
    ghost use Rattle.index_store.specs.IndexBlocksMutLaws.{OnlyReadsMut-none, OnlyReadsMut-then};
    ghost use Rattle.attr_store.specs.Mft.{faults_of};

    ghost records = { λ it. told_records (volume_under D.Disk it) (parts_under D.Disk it) };

    ghost only_reads = { OnlyReadsMut D.Disk };

    ghost reads = { λ it. it.reads };

    ghost fetched = { fetched_under D.Disk };

    ghost taken = { λ it. 0 };

    ghost faults = { λ it. faults_of D.Disk it.mft.now };

    ghost full = { λ it. 0 };

    ghost ready = { IsWriteReady D.Disk };

    fn read(&mut self, vcn: u64, into: &mut [u8; 4096]) -> Result<(), BlockNo> {
        self.reads = self.reads.saturating_add(1);
        match read_used_record(self.alloc, self.mft, self.file, &self.index, vcn, into) {
            Ok(()) => Ok(()),
            Err(no) => Err(block_no(no)),
        }
    }

    ghost only_reads_itself = { OnlyReadsMut-none _ };

    ghost only_reads_on = { OnlyReadsMut-then _ };
}

impl<D: Disk> WriteBlocks for IndexBlocksMut<'_, '_, D> {
    ghost use Rattle.index_store.specs.IndexBlocksMut.{EditsRecords};
    ghost use Rattle.index_store.specs.IndexBlocksMutLaws.{EditsRecords-reads, EditsRecords-then, opened-records, written-read};

    ghost edits = { EditsRecords D.Disk };

    ghost written = { λ it. it.written };

    fn write(&mut self, vcn: u64, from: &[u8; 4096]) -> Result<(), BlockNo> {
        self.written = self.written.saturating_add(1);
        match write_used_record(self.alloc, self.mft, self.file, &self.index, vcn, from) {
            Ok(()) => Ok(()),
            Err(_) => {
                self.failed = true;
                Err(BlockNo::Memory)
            }
        }
    }

    ghost opened_records = { opened-records _ };

    ghost written_reads = { written-read _ };

    ghost edits_reads = { EditsRecords-reads _ };

    ghost edits_on = { EditsRecords-then _ };
}
