//! An index of a file of a volume.
ghost use Rattle.std.specs.Prelude.{◌≡◌, ℕ, IfOk, IfSome, IsTrue, MatchResult};
ghost use Rattle.std.specs.Option.{option_map};
ghost use Rattle.index_tree.specs.Walk.{items_in};
ghost use Rattle.mft_table.specs.Mft.{MftReads, faults_of, view};
ghost use Rattle.file_record.specs.Held.{IsHeldFile};
ghost use Rattle.index_store.specs.Index.{IsFound, index_held};
ghost use Rattle.index_store.specs.IndexRecords.{index_record_on};
ghost use Rattle.check_dirs.specs.Entries.{AreOrdered, AreWhole};
ghost use Rattle.check_dirs.specs.OrderedIndex.{TellsIndex, key_rule};
ghost use Rattle.check_dirs.specs.Records.{CountsNo, short_nodes};

use crate::check::check_index;
use crate::{CheckNo, IndexRecords};
use collation::Collation;
use file_record::FileParts;
use index_store::{FoundIndex, IndexBlocks, read_index_record};
use mft_table::Mft;
use ntfs_def::NodeForm;
use std::alloc::Global;
use vol_bytes::Octets;
use vol_disk::Disk;

impl<D: Disk> IndexRecords for IndexBlocks<'_, '_, D> {
    ghost use Rattle.std.specs.Prelude.{◌+◌, refl};
    ghost use Rattle.std.proofs.Common.{◌∙◌, le_refl};
    ghost use Rattle.mft_table.proofs.StreamReads.{MftReads-none, MftReads-then};
    ghost use Rattle.index_store.specs.IndexBlocks.{IsReady, OnlyReads, records_under, sectors_under};

    ghost records = { records_under D.Disk };

    ghost only_reads = { OnlyReads D.Disk };

    ghost fetched = { sectors_under D.Disk };

    ghost faults = { λ it. faults_of D.Disk it.mft.now };

    ghost ready = { IsReady D.Disk };

    ghost only_reads_itself = { λ it. record {
      same_mft = refl;
      file = refl;
      index = refl;
      reads = 0;
      only = MftReads-none _ it.mft.now;
    } };

    ghost only_reads_on = { λ a b c first second. record {
      same_mft = second.same_mft ∙ first.same_mft;
      file = second.file ∙ first.file;
      index = second.index ∙ first.index;
      reads = first.reads + second.reads;
      only = MftReads-then _ a.mft.now b.mft.now c.mft.now first.reads second.reads (first.reads + second.reads)
          first.only second.only (le_refl _);
    } };

    fn fetch(&mut self, vcn: u64, into: &mut [u8; 4096]) -> Result<bool, CheckNo> {
        let found = read_index_record(self.alloc, self.mft, self.file, &self.index, vcn, into)?;
        Ok(found)
    }
}

/// Checks an index of a file, and gives the bytes of its entries in order; `None` exactly where the index breaks the clause.
///
/// # Errors
///
/// `Device` where the disk failed, and `Memory` where it did not.
pub fn index_entries<'m, 'd, D: Disk, C: Collation>(
    alloc: Global,
    mft: &'m mut Mft<'d, D>,
    file: &'m FileParts,
    index: FoundIndex<'m>,
    form: NodeForm,
    collation: u32,
    order: &C,
) -> Result<Option<Vec<Octets>>, CheckNo>
    requires found { IsFound file.now index }
    requires held { IsTrue (view D.Disk mft.old).told → IsHeldFile (view D.Disk mft.old) file.now }
    ensures index { IfOk result (λ found. IsTrue (view D.Disk mft.old).told
        → TellsIndex form (key_rule collation (C.order order.now) (C.valid order.now))
        (short_nodes form (index_record_on (view D.Disk mft.old) (index_held file.now index.entry.name.now))) index.entry.root.now
        (option_map (λ entries. entries.items) found)) }
    ensures whole { IfOk result (λ found. IfSome found (λ entries. AreWhole entries.items)) }
    ensures ordered { IfOk result (λ found. IfSome found (λ entries.
        AreOrdered (C.order order.now) (C.valid order.now) (items_in entries.items))) }
    ensures reads { (reads : ℕ) × MftReads D.Disk mft.old mft.new reads }
    ensures faults { MatchResult result (λ _. faults_of D.Disk mft.new ≡ faults_of D.Disk mft.old)
        (CountsNo (faults_of D.Disk mft.old) (faults_of D.Disk mft.new)) }
{
    let root = index.root;
    let mut records = IndexBlocks {
        alloc,
        mft,
        file,
        index,
        reads: 0,
    };
    check_index(alloc, &mut records, form, collation, order, root)
}
