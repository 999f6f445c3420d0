//! A file that is made, in a record of its own.
ghost use Rattle.std.specs.Prelude.{◌≡◌, ◌<◌, ◌≤◌, ◌+◌, ◌*◌, ◌^◌, ℕ, [], ◌∷◌, IfErr, IfOk, IsTrue, MatchResult, OnErr, OnOk, false, length};
ghost use Rattle.attr_view.specs.Edit.{Inserts};
ghost use Rattle.ntfs_def.specs.Attribute.{attributes};
ghost use Rattle.ntfs_def.specs.Record.{used_size};
ghost use Rattle.ntfs_def.specs.Shape.{HasShape, IsOneAttribute};
ghost use Rattle.volume_def.specs.Coverage.{IsApart};
ghost use Rattle.volume_def.specs.Files.{parts, records_of};
ghost use Rattle.mft_table.specs.Changes.{with_record_taken};
ghost use Rattle.mft_table.specs.FreeRecords.{IsLeastFree, IsOrdinaryFree, ReadsAndReserves, ReadsAndStages};
ghost use Rattle.mft_table.specs.Mft.{faults_of, is_mft_broken, mounted_of, view};
ghost use Rattle.mft_table.specs.MirrorClusters.{IsMirrorInside};
ghost use Rattle.mft_table.specs.Staging.{record_places};
ghost use Rattle.file_record.specs.Extensions.{CreatesBase, HoldsNewBase, IsNewBase, flags_of};
ghost use Rattle.file_record.specs.FileNos.{CountsNo, IsReadNo};
ghost use Rattle.file_record.specs.Held.{file_number, held_of};
ghost use Rattle.file_record.specs.Written.{IsWholeFile};

use crate::taken::{FreeRecord, next_free};
use crate::{FileNo, FileParts, Held};
use attr_view::{RecordHeader, RecordMut};
use mft_table::Mft;
use ntfs_def::kinds::STANDARD_INFORMATION;
use ntfs_def::record_header::{DIRECTORY, IN_USE};
use record_bytes::{lay_record, resident};
use std::alloc::{AllocError, Global};
use vol_disk::Disk;

// The flags of a base record.
fn flags_of(dir: bool) -> u16
    ensures { result ≡ flags_of dir }
{
    if dir { IN_USE + DIRECTORY } else { IN_USE }
}

// Puts an attribute into a record that has none.
fn put_first(block: &mut [u8; 1024], attr: &[u8])
    requires shape { HasShape block.old (length (attributes block.old)) }
    requires one { IsOneAttribute attr.now }
    requires room { used_size block.old + length attr.now ≤ 1024 }
    ensures { Inserts block.old block.new attr.now 0 }
{
    let mut record = match RecordMut::new(block) {
        Ok(record) => record,
        Err(_) => unreachable!(),
    };
    match record.insert(0, attr) {
        Ok(()) => {}
        Err(_) => unreachable!(),
    }
}

impl Held {
    // The base record of a file that is made.
    fn base(
        alloc: Global,
        free: FreeRecord,
        dir: bool,
        standard: &[u8; 72],
    ) -> Result<Held, AllocError>
        requires { free.number < 2 ^ 32 }
        ensures number { IfOk result (λ held. held.number ≡ free.number) }
        ensures made { IfOk result (λ held. IsNewBase free.number free.sequence dir standard.now held.block) }
        ensures used { IfOk result (λ held. used_size held.block ≡ 160) }
    {
        let mut block = [0; 1024];
        let header = RecordHeader {
            sequence: free.sequence,
            links: 0,
            flags: flags_of(dir),
            base: 0,
        };
        lay_record(&mut block, free.number as u32, header);
        let attr = resident(alloc, STANDARD_INFORMATION, &[], 0, standard)?;
        put_first(&mut block, &attr);
        Ok(Held {
            number: free.number,
            block,
            count: 1,
        })
    }
}

impl FileParts {
    /// A new file: a base record with this `$STANDARD_INFORMATION` alone, in the least free record, which is staged, sealed. It
    /// has no name yet. A discard gives the flag of the record back.
    ///
    /// # Errors
    ///
    /// `Device` where the disk failed, and `Memory`. Nothing is staged, and no flag is taken.
    pub fn create<D: Disk>(
        alloc: Global,
        mft: &mut Mft<'_, D>,
        dir: bool,
        standard: &[u8; 72],
    ) -> Result<FileParts, FileNo>
        requires free { (n : ℕ) × IsOrdinaryFree (mounted_of D.Disk mft.old).records n }
        requires mirror { IsMirrorInside (mounted_of D.Disk mft.old) }
        requires sound { is_mft_broken D.Disk mft.old ≡ false }
        ensures least { IfOk result (λ file. IsLeastFree (mounted_of D.Disk mft.old).records (file_number file)) }
        ensures bits { IfOk result (λ file.
            mounted_of D.Disk mft.new ≡ with_record_taken (mounted_of D.Disk mft.old) (file_number file)) }
        ensures made { IfOk result (λ file. IsTrue (view D.Disk mft.old).told → IsApart (view D.Disk mft.old).layout
            → 1024 * file_number file + 1024 ≤ (view D.Disk mft.old).layout.initialized
            → CreatesBase (view D.Disk mft.old) (view D.Disk mft.new) (file_number file) dir standard.now) }
        ensures held { IfOk result (λ file. IsTrue (view D.Disk mft.old).told → IsApart (view D.Disk mft.old).layout
            → 1024 * file_number file + 1024 ≤ (view D.Disk mft.old).layout.initialized
            → parts (records_of (view D.Disk mft.old)) (file_number file) ≡ [] → IsWholeFile (view D.Disk mft.new) file) }
        ensures new { IfOk result HoldsNewBase }
        ensures stages { IfOk result (λ file.
            ReadsAndStages D.Disk (record_places (view D.Disk mft.old).layout (file_number file)) 4 2 mft.old mft.new) }
        ensures kept { OnErr result (ReadsAndReserves D.Disk 2 mft.old mft.new) }
        ensures err { IfErr result IsReadNo }
        ensures faults { MatchResult result (λ _. faults_of D.Disk mft.new ≡ faults_of D.Disk mft.old)
            (CountsNo (faults_of D.Disk mft.old) (faults_of D.Disk mft.new)) }
    {
        let mut held = Vec::with_capacity(alloc, 1)?;
        let free = next_free(mft)?;
        let base = Held::base(alloc, free, dir, standard)?;
        base.stage_taken(mft)?;
        held.push_reserved(base);
        Ok(FileParts {
            number: free.number,
            held,
        })
    }
}
