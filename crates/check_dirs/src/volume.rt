//! The clause on indexes, decided on a volume.
ghost use Rattle.std.specs.Prelude.{◌≡◌, ◌↔◌, ℕ, IfErr, IfOk, IsTrue, MatchResult, OnOk};
ghost use Rattle.vol_disk.specs.Contents.{WhereTold};
ghost use Rattle.vol_disk.specs.Reading.{DiskReads};
ghost use Rattle.volume_def.specs.IndexesClause.{MeetsIndexes};
ghost use Rattle.volume_def.specs.Readable.{IsFile};
ghost use Rattle.volume_def.specs.Sound.{HoldBelow};
ghost use Rattle.list_laws.specs.Least.{IsLeastFailing};
ghost use Rattle.mft_table.specs.HeldTables.{HoldsTables};
ghost use Rattle.mft_table.specs.Mft.{MftReads, faults_of, mounted_of, view};
ghost use Rattle.mft_table.specs.MountNos.{CountsMount};
ghost use Rattle.mft_table.specs.Mounted.{StandsOn};
ghost use Rattle.check_dirs.specs.Notes.{AreNotes};
ghost use Rattle.check_dirs.specs.Records.{CountsNo};
ghost use Rattle.check_dirs.specs.Refusals.{IsIndexRefusal};
ghost use Rattle.check_dirs.specs.Volume.{IsStoredCase};

use crate::CheckNo;
use crate::file::check_file;
use crate::notes::Notes;
use crate::noting::note_files;
use clause_order::Clause;
use collation::FileNameOrder;
use file_record::load_base;
use mft_table::{Mft, MountNo, Mounted};
use std::alloc::Global;
use upcase::UpCase;
use vol_disk::Disk;
use vol_stage::Stage;

// Whether the indexes of the file of a number are right.
fn is_right<D: Disk>(
    alloc: Global,
    mft: &mut Mft<'_, D>,
    order: &FileNameOrder,
    notes: &Notes,
    number: u64,
) -> Result<bool, CheckNo>
    requires sound { IsTrue (view D.Disk mft.old).told → HoldBelow (view D.Disk mft.old) 10 }
    requires case { IsStoredCase (view D.Disk mft.old) order.now.upcase }
    ensures right { IfOk result (λ right. IsTrue (view D.Disk mft.old).told → AreNotes (view D.Disk mft.old) notes.now
        → IsFile (view D.Disk mft.old) number → IsTrue right ↔ MeetsIndexes (view D.Disk mft.old) number) }
    ensures reads { (reads : ℕ) × MftReads D.Disk mft.old mft.new reads }
    ensures faults { MatchResult result (λ _. faults_of D.Disk mft.new ≡ faults_of D.Disk mft.old)
        (CountsNo (faults_of D.Disk mft.old) (faults_of D.Disk mft.new)) }
{
    let found = load_base(alloc, mft, number)?;
    let Some(file) = found else {
        return Ok(false);
    };
    check_file(alloc, mft, order, notes, &file)
}

// Checks the files of these numbers, which rise; the first whose indexes are wrong.
fn first_wrong_among<D: Disk>(
    alloc: Global,
    mft: &mut Mft<'_, D>,
    order: &FileNameOrder,
    notes: &Notes,
    wanted: &[u64],
) -> Result<Option<u64>, CheckNo>
    requires sound { IsTrue (view D.Disk mft.old).told → HoldBelow (view D.Disk mft.old) 10 }
    requires case { IsStoredCase (view D.Disk mft.old) order.now.upcase }
    requires wanted { wanted.now ≡ notes.now.wanted.items }
    ensures first { IfOk result (λ first. IsTrue (view D.Disk mft.old).told → AreNotes (view D.Disk mft.old) notes.now
        → IsLeastFailing (MeetsIndexes (view D.Disk mft.old)) first) }
    ensures reads { (reads : ℕ) × MftReads D.Disk mft.old mft.new reads }
    ensures faults { MatchResult result (λ _. faults_of D.Disk mft.new ≡ faults_of D.Disk mft.old)
        (CountsNo (faults_of D.Disk mft.old) (faults_of D.Disk mft.new)) }
{
    for number in wanted {
        let right = is_right(alloc, mft, order, notes, *number)?;
        if !right {
            return Ok(Some(*number));
        }
    }
    Ok(None)
}

// The order of names by the volume's table of case.
fn name_order(upcase: &UpCase) -> Result<FileNameOrder, CheckNo>
    ensures order { IfOk result (λ order. order.upcase ≡ upcase.now) }
    ensures err { IfErr result (λ no. no ≡ CheckNo.Memory) }
{
    match upcase.share() {
        Ok(upcase) => Ok(FileNameOrder { upcase }),
        Err(_) => Err(CheckNo::Memory),
    }
}

// The least file whose indexes are wrong.
fn first_wrong_index<D: Disk>(alloc: Global, mft: &mut Mft<'_, D>) -> Result<Option<u64>, CheckNo>
    requires case { IsStoredCase (view D.Disk mft.old) (mounted_of D.Disk mft.old).upcase }
    requires sound { IsTrue (view D.Disk mft.old).told → HoldBelow (view D.Disk mft.old) 10 }
    ensures first { IfOk result (λ first. IsTrue (view D.Disk mft.old).told
        → IsLeastFailing (MeetsIndexes (view D.Disk mft.old)) first) }
    ensures reads { (reads : ℕ) × MftReads D.Disk mft.old mft.new reads }
    ensures faults { MatchResult result (λ _. faults_of D.Disk mft.new ≡ faults_of D.Disk mft.old)
        (CountsNo (faults_of D.Disk mft.old) (faults_of D.Disk mft.new)) }
{
    let order = name_order(&mft.mounted().upcase)?;
    let notes = note_files(alloc, mft)?;
    first_wrong_among(alloc, mft, &order, &notes, &notes.wanted)
}

/// Decides the clause of the volume definition on indexes, S12, of a volume that meets those before it and S13, and gives
/// its tables back. The disk is only read.
///
/// # Errors
///
/// `Refused` with S12 and the least record whose indexes break it, `Device` and `Memory`.
pub fn check_dirs<D: Disk>(
    alloc: Global,
    disk: &mut D,
    mounted: Mounted,
) -> Result<Mounted, MountNo>
    requires stands { StandsOn (D.size disk.old) mounted }
    requires tables { WhereTold (D.now disk.old) (λ image. HoldsTables 10 image mounted) }
    ensures same { IfOk result (λ kept. kept ≡ mounted) }
    ensures tables { OnOk result (WhereTold (D.now disk.old) (λ image. HoldsTables 11 image mounted)) }
    ensures err { IfErr result (IsIndexRefusal (D.now disk.old)) }
    ensures faults { MatchResult result (λ _. D.faults disk.new ≡ D.faults disk.old)
        (CountsMount (D.faults disk.old) (D.faults disk.new)) }
    ensures only_reads { (reads : ℕ) × DiskReads D.Disk disk.old disk.new reads }
{
    let stage = Stage::over(alloc, disk);
    let mut mft = Mft::resume(stage, mounted);
    let checked = first_wrong_index(alloc, &mut mft);
    let (stage, mounted) = mft.into_parts();
    let _ = stage.finish();
    match checked? {
        None => Ok(mounted),
        Some(number) => Err(Clause::Indexes.refusal(number)),
    }
}
