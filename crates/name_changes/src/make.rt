//! A new file, or directory, under the name to which a path led.
ghost use Rattle.std.specs.Prelude.{◌≡◌, ◌<◌, ◌≤◌, ℕ, IfErr, IsTrue, MatchResult, OnOk, false, length, slice_set};
ghost use Rattle.volume_def.specs.FileNames.{names_of};
ghost use Rattle.volume_def.specs.Files.{records_of};
ghost use Rattle.mft_table.specs.Changes.{with_record_taken};
ghost use Rattle.mft_table.specs.FreeRecords.{IsLeastFree, IsOrdinaryFree};
ghost use Rattle.mft_table.specs.InUse.{IsInUse};
ghost use Rattle.mft_table.specs.Mft.{KeepsDisk, faults_of, is_mft_broken, mounted_of, view};
ghost use Rattle.mft_table.specs.MirrorClusters.{IsMirrorInside};
ghost use Rattle.file_record.specs.FileNos.{CountsNo, IsReadNo};
ghost use Rattle.make_places.specs.Standings.{number_within};
ghost use Rattle.make_places.specs.Steps.{KeepsDevice};
ghost use Rattle.make_places.specs.Below.{SetsAttributes};
ghost use Rattle.make_places.specs.Links.{CanWriteFile};
ghost use Rattle.make_places.specs.Staged.{StagesAttributes, TellsStored};
ghost use Rattle.make_places.specs.Makes.{IsToMake};
ghost use Rattle.name_changes.specs.MakesFound.{MakesFound};
ghost use Rattle.name_changes.specs.Staged.{StagesMaking};

use file_record::FileNo;
use make_places::{NewPlace, Standard, make_file, read_standard, set_attributes};
use mft_table::Mft;
use std::alloc::Global;
use vol_disk::Disk;

// Sets the moment as the times at which a directory and its record changed. Its other times and its flags are those that are
// given.
fn touch_directory<D: Disk>(
    alloc: Global,
    mft: &mut Mft<'_, D>,
    number: u64,
    was: Standard,
    moment: u64,
) -> Result<(), FileNo>
    requires inside { number < length (mounted_of D.Disk mft.old).records }
    requires mirror { IsMirrorInside (mounted_of D.Disk mft.old) }
    requires sound { is_mft_broken D.Disk mft.old ≡ false }
    requires volume { IsInUse D.Disk mft.old }
    requires can { IsTrue (view D.Disk mft.old).told → CanWriteFile (view D.Disk mft.old) number }
    ensures set { OnOk result (IsTrue (view D.Disk mft.old).told → SetsAttributes (view D.Disk mft.old) (view D.Disk mft.new) number
        (slice_set (slice_set was.times 1 moment) 2 moment) was.flags) }
    ensures places { IsTrue (view D.Disk mft.old).told
        → StagesAttributes D.Disk number (names_of (records_of (view D.Disk mft.old)) number) mft.old mft.new }
    ensures tables { OnOk result (TellsStored D.Disk mft.new) }
    ensures disk { KeepsDisk D.Disk mft.old mft.new }
    ensures err { IfErr result IsReadNo }
    ensures faults { MatchResult result (λ _. faults_of D.Disk mft.new ≡ faults_of D.Disk mft.old)
        (CountsNo (faults_of D.Disk mft.old) (faults_of D.Disk mft.new)) }
{
    let mut times = was.times;
    times[1] = moment;
    times[2] = moment;
    set_attributes(alloc, mft, number, &times, was.flags)
}

/// Makes an empty file, or a directory, under the name that was found, at this moment (in units of 100 ns since 1601), with the security id
/// of the directory in which it comes, and sets the moment as the times at which that and its record changed. Its other times and its flags
/// stay. All of it is staged.
///
/// # Errors
///
/// `Device` where the disk failed, and `Memory`. Some of it may then be staged: whoever called discards.
pub fn make_found<D: Disk>(
    alloc: Global,
    mft: &mut Mft<'_, D>,
    found: &NewPlace<'_>,
    directory: bool,
    moment: u64,
) -> Result<(), FileNo>
    requires inside { number_within found.now.standing < length (mounted_of D.Disk mft.old).records }
    requires some { 1 ≤ length found.now.name.now }
    requires few { length found.now.name.now ≤ 255 }
    requires free { (n : ℕ) × IsOrdinaryFree (mounted_of D.Disk mft.old).records n }
    requires mirror { IsMirrorInside (mounted_of D.Disk mft.old) }
    requires sound { is_mft_broken D.Disk mft.old ≡ false }
    requires volume { IsInUse D.Disk mft.old }
    requires can { IsTrue (view D.Disk mft.old).told → IsToMake directory (view D.Disk mft.old) (mounted_of D.Disk mft.old) found.now }
    ensures made { OnOk result (IsTrue (view D.Disk mft.old).told
        → MakesFound directory (view D.Disk mft.old) (view D.Disk mft.new) found.now moment) }
    ensures places { OnOk result (IsTrue (view D.Disk mft.old).told
        → StagesMaking D.Disk (number_within found.now.standing) mft.old mft.new) }
    ensures tables { OnOk result (TellsStored D.Disk mft.new) }
    ensures bits { OnOk result ((n : ℕ) × IsLeastFree (mounted_of D.Disk mft.old).records n
        × (mounted_of D.Disk mft.new ≡ with_record_taken (mounted_of D.Disk mft.old) n)) }
    ensures device { KeepsDevice D.Disk mft.old mft.new }
    ensures err { IfErr result IsReadNo }
    ensures faults { MatchResult result (λ _. faults_of D.Disk mft.new ≡ faults_of D.Disk mft.old)
        (CountsNo (faults_of D.Disk mft.old) (faults_of D.Disk mft.new)) }
{
    let dir = &found.standing.directory.parts;
    let number = dir.number();
    let was = read_standard(dir);
    make_file(
        alloc,
        mft,
        number,
        found.name.as_slice(),
        directory,
        moment,
        was.security,
    )?;
    touch_directory(alloc, mft, number, was, moment)
}
