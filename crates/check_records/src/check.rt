//! The whole check: each clause in its order, and the tables of a volume that meets all of them.
ghost use Rattle.std.specs.Prelude.{◌≡◌, ◌+◌, ◌≤◌, ℕ, IfErr, IfOk, IsTrue, MatchResult, OnOk, length};
ghost use Rattle.vol_disk.specs.Contents.{WhereTold};
ghost use Rattle.vol_disk.specs.Reading.{DiskReads};
ghost use Rattle.volume_def.specs.Sound.{HoldBelow};
ghost use Rattle.volume_def.specs.Sound.Clause.{Limits};
ghost use Rattle.volume_def.specs.View.{VolumeView};
ghost use Rattle.mft_table.specs.Mft.{MftReads, faults_of, view};
ghost use Rattle.mft_table.specs.MountNos.{CountsMount};
ghost use Rattle.mft_table.specs.Mounted.{StandsOn};
ghost use Rattle.check_records.specs.Decided.{AreDecided};
ghost use Rattle.check_records.specs.Reads.{bytes_reads, check_reads, files_reads};
ghost use Rattle.clause_order.specs.Refusals.{DecidesFirst, IsRefusalIf};
ghost use Rattle.check_records.specs.Refusals.{IsRefusal};
ghost use Rattle.mft_table.specs.HeldTables.{AreStored, HoldsTables, volume_in};
ghost use Rattle.check_records.specs.Views.{HasComeWith};

use crate::by_facts::{
    first_long_file, first_wrong_attributes, first_wrong_link, first_wrong_owner,
    first_wrong_reference,
};
use crate::case_table::read_case_table;
use crate::clusters::read_cluster_bits;
use crate::records::read_record_bits;
use crate::start::{Scanned, scan_volume};
use crate::wrong_files::{WrongFiles, first_wrong_files};
use clause_order::{Clause, refuse_first};
use cluster_bitmap::Bits;
use mft_table::{Mft, MountNo, Mounted};
use record_notes::Facts;
use std::alloc::Global;
use upcase::UpCase;
use vol_disk::Disk;
use vol_stage::Stage;

/// The tables that a volume stores.
#[derive(Drop)]
struct Stored {
    clusters: Bits,
    records: Bits,
    upcase: UpCase,
}

// Decides the clauses on lists, extents and owners in their order, by what is known of the files.
fn refuse_files(facts: &Facts, wrong: &WrongFiles) -> Result<(), MountNo>
    ensures ok { OnOk result ((view : VolumeView) → AreDecided view facts.now wrong.now → HoldBelow view 5) }
    ensures err { IfErr result (λ no. (view : VolumeView) → IsRefusalIf 10 (AreDecided view facts.now wrong.now) view no) }
    ensures faults { IfErr result (λ no. (count : ℕ) → CountsMount count count no) }
{
    refuse_first(Clause::Lists, wrong.lists)?;
    refuse_first(Clause::Extents, wrong.extents)?;
    refuse_first(Clause::Owners, first_wrong_owner(facts))?;
    Ok(())
}

// Decides the clauses on attributes, lists, extents and owners.
fn decide_files<D: Disk>(alloc: Global, mft: &mut Mft<'_, D>, facts: &Facts) -> Result<(), MountNo>
    ensures ok { OnOk result (IsTrue (view D.Disk mft.old).told → HasComeWith (view D.Disk mft.old) 1 facts.now
        → HoldBelow (view D.Disk mft.old) 5) }
    ensures err { IfErr result (IsRefusalIf 10 (HasComeWith (view D.Disk mft.old) 1 facts.now) (view D.Disk mft.old)) }
    ensures faults { MatchResult result (λ _. faults_of D.Disk mft.new ≡ faults_of D.Disk mft.old)
        (CountsMount (faults_of D.Disk mft.old) (faults_of D.Disk mft.new)) }
    ensures reads { MftReads D.Disk mft.old mft.new
        (files_reads (length facts.now.spread.listed.items) (length facts.now.spread.extensions.items)) }
{
    refuse_first(Clause::Attributes, first_wrong_attributes(facts))?;
    let wrong = first_wrong_files(alloc, mft, facts)?;
    refuse_files(facts, &wrong)?;
    Ok(())
}

// Decides the clauses on references and on links.
fn decide_names(alloc: Global, facts: &Facts) -> Result<(), MountNo>
    ensures ok { OnOk result ((view : VolumeView) → HasComeWith view 7 facts.now → HoldBelow view 9) }
    ensures err { IfErr result (λ no. (view : VolumeView) → IsRefusalIf 10 (HasComeWith view 7 facts.now) view no) }
    ensures faults { IfErr result (λ no. (count : ℕ) → CountsMount count count no) }
{
    refuse_first(Clause::References, first_wrong_reference(facts))?;
    let first = first_wrong_link(alloc, facts)?;
    refuse_first(Clause::Links, first)?;
    Ok(())
}

// Reads the tables that the volume stores, and decides the clauses on them, and those on references and links, in their
// order.
fn read_stored<D: Disk>(
    alloc: Global,
    mft: &mut Mft<'_, D>,
    facts: &Facts,
) -> Result<Stored, MountNo>
    ensures ok { OnOk result (IsTrue (view D.Disk mft.old).told → HasComeWith (view D.Disk mft.old) 5 facts.now
        → HoldBelow (view D.Disk mft.old) 10) }
    ensures stored { IfOk result (λ stored. IsTrue (view D.Disk mft.old).told → HasComeWith (view D.Disk mft.old) 5 facts.now
        → AreStored (view D.Disk mft.old) stored.clusters stored.records stored.upcase) }
    ensures clusters { IfOk result (λ stored. length stored.clusters ≡ (view D.Disk mft.old).layout.clusters) }
    ensures records { IfOk result (λ stored. length stored.records ≡ (view D.Disk mft.old).layout.count) }
    ensures err { IfErr result (IsRefusalIf 10 (HasComeWith (view D.Disk mft.old) 5 facts.now) (view D.Disk mft.old)) }
    ensures faults { MatchResult result (λ _. faults_of D.Disk mft.new ≡ faults_of D.Disk mft.old)
        (CountsMount (faults_of D.Disk mft.old) (faults_of D.Disk mft.new)) }
    ensures reads { MftReads D.Disk mft.old mft.new (bytes_reads (view D.Disk mft.old).layout) }
{
    let clusters = read_cluster_bits(alloc, mft, facts)?;
    let records = read_record_bits(alloc, mft, facts)?;
    decide_names(alloc, facts)?;
    let upcase = read_case_table(alloc, mft, facts)?;
    Ok(Stored {
        clusters,
        records,
        upcase,
    })
}

// Decides all clauses behind that on shape, and reads the tables that the volume stores.
fn check_files<D: Disk>(
    alloc: Global,
    mft: &mut Mft<'_, D>,
    facts: &Facts,
) -> Result<Stored, MountNo>
    ensures ok { OnOk result (IsTrue (view D.Disk mft.old).told → HasComeWith (view D.Disk mft.old) 1 facts.now
        → HoldBelow (view D.Disk mft.old) 10) }
    ensures stored { IfOk result (λ stored. IsTrue (view D.Disk mft.old).told → HasComeWith (view D.Disk mft.old) 1 facts.now
        → AreStored (view D.Disk mft.old) stored.clusters stored.records stored.upcase) }
    ensures clusters { IfOk result (λ stored. length stored.clusters ≡ (view D.Disk mft.old).layout.clusters) }
    ensures records { IfOk result (λ stored. length stored.records ≡ (view D.Disk mft.old).layout.count) }
    ensures err { IfErr result (IsRefusalIf 10 (HasComeWith (view D.Disk mft.old) 1 facts.now) (view D.Disk mft.old)) }
    ensures faults { MatchResult result (λ _. faults_of D.Disk mft.new ≡ faults_of D.Disk mft.old)
        (CountsMount (faults_of D.Disk mft.old) (faults_of D.Disk mft.new)) }
    ensures reads { MftReads D.Disk mft.old mft.new
        (files_reads (length facts.now.spread.listed.items) (length facts.now.spread.extensions.items)
        + bytes_reads (view D.Disk mft.old).layout) }
{
    decide_files(alloc, mft, facts)?;
    let stored = read_stored(alloc, mft, facts)?;
    Ok(stored)
}

// The tables, with those that the volume stores.
fn with_stored(mounted: Mounted, stored: Stored) -> Mounted
    ensures { result ≡ record mounted { clusters = stored.clusters; records = stored.records; upcase = stored.upcase } }
{
    Mounted {
        geometry: mounted.geometry,
        table: mounted.table,
        initialized: mounted.initialized,
        clusters: stored.clusters,
        records: stored.records,
        upcase: stored.upcase,
    }
}

/// The tables of a volume, with what was noted for a clause that comes later.
#[derive(Drop)]
pub struct Checked {
    pub mounted: Mounted,
    /// The least file that breaks the clause on limits, S15, where all clauses before that hold.
    pub long: Option<u64>,
}

/// What `check_records` does, and the least file that breaks the clause on limits, which the pass over the records noted.
///
/// # Errors
///
/// As `check_records`.
pub fn check_records_and_limits<D: Disk>(alloc: Global, disk: &mut D) -> Result<Checked, MountNo>
    ensures tables { IfOk result (λ checked. WhereTold (D.now disk.old) (λ image. HoldsTables 10 image checked.mounted)) }
    ensures long { IfOk result (λ checked. WhereTold (D.now disk.old) (λ image.
        DecidesFirst Limits (volume_in image checked.mounted) checked.long)) }
    ensures stands { IfOk result (λ checked. StandsOn (D.size disk.old) checked.mounted) }
    ensures records { IfOk result (λ checked. 24 ≤ length checked.mounted.records) }
    ensures err { IfErr result (IsRefusal (D.now disk.old)) }
    ensures faults { MatchResult result (λ _. D.faults disk.new ≡ D.faults disk.old)
        (CountsMount (D.faults disk.old) (D.faults disk.new)) }
    ensures only_reads { (reads : ℕ) × DiskReads D.Disk disk.old disk.new reads }
    ensures fetched { IfOk result (λ checked. WhereTold (D.now disk.old) (λ image.
        D.fetched disk.new ≤ D.fetched disk.old + check_reads (volume_in image checked.mounted))) }
{
    let mut stage = Stage::over(alloc, disk);
    let Scanned { mounted, facts } = match scan_volume(alloc, &mut stage) {
        Ok(scanned) => scanned,
        Err(no) => {
            let _ = stage.finish();
            return Err(no);
        }
    };
    let mut mft = Mft::resume(stage, mounted);
    let checked = check_files(alloc, &mut mft, &facts);
    let (stage, mounted) = mft.into_parts();
    let _ = stage.finish();
    let stored = checked?;
    let long = first_long_file(&facts);
    Ok(Checked {
        mounted: with_stored(mounted, stored),
        long,
    })
}

/// Decides the clauses of the volume definition on records, clusters and the table of case, S1 to S11 and S13, in their
/// order, and gives the tables of a volume that meets them. The disk is only read.
///
/// # Errors
///
/// `Refused` with the first of these clauses that fails and the least number that breaks it, `Device` and `Memory`.
pub fn check_records<D: Disk>(alloc: Global, disk: &mut D) -> Result<Mounted, MountNo>
    ensures tables { IfOk result (λ mounted. WhereTold (D.now disk.old) (λ image. HoldsTables 10 image mounted)) }
    ensures stands { IfOk result (StandsOn (D.size disk.old)) }
    ensures records { IfOk result (λ mounted. 24 ≤ length mounted.records) }
    ensures err { IfErr result (IsRefusal (D.now disk.old)) }
    ensures faults { MatchResult result (λ _. D.faults disk.new ≡ D.faults disk.old)
        (CountsMount (D.faults disk.old) (D.faults disk.new)) }
    ensures only_reads { (reads : ℕ) × DiskReads D.Disk disk.old disk.new reads }
    ensures fetched { IfOk result (λ mounted. WhereTold (D.now disk.old) (λ image.
        D.fetched disk.new ≤ D.fetched disk.old + check_reads (volume_in image mounted))) }
{
    let checked = check_records_and_limits(alloc, disk)?;
    Ok(checked.mounted)
}
