//! The table of case, read.
ghost use Rattle.std.specs.Prelude.{◌≡◌, ◌↔◌, List, IfErr, IfOk, IsTrue, MatchResult, OnOk, length};
ghost use Rattle.volume_def.specs.CaseClause.{case_parts};
ghost use Rattle.volume_def.specs.Files.{Part};
ghost use Rattle.volume_def.specs.Sound.{HoldBelow};
ghost use Rattle.volume_def.specs.Values.{pieces_touched, value_on};
ghost use Rattle.mft_table.specs.Mft.{MftReads, faults_of, view};
ghost use Rattle.mft_table.specs.MountNos.{CountsMount};
ghost use Rattle.list_laws.specs.BitRanges.{IsPieceOf};
ghost use Rattle.record_notes.specs.Streams.{NotesStream};
ghost use Rattle.clause_order.specs.Refusals.{IsFault, IsRefusalIf};
ghost use Rattle.check_records.specs.Streams.{IsPlainOf, table_len};
ghost use Rattle.check_records.specs.Views.{HasComeWith};

use crate::values::read_start;
use clause_order::Clause;
use mft_table::{Mft, MountNo};
use ntfs_def::lengths::CASE_TABLE;
use ntfs_def::records::UPCASE;
use record_notes::{Facts, StreamNote};
use std::alloc::{AllocError, Global};
use upcase::UpCase;
use vol_disk::Disk;

// Whether a stream is not packed and has so many bytes.
fn is_plain_of(note: &StreamNote, len: u64) -> bool
    ensures { (extents : List Part) → NotesStream extents note.now → IsTrue result ↔ IsPlainOf len extents }
{
    note.is_plain() && note.value_len() == len
}

// Reads the table, and tells whether it is there, is not packed, and has as many bytes as are wanted.
fn read_table<D: Disk>(
    mft: &mut Mft<'_, D>,
    facts: &Facts,
    into: &mut [u8],
) -> Result<bool, MountNo>
    ensures right { IfOk result (λ right. IsTrue (view D.Disk mft.old).told → HasComeWith (view D.Disk mft.old) 9 facts.now
        → IsTrue right ↔ IsPlainOf (length into.old) (case_parts (view D.Disk mft.old))) }
    ensures bytes { IfOk result (λ right. IsTrue (view D.Disk mft.old).told → HasComeWith (view D.Disk mft.old) 9 facts.now
        → length into.old ≡ table_len
        → IsTrue right → IsPieceOf (value_on (view D.Disk mft.old) (case_parts (view D.Disk mft.old))) 0 into.new) }
    ensures err { IfErr result IsFault }
    ensures faults { MatchResult result (λ _. faults_of D.Disk mft.new ≡ faults_of D.Disk mft.old)
        (CountsMount (faults_of D.Disk mft.old) (faults_of D.Disk mft.new)) }
    ensures reads { MftReads D.Disk mft.old mft.new (pieces_touched 0 (length into.old)) }
{
    let note = &facts.streams.case_table;
    if !is_plain_of(note, into.len() as u64) {
        return Ok(false);
    }
    read_start(mft, note, into)?;
    Ok(true)
}

// As many bytes as a table has, all zero.
#[tactic(auto, unfolding(crate::specs::Streams::table_len))]
fn empty_table(alloc: Global) -> Result<Vec<u8>, AllocError>
    ensures { IfOk result (λ bytes. length bytes.items ≡ table_len) }
{
    let bytes = vec![in alloc; 0u8; CASE_TABLE]?;
    Ok(bytes)
}

// The table of these bytes, which are as many as it has.
fn load_table(alloc: Global, bytes: &[u8]) -> Result<UpCase, MountNo>
    requires { length bytes.now ≡ table_len }
    ensures ok { IfOk result (λ table. table ≡ bytes.now) }
    ensures err { IfErr result (λ no. no ≡ MountNo.Memory) }
{
    match UpCase::load(alloc, bytes) {
        Ok(table) => Ok(table),
        Err(_) => Err(MountNo::Memory),
    }
}

/// Reads the table of case, once, and decides the clause on it. The volume meets those before.
///
/// # Errors
///
/// `Refused` with the number of its file, `Device` and `Memory`.
pub fn read_case_table<D: Disk>(
    alloc: Global,
    mft: &mut Mft<'_, D>,
    facts: &Facts,
) -> Result<UpCase, MountNo>
    ensures ok { OnOk result (IsTrue (view D.Disk mft.old).told → HasComeWith (view D.Disk mft.old) 9 facts.now
        → HoldBelow (view D.Disk mft.old) 10) }
    ensures table { IfOk result (λ table. IsTrue (view D.Disk mft.old).told → HasComeWith (view D.Disk mft.old) 9 facts.now
        → table ≡ value_on (view D.Disk mft.old) (case_parts (view D.Disk mft.old))) }
    ensures err { IfErr result (IsRefusalIf 10 (HasComeWith (view D.Disk mft.old) 9 facts.now) (view D.Disk mft.old)) }
    ensures faults { MatchResult result (λ _. faults_of D.Disk mft.new ≡ faults_of D.Disk mft.old)
        (CountsMount (faults_of D.Disk mft.old) (faults_of D.Disk mft.new)) }
    ensures reads { MftReads D.Disk mft.old mft.new 256 }
{
    let mut bytes = empty_table(alloc)?;
    let right = read_table(mft, facts, &mut bytes)?;
    if !right {
        return Err(Clause::CaseTable.refusal(UPCASE));
    }
    load_table(alloc, &bytes)
}
