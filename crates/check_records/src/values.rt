//! The value of a stream, read from its first byte on by what the pass noted of it.
ghost use Rattle.std.specs.Prelude.{◌≡◌, ◌↔◌, ◌*◌, ◌≤◌, ℕ, List, IfErr, IfOk, IsTrue, MatchResult, OnOk, length};
ghost use Rattle.list_laws.specs.Bits.{flags_in};
ghost use Rattle.volume_def.specs.BitmapClauses.{HasNoHole};
ghost use Rattle.volume_def.specs.Files.{Part};
ghost use Rattle.volume_def.specs.Table.{cluster_bytes};
ghost use Rattle.volume_def.specs.Values.{IsPlain, pieces_touched, value_on};
ghost use Rattle.mft_table.specs.Mft.{MftReads, faults_of, view};
ghost use Rattle.mft_table.specs.MountNos.{CountsMount};
ghost use Rattle.list_laws.specs.BitRanges.{IsPieceOf};
ghost use Rattle.record_notes.specs.Streams.{NotesStream};
ghost use Rattle.check_records.specs.Streams.{ArePlacesFor};

use crate::streams::read_stored;
use cluster_bitmap::Bits;
use mft_table::{Mft, MountNo};
use record_notes::StreamNote;
use std::alloc::Global;
use vol_disk::Disk;

/// Whether a stream is not packed, and has no hole.
pub fn is_whole(note: &StreamNote) -> bool
    ensures { (extents : List Part) → NotesStream extents note.now → IsTrue result ↔ IsPlain extents × HasNoHole extents }
{
    note.is_plain() && note.placement.placed
}

// The first bytes of a value, and zeros behind its last.
fn copy_start(value: &[u8], into: &mut [u8])
    ensures { IsPieceOf value.now 0 into.new }
{
    let len = value.len().min(into.len());
    into[..len].copy_from_slice(&value[..len]);
    into[len..].fill(0);
}

/// Reads the value of a stream from its first byte on; zeros behind its last, and where there is no such stream. Each piece of
/// 512 bytes is read once.
///
/// # Errors
///
/// `Device` alone; what `into` then holds is not told.
pub fn read_start<D: Disk>(
    mft: &mut Mft<'_, D>,
    note: &StreamNote,
    into: &mut [u8],
) -> Result<(), MountNo>
    ensures read { OnOk result (IsTrue (view D.Disk mft.old).told → (extents : List Part) → NotesStream extents note.now
        → ArePlacesFor (length into.old) (cluster_bytes (view D.Disk mft.old).layout) note.now
        → IsPieceOf (value_on (view D.Disk mft.old) extents) 0 into.new) }
    ensures err { IfErr result (λ no. no ≡ MountNo.Device) }
    ensures faults { MatchResult result (λ _. faults_of D.Disk mft.new ≡ faults_of D.Disk mft.old)
        (CountsMount (faults_of D.Disk mft.old) (faults_of D.Disk mft.new)) }
    ensures reads { MftReads D.Disk mft.old mft.new (pieces_touched 0 (length into.old)) }
{
    if let Some(value) = note.resident() {
        copy_start(value, into);
        return Ok(());
    }
    let written = note.written_len().min(into.len() as u64) as usize;
    read_stored(mft, note, 0, &mut into[..written])?;
    into[written..].fill(0);
    Ok(())
}

/// The first bits of bytes.
///
/// # Errors
///
/// `Memory` alone.
pub fn load_bits(alloc: Global, bytes: &[u8], count: u64) -> Result<Bits, MountNo>
    requires { count ≤ 8 * length bytes.now }
    ensures flags { IfOk result (λ bits. (value : List ℕ) → IsPieceOf value 0 bytes.now → bits ≡ flags_in value count) }
    ensures count { IfOk result (λ bits. length bits ≡ count) }
    ensures err { IfErr result (λ no. no ≡ MountNo.Memory) }
{
    match Bits::load(alloc, bytes, count) {
        Ok(bits) => Ok(bits),
        Err(_) => Err(MountNo::Memory),
    }
}
