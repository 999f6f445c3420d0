//! A stream that was found has another length, other bytes, or goes, by the way in which that is done.
ghost use Rattle.std.specs.Prelude.{◌≡◌, ◌≤◌, ◌<◌, ◌+◌, ◌/◌, ◌^◌, ℕ, List, None, IfErr, IsTrue, MatchResult, OnOk, false, length};
ghost use Rattle.mft_table.specs.InUse.{IsInUse};
ghost use Rattle.mft_table.specs.Mft.{faults_of, is_mft_broken, mounted_of, view};
ghost use Rattle.mft_table.specs.MirrorClusters.{IsMirrorInside};
ghost use Rattle.file_record.specs.FileNos.{CountsNo, IsReadNo};
ghost use Rattle.value_edits.specs.ValueEdits.{PutsStream, ResizesStream, no_gain};
ghost use Rattle.stored_bits.specs.Given.{KeepsDevice};
ghost use Rattle.tree_edit.specs.Below.{number_of, parts_in};
ghost use Rattle.tree_edit.specs.Alone.{IsToDrop, IsToResize};
ghost use Rattle.tree_edit.specs.Staged.{TellsStored};
ghost use Rattle.tree_edit.specs.Write.{IsWritable};
ghost use Rattle.stream_changes.specs.Staged.{StagesGiving};
ghost use Rattle.stream_changes.specs.Streams.{WritesSo};

use crate::extents::{drop_extent, shorten_extent};
use crate::longer::{lengthen_extent, write_behind};
use crate::moving::{lengthen_moving, write_moving};
use crate::values::{drop_value, resize_value, write_value};
use file_record::FileNo;
use mft_table::Mft;
use std::alloc::Global;
use tree_edit::{Way, Writable, write_over};
use vol_disk::Disk;

/// Gives the stream that was found so many bytes, cut or with zeros behind, and then sets the four times of its file, in the order of its
/// `$STANDARD_INFORMATION`; the file shows the flags that it had. Clusters that it needs no more are given back first; a value that its
/// record has no room for moves into a run of clusters. All of it is staged.
///
/// # Errors
///
/// `Device` where the disk failed, and `Memory`. Whoever called gives up what was staged.
pub fn resize_stream<D: Disk>(
    alloc: Global,
    mft: &mut Mft<'_, D>,
    found: &Writable,
    size: u64,
    times: &[u64; 4],
) -> Result<(), FileNo>
    requires near { size ≤ 2 ^ 40 }
    requires part { found.now.stream.part < length (parts_in found.now.held) }
    requires inside { number_of found.now.held < length (mounted_of D.Disk mft.old).records }
    requires mirror { IsMirrorInside (mounted_of D.Disk mft.old) }
    requires sound { is_mft_broken D.Disk mft.old ≡ false }
    requires volume { IsInUse D.Disk mft.old }
    requires can { IsTrue (view D.Disk mft.old).told → (name : List ℕ) × IsToResize (view D.Disk mft.old) found.now name size }
    ensures resized { OnOk result (IsTrue (view D.Disk mft.old).told → (name : List ℕ)
        → (can : IsToResize (view D.Disk mft.old) found.now name size)
        → ResizesStream (view D.Disk mft.old) (view D.Disk mft.new) (number_of found.now.held) can.stream.is.part.name size
        can.stream.bytes times.now found.now.flags) }
    ensures places { OnOk result (IsTrue (view D.Disk mft.old).told
        → StagesGiving D.Disk 11 (number_of found.now.held) (view D.Disk mft.old) mft.old mft.new) }
    ensures tables { OnOk result (TellsStored D.Disk mft.new) }
    ensures device { KeepsDevice D.Disk mft.old mft.new }
    ensures err { IfErr result IsReadNo }
    ensures faults { MatchResult result (λ _. faults_of D.Disk mft.new ≡ faults_of D.Disk mft.old)
        (CountsNo (faults_of D.Disk mft.old) (faults_of D.Disk mft.new)) }
{
    let stream = &found.stream;
    let number = found.held.parts.number();
    let held = &found.held.parts;
    match found.way {
        // No stream has another length so.
        Way::InPlace => Ok(()),
        Way::InRecord => resize_value(alloc, mft, stream, number, size, times, found.flags),
        Way::IntoClusters => {
            lengthen_moving(alloc, mft, held, stream, number, size, times, found.flags)
        }
        Way::InClusters if size > stream.size => {
            lengthen_extent(alloc, mft, held, stream, number, size, times, found.flags)
        }
        Way::InClusters => {
            shorten_extent(alloc, mft, held, stream, number, size, times, found.flags)
        }
    }
}

/// Takes the stream that was found out of its file, and then sets the four times of the file, in the order of its `$STANDARD_INFORMATION`;
/// it shows the flags that it had. Clusters of the stream are given back first. All of it is staged.
///
/// # Errors
///
/// `Device` where the disk failed, and `Memory`. Whoever called gives up what was staged.
pub fn remove_stream<D: Disk>(
    alloc: Global,
    mft: &mut Mft<'_, D>,
    found: &Writable,
    times: &[u64; 4],
) -> Result<(), FileNo>
    requires part { found.now.stream.part < length (parts_in found.now.held) }
    requires inside { number_of found.now.held < length (mounted_of D.Disk mft.old).records }
    requires mirror { IsMirrorInside (mounted_of D.Disk mft.old) }
    requires sound { is_mft_broken D.Disk mft.old ≡ false }
    requires volume { IsInUse D.Disk mft.old }
    requires can { IsTrue (view D.Disk mft.old).told → (name : List ℕ) × IsToDrop (view D.Disk mft.old) found.now name }
    ensures removed { OnOk result (IsTrue (view D.Disk mft.old).told → (name : List ℕ)
        → (can : IsToDrop (view D.Disk mft.old) found.now name)
        → PutsStream (view D.Disk mft.old) (view D.Disk mft.new) (number_of found.now.held) can.stream.is.part.name None no_gain 0
        times.now found.now.flags) }
    ensures places { OnOk result (IsTrue (view D.Disk mft.old).told
        → StagesGiving D.Disk 8 (number_of found.now.held) (view D.Disk mft.old) mft.old mft.new) }
    ensures tables { OnOk result (TellsStored D.Disk mft.new) }
    ensures device { KeepsDevice D.Disk mft.old mft.new }
    ensures err { IfErr result IsReadNo }
    ensures faults { MatchResult result (λ _. faults_of D.Disk mft.new ≡ faults_of D.Disk mft.old)
        (CountsNo (faults_of D.Disk mft.old) (faults_of D.Disk mft.new)) }
{
    let stream = &found.stream;
    let number = found.held.parts.number();
    match found.way {
        // No stream goes so.
        Way::InPlace => Ok(()),
        Way::IntoClusters => Ok(()),
        Way::InRecord => drop_value(alloc, mft, stream, number, times, found.flags),
        Way::InClusters => {
            drop_extent(
                alloc,
                mft,
                &found.held.parts,
                stream,
                number,
                times,
                found.flags,
            )
        }
    }
}

/// Writes bytes into the stream that was found, from byte `at` on: over bytes where they lie, into its value, or over and behind those in
/// its clusters, of which it takes as many as it needs, or with its value into a run that it takes. Then sets the four times of its file,
/// in the order of its `$STANDARD_INFORMATION`; the file shows the flags that it had. All of it is staged.
///
/// # Errors
///
/// `Device` where the disk failed, and `Memory`. Whoever called gives up what was staged.
pub fn write_stream<D: Disk>(
    alloc: Global,
    mft: &mut Mft<'_, D>,
    found: &Writable,
    at: u64,
    bytes: &[u8],
    times: &[u64; 4],
) -> Result<(), FileNo>
    requires near { at + length bytes.now ≤ 2 ^ 40 }
    requires part { found.now.stream.part < length (parts_in found.now.held) }
    requires inside { number_of found.now.held < length (mounted_of D.Disk mft.old).records }
    requires mirror { IsMirrorInside (mounted_of D.Disk mft.old) }
    requires sound { is_mft_broken D.Disk mft.old ≡ false }
    requires volume { IsInUse D.Disk mft.old }
    requires can { IsTrue (view D.Disk mft.old).told → (name : List ℕ)
        × IsWritable (view D.Disk mft.old) found.now name at (length bytes.now) }
    ensures written { OnOk result (IsTrue (view D.Disk mft.old).told → (name : List ℕ)
        → (can : IsWritable (view D.Disk mft.old) found.now name at (length bytes.now))
        → WritesSo found.now.way at bytes.now (view D.Disk mft.old) (view D.Disk mft.new) (number_of found.now.held)
        can.stream.is.part.name can.stream.bytes times.now found.now.flags) }
    ensures places { OnOk result (IsTrue (view D.Disk mft.old).told → StagesGiving D.Disk (12 + length bytes.now / 512)
        (number_of found.now.held) (view D.Disk mft.old) mft.old mft.new) }
    ensures tables { OnOk result (TellsStored D.Disk mft.new) }
    ensures device { KeepsDevice D.Disk mft.old mft.new }
    ensures err { IfErr result IsReadNo }
    ensures faults { MatchResult result (λ _. faults_of D.Disk mft.new ≡ faults_of D.Disk mft.old)
        (CountsNo (faults_of D.Disk mft.old) (faults_of D.Disk mft.new)) }
{
    let stream = &found.stream;
    let held = &found.held.parts;
    let number = held.number();
    let flags = found.flags;
    match found.way {
        Way::InPlace => write_over(alloc, mft, held, stream, number, times, flags, at, bytes),
        Way::InRecord => write_value(alloc, mft, stream, number, at, bytes, times, flags),
        Way::InClusters => {
            write_behind(alloc, mft, held, stream, number, at, bytes, times, flags)
        }
        Way::IntoClusters => {
            write_moving(alloc, mft, held, stream, number, at, bytes, times, flags)
        }
    }
}
