//! A value of a file that gets another, no longer one.
ghost use Rattle.std.specs.Prelude.{◌≡◌, ◌+◌, ◌*◌, ◌≤◌, IfErr, IfSome, IsTrue, OnOk, false, length, slice_get};
ghost use Rattle.vol_stage.specs.Staged.{StagesOnly};
ghost use Rattle.attr_view.specs.Values.{with_length};
ghost use Rattle.volume_def.specs.Coverage.{IsApart};
ghost use Rattle.mft_table.specs.Mft.{KeepsDisk, faults_of, is_mft_broken, mounted_of, stage_of, view};
ghost use Rattle.mft_table.specs.MirrorClusters.{IsMirrorInside};
ghost use Rattle.mft_table.specs.Staging.{record_places};
ghost use Rattle.file_record.specs.Attributes.{ChangesValue, ResizesAttribute};
ghost use Rattle.file_record.specs.Held.{RecordHeld, held_of};
ghost use Rattle.file_record.specs.Links.{HoldsSame};
ghost use Rattle.file_record.specs.Written.{IsWholeFile};
ghost use Rattle.root_takes.specs.ShrunkRoot.{HoldsValue};

use file_record::{FileNo, FileParts, Held, PartPlace};
use mft_table::Mft;
use vol_disk::Disk;

// Whether attribute i of a record is a value of so many bytes, or more.
fn holds_value(held: &Held, i: usize, len: usize) -> bool
    ensures yes { IsTrue result → HoldsValue i len held.now }
    ensures no { HoldsValue i len held.now → IsTrue result }
{
    if i >= held.count() {
        return false;
    }
    match held.view().attr(i).value() {
        Some(value) => len <= value.len(),
        None => false,
    }
}

// Whether such a value stands at this place of a file.
fn has_value(file: &FileParts, place: PartPlace, len: usize) -> bool
    ensures yes { IsTrue result → RecordHeld file.now place.record (HoldsValue place.attribute len) }
    ensures no { RecordHeld file.now place.record (HoldsValue place.attribute len) → IsTrue result }
{
    let records = file.records();
    if place.record >= records.len() {
        return false;
    }
    holds_value(&records[place.record], place.attribute, len)
}

// Cuts the value at this place of a file to so many bytes, where it has as many, and stages its record.
fn cut_value<D: Disk>(
    mft: &mut Mft<'_, D>,
    file: &mut FileParts,
    place: PartPlace,
    len: usize,
) -> Result<(), FileNo>
    requires few { len ≤ 65536 }
    requires mirror { IsMirrorInside (mounted_of D.Disk mft.old) }
    requires sound { is_mft_broken D.Disk mft.old ≡ false }
    ensures cut { OnOk result (IsTrue (view D.Disk mft.old).told → IsApart (view D.Disk mft.old).layout
        → IsWholeFile (view D.Disk mft.old) file.old → RecordHeld file.old place.record (HoldsValue place.attribute len)
        → RecordHeld file.old place.record (λ held. 1024 * held.number + 1024 ≤ (view D.Disk mft.old).layout.initialized
        → ResizesAttribute (view D.Disk mft.old) (view D.Disk mft.new) held.number place.attribute len)) }
    ensures held { OnOk result (IsTrue (view D.Disk mft.old).told → IsApart (view D.Disk mft.old).layout
        → IsWholeFile (view D.Disk mft.old) file.old
        → RecordHeld file.old place.record (λ held. 1024 * held.number + 1024 ≤ (view D.Disk mft.old).layout.initialized)
        → IsWholeFile (view D.Disk mft.new) file.new) }
    ensures same { HoldsSame file.old file.new }
    ensures places { IfSome (slice_get (held_of file.old) place.record) (λ held.
        StagesOnly D.Disk (record_places (view D.Disk mft.old).layout held.number) (stage_of D.Disk mft.old) (stage_of D.Disk mft.new)) }
    ensures disk { KeepsDisk D.Disk mft.old mft.new }
    ensures memory { IfErr result (λ no. no ≡ FileNo.Memory) }
    ensures faults { faults_of D.Disk mft.new ≡ faults_of D.Disk mft.old }
{
    if !has_value(file, place, len) {
        return Ok(());
    }
    file.resize_attribute(mft, place.record, place.attribute, len)
}

/// Puts bytes in the place of a value of a file that has as many, or more, and stages its record.
///
/// # Errors
///
/// `Memory`. Whoever called gives up what was staged.
pub fn set_value<D: Disk>(
    mft: &mut Mft<'_, D>,
    file: &mut FileParts,
    place: PartPlace,
    value: &[u8],
) -> Result<(), FileNo>
    requires place { RecordHeld file.old place.record (HoldsValue place.attribute (length value.now)) }
    requires mirror { IsMirrorInside (mounted_of D.Disk mft.old) }
    requires sound { is_mft_broken D.Disk mft.old ≡ false }
    ensures set { OnOk result (IsTrue (view D.Disk mft.old).told → IsApart (view D.Disk mft.old).layout
        → IsWholeFile (view D.Disk mft.old) file.old
        → RecordHeld file.old place.record (λ held. 1024 * held.number + 1024 ≤ (view D.Disk mft.old).layout.initialized
        → ChangesValue (view D.Disk mft.old) (view D.Disk mft.new) held.number place.attribute (λ was. value.now))) }
    ensures held { OnOk result (IsTrue (view D.Disk mft.old).told → IsApart (view D.Disk mft.old).layout
        → IsWholeFile (view D.Disk mft.old) file.old
        → RecordHeld file.old place.record (λ held. 1024 * held.number + 1024 ≤ (view D.Disk mft.old).layout.initialized)
        → IsWholeFile (view D.Disk mft.new) file.new) }
    ensures same { HoldsSame file.old file.new }
    ensures places { IfSome (slice_get (held_of file.old) place.record) (λ held.
        StagesOnly D.Disk (record_places (view D.Disk mft.old).layout held.number) (stage_of D.Disk mft.old) (stage_of D.Disk mft.new)) }
    ensures disk { KeepsDisk D.Disk mft.old mft.new }
    ensures memory { IfErr result (λ no. no ≡ FileNo.Memory) }
    ensures faults { faults_of D.Disk mft.new ≡ faults_of D.Disk mft.old }
{
    file.put_in_value(mft, place.record, place.attribute, 0, value)?;
    cut_value(mft, file, place, value.len())
}
