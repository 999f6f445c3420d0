//! Bytes of a value that are written in the record that holds it.
ghost use Rattle.std.specs.Prelude.{◌≡◌, ◌+◌, ◌*◌, ◌<◌, ◌≤◌, IfErr, IsSomeAnd, IsTrue, OnErr, OnOk, false, length};
ghost use Rattle.ntfs_def.specs.Attribute.{attributes, value_of};
ghost use Rattle.ntfs_def.specs.Shape.{HasShape};
ghost use Rattle.attr_view.specs.Values.{WritesValue, attribute_in};
ghost use Rattle.volume_def.specs.Coverage.{IsApart};
ghost use Rattle.mft_table.specs.Mft.{MftReserves, MftStages, is_mft_broken, mounted_of, view};
ghost use Rattle.mft_table.specs.MirrorClusters.{IsMirrorInside};
ghost use Rattle.mft_table.specs.Staging.{record_places};
ghost use Rattle.file_record.specs.Held.{parts_held};
ghost use Rattle.file_record.specs.Links.{HoldsSame};
ghost use Rattle.file_record.specs.Written.{HoldsBytes, IsWholeFile, PartHeld, StagesHeld, WritesBytes};

use crate::{FileNo, FileParts, Held};
use attr_view::RecordMut;
use mft_table::Mft;
use vol_disk::Disk;

// Writes bytes into the value of attribute i of a record, from its byte `at` on.
pub(crate) fn write_value_in(block: &mut [u8; 1024], i: usize, at: usize, from: &[u8])
    requires shape { HasShape block.old (length (attributes block.old)) }
    requires within { i < length (attributes block.old) }
    requires inside { IsSomeAnd (value_of (attribute_in block.old i).body) (λ value. at + length from.now ≤ length value) }
    ensures { WritesValue block.old block.new from.now i at }
{
    match RecordMut::new(block) {
        Ok(mut record) => record.write_value(i, at, from),
        Err(_) => unreachable!(),
    }
}

impl Held {
    // Writes bytes into the value of attribute i, from its byte `at` on.
    fn write_value(&mut self, i: usize, at: usize, from: &[u8])
        requires within { i < length (attributes self.old.block) }
        requires inside { IsSomeAnd (value_of (attribute_in self.old.block i).body) (λ value. at + length from.now ≤ length value) }
        ensures number { self.new.number ≡ self.old.number }
        ensures count { self.new.count ≡ self.old.count }
        ensures written { WritesValue self.old.block self.new.block from.now i at }
    {
        write_value_in(&mut self.block, i, at, from);
    }

    // Seals the record and stages it. One past the table is none of a volume that is told.
    pub(crate) fn stage<D: Disk>(&self, mft: &mut Mft<'_, D>) -> Result<(), FileNo>
        requires mirror { IsMirrorInside (mounted_of D.Disk mft.old) }
        requires sound { is_mft_broken D.Disk mft.old ≡ false }
        ensures staged { OnOk result (StagesHeld (view D.Disk mft.old) (view D.Disk mft.new) self.now.number self.now.block) }
        ensures stages { OnOk result (MftStages D.Disk (record_places (view D.Disk mft.old).layout self.now.number) 4 mft.old mft.new) }
        ensures kept { OnErr result (MftReserves D.Disk mft.old mft.new) }
        ensures memory { IfErr result (λ no. no ≡ FileNo.Memory) }
    {
        if self.number >= mft.mounted().records.count() {
            return Ok(());
        }
        match mft.write_record(self.number, &self.block) {
            Ok(()) => Ok(()),
            Err(_) => Err(FileNo::Memory),
        }
    }
}

impl FileParts {
    /// Writes bytes over those of part `i`, whose value stands in its record, from the value's byte `at` on, and stages the
    /// record, with its copy where the mirror has one. No other byte changes, and the parts are those of the image then.
    ///
    /// # Errors
    ///
    /// `Memory` where there is none for four more staged sectors. Nothing is staged, and of what is held only the numbers are told.
    pub fn write_bytes<D: Disk>(
        &mut self,
        mft: &mut Mft<'_, D>,
        i: usize,
        at: usize,
        from: &[u8],
    ) -> Result<(), FileNo>
        requires there { i < length (parts_held self.old) }
        requires inside { PartHeld self.old i (HoldsBytes at (length from.now)) }
        requires mirror { IsMirrorInside (mounted_of D.Disk mft.old) }
        requires sound { is_mft_broken D.Disk mft.old ≡ false }
        ensures written { OnOk result (IsTrue (view D.Disk mft.old).told → IsApart (view D.Disk mft.old).layout
            → IsWholeFile (view D.Disk mft.old) self.old
            → PartHeld self.old i (λ part. 1024 * part.holder + 1024 ≤ (view D.Disk mft.old).layout.initialized
            → WritesBytes (view D.Disk mft.old) (view D.Disk mft.new) part at from.now)) }
        ensures held { OnOk result (IsTrue (view D.Disk mft.old).told → IsApart (view D.Disk mft.old).layout
            → IsWholeFile (view D.Disk mft.old) self.old
            → PartHeld self.old i (λ part. 1024 * part.holder + 1024 ≤ (view D.Disk mft.old).layout.initialized)
            → IsWholeFile (view D.Disk mft.new) self.new) }
        ensures same { HoldsSame self.old self.new }
        ensures stages { OnOk result (PartHeld self.old i (λ part.
            MftStages D.Disk (record_places (view D.Disk mft.old).layout part.holder) 4 mft.old mft.new)) }
        ensures kept { OnErr result (MftReserves D.Disk mft.old mft.new) }
        ensures memory { IfErr result (λ no. no ≡ FileNo.Memory) }
    {
        let place = self.place_of(i);
        let held = &mut self.held[place.record];
        held.write_value(place.attribute, at, from);
        held.stage(mft)
    }
}
