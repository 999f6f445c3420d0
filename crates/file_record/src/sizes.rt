//! The sizes of a stream, in the record that holds its first extent.
ghost use Rattle.std.specs.Prelude.{◌≡◌, ◌+◌, ◌*◌, ◌<◌, ◌≤◌, IfErr, IsSome, IsTrue, OnErr, OnOk, false, length};
ghost use Rattle.ntfs_def.specs.Attribute.{attributes, run_text_of};
ghost use Rattle.ntfs_def.specs.Shape.{HasShape};
ghost use Rattle.attr_view.specs.Sizes.{SetsSizes};
ghost use Rattle.attr_view.specs.Values.{attribute_in};
ghost use Rattle.volume_def.specs.Coverage.{IsApart};
ghost use Rattle.mft_table.specs.Mft.{MftReserves, MftStages, is_mft_broken, mounted_of, view};
ghost use Rattle.mft_table.specs.MirrorClusters.{IsMirrorInside};
ghost use Rattle.mft_table.specs.Staging.{record_places};
ghost use Rattle.file_record.specs.Held.{parts_held};
ghost use Rattle.file_record.specs.Links.{HoldsSame};
ghost use Rattle.file_record.specs.Sizes.{IsExtent, WritesSizes};
ghost use Rattle.file_record.specs.Written.{IsWholeFile, PartHeld};

use crate::{FileNo, FileParts, Held};
use attr_view::RecordMut;
use mft_table::Mft;
use vol_disk::Disk;

// Sets the real and the initialized size of attribute i of a record.
fn set_sizes_in(block: &mut [u8; 1024], i: usize, real: u64, initialized: u64)
    requires shape { HasShape block.old (length (attributes block.old)) }
    requires within { i < length (attributes block.old) }
    requires extent { IsSome (run_text_of (attribute_in block.old i).body) }
    ensures { SetsSizes block.old block.new i real initialized }
{
    match RecordMut::new(block) {
        Ok(mut record) => record.set_sizes(i, real, initialized),
        Err(_) => unreachable!(),
    }
}

impl Held {
    // Sets the real and the initialized size of attribute i.
    fn set_sizes(&mut self, i: usize, real: u64, initialized: u64)
        requires within { i < length (attributes self.old.block) }
        requires extent { IsSome (run_text_of (attribute_in self.old.block i).body) }
        ensures number { self.new.number ≡ self.old.number }
        ensures count { self.new.count ≡ self.old.count }
        ensures set { SetsSizes self.old.block self.new.block i real initialized }
    {
        set_sizes_in(&mut self.block, i, real, initialized);
    }
}

impl FileParts {
    /// Sets the real and the initialized size of a stream, in bytes, in the header of part `i`, its first extent, and stages the
    /// record, with its copy where the mirror has one. No other byte changes, and the parts are those of the image then. The
    /// sizes in the header of a later extent say nothing of the stream.
    ///
    /// # Errors
    ///
    /// `Memory` where there is none for four more staged sectors. Nothing is staged, and of what is held only the numbers are told.
    pub fn set_sizes<D: Disk>(
        &mut self,
        mft: &mut Mft<'_, D>,
        i: usize,
        real: u64,
        initialized: u64,
    ) -> Result<(), FileNo>
        requires there { i < length (parts_held self.old) }
        requires extent { PartHeld self.old i IsExtent }
        requires mirror { IsMirrorInside (mounted_of D.Disk mft.old) }
        requires sound { is_mft_broken D.Disk mft.old ≡ false }
        ensures written { OnOk result (IsTrue (view D.Disk mft.old).told → IsApart (view D.Disk mft.old).layout
            → IsWholeFile (view D.Disk mft.old) self.old
            → PartHeld self.old i (λ part. 1024 * part.holder + 1024 ≤ (view D.Disk mft.old).layout.initialized
            → WritesSizes (view D.Disk mft.old) (view D.Disk mft.new) part real initialized)) }
        ensures held { OnOk result (IsTrue (view D.Disk mft.old).told → IsApart (view D.Disk mft.old).layout
            → IsWholeFile (view D.Disk mft.old) self.old
            → PartHeld self.old i (λ part. 1024 * part.holder + 1024 ≤ (view D.Disk mft.old).layout.initialized)
            → IsWholeFile (view D.Disk mft.new) self.new) }
        ensures same { HoldsSame self.old self.new }
        ensures stages { OnOk result (PartHeld self.old i (λ part.
            MftStages D.Disk (record_places (view D.Disk mft.old).layout part.holder) 4 mft.old mft.new)) }
        ensures kept { OnErr result (MftReserves D.Disk mft.old mft.new) }
        ensures memory { IfErr result (λ no. no ≡ FileNo.Memory) }
    {
        let place = self.place_of(i);
        let held = &mut self.held[place.record];
        held.set_sizes(place.attribute, real, initialized);
        held.stage(mft)
    }
}
