//! The count of a file's links, in its base record.
ghost use Rattle.std.specs.Prelude.{◌≡◌, ◌+◌, ◌*◌, ◌<◌, ◌≤◌, ℕ, IfErr, IfNone, IfSome, IsTrue, List, OnErr, OnOk, false, get_or, length};
ghost use Rattle.ntfs_def.specs.Attribute.{attributes};
ghost use Rattle.ntfs_def.specs.Shape.{HasShape};
ghost use Rattle.volume_def.specs.Coverage.{IsApart};
ghost use Rattle.volume_edits.specs.Rewritten.{CountsLinks};
ghost use Rattle.mft_table.specs.Mft.{MftReserves, MftStages, is_mft_broken, mounted_of, view};
ghost use Rattle.mft_table.specs.MirrorClusters.{IsMirrorInside};
ghost use Rattle.mft_table.specs.Staging.{record_places};
ghost use Rattle.file_record.specs.declared.held.Held.{Held};
ghost use Rattle.file_record.specs.Held.{file_number, held_of};
ghost use Rattle.file_record.specs.Links.{HoldsBase, HoldsSame, SetsLinks};
ghost use Rattle.file_record.specs.Written.{IsWholeFile};

use crate::{FileNo, FileParts, Held};
use attr_view::{RecordHeader, RecordMut};
use mft_table::Mft;
use vol_disk::Disk;

// Counts so many links in a record.
#[tactic(auto, unfolding(ntfs_def::specs::Record::header_of))]
fn set_links_in(block: &mut [u8; 1024], links: u16)
    requires { HasShape block.old (length (attributes block.old)) }
    ensures { SetsLinks block.old block.new links }
{
    match RecordMut::new(block) {
        Ok(mut record) => {
            let header = record.view().header();
            record.set_header(RecordHeader { links, ..header });
        }
        Err(_) => unreachable!(),
    }
}

impl Held {
    // Counts so many links.
    fn set_links(&mut self, links: u16)
        ensures number { self.new.number ≡ self.old.number }
        ensures count { self.new.count ≡ self.old.count }
        ensures set { SetsLinks self.old.block self.new.block links }
    {
        set_links_in(&mut self.block, links);
    }
}

impl FileParts {
    // Where the base record is held.
    pub(crate) fn base_place(&self) -> Option<usize>
        ensures inside { IfSome result (λ place. place < length (held_of self.now)) }
        ensures base { IfSome result (λ place. (d : Held) → (get_or (held_of self.now) place d).number ≡ file_number self.now) }
        ensures none { IfNone result (¬ (HoldsBase self.now)) }
    {
        for (place, held) in self.held.iter().enumerate() {
            if held.number == self.number {
                return Some(place);
            }
        }
        None
    }

    /// Counts so many links in the base record, and stages the record, with its copy where the mirror has one. All else of its
    /// header and all attributes stay, and the parts are those of the image then. Where the base record is not held, as where it
    /// could not be read, nothing is done; of a whole file on a volume whose files can be read it is held (`base_law`).
    ///
    /// # Errors
    ///
    /// `Memory` where there is none for four more staged sectors. Nothing is staged, and of what is held only the numbers are told.
    pub fn set_links<D: Disk>(&mut self, mft: &mut Mft<'_, D>, links: u16) -> Result<(), FileNo>
        requires mirror { IsMirrorInside (mounted_of D.Disk mft.old) }
        requires sound { is_mft_broken D.Disk mft.old ≡ false }
        ensures written { OnOk result (IsTrue (view D.Disk mft.old).told → IsApart (view D.Disk mft.old).layout
            → IsWholeFile (view D.Disk mft.old) self.old → HoldsBase self.old
            → 1024 * file_number self.old + 1024 ≤ (view D.Disk mft.old).layout.initialized
            → (stored : List ℕ) × CountsLinks (view D.Disk mft.old) (view D.Disk mft.new) (file_number self.old) stored links) }
        ensures held { OnOk result (IsTrue (view D.Disk mft.old).told → IsApart (view D.Disk mft.old).layout
            → IsWholeFile (view D.Disk mft.old) self.old → HoldsBase self.old
            → 1024 * file_number self.old + 1024 ≤ (view D.Disk mft.old).layout.initialized
            → IsWholeFile (view D.Disk mft.new) self.new) }
        ensures absent { ¬ (HoldsBase self.old) → MftReserves D.Disk mft.old mft.new }
        ensures same { HoldsSame self.old self.new }
        ensures stages { OnOk result
            (MftStages D.Disk (record_places (view D.Disk mft.old).layout (file_number self.old)) 4 mft.old mft.new) }
        ensures kept { OnErr result (MftReserves D.Disk mft.old mft.new) }
        ensures memory { IfErr result (λ no. no ≡ FileNo.Memory) }
    {
        let Some(place) = self.base_place() else {
            return Ok(());
        };
        let held = &mut self.held[place];
        held.set_links(links);
        held.stage(mft)
    }
}
