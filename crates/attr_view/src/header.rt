//! The fields of a record's header that an owner chooses.
ghost use Rattle.std.specs.Prelude.{◌≡◌};
ghost use Rattle.ntfs_def.specs.Record.{base_in, header_of};
ghost use Rattle.attr_view.specs.View.{viewed_block};

use crate::{RecordHeader, RecordView};
use ntfs_def::record_header::{BASE, FLAGS, LINKS, SEQUENCE};
use vol_bytes::{u16_at, u64_at};

#[tactic(auto, unfolding(ntfs_def::specs::Record::header_of))]
impl<'r> RecordView<'r> {
    /// The fields of the header that an owner chooses.
    pub fn header(&self) -> RecordHeader
        ensures sequence { result.sequence ≡ (header_of (viewed_block self.now)).sequence }
        ensures links { result.links ≡ (header_of (viewed_block self.now)).links }
        ensures flags { result.flags ≡ (header_of (viewed_block self.now)).flags }
        ensures base { base_in result.base ≡ (header_of (viewed_block self.now)).base }
    {
        RecordHeader {
            sequence: u16_at(self.block, SEQUENCE),
            links: u16_at(self.block, LINKS),
            flags: u16_at(self.block, FLAGS),
            base: u64_at(self.block, BASE),
        }
    }
}
