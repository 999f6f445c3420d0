//! What is noted of the value of a stream.
ghost use Rattle.std.specs.Prelude.{◌≡◌, ◌↔◌, List, None, Some, IfNone, IfSome, IsSomeAnd, IsTrue, min};
ghost use Rattle.volume_def.specs.BitmapClauses.{written_by};
ghost use Rattle.volume_def.specs.Files.{Part, content_value};
ghost use Rattle.volume_def.specs.StreamSize.{told_size};
ghost use Rattle.volume_def.specs.Values.{IsPlain, first_part};
ghost use Rattle.record_notes.specs.Streams.{NotesStream, spot_noted};

use crate::streams::StreamNote;
use ntfs_def::Spot;

impl StreamNote {
    /// Whether there is such a stream, and it is not packed.
    pub fn is_plain(&self) -> bool
        ensures { (extents : List Part) → NotesStream extents self.now → IsTrue result ↔ IsPlain extents }
    {
        match &self.first {
            Some(first) => !first.packed,
            None => false,
        }
    }

    /// The bytes of the value; none where there is no such stream.
    pub fn value_len(&self) -> u64
        ensures { (extents : List Part) → NotesStream extents self.now → result ≡ told_size (first_part extents) }
    {
        match &self.first {
            Some(first) => first.len,
            None => 0,
        }
    }

    /// The bytes of the value that were written.
    pub fn written_len(&self) -> u64
        ensures { (extents : List Part) → NotesStream extents self.now
            → result ≡ min (told_size (first_part extents)) (written_by (first_part extents)) }
    {
        match &self.first {
            Some(first) => first.len.min(first.written),
            None => 0,
        }
    }

    /// The value, where it stands in a record.
    pub fn resident(&self) -> Option<&[u8]>
        ensures some { IfSome result (λ value. (extents : List Part) → NotesStream extents self.now
            → IsSomeAnd (first_part extents) (λ part. content_value part.content ≡ Some value.now)) }
        ensures none { IfNone result ((extents : List Part) → NotesStream extents self.now
            → IfSome (first_part extents) (λ part. content_value part.content ≡ None)) }
    {
        let Some(first) = &self.first else {
            return None;
        };
        match &first.value {
            Some(value) => Some(value.as_slice()),
            None => None,
        }
    }

    /// Where a cluster of the stream lies; `Outside` past the last that is noted.
    pub fn spot(&self, vcn: u64) -> Spot
        ensures { result ≡ spot_noted self.now vcn }
    {
        self.spots.at(vcn)
    }
}
