//! Streams that are too long, as a pass over the table notes them.
ghost use Rattle.std.specs.Prelude.{◌≡◌, ◌+◌, Some};
ghost use Rattle.volume_def.specs.Files.{Records, record_of};
ghost use Rattle.attr_view.specs.View.{viewed_block};
ghost use Rattle.record_notes.specs.Limits.{IsLongIn, LongNote};

use crate::least::least_of;
use crate::names::file_of;
use attr_view::RecordView;
use file_clauses::are_in_limits;

/// The files with a stream that is too long: the least of them is noted.
#[derive(Clone, Copy, Debug)]
pub struct LongStreams {
    least: Option<u64>,
}

// The file of record `n`, where the record holds an attribute that tells a stream that is too long.
fn long_in(n: u64, view: &RecordView<'_>) -> Option<u64>
    ensures { (records : Records) → records.record_at n ≡ Some (record_of n (viewed_block view.now)) → IsLongIn records n result }
{
    let file = file_of(n, view);
    if are_in_limits(file, view) {
        return None;
    }
    Some(file)
}

impl LongStreams {
    /// Of no record yet.
    pub fn new() -> LongStreams
        ensures { (records : Records) → LongNote records 0 result }
    {
        LongStreams { least: None }
    }

    /// Notes record `n`, which is in use.
    pub fn note(&mut self, n: u64, view: &RecordView<'_>)
        ensures { (records : Records) → records.record_at n ≡ Some (record_of n (viewed_block view.now))
            → LongNote records n self.old → LongNote records (n + 1) self.new }
    {
        let long = long_in(n, view);
        self.least = least_of(self.least, long);
    }

    /// The least file of which a record that was noted holds an attribute that tells a stream that is too long.
    pub fn least(&self) -> Option<u64>
        ensures { result ≡ self.now.least }
    {
        self.least
    }
}
