//! The clause on limits, from the streams that are noted to be too long.
ghost use Rattle.std.specs.Prelude.{ℕ};
ghost use Rattle.volume_def.specs.Files.{records_of};
ghost use Rattle.volume_def.specs.LimitsClause.{MeetsLimits};
ghost use Rattle.volume_def.specs.ReferencesClause.{MeetsReferences};
ghost use Rattle.volume_def.specs.View.{VolumeView};
ghost use Rattle.list_laws.specs.Least.{IsLeastFailing};
ghost use Rattle.record_notes.specs.Limits.{LongNote};

use record_notes::LongStreams;

/// The least file that has a stream of more than 2^40 bytes, that of the bad clusters aside, S15. Its base record is in use, as
/// the clause on references asks.
pub fn first_long_file(long: &LongStreams) -> Option<u64>
    ensures { (view : VolumeView) → LongNote (records_of view) view.layout.count long.now
        → ((n : ℕ) → MeetsReferences (records_of view) n) → IsLeastFailing (MeetsLimits (records_of view)) result }
{
    long.least()
}
