//! `df`: clusters and records, and how many of both are free, by the bits that are kept of a volume.
ghost use Rattle.std.specs.Prelude.{◌≡◌, count_by, drop, length, not};
ghost use Rattle.ntfs_def.specs.declared.records.TheConstants.{FIRST_ORDINARY};
ghost use Rattle.tree_model.specs.declared.reply.Answer.TheVariants as a;

use cluster_bitmap::Bits;
use mft_table::Mounted;
use ntfs_def::records::FIRST_ORDINARY;
use tree_model::Answer;

/// The flags that are free from record 24 on.
pub fn free_records(records: &Bits) -> u64
    ensures { result ≡ count_by not (drop FIRST_ORDINARY records.now) }
{
    let mut free = records.count_free();
    for number in 0..FIRST_ORDINARY.min(records.count()) {
        if !records.is_set(number) {
            free -= 1;
        }
    }
    free
}

/// All clusters, those that are free, all records, and those from 24 on that are free.
pub fn df(mounted: &Mounted) -> Answer
    ensures { result ≡ a.Df (length mounted.now.clusters) (count_by not mounted.now.clusters) (length mounted.now.records)
        (count_by not (drop FIRST_ORDINARY mounted.now.records)) }
{
    Answer::Df {
        clusters: mounted.clusters.count(),
        free: mounted.clusters.count_free(),
        records: mounted.records.count(),
        free_records: free_records(&mounted.records),
    }
}
