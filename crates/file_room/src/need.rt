//! What a command needs, by the numbers of its bill.
ghost use Rattle.std.specs.Prelude.{◌≡◌, ◌≤◌, ◌<◌, ◌+◌, ◌*◌, ◌^◌, ℕ, Bool};
ghost use Rattle.ntfs_def.specs.Rounded.{clusters_for};
ghost use Rattle.tree_model.specs.Need.{Bill, Touched, list_clusters, list_growth, need_of, parts_wanted, records_wanted, table_growth};
ghost use Rattle.file_room.specs.Asked.{HasFew, IsListed, IsWanted, bill_by, lists_of, made_by};

use crate::list::ListRoom;
use ntfs_def::lengths::{INDEX_RECORD, RECORD};

// The records that a command may take for each file that it touches, beside one for each cluster of its stream.
const RECORDS: u64 = 8;

// The parts that it may add to a file, beside one for each of these clusters.
const PARTS: u64 = 8;

// The levels that an entry of an index may add, beside those of the index.
const LEVELS: u64 = 3;

/// What the bill of a command has, as far as its sums go by that.
#[derive(Clone, Copy, Debug)]
pub struct Wanted {
    /// The records that the command may take.
    pub records: u64,
    /// The parts that it may add to a file.
    pub parts: u64,
    /// The clusters of its stream, and of the records of an index that its entries may take.
    pub clusters: u64,
}

impl Wanted {
    /// Of a command that changes one file, whose stream may come to own so many clusters.
    pub fn of_stream(clusters: u64) -> Wanted
        requires { clusters ≤ 2 ^ 41 }
        ensures is { (size f : ℕ) (room : ListRoom) → IsWanted size (bill_by f room clusters) result }
        ensures few { HasFew result }
    {
        Wanted {
            records: RECORDS + clusters,
            parts: PARTS + clusters,
            clusters,
        }
    }

    /// Of one that makes a file, or a directory, under a name in a directory whose index is so deep, where a cluster has so many bytes. It
    /// touches two files.
    pub fn of_name(size: u64, depth: u64) -> Wanted
        requires some { 0 < size }
        requires few { depth ≤ 16 }
        ensures is { (directory : Bool) (f : ℕ) (room : ListRoom) → IsWanted size (made_by directory f room depth) result }
        ensures few { HasFew result }
    {
        let levels = depth + LEVELS;
        Wanted {
            records: 1 + 2 * RECORDS + 2 * levels,
            parts: PARTS + 2 * levels,
            clusters: clusters_for(INDEX_RECORD as u64, size) * levels,
        }
    }
}

/// The clusters of so many bytes that so many bytes fill.
pub fn clusters_for(bytes: u64, size: u64) -> u64
    requires { 0 < size }
    ensures clusters { result ≡ clusters_for bytes size }
    ensures few { result ≤ bytes }
{
    bytes.div_ceil(size)
}

/// The bytes by which the list of a file may grow that may get so many parts.
pub fn list_growth(room: ListRoom, parts: u64) -> u64
    requires few { parts ≤ 2 ^ 42 }
    requires short { room.name_units ≤ 512 }
    ensures growth { (bill : Bill) (touched : Touched) → parts ≡ parts_wanted bill → IsListed room touched
        → result ≡ list_growth bill touched }
    ensures few { result ≤ 2 ^ 53 }
{
    parts * (32 + 2 * room.name_units)
}

/// The clusters that the list may then fill.
pub fn list_clusters(size: u64, room: ListRoom, parts: u64) -> u64
    requires some { 0 < size }
    requires few { parts ≤ 2 ^ 42 }
    requires names { room.name_units ≤ 512 }
    requires short { room.len ≤ 2 ^ 43 }
    ensures clusters { (bill : Bill) (touched : Touched) → parts ≡ parts_wanted bill → IsListed room touched
        → result ≡ list_clusters size bill touched }
    ensures few { result ≤ 2 ^ 54 }
{
    clusters_for(room.len + list_growth(room, parts), size) + 1
}

/// The clusters by which the table of records may grow, and its bitmap, where so many records are free.
pub fn table_growth(size: u64, free: u64, records: u64) -> u64
    requires some { 0 < size }
    requires few { records ≤ 2 ^ 42 }
    ensures growth { (bill : Bill) → records ≡ records_wanted bill → result ≡ table_growth size free bill }
    ensures few { result * size ≤ 2 ^ 53 + 4 * size }
{
    if records <= free {
        return 0;
    }
    clusters_for(records * RECORD as u64, size) + 2
}

/// The clusters that have to be free, beside those of the lists.
pub fn need_of(size: u64, free: u64, wanted: Wanted, lists: u64) -> u64
    requires some { 0 < size }
    requires few { HasFew wanted }
    requires short { lists ≤ 2 ^ 55 }
    ensures { (bill : Bill) → IsWanted size bill wanted → lists ≡ lists_of size bill → result ≡ need_of size free bill }
{
    wanted.clusters + lists + table_growth(size, free, wanted.records)
}
