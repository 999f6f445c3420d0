//! The numbers of an extent that is cut, or goes on, and its header with them.
ghost use Rattle.std.specs.Prelude.{◌≡◌, ◌+◌, ◌*◌, ◌<◌, ◌≤◌, ◌^◌, IfNone, IfSome, OnOk, false, length, sum_by};
ghost use Rattle.ntfs_def.specs.Attribute.{has_compressed_len, is_compressed_or_sparse};
ghost use Rattle.ntfs_def.specs.Rounded.{clusters_for};
ghost use Rattle.ntfs_def.specs.Runs.{IsRunList, total_clusters};
ghost use Rattle.volume_def.specs.ExtentsClause.{last_vcn_of};
ghost use Rattle.edit_def.specs.Purses.{run_size};
ghost use Rattle.extent_edits.specs.Numbers.{CanEnd, CanHave, PutsHeader, PutsNumbers, extent_header_len, sizes_at_end, sizes_over};

use attr_view::Sizes;
use data_runs::Run;
use ntfs_def::{SPARSE, attribute_header};
use vol_bytes::{put_u32, put_u64, u16_at, u64_at};

/// Where the first extent of a compressed or sparse stream has one number more: the bytes of the clusters that are no hole.
const COMPRESSED: usize = 0x40;

/// The clusters that so many bytes fill, where a cluster has `size` bytes.
pub fn clusters_for(bytes: u64, size: u64) -> u64
    requires { 0 < size }
    ensures { result ≡ clusters_for bytes size }
{
    bytes.div_ceil(size)
}

// The number of the last of so many clusters.
fn last_vcn_of(clusters: u64) -> u64
    ensures { result ≡ last_vcn_of clusters }
{
    if clusters == 0 {
        u64::MAX
    } else {
        clusters - 1
    }
}

/// The numbers of an extent that ends behind `size` bytes, of so many clusters in all, where a cluster has `cluster` bytes. `None` exactly
/// where it cannot end there.
pub fn sizes_at_end(sizes: &Sizes, total: u64, cluster: u64, size: u64) -> Option<Sizes>
    requires { 0 < cluster }
    ensures some { IfSome result (λ now. now ≡ sizes_at_end sizes.now cluster size) }
    ensures can { IfSome result (λ now. CanEnd sizes.now total cluster size) }
    ensures none { IfNone result (¬ (CanEnd sizes.now total cluster size)) }
{
    let clusters = clusters_for(size, cluster);
    if sizes.first != 0 || sizes.real < size || total < clusters {
        return None;
    }
    let allocated = clusters.checked_mul(cluster)?;
    Some(Sizes {
        allocated,
        real: size,
        initialized: sizes.initialized.min(size),
        first: 0,
        last: last_vcn_of(clusters),
    })
}

/// The numbers of an extent of so many clusters, where a cluster has `cluster` bytes, with these two sizes. `None` exactly where it begins
/// behind cluster 0, or its clusters have 2^64 bytes or more.
pub fn sizes_over(
    sizes: &Sizes,
    total: u64,
    cluster: u64,
    real: u64,
    initialized: u64,
) -> Option<Sizes>
    ensures some { IfSome result (λ now. now ≡ sizes_over total cluster real initialized) }
    ensures can { IfSome result (λ now. CanHave sizes.now total cluster) }
    ensures none { IfNone result (¬ (CanHave sizes.now total cluster)) }
{
    if sizes.first != 0 {
        return None;
    }
    let allocated = total.checked_mul(cluster)?;
    Some(Sizes {
        allocated,
        real,
        initialized,
        first: 0,
        last: last_vcn_of(total),
    })
}

fn is_compressed_or_sparse(flags: u16) -> bool
    ensures { result ≡ is_compressed_or_sparse flags }
{
    flags % 256 != 0 || flags >= SPARSE
}

/// Whether the header of an extent has one number more.
pub fn has_compressed_len(bytes: &[u8]) -> bool
    requires { 0x18 ≤ length bytes.now }
    ensures { result ≡ has_compressed_len bytes.now 0 }
{
    u64_at(bytes, attribute_header::FIRST) == 0
        && is_compressed_or_sparse(u16_at(bytes, attribute_header::FLAGS))
}

/// The clusters of runs that are no hole.
pub fn stored_clusters(runs: &[Run]) -> u64
    requires { IsRunList runs.now }
    ensures sum { result ≡ sum_by run_size runs.now }
    ensures few { result ≤ total_clusters runs.now }
{
    let mut stored = 0;
    'runs: for run in runs {
        if run.lcn.is_some() {
            stored += run.len;
        }
    }
    stored
}

// Writes the numbers that every extent has.
fn put_sizes(bytes: &mut [u8], sizes: &Sizes)
    requires { 64 ≤ length bytes.old }
    ensures { PutsNumbers bytes.old bytes.new sizes.now false 0 }
{
    put_u64(bytes, attribute_header::LAST, sizes.last);
    put_u64(bytes, attribute_header::ALLOCATED, sizes.allocated);
    put_u64(bytes, attribute_header::REAL, sizes.real);
    put_u64(bytes, attribute_header::INITIALIZED, sizes.initialized);
}

/// Writes the numbers of an extent into its header, but for its first cluster, and `stored` where it has one number more.
pub fn put_numbers(bytes: &mut [u8], sizes: &Sizes, more: bool, stored: u64)
    requires { extent_header_len more ≤ length bytes.old }
    ensures { PutsNumbers bytes.old bytes.new sizes.now more stored }
{
    put_sizes(bytes, sizes);
    if more {
        put_u64(bytes, COMPRESSED, stored);
    }
}

/// Writes the length of an extent and its numbers into its header, as `put_numbers` does.
pub fn put_header(bytes: &mut [u8], sizes: &Sizes, more: bool, stored: u64)
    requires inside { extent_header_len more ≤ length bytes.old }
    requires few { length bytes.old < 2 ^ 32 }
    ensures { PutsHeader bytes.old bytes.new sizes.now more stored }
{
    let len = bytes.len() as u32;
    put_u32(bytes, attribute_header::LEN, len);
    put_numbers(bytes, sizes, more, stored);
}
