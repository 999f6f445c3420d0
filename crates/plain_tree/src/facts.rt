//! What an image tells beside its tree, laid out plainly.

/// The numbers of `df`: all clusters, those without an owner, all records, and those from 24 on that are not in use.
#[derive(Clone, Copy, Debug)]
pub struct PlainFacts {
    pub clusters: u64,
    pub free: u64,
    pub records: u64,
    pub free_records: u64,
}
