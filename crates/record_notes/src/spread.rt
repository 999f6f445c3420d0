//! Files that have more than one record, or an attribute list, as a pass over the table notes them.
ghost use Rattle.std.specs.Prelude.{◌≡◌, ◌+◌, ◌≤◌, Some, OnOk, IfOk, filter, length, nat_lt};
ghost use Rattle.std.specs.List.Sorted.{IsNonDecreasingBy, IsPermutation};
ghost use Rattle.volume_def.specs.Files.{Records, record_of};
ghost use Rattle.attr_view.specs.View.{attributes_of, viewed_block};
ghost use Rattle.record_notes.specs.Heads.{EndsAtCount, HeadsNote};
ghost use Rattle.list_laws.specs.Least.{IsLeastFailing};
ghost use Rattle.record_notes.specs.Spread.{SpreadNote, extensions_of};
ghost use Rattle.record_notes.specs.Unlisted.{MeetsAlone};

use crate::Heads;
use crate::least::least_of;
use attr_view::RecordView;
use ntfs_def::reference::number_in;
use std::alloc::{AllocError, Global};

/// An extension record.
#[derive(Clone, Copy, Debug, PartialEq, Eq, PartialOrd, Ord)]
pub struct Extension {
    /// The file that it belongs to, by the number that its base reference has.
    pub file: u64,
    /// Its own number.
    pub number: u64,
}

/// Which files have more than one record, or an attribute list in their base record.
#[derive(Debug, Drop)]
pub struct SpreadFiles {
    /// The extension records in use, by rising number.
    pub extensions: Vec<Extension>,
    /// The base records in use that have an attribute list, by rising number.
    pub listed: Vec<u64>,
}

impl SpreadFiles {
    /// Of no record yet.
    pub fn new(alloc: Global) -> SpreadFiles
        ensures { (records : Records) → SpreadNote records 0 result }
    {
        SpreadFiles {
            extensions: Vec::new(alloc),
            listed: Vec::new(alloc),
        }
    }

    /// Notes record `n`, which is in use.
    ///
    /// # Errors
    ///
    /// Want of memory alone.
    pub fn note(&mut self, n: u64, view: &RecordView<'_>) -> Result<(), AllocError>
        ensures { OnOk result ((records : Records) → records.record_at n ≡ Some (record_of n (viewed_block view.now))
            → SpreadNote records n self.old → SpreadNote records (n + 1) self.new) }
    {
        let base = view.header().base;
        if base != 0 {
            self.extensions.push(Extension {
                file: number_in(base),
                number: n,
            })?;
        } else if view.has_list() {
            self.listed.push(n)?;
        }
        Ok(())
    }

    /// The least file without an attribute list to which another record belongs, once all records are noted. The clause on
    /// lists asks that there is none.
    pub fn first_spread_file(&self, heads: &Heads) -> Option<u64>
        ensures { (records : Records) → EndsAtCount records → HeadsNote records records.count heads.now
            → SpreadNote records records.count self.now → IsLeastFailing (MeetsAlone records) result }
    {
        let mut first = None;
        for extension in &self.extensions {
            if heads.is_unlisted(extension.file) {
                first = least_of(first, Some(extension.file));
            }
        }
        first
    }

    /// The extension records, sorted by their files.
    ///
    /// # Errors
    ///
    /// Want of memory alone.
    pub fn by_file(&self, alloc: Global) -> Result<Vec<Extension>, AllocError>
        ensures same { IfOk result (λ sorted. IsPermutation self.now.extensions.items sorted.items) }
        ensures rising { IfOk result (λ sorted. IsNonDecreasingBy (λ extension. extension.file) sorted.items) }
    {
        let mut sorted = Vec::with_capacity(alloc, self.extensions.len())?;
        sorted.extend_from_slice(&self.extensions)?;
        sorted.sort_unstable_by_key(|extension| extension.file);
        Ok(sorted)
    }
}

/// Of extension records that are sorted by their files, those of a file, and those of files behind it.
pub fn split_file(sorted: &[Extension], file: u64) -> (&[Extension], &[Extension])
    requires { IsNonDecreasingBy (λ extension. extension.file) sorted.now }
    ensures own { result.0.now ≡ extensions_of file sorted.now }
    ensures behind { result.1.now ≡ filter (λ extension. nat_lt file extension.file) sorted.now }
    ensures few { length result.0.now + length result.1.now ≤ length sorted.now }
{
    let start = sorted.partition_point(|extension| extension.file < file);
    let from = &sorted[start..];
    let own = from.partition_point(|extension| extension.file <= file);
    (&from[..own], &from[own..])
}
