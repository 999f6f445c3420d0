//! What the headers of records say, by the numbers of the records.
ghost use Rattle.std.specs.Prelude.{◌≡◌, ◌↔◌, ◌+◌, ℕ, Some, None, IsSomeAnd, IsTrue, OnOk, length};
ghost use Rattle.ntfs_def.specs.Record.{reference_in};
ghost use Rattle.volume_def.specs.Files.{Records, record_of};
ghost use Rattle.volume_def.specs.ReferencesClause.{NamesBase, NamesDirectory};
ghost use Rattle.attr_view.specs.View.{viewed_block};
ghost use Rattle.record_notes.specs.Heads.{EndsAtCount, HeadsNote, IsHead, head_at};
ghost use Rattle.record_notes.specs.Unlisted.{is_unlisted};

use attr_view::RecordView;
use ntfs_def::is_directory;
use ntfs_def::reference::{number_in, sequence_in};
use std::alloc::{AllocError, Global};

/// What is noted of the header of a record in use.
#[derive(Clone, Copy, Debug)]
pub struct Head {
    /// The reference of the base record, 0 in a base record.
    pub base: u64,
    /// How often the record was used anew, which a reference to it repeats.
    pub sequence: u16,
    /// The names that the file has, as the header says.
    pub links: u16,
    /// Whether it is a directory.
    pub directory: bool,
    /// Whether the record has an attribute list.
    pub listed: bool,
}

/// What is noted of the headers of records, by their numbers from 0 on: `None` where one is not in use.
#[derive(Debug, Drop)]
pub struct Heads {
    heads: Vec<Option<Head>>,
}

fn head_of(view: &RecordView<'_>) -> Head
    ensures { (n : ℕ) → IsHead (record_of n (viewed_block view.now)) result }
{
    let header = view.header();
    Head {
        base: header.base,
        sequence: header.sequence,
        links: header.links,
        directory: is_directory(header.flags),
        listed: view.has_list(),
    }
}

impl Heads {
    /// Nothing noted yet.
    pub fn new(alloc: Global) -> Heads
        ensures { (records : Records) → HeadsNote records 0 result }
    {
        Heads {
            heads: Vec::new(alloc),
        }
    }

    /// Notes the next record, which is in use.
    ///
    /// # Errors
    ///
    /// Where memory is out.
    pub fn note(&mut self, view: &RecordView<'_>) -> Result<(), AllocError>
        ensures { OnOk result ((records : Records) (n : ℕ) → records.record_at n ≡ Some (record_of n (viewed_block view.now))
            → HeadsNote records n self.old → HeadsNote records (n + 1) self.new) }
    {
        self.heads.push(Some(head_of(view)))?;
        Ok(())
    }

    /// Notes the next record, which is not in use.
    ///
    /// # Errors
    ///
    /// Where memory is out.
    pub fn note_unused(&mut self) -> Result<(), AllocError>
        ensures { OnOk result ((records : Records) (n : ℕ) → records.record_at n ≡ None
            → HeadsNote records n self.old → HeadsNote records (n + 1) self.new) }
    {
        self.heads.push(None)?;
        Ok(())
    }

    /// How many records are noted.
    pub fn count(&self) -> u64
        ensures { result ≡ length self.now.heads.items }
    {
        self.heads.len() as u64
    }

    /// What is noted of the record of a number, `None` where it is not in use.
    pub fn get(&self, number: u64) -> Option<Head>
        ensures { result ≡ head_at self.now number }
    {
        self.heads.get(number as usize).copied().flatten()
    }

    /// Whether the record of a number is a base record in use without an attribute list.
    pub fn is_unlisted(&self, number: u64) -> bool
        ensures { (records : Records) → EndsAtCount records → HeadsNote records records.count self.now
            → IsTrue result ↔ IsSomeAnd (records.record_at number) (λ r. IsTrue (is_unlisted r)) }
    {
        match self.get(number) {
            Some(head) => head.base == 0 && !head.listed,
            None => false,
        }
    }

    /// Whether a stored reference names a base record in use, by its number and its sequence number.
    pub fn names_base(&self, reference: u64) -> bool
        ensures { (records : Records) → EndsAtCount records → HeadsNote records records.count self.now
            → IsTrue result ↔ NamesBase records (reference_in reference) }
    {
        match self.get(number_in(reference)) {
            Some(head) => head.base == 0 && head.sequence == sequence_in(reference),
            None => false,
        }
    }

    /// Whether a stored reference names a directory's base record in use.
    pub fn names_directory(&self, reference: u64) -> bool
        ensures { (records : Records) → EndsAtCount records → HeadsNote records records.count self.now
            → IsTrue result ↔ NamesDirectory records (reference_in reference) }
    {
        match self.get(number_in(reference)) {
            Some(head) => head.directory && self.names_base(reference),
            None => false,
        }
    }
}
