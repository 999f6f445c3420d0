//! The list: how many entries it has, and each of them.
ghost use Rattle.std.specs.Prelude.{◌≡◌, ◌<◌, IfOk, IfErr, IfSome, length, slice_get};
ghost use Rattle.ntfs_def.specs.AttributeList.{HasListShape, IsListEntry, list_entries, list_entry_at};
ghost use Rattle.attr_list.specs.View.{Refuses, IsEntryOf, entries_of, value_of};

use crate::shape::{count_of, entry_place};
use crate::{Entry, ListNo, ListView};
use ntfs_def::{list_entry, read_units};
use std::alloc::{AllocError, Global};
use vol_bytes::{Name, u16_at, u32_at, u64_at};

// The entry at a place.
fn entry_at(alloc: Global, bytes: &[u8], at: usize) -> Result<Entry, AllocError>
    requires { IsListEntry bytes.now at }
    ensures { IfOk result (IsEntryOf (list_entry_at bytes.now at)) }
{
    let from = at + list_entry::NAME;
    let end = from + 2 * bytes[at + list_entry::NAME_LEN] as usize;
    Ok(Entry {
        kind: u32_at(bytes, at),
        name: Name::from_vec(read_units(alloc, &bytes[from..end])?),
        first: u64_at(bytes, at + list_entry::FIRST),
        holder: u64_at(bytes, at + list_entry::HOLDER),
        id: u16_at(bytes, at + list_entry::ID),
    })
}

impl<'r> ListView<'r> {
    /// A view of the value of an attribute list.
    ///
    /// # Errors
    ///
    /// `Shape` exactly where the value is no list, with the place of the first entry that breaks the layout.
    pub fn new(bytes: &'r [u8]) -> Result<ListView<'r>, ListNo>
        ensures ok { IfOk result (λ view. value_of view ≡ bytes.now) }
        ensures shape { IfOk result (λ view. HasListShape bytes.now (length (list_entries bytes.now))) }
        ensures err { IfErr result (Refuses bytes.now) }
    {
        let count = count_of(bytes)?;
        Ok(ListView { bytes, count })
    }

    /// How many entries the list has.
    pub fn count(&self) -> usize
        ensures { result ≡ length (entries_of self.now) }
    {
        self.count
    }

    /// An entry, by its place in the order of the list.
    ///
    /// # Errors
    ///
    /// `Memory` alone.
    pub fn entry(&self, alloc: Global, i: usize) -> Result<Entry, ListNo>
        requires { i < length (entries_of self.now) }
        ensures entry { IfOk result (λ entry. IfSome (slice_get (entries_of self.now) i) (λ listed. IsEntryOf listed entry)) }
        ensures memory { IfErr result (λ no. no ≡ ListNo.Memory) }
    {
        let entry = entry_at(alloc, self.bytes, entry_place(self.bytes, i))?;
        Ok(entry)
    }
}
