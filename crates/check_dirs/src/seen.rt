//! The entries of a directory, compared with the names that stand in it, which are met one by one.
ghost use Rattle.std.specs.Prelude.{◌≡◌, ◌↔◌, ◌++◌, ◌∷◌, [], List, All, IfErr, IfOk, IsFalse, IsTrue};
ghost use Rattle.ntfs_def.specs.FileName.{Link, is_name_key, key_units, link_of};
ghost use Rattle.ntfs_def.specs.KeyOrder.{fold_of};
ghost use Rattle.ntfs_def.specs.Node.{item_in};
ghost use Rattle.list_laws.specs.SameItems.{SameItems};
ghost use Rattle.check_dirs.specs.Entries.{AreNames, IsWhole};
ghost use Rattle.check_dirs.specs.Seen.{HasMarks, IsMet, link_with, links_of_entries};

use crate::CheckNo;
use crate::order::{head_of, key_of, place_of};
use collation::FileNameOrder;
use ntfs_def::file_name::{NAMESPACE, PARENT};
use std::alloc::Global;
use vol_bytes::{Octets, u64_at};

/// The entries of a directory in order, and of each whether its name was met.
#[derive(Drop)]
pub struct Seen {
    entries: Vec<Octets>,
    met: Vec<bool>,
}

// Whether an entry whose name has the units of this key says that name, of the file with this reference.
#[tactic(auto, unfolding(ntfs_def::specs::FileName::name_in))]
fn is_link(entry: &[u8], file: u64, key: &[u8]) -> bool
    requires whole { IsWhole entry.now }
    requires name { IsTrue (is_name_key (item_in entry.now).key) }
    requires key { IsTrue (is_name_key key.now) }
    requires units { key_units (item_in entry.now).key ≡ key_units key.now }
    ensures { IsTrue result ↔ (link_of (item_in entry.now) ≡ link_with file key.now) }
{
    let own = key_of(entry);
    head_of(entry) == file
        && u64_at(own, PARENT) == u64_at(key, PARENT)
        && own[NAMESPACE] == key[NAMESPACE]
}

// Whether each mark is set.
fn all_set(marks: &[bool]) -> bool
    ensures { IsTrue result ↔ All (λ mark. IsTrue mark) marks.now }
{
    marks.iter().all(|mark| *mark)
}

impl Seen {
    /// These entries, of whose names none was met.
    ///
    /// # Errors
    ///
    /// `Memory`.
    pub fn new(alloc: Global, entries: Vec<Octets>) -> Result<Seen, CheckNo>
        ensures entries { IfOk result (λ seen. seen.entries.items ≡ entries.items) }
        ensures marks { IfOk result (λ seen. HasMarks seen) }
        ensures none { IfOk result (λ seen. IsMet seen []) }
        ensures memory { IfErr result (λ no. no ≡ CheckNo.Memory) }
    {
        let met = vec![in alloc; false; entries.len()]?;
        Ok(Seen { entries, met })
    }

    /// Meets a name, the value of a `$FILE_NAME`, of the file with this reference: whether an entry says it that was not
    /// met before.
    ///
    /// Where it is `false`, the entries are not the names that were met, this one, and whatever others.
    pub fn meet(&mut self, order: &FileNameOrder, file: u64, key: &[u8]) -> bool
        requires names { AreNames (fold_of order.now.upcase) self.old.entries.items }
        requires marks { HasMarks self.old }
        requires key { IsTrue (is_name_key key.now) }
        ensures met { IsTrue result → (links : List Link) → IsMet self.old links
            → IsMet self.new (links ++ link_with file key.now ∷ []) }
        ensures unmet { IsFalse result → (links rest : List Link) → IsMet self.old links
            → SameItems (links_of_entries self.old.entries.items) (links ++ link_with file key.now ∷ rest) → ⊥ }
        ensures entries { self.new.entries ≡ self.old.entries }
        ensures marks { HasMarks self.new }
    {
        let Some(place) = place_of(order, &self.entries, key) else {
            return false;
        };
        if self.met[place] {
            return false;
        }
        if !is_link(self.entries[place].as_slice(), file, key) {
            return false;
        }
        self.met[place] = true;
        true
    }

    /// Whether the name of each entry was met: whether the entries are exactly the names that were.
    pub fn are_all(&self) -> bool
        requires { HasMarks self.now }
        ensures { (links : List Link) → IsMet self.now links
            → (IsTrue result ↔ SameItems (links_of_entries self.now.entries.items) links) }
    {
        all_set(&self.met)
    }
}
