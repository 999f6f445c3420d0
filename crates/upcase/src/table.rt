//! The table: how it is made, and how units and names are compared by it.
ghost use Rattle.std.specs.Prelude.{◌≡◌, ◌↔◌, ℕ, List, IfOk, IfErr, IsTrue, length, map};
ghost use Rattle.ntfs_def.specs.KeyOrder.{by_numbers, case_table_len, compare_units, fold_of};
ghost use Rattle.upcase.specs.Case.{Refuses};

use crate::UpCaseNo;
use ntfs_def::lengths::CASE_TABLE;
use std::alloc::Global;
use std::cmp::Ordering;
use std::marker::Model;
use std::rc::Rc;
use vol_bytes::u16_at;

/// A table of case.
#[derive(Debug, Drop)]
pub struct UpCase {
    bytes: Rc<Vec<u8>>,
}

impl Model for UpCase {
    ghost Value = { List ℕ };

    ghost view = { λ table. table.bytes.value.items };

    ghost invariant = { λ table. length table.bytes.value.items ≡ case_table_len };
}

impl UpCase {
    /// The table of these bytes, as in the unnamed `$DATA` of `$UpCase`.
    ///
    /// # Errors
    ///
    /// `Length` exactly where there are not 131,072 bytes, and `Memory`.
    pub fn load(alloc: Global, bytes: &[u8]) -> Result<UpCase, UpCaseNo>
        ensures ok { IfOk result (λ table. table ≡ bytes.now) }
        ensures length { IfOk result (λ table. length bytes.now ≡ case_table_len) }
        ensures err { IfErr result (Refuses bytes.now) }
    {
        if bytes.len() != CASE_TABLE {
            return Err(UpCaseNo::Length);
        }
        let bytes = Vec::from_slice(alloc, bytes)?;
        Ok(UpCase {
            bytes: Rc::new(alloc, bytes)?,
        })
    }

    /// The same table again; both share its bytes.
    ///
    /// # Errors
    ///
    /// `Memory` alone.
    pub fn share(&self) -> Result<UpCase, UpCaseNo>
        ensures ok { IfOk result (λ table. table ≡ self.now) }
        ensures err { IfErr result (λ no. no ≡ UpCaseNo.Memory) }
    {
        Ok(UpCase {
            bytes: self.bytes.clone()?,
        })
    }

    /// What a unit is compared as.
    pub fn fold(&self, unit: u16) -> u16
        ensures { result ≡ fold_of self.now unit }
    {
        u16_at(&self.bytes, 2 * unit as usize)
    }

    // Names by their folded units, a proper prefix first.
    fn compare_folded(&self, a: &[u16], b: &[u16]) -> Ordering
        ensures { result ≡ by_numbers (map (fold_of self.now) a.now) (map (fold_of self.now) b.now) }
    {
        let folded = a.iter().map(|&unit| self.fold(unit));
        folded.cmp(b.iter().map(|&unit| self.fold(unit)))
    }

    /// Whether two names have the same folded units.
    pub fn same(&self, a: &[u16], b: &[u16]) -> bool
        ensures { IsTrue result ↔ (map (fold_of self.now) a.now ≡ map (fold_of self.now) b.now) }
    {
        self.compare_folded(a, b).is_eq()
    }

    /// The order of names: by their folded units, and equal ones by their plain units. Of two names of which one
    /// begins with the other the shorter comes first.
    pub fn compare(&self, a: &[u16], b: &[u16]) -> Ordering
        ensures { result ≡ compare_units (fold_of self.now) a.now b.now }
    {
        self.compare_folded(a, b).then_with(|| a.cmp(b))
    }
}
