//! Which records were met.
ghost use Rattle.std.specs.Prelude.{◌≡◌, ℕ, List, [], IfOk, IfErr, OnErr, IsTrue, IsFalse};
ghost use Rattle.check_dirs.specs.Gathered.{Meets, met_times};

use crate::CheckNo;
use std::alloc::Global;
use std::collections::BTreeSet;
use std::marker::Model;

/// The numbers of the records that were met, each once.
#[derive(Drop)]
pub struct Met {
    numbers: BTreeSet<u64>,
}

impl Model for Met {
    ghost Value = { List ℕ };

    ghost view = { λ met. met.numbers.keys };
}

impl Met {
    /// None was met.
    pub fn new(alloc: Global) -> Met
        ensures { result ≡ [] }
    {
        Met {
            numbers: BTreeSet::new(alloc),
        }
    }

    /// Notes that the record with this number is met, and tells whether that is the first time.
    ///
    /// # Errors
    ///
    /// `Memory`; what was met is then as before.
    pub fn meet(&mut self, vcn: u64) -> Result<bool, CheckNo>
        ensures first { IfOk result (λ first. IsTrue first → Meets self.old self.new vcn) }
        ensures again { IfOk result (λ first. IsFalse first → met_times self.old vcn ≡ 1) }
        ensures same { IfOk result (λ first. IsFalse first → self.new ≡ self.old) }
        ensures memory { IfErr result (λ no. no ≡ CheckNo.Memory) }
        ensures kept { OnErr result (self.new ≡ self.old) }
    {
        let first = self.numbers.insert(vcn)?;
        Ok(first)
    }
}
