//! Records that can be edited and tell nothing: what an index is tried on.

use index_node::{BlockNo, Blocks, EditBlocks, WriteBlocks, new_record};
use std::alloc::Global;

/// Records by their numbers, which tell nothing; a number that was given back is none any more. The call with the number
/// `fails_at`, counted from 0, fails, and no more than `most` records are taken.
#[derive(Drop)]
pub struct Slots {
    pub slots: Vec<Option<[u8; 4096]>>,
    pub calls: u64,
    pub fails_at: u64,
    pub most: u64,
    pub faults: u64,
    pub full: u64,
    pub reads: u64,
    pub written: u64,
    pub taken: u64,
    pub given: u64,
}

impl Slots {
    pub fn new(alloc: Global, fails_at: u64, most: u64) -> Slots {
        Slots {
            slots: Vec::new(alloc),
            calls: 0,
            fails_at,
            most,
            faults: 0,
            full: 0,
            reads: 0,
            written: 0,
            taken: 0,
            given: 0,
        }
    }

    /// How many records there are.
    pub fn count(&self) -> usize {
        let mut count: usize = 0;
        for slot in &self.slots {
            if slot.is_some() {
                count = count.saturating_add(1);
            }
        }
        count
    }
}

impl Blocks for Slots {
    ghost use Rattle.std.proofs.Common.{◌≡◌, ◌*◌, ◌∙◌, None, refl};

    ghost records = { λ it. None };

    ghost only_reads = { λ old new. new.written ≡ old.written };

    ghost reads = { λ it. it.reads };

    ghost fetched = { λ it. 8 * it.reads };

    ghost taken = { λ it. it.taken };

    ghost faults = { λ it. it.faults };

    ghost full = { λ it. it.full };

    ghost ready = { λ it. Unit {0} };

    fn read(&mut self, vcn: u64, into: &mut [u8; 4096]) -> Result<(), BlockNo> {
        self.reads = self.reads.saturating_add(1);
        let call = self.calls;
        self.calls = call.saturating_add(1);
        if call == self.fails_at {
            self.faults = self.faults.saturating_add(1);
            return Err(BlockNo::Device);
        }
        if let Some(Some(block)) = self.slots.get(vcn as usize) {
            *into = *block;
        }
        Ok(())
    }

    ghost only_reads_itself = { λ it. refl };

    ghost only_reads_on = { λ a b c h k. k ∙ h };
}

#[tactic(auto, using(crate::proofs::SlotLaws::untold))]
impl WriteBlocks for Slots {
    ghost use Rattle.list_laws.proofs.OptionLaws.{none_other};

    ghost edits = { λ old new. Unit {0} };

    ghost written = { λ it. it.written };

    fn write(&mut self, vcn: u64, from: &[u8; 4096]) -> Result<(), BlockNo> {
        self.written = self.written.saturating_add(1);
        let call = self.calls;
        self.calls = call.saturating_add(1);
        if call == self.fails_at {
            self.faults = self.faults.saturating_add(1);
            return Err(BlockNo::Device);
        }
        if (vcn as usize) < self.slots.len() {
            self.slots[vcn as usize] = Some(*from);
        }
        Ok(())
    }

    ghost opened_records = { λ it r told vcn bytes is. absurd (none_other told) };

    ghost written_reads = { λ a b h. h };

    ghost edits_reads = { λ a b h. tt };

    ghost edits_on = { λ a b c h k. tt };
}

#[tactic(auto, using(crate::proofs::SlotLaws::untold))]
impl EditBlocks for Slots {
    fn take(&mut self) -> Result<u64, BlockNo> {
        let call = self.calls;
        self.calls = call.saturating_add(1);
        if call == self.fails_at {
            self.faults = self.faults.saturating_add(1);
            return Err(BlockNo::Device);
        }
        if self.taken >= self.most {
            self.full = self.full.saturating_add(1);
            return Err(BlockNo::NoRoom);
        }
        let vcn = self.slots.len();
        let Ok(()) = self.slots.push(Some(new_record(vcn as u64, None))) else {
            return Err(BlockNo::Memory);
        };
        self.taken = self.taken.saturating_add(1);
        self.written = self.written.saturating_add(1);
        Ok(vcn as u64)
    }

    fn give(&mut self, vcn: u64) -> Result<(), BlockNo> {
        let call = self.calls;
        self.calls = call.saturating_add(1);
        if call == self.fails_at {
            self.faults = self.faults.saturating_add(1);
            return Err(BlockNo::Device);
        }
        self.given = self.given.saturating_add(1);
        if (vcn as usize) < self.slots.len() {
            self.slots[vcn as usize] = None;
        }
        Ok(())
    }
}
