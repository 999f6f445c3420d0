//! Records in memory that can be edited and tell what they hold: the traits of `index_node` can be met.
ghost use Rattle.std.specs.Prelude.{◌≡◌, ℕ, List, Option, Some};
ghost use Rattle.index_node.specs.Edit.{IsOpened};
ghost use Rattle.index_tests.specs.Table.{slot_at};

use index_node::{BlockNo, Blocks, EditBlocks, WriteBlocks, new_record};
use std::alloc::Global;

/// Records by their numbers; a number that was given back is none any more.
#[derive(Drop)]
pub struct Table {
    pub slots: Vec<Option<[u8; 4096]>>,
    pub most: usize,
    pub reads: u64,
    pub written: u64,
    pub taken: u64,
    pub full: u64,
    ghost opened: { (vcn : ℕ) (bytes : List ℕ) → slot_at slots.items vcn ≡ Some bytes → IsOpened vcn bytes },
}

impl Table {
    fn slot(&self, vcn: u64) -> Option<[u8; 4096]>
        ensures { result ≡ slot_at self.now.slots.items vcn }
    {
        match self.slots.get(vcn as usize) {
            Some(slot) => *slot,
            None => None,
        }
    }

    pub fn new(alloc: Global, most: usize) -> Table {
        Table {
            slots: Vec::new(alloc),
            most,
            reads: 0,
            written: 0,
            taken: 0,
            full: 0,
        }
    }
}

impl Blocks for Table {
    ghost use Rattle.std.specs.Prelude.{◌*◌, ◌≡◌, refl, Some};
    ghost use Rattle.index_tests.specs.TableLaws.{then_same};
    ghost use Rattle.index_tests.specs.Table.{slot_at};

    ghost records = { λ it. Some (slot_at it.slots.items) };

    ghost only_reads = { λ old new. new.written ≡ old.written };

    ghost reads = { λ it. it.reads };

    ghost fetched = { λ it. 8 * it.reads };

    ghost taken = { λ it. it.taken };

    ghost faults = { λ it. 0 };

    ghost full = { λ it. it.full };

    ghost ready = { λ it. Unit {0} };

    fn read(&mut self, vcn: u64, into: &mut [u8; 4096]) -> Result<(), BlockNo> {
        self.reads = self.reads.saturating_add(1);
        if let Some(block) = self.slot(vcn) {
            *into = block;
        }
        Ok(())
    }

    ghost only_reads_itself = { λ it. refl };

    ghost only_reads_on = { λ a b c h k. then_same h k };
}

impl WriteBlocks for Table {
    ghost use Rattle.index_tests.specs.TableLaws.{opened_of};

    ghost edits = { λ old new. Unit {0} };

    ghost written = { λ it. it.written };

    fn write(&mut self, vcn: u64, from: &[u8; 4096]) -> Result<(), BlockNo> {
        self.written = self.written.saturating_add(1);
        if (vcn as usize) < self.slots.len() {
            self.slots[vcn as usize] = Some(*from);
        }
        Ok(())
    }

    ghost opened_records = { λ it. opened_of it.slots.items it.opened };

    ghost written_reads = { λ a b h. h };

    ghost edits_reads = { λ a b h. tt };

    ghost edits_on = { λ a b c h k. tt };
}

impl EditBlocks for Table {
    fn take(&mut self) -> Result<u64, BlockNo> {
        let vcn = self.slots.len();
        if vcn >= self.most {
            self.full = self.full.saturating_add(1);
            return Err(BlockNo::NoRoom);
        }
        let Ok(()) = self.slots.push(Some(new_record(vcn as u64, None))) else {
            return Err(BlockNo::Memory);
        };
        self.taken = self.taken.saturating_add(1);
        self.written = self.written.saturating_add(1);
        Ok(vcn as u64)
    }

    fn give(&mut self, vcn: u64) -> Result<(), BlockNo> {
        if (vcn as usize) < self.slots.len() {
            self.slots[vcn as usize] = None;
        }
        Ok(())
    }
}
