//! Indexes of ids laid by hand, over a list of records, and the names of a directory.

use check_dirs::{CheckNo, IndexRecords, Seen, check_index};
use collation::{Collation, FileNameOrder, IdOrder};
use ntfs_def::NodeForm;
use std::alloc::Global;
use std::test::Fail;
use upcase::UpCase;

// The root of an index of ids: its fields, its header, and the last entry, which leads to record 0.
const ROOT: [u8; 56] = [
    0, 0, 0, 0, 0x10, 0, 0, 0, 0, 0x10, 0, 0, 1, 0, 0, 0, // the fields of an `$INDEX_ROOT`
    0x10, 0, 0, 0, 0x28, 0, 0, 0, 0x28, 0, 0, 0, 1, 0, 0, 0, // the index header
    0, 0, 0, 0, 0, 0, 0, 0, 0x18, 0, 0, 0, 3, 0, 0, 0, 0, 0, 0, 0, 0, 0, 0, 0,
];

// A record with the ids 1 and 2; all bytes behind these are zero.
const RECORD: [u8; 128] = [
    0x49, 0x4E, 0x44, 0x58, 0x28, 0, 9, 0, 0, 0, 0, 0, 0, 0, 0, 0, // INDX
    0, 0, 0, 0, 0, 0, 0, 0, // its number
    0x28, 0, 0, 0, 0x68, 0, 0, 0, 0xE8, 0x0F, 0, 0, 0, 0, 0, 0, // the index header
    1, 0, 0, 0, 0, 0, 0, 0, 0, 0, 0, 0, 0, 0, 0, 0, 0, 0, 0, 0, 0, 0, 0, 0, // the array
    0, 0, 0, 0, 0, 0, 0, 0, 24, 0, 4, 0, 0, 0, 0, 0, 1, 0, 0, 0, 0, 0, 0, 0, // 1
    0, 0, 0, 0, 0, 0, 0, 0, 24, 0, 4, 0, 0, 0, 0, 0, 2, 0, 0, 0, 0, 0, 0, 0, // 2
    0, 0, 0, 0, 0, 0, 0, 0, 16, 0, 0, 0, 2, 0, 0, 0, // the last entry
];

// One record, at number 0, or none. It tells nothing, and may fail.
#[derive(Drop)]
struct Listed {
    there: bool,
    block: [u8; 4096],
    fails: bool,
    faults: u64,
}

impl IndexRecords for Listed {
    ghost use Rattle.std.specs.Prelude.{None};

    ghost records = { λ it. None };

    ghost only_reads = { λ old new. Unit {0} };

    ghost fetched = { λ it. 0 };

    ghost faults = { λ it. it.faults };

    ghost ready = { λ it. Unit {0} };

    fn fetch(&mut self, vcn: u64, into: &mut [u8; 4096]) -> Result<bool, CheckNo> {
        if self.fails {
            self.faults = self.faults.saturating_add(1);
            return Err(CheckNo::Device);
        }
        if !self.there || vcn != 0 {
            return Ok(false);
        }
        *into = self.block;
        Ok(true)
    }

    ghost only_reads_itself = { λ it. tt };

    ghost only_reads_on = { λ a b c h k. tt };
}

// Records by their numbers, which tell their contents.
#[derive(Drop)]
struct Told<'b> {
    blocks: &'b [[u8; 4096]],
}

impl<'b> IndexRecords for Told<'b> {
    ghost use Rattle.std.specs.Prelude.{Some};
    ghost use Rattle.std.specs.List.{slice_get};

    ghost records = { λ it. Some (slice_get it.blocks.now) };

    ghost only_reads = { λ old new. Unit {0} };

    ghost fetched = { λ it. 0 };

    ghost faults = { λ it. 0 };

    ghost ready = { λ it. Unit {0} };

    fn fetch(&mut self, vcn: u64, into: &mut [u8; 4096]) -> Result<bool, CheckNo> {
        let Some(block) = self.blocks.get(vcn as usize) else {
            return Ok(false);
        };
        *into = *block;
        Ok(true)
    }

    ghost only_reads_itself = { λ it. tt };

    ghost only_reads_on = { λ a b c h k. tt };
}

fn record() -> [u8; 4096] {
    let mut block = [0; 4096];
    block[..128].copy_from_slice(&RECORD);
    block
}

fn records_of(there: bool) -> Listed {
    Listed {
        there,
        block: record(),
        fails: false,
        faults: 0,
    }
}

// How many entries the index has under this root, of keys in this order.
fn entries(
    alloc: Global,
    records: &mut Listed,
    collation: u32,
    root: &[u8],
) -> Result<Option<usize>, CheckNo> {
    match check_index(alloc, records, NodeForm::View, collation, &IdOrder, root)? {
        Some(entries) => Ok(Some(entries.len())),
        None => Ok(None),
    }
}

// Whether record 0 is there, whether the device fails, the second id, the collation that is asked for, and what comes of it.
const TWO_LEVELS: [(bool, bool, u8, u32, Result<Option<usize>, CheckNo>); 5] = [
    (true, false, 2, 0x10, Ok(Some(2))),
    (false, false, 2, 0x10, Ok(None)),
    (true, true, 2, 0x10, Err(CheckNo::Device)),
    (true, false, 1, 0x10, Ok(None)),
    (true, false, 2, 0x12, Ok(None)),
];

#[test]
fn two_levels(rt: HostRuntime) {
    for (there, fails, second, collation, wanted) in TWO_LEVELS {
        let mut records = records_of(there);
        records.fails = fails;
        records.block[0x68] = second;
        let found = entries(rt.alloc(), &mut records, collation, &ROOT);
        assert!(rt;
            found == wanted && records.faults == fails as u64,
            "{second}"
        );
    }
}

#[test]
fn contents_told(rt: HostRuntime) -> Result<(), Fail> {
    let blocks = [record()];
    let mut told = Told { blocks: &blocks };
    let found = check_index(rt.alloc(), &mut told, NodeForm::View, 0x10, &IdOrder, &ROOT)?;
    assert!(rt; found.is_some());
    Ok(())
}

// A record that is met twice: the empty leaf to the left and to the right of one entry.
#[test]
fn one_record_twice(rt: HostRuntime) -> Result<(), Fail> {
    let root = [
        0, 0, 0, 0, 0x10, 0, 0, 0, 0, 0x10, 0, 0, 1, 0, 0, 0, // the fields of an `$INDEX_ROOT`
        0x10, 0, 0, 0, 0x48, 0, 0, 0, 0x48, 0, 0, 0, 1, 0, 0, 0, // the index header
        0, 0, 0, 0, 0, 0, 0, 0, 32, 0, 4, 0, 1, 0, 0, 0, 7, 0, 0, 0, 0, 0, 0, 0, // 7
        0, 0, 0, 0, 0, 0, 0, 0, // its child
        0, 0, 0, 0, 0, 0, 0, 0, 24, 0, 0, 0, 3, 0, 0, 0, 0, 0, 0, 0, 0, 0, 0, 0, // the last entry
    ];
    let mut records = records_of(true);
    records.block[0x1C] = 0x38;
    records.block[0x48] = 16;
    records.block[0x4A] = 0;
    records.block[0x4C] = 2;
    assert_eq!(rt; entries(rt.alloc(), &mut records, 0x10, &root)?, None);
    Ok(())
}

// An index of three levels: record 0 under the root, with ten ids, and under it the records 1 to 11, with twelve each.
#[derive(Drop)]
struct Levels;

fn put(block: &mut [u8; 4096], at: usize, byte: u8) {
    if let Some(place) = block.get_mut(at) {
        *place = byte;
    }
}

// A leaf: the entries have 24 bytes each, and the last one 16.
fn leaf(number: u8) -> [u8; 4096] {
    let mut block = record();
    put(&mut block, 0x1C, 0x58);
    put(&mut block, 0x1D, 0x01);
    for k in 0..12 {
        let at = 0x40 + 24 * k as usize;
        put(&mut block, at + 8, 24);
        put(&mut block, at + 10, 4);
        put(&mut block, at + 12, 0);
        put(&mut block, at + 16, number.wrapping_mul(13).wrapping_add(k));
    }
    put(&mut block, 0x168, 16);
    put(&mut block, 0x16C, 2);
    block
}

// The node above the leaves: the entries have 32 bytes each with the number of the leaf, and the last one 24.
fn branch() -> [u8; 4096] {
    let mut block = record();
    put(&mut block, 0x1C, 0x80);
    put(&mut block, 0x1D, 0x01);
    put(&mut block, 0x24, 1);
    for k in 0..10 {
        let at = 0x40 + 32 * k as usize;
        for i in 0..32 {
            put(&mut block, at + i, 0);
        }
        put(&mut block, at + 8, 32);
        put(&mut block, at + 10, 4);
        put(&mut block, at + 12, 1);
        put(&mut block, at + 16, 25 + 13 * k);
        put(&mut block, at + 24, k + 1);
    }
    put(&mut block, 0x188, 24);
    put(&mut block, 0x18C, 3);
    put(&mut block, 0x190, 11);
    block
}

impl IndexRecords for Levels {
    ghost use Rattle.std.specs.Prelude.{None};

    ghost records = { λ it. None };

    ghost only_reads = { λ old new. Unit {0} };

    ghost fetched = { λ it. 0 };

    ghost faults = { λ it. 0 };

    ghost ready = { λ it. Unit {0} };

    fn fetch(&mut self, vcn: u64, into: &mut [u8; 4096]) -> Result<bool, CheckNo> {
        if vcn > 11 {
            return Ok(false);
        }
        *into = if vcn == 0 { branch() } else { leaf(vcn as u8) };
        Ok(true)
    }

    ghost only_reads_itself = { λ it. tt };

    ghost only_reads_on = { λ a b c h k. tt };
}

#[test]
fn three_levels(rt: HostRuntime) -> Result<(), Fail> {
    let found = check_index(
        rt.alloc(),
        &mut Levels,
        NodeForm::View,
        0x10,
        &IdOrder,
        &ROOT,
    )?;
    assert_eq!(rt; found.map(|entries| entries.len()), Some(142));
    Ok(())
}

// The root of a directory with one name: the file 5, by `a`.
const DIRECTORY: [u8; 136] = [
    0x30, 0, 0, 0, 1, 0, 0, 0, 0, 0x10, 0, 0, 1, 0, 0, 0, // the fields of an `$INDEX_ROOT`
    0x10, 0, 0, 0, 0x78, 0, 0, 0, 0x78, 0, 0, 0, 0, 0, 0, 0, // the index header
    5, 0, 0, 0, 0, 0, 5, 0, 88, 0, 68, 0, 0, 0, 0, 0, // the entry
    0, 0, 0, 0, 0, 0, 0, 0, 0, 0, 0, 0, 0, 0, 0, 0, // its key: the parent and the times
    0, 0, 0, 0, 0, 0, 0, 0, 0, 0, 0, 0, 0, 0, 0, 0, 0, 0, 0, 0, 0, 0, 0, 0, // the sizes
    0, 0, 0, 0, 0, 0, 0, 0, 0, 0, 0, 0, 0, 0, 0, 0, 0, 0, 0, 0, 0, 0, 0, 0, // the flags
    1, 3, 0x61, 0, 0, 0, 0, 0, // the name
    0, 0, 0, 0, 0, 0, 0, 0, 16, 0, 0, 0, 2, 0, 0, 0, // the last entry
];

// The name of that entry.
fn name() -> [u8; 68] {
    let mut key = [0; 68];
    key.copy_from_slice(&DIRECTORY[48..116]);
    key
}

// A table of case by which each unit is compared as itself.
fn order(alloc: Global) -> Result<FileNameOrder, Fail> {
    let mut bytes = Vec::new(alloc);
    for unit in 0..=u16::MAX {
        for byte in unit.to_le_bytes() {
            bytes.push(byte)?;
        }
    }
    Ok(FileNameOrder {
        upcase: UpCase::load(alloc, &bytes)?,
    })
}

// Whether the directory has this name of this file, whether that is all it has, and whether it has it again; `None` where
// its index is wrong.
fn met(
    alloc: Global,
    order: &FileNameOrder,
    file: u64,
    key: &[u8],
) -> Result<Option<[bool; 3]>, CheckNo> {
    let mut records = records_of(false);
    let found = check_index(alloc, &mut records, NodeForm::Names, 1, order, &DIRECTORY)?;
    let Some(entries) = found else {
        return Ok(None);
    };
    if !order.is_valid(key) {
        return Ok(None);
    }
    let mut seen = Seen::new(alloc, entries)?;
    let first = seen.meet(order, file, key);
    let all = seen.are_all();
    let again = seen.meet(order, file, key);
    Ok(Some([first, all, again]))
}

// A file, a byte of the name and what it is there, and what is met: the name as it stands in the index, another file, another letter and
// another namespace.
const NAMES: [(u64, usize, u8, [bool; 3]); 4] = [
    (0x0005_0000_0000_0005, 0x41, 3, [true, true, false]),
    (0x0006_0000_0000_0005, 0x41, 3, [false, false, false]),
    (0x0005_0000_0000_0005, 0x42, 0x62, [false, false, false]),
    (0x0005_0000_0000_0005, 0x41, 1, [false, false, false]),
];

#[test]
fn names_of_a_directory(rt: HostRuntime) -> Result<(), Fail> {
    let order = order(rt.alloc())?;
    for (file, at, byte, wanted) in NAMES {
        let mut key = name();
        if at < 68 {
            key[at] = byte;
        }
        let found = met(rt.alloc(), &order, file, &key)?;
        assert_eq!(rt; found, Some(wanted), "{byte} at {at}");
    }
    Ok(())
}
