//! Volumes of records that are made here by the published layout, each record with the sequence number 1. What is expected
//! is what the clauses on references and links ask, of many records.

use attr_view::RecordView;
use record_notes::{Heads, Names, SpreadFiles};
use std::alloc::Global;
use std::test::Fail;
use vol_bytes::{put_u16, put_u32, put_u64};
use volume_clauses::{first_wrong_link, first_wrong_reference};

const FILE: u16 = 1;

const DIRECTORY: u16 = 3;

// The reference of a record.
fn reference(n: u32) -> u64 {
    u64::from(n) + (1 << 48)
}

// An opened record with such names, each of one unit, by the directory that has it and the namespace.
fn record(flags: u16, links: u16, base: u64, names: &[(u32, u8)]) -> [u8; 1024] {
    let mut block = [0; 1024];
    block[..4].copy_from_slice(b"FILE");
    put_u16(&mut block, 0x04, 0x30);
    put_u16(&mut block, 0x06, 3);
    put_u16(&mut block, 0x10, 1);
    put_u16(&mut block, 0x12, links);
    put_u16(&mut block, 0x14, 0x38);
    put_u16(&mut block, 0x16, flags);
    put_u32(&mut block, 0x1C, 1024);
    put_u64(&mut block, 0x20, base);
    let mut at: usize = 0x38;
    for (directory, namespace) in names {
        if at < 800 {
            put_u32(&mut block, at, 0x30);
            put_u32(&mut block, at + 0x04, 0x60);
            put_u32(&mut block, at + 0x10, 0x44);
            put_u16(&mut block, at + 0x14, 0x18);
            put_u64(&mut block, at + 0x18, reference(*directory));
            block[at + 0x58] = 1;
            block[at + 0x59] = *namespace;
            at += 0x60;
        }
    }
    if at < 1000 {
        put_u32(&mut block, at, 0xFFFF_FFFF);
        put_u32(&mut block, 0x18, at as u32 + 8);
    }
    block
}

// What is noted of a volume of so many records in which each directory from 24 on stands in the one behind it, and the last
// of them in the root: so a way leads from 24 over all others. Of those below 24 the root alone is in use.
fn note_nested(alloc: Global, count: u32) -> Result<(Heads, Names), Fail> {
    let mut heads = Heads::new(alloc);
    let mut names = Names::new(alloc);
    for n in 0..count {
        if n < 24 && n != 5 {
            heads.note_unused()?;
        } else {
            let directory = if n == 5 || n == count - 1 { 5 } else { n + 1 };
            let block = record(DIRECTORY, 1, 0, &[(directory, 3)]);
            let view = RecordView::new(&block)?;
            heads.note(&view)?;
            names.note(u64::from(n), &view)?;
        }
    }
    Ok((heads, names))
}

#[test]
fn a_long_way_is_walked_once(rt: HostRuntime) -> Result<(), Fail> {
    let (heads, names) = note_nested(rt.alloc(), 300_000)?;
    assert_eq!(rt; heads.count(), 300_000);
    assert_eq!(rt; first_wrong_reference(&heads, &names), None);
    assert_eq!(rt; first_wrong_link(rt.alloc(), &heads, &names)?, None);
    Ok(())
}

// Each is an extension record of another file, the first of the last.
#[test]
fn many_extension_records_are_sorted(rt: HostRuntime) -> Result<(), Fail> {
    let mut spread = SpreadFiles::new(rt.alloc());
    for n in 0..100_000 {
        let block = record(FILE, 0, reference(200_000 - n), &[]);
        spread.note(u64::from(n), &RecordView::new(&block)?)?;
    }
    let sorted = spread.by_file(rt.alloc())?;
    let first = sorted.first().map(|one| (one.file, one.number));
    assert!(rt; sorted.len() == 100_000 && first == Some((100_001, 99_999)));
    Ok(())
}
