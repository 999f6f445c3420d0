//! Walks and searches over lists of records; the names of the root directory stand as `ntfsls` lists them.

use crate::root_directory::{ROOT, directory};
use collation::{Collation, FileNameOrder, FoldedOrder, IdOrder};
use index_node::{BlockNo, Blocks};
use index_tree::{Index, IndexNo};
use ntfs_def::NodeForm;
use std::alloc::Global;
use std::test::Fail;
use upcase::UpCase;

// The value of the `$INDEX_ROOT` of `$Extend`, on a volume of 2 MiB with clusters of 512 bytes.
#[rattlefmt::skip]
const EXTEND: [u8; 344] = [
    0x30, 0x00, 0x00, 0x00, 0x01, 0x00, 0x00, 0x00, 0x00, 0x10, 0x00, 0x00, 0x08, 0x00, 0x00, 0x00,
    0x10, 0x00, 0x00, 0x00, 0x48, 0x01, 0x00, 0x00, 0x48, 0x01, 0x00, 0x00, 0x00, 0x00, 0x00, 0x00,
    0x19, 0x00, 0x00, 0x00, 0x00, 0x00, 0x01, 0x00, 0x60, 0x00, 0x4E, 0x00, 0x00, 0x00, 0x00, 0x00,
    0x0B, 0x00, 0x00, 0x00, 0x00, 0x00, 0x0B, 0x00, 0x00, 0x80, 0x3E, 0xD5, 0xDE, 0xB1, 0x9D, 0x01,
    0x00, 0x80, 0x3E, 0xD5, 0xDE, 0xB1, 0x9D, 0x01, 0x00, 0x80, 0x3E, 0xD5, 0xDE, 0xB1, 0x9D, 0x01,
    0x00, 0x80, 0x3E, 0xD5, 0xDE, 0xB1, 0x9D, 0x01, 0x00, 0x00, 0x00, 0x00, 0x00, 0x00, 0x00, 0x00,
    0x00, 0x00, 0x00, 0x00, 0x00, 0x00, 0x00, 0x00, 0x26, 0x00, 0x00, 0x20, 0x00, 0x00, 0x00, 0x00,
    0x06, 0x03, 0x24, 0x00, 0x4F, 0x00, 0x62, 0x00, 0x6A, 0x00, 0x49, 0x00, 0x64, 0x00, 0x00, 0x00,
    0x18, 0x00, 0x00, 0x00, 0x00, 0x00, 0x01, 0x00, 0x60, 0x00, 0x4E, 0x00, 0x00, 0x00, 0x00, 0x00,
    0x0B, 0x00, 0x00, 0x00, 0x00, 0x00, 0x0B, 0x00, 0x00, 0x80, 0x3E, 0xD5, 0xDE, 0xB1, 0x9D, 0x01,
    0x00, 0x80, 0x3E, 0xD5, 0xDE, 0xB1, 0x9D, 0x01, 0x00, 0x80, 0x3E, 0xD5, 0xDE, 0xB1, 0x9D, 0x01,
    0x00, 0x80, 0x3E, 0xD5, 0xDE, 0xB1, 0x9D, 0x01, 0x00, 0x00, 0x00, 0x00, 0x00, 0x00, 0x00, 0x00,
    0x00, 0x00, 0x00, 0x00, 0x00, 0x00, 0x00, 0x00, 0x26, 0x00, 0x00, 0x20, 0x00, 0x00, 0x00, 0x00,
    0x06, 0x03, 0x24, 0x00, 0x51, 0x00, 0x75, 0x00, 0x6F, 0x00, 0x74, 0x00, 0x61, 0x00, 0x00, 0x00,
    0x1A, 0x00, 0x00, 0x00, 0x00, 0x00, 0x01, 0x00, 0x68, 0x00, 0x52, 0x00, 0x00, 0x00, 0x00, 0x00,
    0x0B, 0x00, 0x00, 0x00, 0x00, 0x00, 0x0B, 0x00, 0x00, 0x80, 0x3E, 0xD5, 0xDE, 0xB1, 0x9D, 0x01,
    0x00, 0x80, 0x3E, 0xD5, 0xDE, 0xB1, 0x9D, 0x01, 0x00, 0x80, 0x3E, 0xD5, 0xDE, 0xB1, 0x9D, 0x01,
    0x00, 0x80, 0x3E, 0xD5, 0xDE, 0xB1, 0x9D, 0x01, 0x00, 0x00, 0x00, 0x00, 0x00, 0x00, 0x00, 0x00,
    0x00, 0x00, 0x00, 0x00, 0x00, 0x00, 0x00, 0x00, 0x26, 0x00, 0x00, 0x20, 0x00, 0x00, 0x00, 0x00,
    0x08, 0x03, 0x24, 0x00, 0x52, 0x00, 0x65, 0x00, 0x70, 0x00, 0x61, 0x00, 0x72, 0x00, 0x73, 0x00,
    0x65, 0x00, 0x00, 0x00, 0x00, 0x00, 0x00, 0x00, 0x00, 0x00, 0x00, 0x00, 0x00, 0x00, 0x00, 0x00,
    0x10, 0x00, 0x00, 0x00, 0x02, 0x00, 0x00, 0x00,
];

// Records by their numbers. It tells nothing, and fails at one read, counted from 0.
#[derive(Drop)]
struct Listed<'b> {
    blocks: &'b [[u8; 4096]],
    reads: u64,
    faults: u64,
    fails_at: u64,
}

impl<'b> Blocks for Listed<'b> {
    ghost use Rattle.std.specs.Prelude.{None, ◌*◌};

    ghost records = { λ it. None };

    ghost only_reads = { λ old new. Unit {0} };

    ghost reads = { λ it. it.reads };

    ghost fetched = { λ it. 8 * it.reads };

    ghost taken = { λ it. 0 };

    ghost faults = { λ it. it.faults };

    ghost full = { λ it. 0 };

    ghost ready = { λ it. Unit {0} };

    fn read(&mut self, vcn: u64, into: &mut [u8; 4096]) -> Result<(), BlockNo> {
        let read = self.reads;
        self.reads = read.saturating_add(1);
        if read == self.fails_at {
            self.faults = self.faults.saturating_add(1);
            return Err(BlockNo::Device);
        }
        if let Some(block) = self.blocks.get(vcn as usize) {
            *into = *block;
        }
        Ok(())
    }

    ghost only_reads_itself = { λ it. tt };

    ghost only_reads_on = { λ a b c h k. tt };
}

// Records by their numbers, which tell their contents.
#[derive(Drop)]
struct Stored<'b> {
    blocks: &'b [[u8; 4096]],
    reads: u64,
}

impl<'b> Blocks for Stored<'b> {
    ghost use Rattle.std.specs.Prelude.{◌*◌, Some};
    ghost use Rattle.std.specs.List.{slice_get};

    ghost records = { λ it. Some (slice_get it.blocks.now) };

    ghost only_reads = { λ old new. Unit {0} };

    ghost reads = { λ it. it.reads };

    ghost fetched = { λ it. 8 * it.reads };

    ghost taken = { λ it. 0 };

    ghost faults = { λ it. 0 };

    ghost full = { λ it. 0 };

    ghost ready = { λ it. Unit {0} };

    fn read(&mut self, vcn: u64, into: &mut [u8; 4096]) -> Result<(), BlockNo> {
        self.reads = self.reads.saturating_add(1);
        if let Some(block) = self.blocks.get(vcn as usize) {
            *into = *block;
        }
        Ok(())
    }

    ghost only_reads_itself = { λ it. tt };

    ghost only_reads_on = { λ a b c h k. tt };
}

fn over<'b>(blocks: &'b [[u8; 4096]], fails_at: u64) -> Listed<'b> {
    Listed {
        blocks,
        reads: 0,
        faults: 0,
        fails_at,
    }
}

// The table of case of `mkntfs` for the letters of ASCII; each other unit is compared as itself.
pub fn table(alloc: Global) -> Result<UpCase, Fail> {
    let mut bytes = Vec::new(alloc);
    for unit in 0..=u16::MAX {
        let folded = match unit {
            0x61..=0x7A => unit - 0x20,
            _ => unit,
        };
        push(&mut bytes, &folded.to_le_bytes())?;
    }
    Ok(UpCase::load(alloc, &bytes)?)
}

fn push(out: &mut Vec<u8>, bytes: &[u8]) -> Result<(), Fail> {
    for byte in bytes {
        out.push(*byte)?;
    }
    Ok(())
}

// The value of a `$FILE_NAME` with this name of ASCII.
pub fn key(alloc: Global, name: &[u8]) -> Result<Vec<u8>, Fail> {
    let mut bytes = vec![in alloc; 0u8; 0x40]?;
    bytes.push(u8::try_from(name.len()).unwrap_or(0))?;
    bytes.push(3)?;
    for letter in name {
        push(&mut bytes, &[*letter, 0])?;
    }
    Ok(bytes)
}

// The first byte of the entry that is found: of a directory, the low byte of the record's number.
fn found<C: Collation>(
    alloc: Global,
    index: &Index<C>,
    blocks: &mut Listed<'_>,
    root: &[u8],
    key: &[u8],
) -> Result<Option<u8>, IndexNo> {
    if !index.order().is_valid(key) {
        return Ok(None);
    }
    match index.find(alloc, blocks, root, key)? {
        Some(entry) => Ok(entry.as_slice().first().copied()),
        None => Ok(None),
    }
}

#[test]
fn directory_of_one_level(rt: HostRuntime) -> Result<(), Fail> {
    let index = Index::new(
        FileNameOrder {
            upcase: table(rt.alloc())?,
        },
        NodeForm::Names,
        0,
    );
    let mut listed = over(&[], 0);
    let entries = index.walk(rt.alloc(), &mut listed, &EXTEND)?;
    // $ObjId, $Quota, $Reparse
    let files = [25, 24, 26];
    assert_eq!(rt; entries.len(), files.len());
    for (entry, file) in entries.iter().zip(&files) {
        assert_eq!(rt; entry.as_slice().first(), Some(file));
    }
    assert_eq!(rt; listed.reads, 0);
    Ok(())
}

#[test]
fn directory_of_two_levels(rt: HostRuntime) -> Result<(), Fail> {
    let blocks = [directory()];
    let names = FileNameOrder {
        upcase: table(rt.alloc())?,
    };
    let folded = Index::new(FoldedOrder { names: &names }, NodeForm::Names, 0);
    let rows: [(&[u8], Option<u8>, Option<u8>); 5] = [
        (b"$AttrDef", Some(4), Some(4)),
        (b"$Boot", Some(7), Some(7)),
        (b"$boot", None, Some(7)),
        (b".", Some(5), Some(5)),
        (b"$MFTMir", None, None),
    ];
    for (name, _, by_fold) in rows {
        let mut listed = over(&blocks, u64::MAX);
        let key = key(rt.alloc(), name)?;
        assert_eq!(rt;
            found(rt.alloc(), &folded, &mut listed, &ROOT, &key),
            Ok(by_fold)
        );
        assert_eq!(rt; listed.reads, 1);
    }
    let index = Index::new(
        FileNameOrder {
            upcase: names.upcase.share()?,
        },
        NodeForm::Names,
        0,
    );
    for (name, exact, _) in rows {
        let mut listed = over(&blocks, u64::MAX);
        let key = key(rt.alloc(), name)?;
        assert_eq!(rt;
            found(rt.alloc(), &index, &mut listed, &ROOT, &key),
            Ok(exact)
        );
    }
    let mut listed = over(&blocks, u64::MAX);
    let entries = index.walk(rt.alloc(), &mut listed, &ROOT)?;
    let files = [4, 8, 6, 7, 11, 2, 0, 1, 9, 10, 3, 5];
    assert_eq!(rt; entries.len(), files.len());
    for (entry, file) in entries.iter().zip(&files) {
        assert_eq!(rt; entry.as_slice().first(), Some(file));
    }
    Ok(())
}

// An entry of a view index: a key of four bytes, none for the last entry, and no data.
fn put_entry(out: &mut Vec<u8>, key: Option<u32>, child: Option<u64>) -> Result<(), Fail> {
    let (len, key_len, last) = if key.is_some() {
        (24u16, 4u16, 0u16)
    } else {
        (16, 0, 2)
    };
    let (child_len, flag) = if child.is_some() {
        (8u16, 1u16)
    } else {
        (0, 0)
    };
    push(out, &[0; 8])?;
    push(out, &(len + child_len).to_le_bytes())?;
    push(out, &key_len.to_le_bytes())?;
    push(out, &(last + flag).to_le_bytes())?;
    push(out, &[0; 2])?;
    if let Some(key) = key {
        push(out, &key.to_le_bytes())?;
        push(out, &[0; 4])?;
    }
    if let Some(child) = child {
        push(out, &child.to_le_bytes())?;
    }
    Ok(())
}

// A header with its entries behind `before` more bytes.
fn put_node(
    out: &mut Vec<u8>,
    before: u32,
    alloc: Global,
    entries: &[(Option<u32>, Option<u64>)],
) -> Result<(), Fail> {
    let mut body = Vec::new(alloc);
    let mut children = 0u32;
    for (key, child) in entries {
        put_entry(&mut body, *key, *child)?;
        children = if child.is_some() { 1 } else { 0 };
    }
    let first = before.saturating_add(16);
    let used = u32::try_from(body.len()).unwrap_or(0).saturating_add(first);
    for number in [first, used, used, children] {
        push(out, &number.to_le_bytes())?;
    }
    for _ in 0..before {
        out.push(0)?;
    }
    push(out, &body)
}

pub fn record(alloc: Global, entries: &[(Option<u32>, Option<u64>)]) -> Result<[u8; 4096], Fail> {
    let mut bytes = Vec::new(alloc);
    push(&mut bytes, b"INDX\x28\0\x09\0")?;
    push(&mut bytes, &[0; 16])?;
    put_node(&mut bytes, 24, alloc, entries)?;
    let mut block = [0; 4096];
    for (to, from) in block.iter_mut().zip(&bytes) {
        *to = *from;
    }
    Ok(block)
}

pub fn root(alloc: Global, entries: &[(Option<u32>, Option<u64>)]) -> Result<Vec<u8>, Fail> {
    let mut bytes = vec![in alloc; 0u8; 16]?;
    put_node(&mut bytes, 0, alloc, entries)?;
    Ok(bytes)
}

// Six records of an index of three levels, of the ids 10 to 60 and 61 to 100.
fn levels(alloc: Global) -> Result<[[u8; 4096]; 6], Fail> {
    let mut leaf = Vec::new(alloc);
    for id in 61..101 {
        leaf.push((Some(id), None))?;
    }
    leaf.push((None, None))?;
    Ok([
        record(alloc, &[(Some(20), Some(1)), (None, Some(2))])?,
        record(alloc, &[(Some(10), None), (None, None)])?,
        record(alloc, &[(Some(30), None), (None, None)])?,
        record(alloc, &[(Some(60), Some(4)), (None, Some(5))])?,
        record(alloc, &[(Some(50), None), (None, None)])?,
        record(alloc, &leaf)?,
    ])
}

// The root above them.
fn top(alloc: Global) -> Result<Vec<u8>, Fail> {
    root(alloc, &[(Some(40), Some(0)), (None, Some(3))])
}

#[test]
fn ids_of_three_levels(rt: HostRuntime) -> Result<(), Fail> {
    let blocks = levels(rt.alloc())?;
    let index = Index::new(IdOrder, NodeForm::View, 0);
    let mut listed = over(&blocks, u64::MAX);
    let entries = index.walk(rt.alloc(), &mut listed, &top(rt.alloc())?)?;
    assert_eq!(rt; (listed.reads, entries.len()), (6, 46));
    let ids = [10, 20, 30, 40, 50, 60, 61, 62];
    for (entry, id) in entries.iter().zip(&ids) {
        assert_eq!(rt; entry.as_slice().get(16), Some(id));
    }
    Ok(())
}

#[test]
fn ids_are_found_on_their_way(rt: HostRuntime) -> Result<(), Fail> {
    let blocks = levels(rt.alloc())?;
    let root = top(rt.alloc())?;
    let index = Index::new(IdOrder, NodeForm::View, 0);
    for (id, there) in [
        (10u32, true),
        (40, true),
        (60, true),
        (100, true),
        (5, false),
        (45, false),
        (101, false),
    ] {
        let mut listed = over(&blocks, u64::MAX);
        let answer = found(rt.alloc(), &index, &mut listed, &root, &id.to_le_bytes())?;
        assert!(rt; answer.is_some() == there && listed.reads <= 2, "at {id}");
    }
    Ok(())
}

#[test]
fn each_read_fails(rt: HostRuntime) -> Result<(), Fail> {
    let blocks = levels(rt.alloc())?;
    let root = top(rt.alloc())?;
    let index = Index::new(IdOrder, NodeForm::View, 0);
    for read in 0..6 {
        let failed = index
            .walk(rt.alloc(), &mut over(&blocks, read), &root)
            .err();
        assert_eq!(rt; failed, Some(IndexNo::Device));
    }
    let failed = found(
        rt.alloc(),
        &index,
        &mut over(&blocks, 1),
        &root,
        &[5, 0, 0, 0],
    );
    assert_eq!(rt; failed, Err(IndexNo::Device));
    Ok(())
}

// Where contents are told, an index under a root alone has a walk, and no record is read.
#[test]
fn contents_told(rt: HostRuntime) -> Result<(), Fail> {
    let blocks = [directory()];
    let mut stored = Stored {
        blocks: &blocks,
        reads: 0,
    };
    let root = [
        0, 0, 0, 0, 0x12, 0, 0, 0, 0, 0x10, 0, 0, 1, 0, 0, 0, // the fields of an `$INDEX_ROOT`
        0x10, 0, 0, 0, 0x20, 0, 0, 0, 0x20, 0, 0, 0, 0, 0, 0, 0, // the index header
        0, 0, 0, 0, 0, 0, 0, 0, 0x10, 0, 0, 0, 2, 0, 0, 0, // the last entry
    ];
    let index = Index::new(IdOrder, NodeForm::View, 0);
    assert_eq!(rt; index.walk(rt.alloc(), &mut stored, &root)?.len(), 0);
    assert_eq!(rt; stored.reads, 0);
    Ok(())
}

// Where nothing is told, a record that leads to itself ends the call at the sixteenth node.
#[test]
fn records_without_end(rt: HostRuntime) -> Result<(), Fail> {
    let alloc = rt.alloc();
    let blocks = [record(alloc, &[(None, Some(0))])?];
    let root = root(alloc, &[(None, Some(0))])?;
    let index = Index::new(IdOrder, NodeForm::View, 0);
    let mut listed = over(&blocks, u64::MAX);
    assert_eq!(rt; index.walk(alloc, &mut listed, &root)?.len(), 0);
    assert_eq!(rt; listed.reads, 15);
    assert_eq!(rt;
        found(alloc, &index, &mut listed, &root, &[5, 0, 0, 0]),
        Ok(None)
    );
    assert_eq!(rt; listed.reads, 30);
    Ok(())
}
