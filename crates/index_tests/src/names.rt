//! Names put into a root directory as `mkntfs` left it, and taken out of it; its one record is split meanwhile.

use crate::edits::{put, root_of_one, take_out, walked};
use crate::root_directory::{ROOT, directory};
use crate::slots::Slots;
use crate::trees::{key, table};
use collation::FileNameOrder;
use index_tree::Index;
use ntfs_def::NodeForm;
use std::alloc::Global;
use std::test::Fail;

// A root with a name of two letters of ASCII alone, of the file with this number.
fn name_root(first: u8, second: u8, file: u8) -> [u8; 680] {
    let mut root = root_of_one(88, 70, 0);
    root[0x20] = file;
    root[0x70] = 2;
    root[0x71] = 3;
    root[0x72] = first;
    root[0x74] = second;
    root
}

// The files in the order of their names: of `!z` and `$c`, of those that stood there but `$Boot` and `$MFT`, and of `B0` and
// so on.
fn listed(alloc: Global) -> Result<Vec<u32>, Fail> {
    let mut files = Vec::from_slice(alloc, &[40, 4, 8, 6, 41, 11, 2, 1, 9, 10, 3, 5])?;
    for file in 100..140 {
        files.push(file)?;
    }
    Ok(files)
}

#[test]
fn names_of_a_root_directory(rt: HostRuntime) -> Result<(), Fail> {
    let alloc = rt.alloc();
    let order = FileNameOrder {
        upcase: table(alloc)?,
    };
    let index = Index::new(order, NodeForm::Names, 300);
    let mut slots = Slots::new(alloc, u64::MAX, u64::MAX);
    slots.slots.push(Some(directory()))?;
    let mut root = Vec::from_slice(alloc, &ROOT)?;
    put(
        alloc,
        &index,
        NodeForm::Names,
        &mut slots,
        &mut root,
        &name_root(b'!', b'z', 40),
    )?;
    put(
        alloc,
        &index,
        NodeForm::Names,
        &mut slots,
        &mut root,
        &name_root(b'$', b'c', 41),
    )?;
    for i in 0..40u8 {
        // 7 and 40 have no common factor
        let place = ((i as u32 * 7 + 7) % 40) as u8;
        let one = name_root(b'B', 0x30 + place, 100 + place);
        put(alloc, &index, NodeForm::Names, &mut slots, &mut root, &one)?;
    }
    assert_eq!(rt; slots.count(), 2);
    take_out(alloc, &index, &mut slots, &mut root, &key(alloc, b"$Boot")?)?;
    take_out(alloc, &index, &mut slots, &mut root, &key(alloc, b"$MFT")?)?;
    let found = walked(alloc, &index, &mut slots, &root, 0)?;
    assert!(rt; found == listed(alloc)?);
    Ok(())
}
