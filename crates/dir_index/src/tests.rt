//! A name is sought among keys, and an entry says its link.

use crate::entry::DuplicatedInformation;
use crate::fresh::fresh_entry;
use crate::link::link_of_entry;
use crate::sought::{ExactName, FoldedName};
use collation::Collation;
use index_node::NodeView;
use ntfs_def::NodeForm;
use std::alloc::Global;
use std::cmp::Ordering;
use std::test::Fail;
use tree_model::Link;
use upcase::UpCase;
use vol_bytes::Octets;

// A table that folds the letters of ASCII alone.
fn table(alloc: Global) -> Result<UpCase, Fail> {
    let mut bytes = Vec::new(alloc);
    for unit in 0..=u16::MAX {
        let folded = match unit {
            0x61..=0x7A => unit - 0x20,
            _ => unit,
        };
        for byte in folded.to_le_bytes() {
            bytes.push(byte)?;
        }
    }
    Ok(UpCase::load(alloc, &bytes)?)
}

// The value of a `$FILE_NAME` with these units.
fn key(alloc: Global, units: &[u16]) -> Result<Vec<u8>, Fail> {
    let mut bytes = vec![in alloc; 0u8; 0x40]?;
    bytes.push(u8::try_from(units.len()).unwrap_or(0))?;
    bytes.push(3)?;
    for unit in units {
        for byte in unit.to_le_bytes() {
            bytes.push(byte)?;
        }
    }
    Ok(bytes)
}

// The root of a directory with one entry: record 26, with the sequence number 3, as `a` and `é` in directory 5.
const ROOT: [u8; 136] = [
    0x30, 0, 0, 0, 1, 0, 0, 0, 0, 16, 0, 0, 1, 0, 0, 0, // the root's header
    0x10, 0, 0, 0, 0x78, 0, 0, 0, 0x78, 0, 0, 0, 0, 0, 0, 0, // the header of the index
    26, 0, 0, 0, 0, 0, 3, 0, 0x58, 0, 0x46, 0, 0, 0, 0, 0, // the entry
    5, 0, 0, 0, 0, 0, 5, 0, 0, 0, 0, 0, 0, 0, 0, 0, // its key, at 0x30
    0, 0, 0, 0, 0, 0, 0, 0, 0, 0, 0, 0, 0, 0, 0, 0, //
    0, 0, 0, 0, 0, 0, 0, 0, 0, 0, 0, 0, 0, 0, 0, 0, //
    0, 0, 0, 0, 0, 0, 0, 0, 0, 0, 0, 0, 0, 0, 0, 0, //
    2, 1, 0x61, 0, 0xE9, 0, 0, 0, // two units, namespace 1
    0, 0, 0, 0, 0, 0, 0, 0, 0x10, 0, 0, 0, 2, 0, 0, 0, // the last entry
];

fn link_of_first(alloc: Global, root: &[u8]) -> Result<Option<Link>, Fail> {
    let node = NodeView::new(root, NodeForm::Names)?;
    if node.entries() == 0 {
        return Ok(None);
    }
    Ok(link_of_entry(alloc, node.entry(0))?)
}

#[test]
fn an_entry_says_its_link(rt: HostRuntime) -> Result<(), Fail> {
    let link = link_of_first(rt.alloc(), &ROOT)?;
    assert_eq!(rt;
        format!(in rt.alloc(); "{link:?}")?.as_str(),
        "Some(Link { parent: 5, name: Name { units: [97, 233] }, space: 1, child: 26 })"
    );
    let mut nameless = ROOT;
    nameless[0x70] = 0;
    assert!(rt; link_of_first(rt.alloc(), &nameless)?.is_none());
    Ok(())
}

// The same root with a child below each entry, here the records 7 and 8.
const LEADING: [u8; 152] = [
    0x30, 0, 0, 0, 1, 0, 0, 0, 0, 16, 0, 0, 1, 0, 0, 0, // the root's header
    0x10, 0, 0, 0, 0x88, 0, 0, 0, 0x88, 0, 0, 0, 1, 0, 0, 0, // the header of the index
    26, 0, 0, 0, 0, 0, 3, 0, 0x60, 0, 0x46, 0, 1, 0, 0, 0, // the entry
    5, 0, 0, 0, 0, 0, 5, 0, 0, 0, 0, 0, 0, 0, 0, 0, // its key, at 0x30
    0, 0, 0, 0, 0, 0, 0, 0, 0, 0, 0, 0, 0, 0, 0, 0, //
    0, 0, 0, 0, 0, 0, 0, 0, 0, 0, 0, 0, 0, 0, 0, 0, //
    0, 0, 0, 0, 0, 0, 0, 0, 0, 0, 0, 0, 0, 0, 0, 0, //
    2, 1, 0x61, 0, 0xE9, 0, 0, 0, // two units, namespace 1
    7, 0, 0, 0, 0, 0, 0, 0, // its child
    0, 0, 0, 0, 0, 0, 0, 0, 0x18, 0, 0, 0, 3, 0, 0, 0, // the last entry
    8, 0, 0, 0, 0, 0, 0, 0, // its child
];

// The entry without a child that tells other times and sizes, and the flag 2 in the place of 0x20, beside 0x10000000, which is not shown.
const FRESH: [u8; 88] = [
    26, 0, 0, 0, 0, 0, 3, 0, 0x58, 0, 0x46, 0, 0, 0, 0, 0, // the entry
    5, 0, 0, 0, 0, 0, 5, 0, // its key: the directory
    1, 0, 0, 0, 0, 0, 0, 0x11, 2, 0, 0, 0, 0, 0, 0, 0x12, 3, 0, 0, 0, 0, 0, 0, 0x13, 4, 0, 0, 0, 0,
    0, 0, 0x14, // times
    5, 0, 0, 0, 0, 0, 0, 0x15, 6, 0, 0, 0, 0, 0, 0, 0x16, // sizes
    2, 0, 0, 0x10, 0, 0, 0, 0, // flags
    2, 1, 0x61, 0, 0xE9, 0, 0, 0, // two units, namespace 1
];

// The first entry of a root, telling this of its file.
fn fresh_of_first(
    alloc: Global,
    root: &[u8],
    told: &DuplicatedInformation,
) -> Result<Option<Octets>, Fail> {
    let node = NodeView::new(root, NodeForm::Names)?;
    if node.entries() == 0 {
        return Ok(None);
    }
    Ok(fresh_entry(alloc, node.entry(0), told)?)
}

#[test]
fn an_entry_tells_its_file_anew(rt: HostRuntime) -> Result<(), Fail> {
    let told = DuplicatedInformation {
        times: [
            0x11 << 56 | 1,
            0x12 << 56 | 2,
            0x13 << 56 | 3,
            0x14 << 56 | 4,
        ],
        allocated: 0x15 << 56 | 5,
        real: 0x16 << 56 | 6,
        flags: 2,
    };
    let mut alone = ROOT;
    alone[0x68..0x6C].copy_from_slice(&[0x20, 0, 0, 0x10]);
    let mut leading = LEADING;
    leading[0x68..0x6C].copy_from_slice(&[0x20, 0, 0, 0x10]);
    for root in [alone.as_slice(), leading.as_slice()] {
        let Some(fresh) = fresh_of_first(rt.alloc(), root, &told)? else {
            return Err("no entry")?;
        };
        assert_eq!(rt; fresh.as_slice(), FRESH.as_slice());
    }
    let mut nameless = ROOT;
    nameless[0x70] = 0;
    assert!(rt; fresh_of_first(rt.alloc(), &nameless, &told)?.is_none());
    Ok(())
}

fn side<C: Collation>(order: &C, key: &[u8]) -> Option<Ordering> {
    if order.is_valid(key) && order.is_valid(&[]) {
        Some(order.compare(key, &[]))
    } else {
        None
    }
}

#[test]
fn names_are_sought(rt: HostRuntime) -> Result<(), Fail> {
    let upcase = table(rt.alloc())?;
    let rows: [(&[u16], &[u16], Ordering, Ordering); 5] = [
        (&[0x61], &[0x61], Ordering::Equal, Ordering::Equal), // a, a
        (&[0x41], &[0x61], Ordering::Less, Ordering::Equal), // A, a
        (&[0x61], &[0x41], Ordering::Greater, Ordering::Equal), // a, A
        (&[0x61], &[0x61, 0x61], Ordering::Less, Ordering::Less), // a, aa
        (&[0x61], &[], Ordering::Greater, Ordering::Greater), // a, the empty name
    ];
    for (units, name, exact, folded) in rows {
        let key = key(rt.alloc(), units)?;
        let by_units = ExactName {
            upcase: &upcase,
            name,
        };
        let by_fold = FoldedName {
            upcase: &upcase,
            name,
        };
        assert_eq!(rt; side(&by_units, &key), Some(exact));
        assert_eq!(rt; side(&by_fold, &key), Some(folded));
    }
    Ok(())
}

#[test]
fn a_long_name_is_no_key(rt: HostRuntime) -> Result<(), Fail> {
    let upcase = table(rt.alloc())?;
    let key = key(rt.alloc(), &[0x61; 255])?;
    let order = ExactName {
        upcase: &upcase,
        name: &[0x61; 256],
    };
    assert_eq!(rt; side(&order, &key), Some(Ordering::Less));
    Ok(())
}
