//! Worked pairs of each order. The names stand as `ntfsls` lists them on a volume that `mkntfs` of ntfs-3g made.

use crate::case_table::table;
use collation::{Collation, FileNameOrder, FoldedOrder, HashOrder, IdOrder, WordsOrder};
use std::alloc::Global;
use std::cmp::Ordering;
use std::test::Fail;

// The value of a `$FILE_NAME` with these units.
fn key(alloc: Global, units: &[u16]) -> Result<Vec<u8>, Fail> {
    let mut bytes = vec![in alloc; 0u8; 0x40]?;
    bytes.push(u8::try_from(units.len()).unwrap_or(0))?;
    bytes.push(3)?;
    for unit in units {
        for byte in unit.to_le_bytes() {
            bytes.push(byte)?;
        }
    }
    Ok(bytes)
}

fn answer<C: Collation>(order: &C, a: &[u8], b: &[u8]) -> Option<Ordering> {
    if order.is_valid(a) && order.is_valid(b) {
        Some(order.compare(a, b))
    } else {
        None
    }
}

#[test]
fn names(rt: HostRuntime) -> Result<(), Fail> {
    let order = FileNameOrder {
        upcase: table(rt.alloc())?,
    };
    let folded = FoldedOrder { names: &order };
    let rows: [(&[u16], &[u16], Ordering, Ordering); 6] = [
        (&[0x61], &[0x42], Ordering::Less, Ordering::Less), // a, B
        (&[0x61], &[0x5F], Ordering::Less, Ordering::Less), // a, _
        (&[0x42], &[0x5F], Ordering::Less, Ordering::Less), // B, _
        (&[0x5F], &[0xC9], Ordering::Less, Ordering::Less), // _, É
        (&[0xC9], &[0xE9], Ordering::Less, Ordering::Equal), // É, é
        (
            &[0x6E, 0x61],
            &[0x6E, 0x61, 0x32],
            Ordering::Less,
            Ordering::Less,
        ), // na, na2
    ];
    for (a, b, exact, by_fold) in rows {
        let a = key(rt.alloc(), a)?;
        let b = key(rt.alloc(), b)?;
        let exact_is = answer(&order, &a, &b) == Some(exact);
        if !exact_is || answer(&folded, &a, &b) != Some(by_fold) {
            return Err("two names are in another order")?;
        }
    }
    Ok(())
}

// Two keys, and how they are ordered.
type Pair = (&'static [u8], &'static [u8], Option<Ordering>);

// The number 0x101 stands behind 2, though its first byte is lower.
const IDS: [Pair; 2] = [
    (&[2, 0, 0, 0], &[1, 1, 0, 0], Some(Ordering::Less)),
    (&[2, 0, 0, 0], &[2, 0, 0], None),
];

const HASHES: [Pair; 2] = [
    (
        &[5, 0, 0, 0, 9, 0, 0, 0],
        &[5, 0, 0, 0, 0, 1, 0, 0],
        Some(Ordering::Less),
    ),
    (
        &[5, 0, 0, 0, 9, 0, 0, 0],
        &[4, 0, 0, 0, 0, 2, 0, 0],
        Some(Ordering::Greater),
    ),
];

const WORDS: [Pair; 4] = [
    (
        &[5, 0, 0, 0, 9, 0, 0, 0],
        &[5, 0, 0, 0, 0, 1, 0, 0],
        Some(Ordering::Less),
    ),
    (
        &[5, 0, 0, 0, 9, 0, 0, 0],
        &[5, 0, 0, 0],
        Some(Ordering::Greater),
    ),
    (&[0, 0, 0, 1], &[255, 255, 255, 0], Some(Ordering::Greater)),
    (&[0, 0, 0, 1], &[255, 255, 0], None),
];

// Whether an order has each pair so.
fn has_all<C: Collation>(order: &C, pairs: &[Pair]) -> bool {
    for (a, b, wanted) in pairs {
        if answer(order, a, b) != *wanted {
            return false;
        }
    }
    true
}

#[test]
fn numbers(rt: HostRuntime) {
    assert!(rt; has_all(&IdOrder, &IDS));
    assert!(rt; has_all(&HashOrder, &HASHES));
    assert!(rt; has_all(&WordsOrder, &WORDS));
}
