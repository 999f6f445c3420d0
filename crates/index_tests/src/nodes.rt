//! The nodes of a root directory. What is expected of them is what `ntfsls` and `ntfsinfo -v` told of them.

use crate::root_directory::{ROOT, directory};
use index_node::{NodeNo, NodeView, lay_out};
use ntfs_def::NodeForm;
use std::test::Fail;
use vol_bytes::Octets;

#[test]
fn record_of_a_directory(rt: HostRuntime) -> Result<(), Fail> {
    let node = directory();
    let view = NodeView::new(&node, NodeForm::Names)?;
    // the lengths of `$AttrDef`, `$BadClus`, `$Bitmap` and so on up to `.`, in units
    let names = [8, 8, 7, 5, 7, 8, 4, 8, 7, 7, 7, 1];
    assert_eq!(rt; view.entries(), names.len());
    for (i, units) in names.iter().enumerate() {
        if i < view.entries() {
            assert_eq!(rt; view.key(i).get(0x40).copied(), Some(*units), "at {i}");
            assert_eq!(rt; view.child(i), None, "at {i}");
        }
    }
    if view.entries() > 11 {
        // the file of `.` is record 5
        assert_eq!(rt; view.entry(11).len(), 88);
        assert_eq!(rt; view.entry(11).first().copied(), Some(5));
    }
    assert!(rt; view.is_short());
    Ok(())
}

#[test]
fn root_of_a_directory(rt: HostRuntime) -> Result<(), Fail> {
    let view = NodeView::new(&ROOT, NodeForm::Names)?;
    assert_eq!(rt; view.entries(), 0);
    assert_eq!(rt; view.child(0), Some(0));
    assert!(rt; view.is_short());
    Ok(())
}

// The root again, from its entry and a header with room for it.
#[test]
fn root_laid_out(rt: HostRuntime) -> Result<(), Fail> {
    let mut node = [
        0x30, 0, 0, 0, 1, 0, 0, 0, 0, 0x10, 0, 0, 1, 0, 0, 0, // the fields of an `$INDEX_ROOT`
        0x10, 0, 0, 0, 0x10, 0, 0, 0, 0x28, 0, 0, 0, 0, 0, 0, 0, // the index header
        0, 0, 0, 0, 0, 0, 0, 0, 0, 0, 0, 0, 0, 0, 0, 0, 0, 0, 0, 0, 0, 0, 0, 0,
    ];
    let entry = [
        0, 0, 0, 0, 0, 0, 0, 0, 0x18, 0, 0, 0, 3, 0, 0, 0, 0, 0, 0, 0, 0, 0, 0, 0,
    ];
    let entries = [Octets::from_vec(Vec::from_slice(rt.alloc(), &entry)?)];
    lay_out(&mut node, NodeForm::Names, true, &entries)?;
    assert_eq!(rt; node.as_slice(), ROOT.as_slice());
    Ok(())
}

// Each row sets one byte, and says where the shape fails then.
#[test]
fn failing_places(rt: HostRuntime) {
    let rows = [
        (0x00, 0x4A, 0x00), // JNDX
        (0x04, 0x20, 0x04), // the array stands in the header
        (0x1D, 0x10, 0x1C), // more used than allocated
        (0x21, 0x10, 0x20), // more allocated than there is
        (0x48, 0x60, 0x40), // an entry that does not hold its key
        (0x48, 0x69, 0x40), // a length that is no multiple of 8
        (0x4C, 0x01, 0x40), // a child where the node has none
        (0x1C, 0xC0, 0x4D8), // the last entry stands behind the used bytes
        (0x4E4, 0x00, 0x4E8), // no last entry
        (0x4E2, 0x01, 0x4D8), // a last entry with a key
    ];
    for (place, byte, at) in rows {
        let mut node = directory();
        if let Some(cell) = node.get_mut(place) {
            *cell = byte;
        }
        let fault = NodeView::new(&node, NodeForm::Names).err();
        assert_eq!(rt; fault, Some(NodeNo::Shape { at }), "byte {place}");
    }
    let short = NodeView::new(&ROOT[..31], NodeForm::Names).err();
    assert_eq!(rt; short, Some(NodeNo::Shape { at: 0 }));
}

#[test]
fn refusal_texts(rt: HostRuntime) -> Result<(), Fail> {
    for (no, text) in [
        (
            NodeNo::Shape { at: 0x18 },
            "the node has a wrong shape at byte 24",
        ),
        (
            NodeNo::Full { need: 40, free: 16 },
            "the node has room for 16 bytes of 40",
        ),
    ] {
        assert_eq!(rt; format!(in rt.alloc(); "{no}")?.as_str(), text);
    }
    Ok(())
}
