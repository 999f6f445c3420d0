//! Keys put into an index, replaced and taken out, over records that tell nothing; each call on them failing in turn.
ghost use Rattle.std.specs.Prelude.{◌≡◌, ◌≤◌, false, length, IfSome, IsTrue};
ghost use Rattle.ntfs_def.specs.Node.{item_in};
ghost use Rattle.index_node.specs.Edit.{IsShortEntry};
ghost use Rattle.index_tree.specs.Index.{form_of};

use crate::slots::Slots;
use crate::trees::{record, root};
use collation::{Collation, IdOrder};
use index_node::NodeView;
use index_tree::{Index, IndexNo};
use ntfs_def::{NodeForm, index_record};
use std::alloc::Global;
use std::test::Fail;
use vol_bytes::{put_u16, put_u32, put_u64, u16_at};

// The bytes of a root without an entry, of a view index.
const EMPTY: [u8; 48] = [
    0, 0, 0, 0, 0x10, 0, 0, 0, 0x00, 0x10, 0, 0, 1, 0, 0, 0, // the fields of an `$INDEX_ROOT`
    0x10, 0, 0, 0, 0x20, 0, 0, 0, 0x20, 0, 0, 0, 0, 0, 0, 0, // the index header
    0, 0, 0, 0, 0, 0, 0, 0, 0x10, 0, 0, 0, 2, 0, 0, 0, // the last entry
];

// The most bytes of a root with one entry.
const MOST: usize = 680;

// A root with one entry of so many bytes, whose key has `key_len` bytes; each byte that no field takes is `fill`.
pub fn root_of_one(len: u16, key_len: u16, fill: u8) -> [u8; MOST]
    requires { len ≤ 632 }
{
    let mut root = [fill; MOST];
    put_u32(&mut root, 0x10, 0x10);
    put_u32(&mut root, 0x14, 0x20 + len as u32);
    put_u32(&mut root, 0x18, 0x20 + len as u32);
    put_u32(&mut root, 0x1C, 0);
    put_u64(&mut root, 0x20, 0);
    put_u64(&mut root, 0x28, 0);
    put_u16(&mut root, 0x28, len);
    put_u16(&mut root, 0x2A, key_len);
    let last = 0x20 + len as usize;
    put_u64(&mut root, last, 0);
    put_u64(&mut root, last + 8, 0x0002_0000_0010);
    root
}

// A root with this id alone.
fn id_root(id: u32, len: u16, fill: u8) -> [u8; MOST]
    requires { len ≤ 632 }
{
    let mut root = root_of_one(len, 4, fill);
    put_u32(&mut root, 0x30, id);
    root
}

// The first entry of a root, where it can be put into an index: it is short, leads to no child, and has a valid key.
fn entry_to_put<'r, C: Collation>(order: &C, form: NodeForm, root: &'r [u8]) -> Option<&'r [u8]>
    ensures short { IfSome result (λ entry. IsShortEntry form false entry.now) }
    ensures key { IfSome result (λ entry. IsTrue (C.valid order.now (item_in entry.now).key)) }
{
    let Ok(view) = NodeView::new(root, form) else {
        return None;
    };
    if view.entries() == 0 {
        return None;
    }
    let entry = view.entry(0);
    let valid = order.is_valid(view.key(0));
    if entry.len() < 16 || entry.len() > 632 || !valid {
        return None;
    }
    if u16_at(entry, index_record::ENTRY_FLAGS) % 2 == 1 {
        return None;
    }
    Some(entry)
}

// Puts the entry of this root into an index.
pub fn put<C: Collation>(
    alloc: Global,
    index: &Index<C>,
    form: NodeForm,
    slots: &mut Slots,
    root: &mut Vec<u8>,
    one: &[u8],
) -> Result<(), IndexNo>
    requires { form_of index.now ≡ form }
{
    let Some(entry) = entry_to_put(index.order(), form, one) else {
        return Err(IndexNo::Memory);
    };
    if root.len() > 1056 {
        return Err(IndexNo::Memory);
    }
    index.insert(alloc, slots, root, entry)
}

// Puts the entry of this root in place of the one with its key.
fn put_again<C: Collation>(
    index: &Index<C>,
    form: NodeForm,
    slots: &mut Slots,
    root: &mut Vec<u8>,
    one: &[u8],
) -> Result<(), IndexNo>
    requires { form_of index.now ≡ form }
{
    let Some(entry) = entry_to_put(index.order(), form, one) else {
        return Err(IndexNo::Memory);
    };
    index.replace(slots, root.as_mut_slice(), entry)
}

// Takes a key out of an index.
pub fn take_out<C: Collation>(
    alloc: Global,
    index: &Index<C>,
    slots: &mut Slots,
    root: &mut Vec<u8>,
    key: &[u8],
) -> Result<(), IndexNo> {
    if !index.order().is_valid(key) || root.len() > 1056 {
        return Err(IndexNo::Memory);
    }
    index.remove(alloc, slots, root, key)
}

// The four bytes at a place of each entry of an index, in order: the id, or the low half of a file's reference.
pub fn walked<C: Collation>(
    alloc: Global,
    index: &Index<C>,
    slots: &mut Slots,
    root: &[u8],
    at: usize,
) -> Result<Vec<u32>, Fail> {
    let all = index.walk(alloc, slots, root)?;
    let mut found = Vec::new(alloc);
    for entry in &all {
        let mut word = [0u8; 4];
        for (to, from) in word.iter_mut().zip(entry.as_slice().iter().skip(at)) {
            *to = *from;
        }
        found.push(u32::from_le_bytes(word))?;
    }
    Ok(found)
}

// How many ids there are, a prime.
const COUNT: u32 = 10_007;

// The numbers below `COUNT` in a scrambled order.
fn scrambled(i: u32) -> u32 {
    ((i as u64 * 7_919 + 13) % COUNT as u64) as u32
}

// How long the entry of an id is.
fn len_of(id: u32) -> u16
    ensures { result ≤ 576 }
{
    24 + 8 * (id % 70) as u16
}

// The ids that come at the places from `from` up to `to`, sorted.
fn sorted_ids(alloc: Global, from: u32, to: u32) -> Result<Vec<u32>, Fail> {
    let mut ids = Vec::new(alloc);
    for i in from..to {
        ids.push(scrambled(i))?;
    }
    ids.sort()?;
    Ok(ids)
}

#[test]
fn many_ids(rt: HostRuntime) -> Result<(), Fail> {
    let alloc = rt.alloc();
    let index = Index::new(IdOrder, NodeForm::View, 300);
    let mut slots = Slots::new(alloc, u64::MAX, u64::MAX);
    let mut root = Vec::from_slice(alloc, &EMPTY)?;
    for i in 0..COUNT {
        let id = scrambled(i);
        let one = id_root(id, len_of(id), 0);
        put(alloc, &index, NodeForm::View, &mut slots, &mut root, &one)?;
        if i % 1000 == 999 {
            let found = walked(alloc, &index, &mut slots, &root, 0x10)?;
            assert!(rt; found == sorted_ids(alloc, 0, i + 1)?, "at {i}");
        }
    }
    assert!(rt; root.len() <= 300);
    for i in 0..COUNT {
        let id = scrambled(i);
        take_out(alloc, &index, &mut slots, &mut root, &id.to_le_bytes())?;
        if i % 1000 == 999 {
            let found = walked(alloc, &index, &mut slots, &root, 0x10)?;
            assert!(rt; found == sorted_ids(alloc, i + 1, COUNT)?, "at {i}");
        }
    }
    assert_eq!(rt; walked(alloc, &index, &mut slots, &root, 0x10)?.len(), 0);
    Ok(())
}

// Each entry gets other bytes behind its key; no record and no byte of the root is won or lost.
#[test]
fn many_replaced(rt: HostRuntime) -> Result<(), Fail> {
    let alloc = rt.alloc();
    let index = Index::new(IdOrder, NodeForm::View, 300);
    let mut slots = Slots::new(alloc, u64::MAX, u64::MAX);
    let mut root = Vec::from_slice(alloc, &EMPTY)?;
    for i in 0..1000 {
        let id = scrambled(i);
        let one = id_root(id, 32, 0);
        put(alloc, &index, NodeForm::View, &mut slots, &mut root, &one)?;
    }
    let before = (slots.count(), root.len());
    let written = slots.written;
    for i in 0..1000 {
        let one = id_root(scrambled(i), 32, 0x5A);
        put_again(&index, NodeForm::View, &mut slots, &mut root, &one)?;
    }
    assert!(rt; slots.written <= written.saturating_add(1000));
    assert_eq!(rt; (slots.count(), root.len()), before);
    let ids = walked(alloc, &index, &mut slots, &root, 0x10)?;
    assert!(rt; ids == sorted_ids(alloc, 0, 1000)?);
    for rest in walked(alloc, &index, &mut slots, &root, 0x14)? {
        assert_eq!(rt; rest, 0x5A5A_5A5A);
    }
    Ok(())
}

// Puts ids in, replaces them and takes them out, up to the first call that fails.
fn edited(alloc: Global, slots: &mut Slots) -> Result<(), IndexNo> {
    let index = Index::new(IdOrder, NodeForm::View, 300);
    let mut root = Vec::from_slice(alloc, &EMPTY)?;
    for id in 0..60 {
        put(
            alloc,
            &index,
            NodeForm::View,
            slots,
            &mut root,
            &id_root(id, 200, 0),
        )?;
    }
    for id in 0..60 {
        put_again(
            &index,
            NodeForm::View,
            slots,
            &mut root,
            &id_root(id, 200, 0x5A),
        )?;
    }
    for id in 0..60u32 {
        take_out(alloc, &index, slots, &mut root, &id.to_le_bytes())?;
    }
    Ok(())
}

#[test]
fn each_call_fails(rt: HostRuntime) -> Result<(), Fail> {
    let alloc = rt.alloc();
    let mut whole = Slots::new(alloc, u64::MAX, u64::MAX);
    edited(alloc, &mut whole)?;
    assert!(rt; whole.reads > 0 && whole.written > 0 && whole.taken > 0 && whole.given > 0);
    for fails_at in 0..whole.calls {
        let mut slots = Slots::new(alloc, fails_at, u64::MAX);
        let failed = edited(alloc, &mut slots);
        let told = (failed, slots.faults, slots.full);
        assert!(rt; told == (Err(IndexNo::Device), 1, 0), "at {fails_at}");
    }
    for most in 0..whole.taken {
        let mut slots = Slots::new(alloc, u64::MAX, most);
        let failed = edited(alloc, &mut slots);
        let told = (failed, slots.faults, slots.full);
        assert!(rt; told == (Err(IndexNo::NoRoom), 0, 1), "at {most}");
    }
    Ok(())
}

// An empty leaf takes a key; a tree that has no key left is given back.
#[test]
fn empty_leaves(rt: HostRuntime) -> Result<(), Fail> {
    let alloc = rt.alloc();
    let index = Index::new(IdOrder, NodeForm::View, 300);
    let mut slots = Slots::new(alloc, u64::MAX, u64::MAX);
    slots.slots.push(Some(record(alloc, &[(None, None)])?))?;
    slots
        .slots
        .push(Some(record(alloc, &[(Some(50), None), (None, None)])?))?;
    let mut root = root(alloc, &[(Some(40), Some(0)), (None, Some(1))])?;
    let one = id_root(10, 24, 0);
    put(alloc, &index, NodeForm::View, &mut slots, &mut root, &one)?;
    let rows: [(u32, &[u32], usize); 3] = [(40, &[10, 50], 2), (50, &[10], 1), (10, &[], 1)];
    for (id, left, records) in rows {
        take_out(alloc, &index, &mut slots, &mut root, &id.to_le_bytes())?;
        let found = walked(alloc, &index, &mut slots, &root, 0x10)?;
        assert!(rt;
            found.as_slice() == left && slots.count() == records,
            "at {id}"
        );
    }
    Ok(())
}
