//! Files laid by hand into the volume that `format` makes: their records, their names and the entries of directories.
//!
//! Layout: Linux-NTFS documentation, "File Record", "Attribute Headers", "Index Header" and attributes $FILE_NAME and
//! $INDEX_ROOT; Carrier, File System Forensic Analysis, chapter 13.
use crate::damage::{CLUSTER_BITS, RECORD_BITS, byte, number, put, record, set_bit};
use std::alloc::{AllocError, Global};

// Where the index record of the root begins.
const ROOT: usize = 134 * 4096;

/// The record of the root, and its sequence number.
pub const ROOT_RECORD: u8 = 5;

// Types of attributes.
const STANDARD_INFORMATION: u8 = 0x10;

const FILE_NAME: u8 = 0x30;

const DATA: u8 = 0x80;

const INDEX_ROOT: u8 = 0x90;

/// A name of a file, and the record in which the file stands. The sequence number of a record that is laid is 1.
#[derive(Clone, Copy)]
pub struct LaidName {
    /// The record of the file.
    pub file: u8,
    /// The record of the directory, and its sequence number.
    pub parent: (u8, u8),
    /// The namespace.
    pub space: u8,
    /// Letters of one byte each.
    pub letters: &'static str,
    pub is_dir: bool,
}

/// A resident attribute: its type and id, the letters of its name, and its value.
#[derive(Clone, Copy)]
pub struct Value<'a> {
    pub kind: u8,
    pub id: u8,
    pub name: &'static str,
    pub value: &'a [u8],
}

/// An unnamed stream in clusters. Its run list has at most 16 bytes.
#[derive(Clone, Copy)]
pub struct Extent<'a> {
    pub id: u8,
    /// 1 where it is packed, 0x8000 where it is sparse.
    pub flags: u16,
    /// Clusters: those that the runs cover, and those that lie on the volume.
    pub covered: u64,
    pub owned: u64,
    /// Bytes.
    pub real: u64,
    pub initialized: u64,
    pub runs: &'a [u8],
}

/// Begins record n in use, with so many links and this base record, if it is not 0; tells where its first attribute stands.
pub fn begin(image: &mut [u8], n: u8, links: u8, base: u8) -> usize {
    let at = record(n);
    put(image, at, &[0; 1024]);
    put(image, at, b"FILE\x30\0\x03\0");
    put(image, at + 0x10, &[1, 0, links, 0, 0x38, 0, 1, 0, 0, 2]);
    put(image, at + 0x1D, &[4, 0, 0, base]);
    put(image, at + 0x26, &[u8::from(base != 0), 0, 8]);
    put(image, at + 0x2C, &[n, 0, 0, 0, 1]);
    put(image, at + 510, &[1]);
    put(image, at + 1022, &[1]);
    at + 0x38
}

// Puts a number of eight bytes at a place.
fn put_number(image: &mut [u8], at: usize, value: usize) {
    put(image, at, &(value as u64).to_le_bytes());
}

// Puts letters at a place, two bytes each.
fn put_letters(image: &mut [u8], at: usize, letters: &str) {
    let mut at = at;
    for letter in letters.as_bytes() {
        put(image, at, &[*letter, 0]);
        at = at.saturating_add(2);
    }
}

// The least multiple of 8 at or above a number.
fn up_to_8(n: usize) -> usize {
    n.saturating_add(7) / 8 * 8
}

/// Lays a resident attribute at a place, and tells where the next one stands. Each field's number is laid as eight bytes, of which
/// the fields behind it then take the rest.
pub fn lay_value(image: &mut [u8], at: usize, attribute: Value) -> usize {
    let name_len = attribute.name.len();
    let offset = up_to_8(name_len.saturating_add(name_len).saturating_add(24));
    let len = up_to_8(offset.saturating_add(attribute.value.len()));
    put(image, at, &[attribute.kind, 0, 0, 0]);
    put_number(image, at.saturating_add(0x04), len);
    put_number(image, at.saturating_add(0x09), name_len);
    put(
        image,
        at.saturating_add(0x0A),
        &[24, 0, 0, 0, attribute.id, 0],
    );
    put_number(image, at.saturating_add(0x10), attribute.value.len());
    put_number(image, at.saturating_add(0x14), offset);
    put_letters(image, at.saturating_add(24), attribute.name);
    put(image, at.saturating_add(offset), attribute.value);
    at.saturating_add(len)
}

/// Lays `$STANDARD_INFORMATION` with these times, these flags and the security id 256.
pub fn lay_standard(image: &mut [u8], at: usize, times: [u8; 4], flags: u16) -> usize {
    let mut value = [0; 72];
    for (place, time) in [0, 8, 16, 24].into_iter().zip(times) {
        put(&mut value, place, &[time]);
    }
    put(&mut value, 0x20, &flags.to_le_bytes());
    put(&mut value, 0x34, &256u32.to_le_bytes());
    let standard = Value {
        kind: STANDARD_INFORMATION,
        id: 0,
        name: "",
        value: &value,
    };
    lay_value(image, at, standard)
}

// The value of `$FILE_NAME`, which is the key of the entry too.
fn key_of(alloc: Global, name: &LaidName) -> Result<Vec<u8>, AllocError> {
    let count = name.letters.len();
    let mut key = vec![in alloc; 0; 0x48]?;
    put(&mut key, 0, &[name.parent.0, 0, 0, 0, 0, 0, name.parent.1]);
    put(&mut key, 0x3B, &[if name.is_dir { 0x10 } else { 0 }]);
    put_number(&mut key, 0x40, count);
    put(&mut key, 0x41, &[name.space]);
    key.resize(count.saturating_add(count).saturating_add(0x42), 0)?;
    put_letters(&mut key, 0x42, name.letters);
    Ok(key)
}

/// Lays `$FILE_NAME` at a place.
pub fn lay_name(
    alloc: Global,
    image: &mut [u8],
    at: usize,
    id: u8,
    name: &LaidName,
) -> Result<usize, AllocError> {
    let key = key_of(alloc, name)?;
    let attribute = Value {
        kind: FILE_NAME,
        id,
        name: "",
        value: &key,
    };
    Ok(lay_value(image, at, attribute))
}

/// Lays an unnamed stream in clusters.
pub fn lay_extent(image: &mut [u8], at: usize, extent: Extent) -> usize {
    let last = extent.covered.saturating_sub(1);
    let allocated = extent.covered.saturating_mul(4096);
    put(image, at, &[DATA, 0, 0, 0, 88, 0, 0, 0, 1, 0, 72]);
    put(image, at.saturating_add(0x0C), &extent.flags.to_le_bytes());
    put(image, at.saturating_add(0x0E), &[extent.id]);
    put(image, at.saturating_add(0x18), &last.to_le_bytes());
    put(image, at.saturating_add(0x20), &[72]);
    put(
        image,
        at.saturating_add(0x22),
        &[if extent.flags == 1 { 4 } else { 0 }],
    );
    put(image, at.saturating_add(0x28), &allocated.to_le_bytes());
    put(image, at.saturating_add(0x30), &extent.real.to_le_bytes());
    put(
        image,
        at.saturating_add(0x38),
        &extent.initialized.to_le_bytes(),
    );
    put(
        image,
        at.saturating_add(0x40),
        &extent.owned.saturating_mul(4096).to_le_bytes(),
    );
    put(image, at.saturating_add(0x48), extent.runs);
    at.saturating_add(88)
}

// Puts an entry before the last one of a leaf whose header begins at a place. The entry's key comes behind all others.
fn add_entry(node: &mut [u8], header: usize, file: u8, key: &[u8]) {
    let used = number(node, header.saturating_add(4));
    let at = header.saturating_add(used).saturating_sub(16);
    let len = up_to_8(key.len().saturating_add(16));
    put(node, at, &[file, 0, 0, 0, 0, 0, 1, 0]);
    put_number(node, at.saturating_add(8), len);
    put_number(node, at.saturating_add(0x0A), key.len());
    put(node, at.saturating_add(0x0C), &[0, 0, 0, 0]);
    put(node, at.saturating_add(0x10), key);
    put(
        node,
        at.saturating_add(len),
        &[0, 0, 0, 0, 0, 0, 0, 0, 16, 0, 0, 0, 2, 0, 0, 0],
    );
    let used = used.saturating_add(len);
    put(node, header.saturating_add(4), &used.to_le_bytes()[..4]);
}

/// Lays the index of a directory that has these names, in their order.
pub fn lay_index(
    alloc: Global,
    image: &mut [u8],
    at: usize,
    id: u8,
    names: &[LaidName],
) -> Result<usize, AllocError> {
    let mut index = vec![in alloc; 0; 48]?;
    put(
        &mut index,
        0,
        &[0x30, 0, 0, 0, 1, 0, 0, 0, 0, 0x10, 0, 0, 1, 0, 0, 0],
    );
    put(&mut index, 16, &[16, 0, 0, 0, 32]);
    put(&mut index, 40, &[16, 0, 0, 0, 2]);
    for name in names {
        let key = key_of(alloc, name)?;
        let len = up_to_8(key.len().saturating_add(16));
        index.resize(index.len().saturating_add(len), 0)?;
        add_entry(&mut index, 16, name.file, &key);
    }
    let used = number(&index, 20);
    put_number(&mut index, 24, used);
    let attribute = Value {
        kind: INDEX_ROOT,
        id,
        name: "$I30",
        value: &index,
    };
    Ok(lay_value(image, at, attribute))
}

/// Begins the record of a file: in use, with so many links.
pub fn begin_file(image: &mut [u8], n: u8, links: u8, is_dir: bool) -> usize {
    let at = begin(image, n, links, 0);
    set_bit(image, RECORD_BITS, n);
    put(image, record(n) + 0x16, &[if is_dir { 3 } else { 1 }]);
    at
}

/// Ends the record of a file behind its last attribute.
pub fn end_file(image: &mut [u8], n: u8, at: usize) {
    let used = at.saturating_add(8).saturating_sub(record(n));
    put(image, at, &[0xFF; 4]);
    put(image, record(n) + 0x18, &used.to_le_bytes()[..4]);
    seal(image, record(n), 0x30, 2);
}

/// Puts the last two bytes of each sector of a block into its update sequence, which begins at an offset, and the number in
/// their place.
pub fn seal(image: &mut [u8], at: usize, sequence: usize, sectors: usize) {
    let array = at.saturating_add(sequence);
    let mark = [byte(image, array), byte(image, array.saturating_add(1))];
    for n in 0..sectors {
        let end = at.saturating_add(n.saturating_mul(512)).saturating_add(510);
        let kept = [byte(image, end), byte(image, end.saturating_add(1))];
        put(
            image,
            array.saturating_add(n.saturating_mul(2)).saturating_add(2),
            &kept,
        );
        put(image, end, &mark);
    }
}

// .. and back.
fn open(image: &mut [u8], at: usize, sequence: usize, sectors: usize) {
    let array = at.saturating_add(sequence);
    for n in 0..sectors {
        let kept = array.saturating_add(n.saturating_mul(2)).saturating_add(2);
        let end = at.saturating_add(n.saturating_mul(512)).saturating_add(510);
        let bytes = [byte(image, kept), byte(image, kept.saturating_add(1))];
        put(image, end, &bytes);
    }
}

/// Puts names into the root's index, in their order and behind all that are there.
pub fn lay_in_root(alloc: Global, image: &mut [u8], names: &[LaidName]) -> Result<(), AllocError> {
    let sequence = number(image, ROOT + 4);
    open(image, ROOT, sequence, 8);
    for name in names {
        let key = key_of(alloc, name)?;
        add_entry(image, ROOT + 24, name.file, &key);
    }
    seal(image, ROOT, sequence, 8);
    Ok(())
}

/// Where the key begins of entry k, from 0, that a directory has of a file, among the entries between two places.
pub fn key_in(image: &[u8], from: usize, to: usize, dir: u8, file: u8, k: usize) -> Option<usize> {
    let entry = (from..to)
        .filter(|at| {
            byte(image, *at) == file
                && byte(image, at.saturating_add(6)) == 1
                && byte(image, at.saturating_add(16)) == dir
        })
        .nth(k)?;
    Some(entry.saturating_add(16))
}

/// The same of the root, whose entries stand in one record of its index.
pub fn key_in_root(image: &[u8], file: u8, k: usize) -> Option<usize> {
    key_in(image, ROOT, ROOT + 4096, ROOT_RECORD, file, k)
}

/// Marks clusters as owned.
pub fn own(image: &mut [u8], clusters: &[u8]) {
    for cluster in clusters {
        set_bit(image, CLUSTER_BITS, *cluster);
    }
}
