//! A directory whose index has three levels, laid by hand into the volume that `format 2048 4096 1 DATA` makes. It has 295 names,
//! those of 37 files, in 38 index records of eight sectors each.
//!
//! Layout: Linux-NTFS documentation, "Index Header", "Index Record" and attributes $INDEX_ROOT and $INDEX_ALLOCATION; Carrier,
//! File System Forensic Analysis, chapter 13.
use laid_volumes::cases::sound;
use laid_volumes::damage::{CLUSTER_BITS, put, set_bit};
use laid_volumes::laid::{
    LaidName, ROOT_RECORD, Value, begin_file, end_file, lay_in_root, lay_name, lay_standard,
    lay_value, seal,
};
use laid_volumes::made::volume;
use laid_volumes::scripts::failing;
use std::alloc::Global;
use std::test;
use vol_disk::CallKind;

// Types of attributes.
const FILE_NAME: u8 = 0x30;

const DATA: u8 = 0x80;

const INDEX_ROOT: u8 = 0x90;

const BITMAP: u8 = 0xB0;

// The directory.
const M: LaidName = LaidName {
    file: 26,
    parent: (ROOT_RECORD, ROOT_RECORD),
    space: 0,
    letters: "m",
    is_dir: true,
};

// The record of file 0, and how many files there are.
const FIRST_FILE: u8 = 27;

const FILES: u8 = 37;

// The names of a file. A leaf has all of one file but the last, which is the key behind this leaf in the branch. The last file has
// no such name.
const NAMES: u8 = 8;

// The cluster of index record 0. There is one for each file, its leaf, and one behind these, the branch.
const FIRST_CLUSTER: u8 = 150;

const BRANCH: u8 = FILES;

// Where the entries of an index record begin.
const ENTRIES: usize = 0x40;

// A root node that has the branch as its only child: its head, of names in records of 4,096 bytes, its header and its last entry.
const ROOT_NODE: &[u8] = b"\
    \x30\0\0\0\x01\0\0\0\0\x10\0\0\x01\0\0\0\
    \x10\0\0\0\x28\0\0\0\x28\0\0\0\x01\0\0\0\
    \0\0\0\0\0\0\0\0\x18\0\0\0\x03\0\0\0\x25\0\0\0\0\0\0\0";

// The index records, 38 clusters from 150 on: the header, the first and the last cluster, the place of the runs, the three sizes,
// the name and the run.
const ALLOCATION: &[u8] = b"\
    \xA0\0\0\0\x50\0\0\0\x01\x04\x40\0\0\0\x03\0\
    \0\0\0\0\0\0\0\0\x25\0\0\0\0\0\0\0\
    \x48\0\0\0\0\0\0\0\0\x60\x02\0\0\0\0\0\
    \0\x60\x02\0\0\0\0\0\0\x60\x02\0\0\0\0\0\
    $\0I\03\00\0\x21\x26\x96\0\0\0\0\0";

// The bits of these records.
const BITS: &[u8] = b"\xFF\xFF\xFF\xFF\x3F\0\0\0";

// The last entry of a leaf, and that of the branch, which has the leaf of the last file as its child.
const LAST_IN_LEAF: &[u8] = b"\0\0\0\0\0\0\0\0\x10\0\0\0\x02\0\0\0";

const LAST_IN_BRANCH: &[u8] = b"\0\0\0\0\0\0\0\0\x18\0\0\0\x03\0\0\0\x24\0\0\0\0\0\0\0";

// The value of `$FILE_NAME` of a file's name: two letters, the one of the file and the one of the name.
fn key_of(file: u8, name: u8) -> [u8; 70] {
    let mut key = [0; 70];
    key[0] = M.file;
    key[6] = 1;
    key[0x40] = 2;
    key[0x42] = b'0'.saturating_add(file);
    key[0x44] = b'0'.saturating_add(name);
    key
}

// Lays the entry of a file's name at a place, of a leaf, or with the file's leaf as its child. Tells where the next one stands.
fn lay_entry(image: &mut [u8], at: usize, file: u8, name: u8, is_branch: bool) -> usize {
    let (len, flags) = if is_branch { (96, 1) } else { (88, 0) };
    let record = FIRST_FILE.saturating_add(file);
    put(
        image,
        at,
        &[record, 0, 0, 0, 0, 0, 1, 0, len, 0, 70, 0, flags, 0, 0, 0],
    );
    put(image, at.saturating_add(16), &key_of(file, name));
    if is_branch {
        put(image, at.saturating_add(88), &[file]);
    }
    at.saturating_add(usize::from(len))
}

// Where an index record begins.
fn place_of(record: u8) -> usize {
    4096 * usize::from(FIRST_CLUSTER.saturating_add(record))
}

// Lays what stands before the entries of an index record.
fn begin_node(image: &mut [u8], record: u8, flags: u8) {
    let at = place_of(record);
    put(image, at, b"INDX\x28\0\x09\0");
    put(image, at.saturating_add(0x10), &[record]);
    put(image, at.saturating_add(0x18), &[0x28]);
    put(image, at.saturating_add(0x20), &[0xE8, 0x0F, 0, 0, flags]);
    put(image, at.saturating_add(0x28), &[1]);
}

// Lays the last entry of an index record at a place, and ends the record.
fn end_node(image: &mut [u8], record: u8, at: usize, entry: &[u8]) {
    let node = place_of(record);
    put(image, at, entry);
    let used = at
        .saturating_add(entry.len())
        .saturating_sub(node.saturating_add(0x18));
    put(
        image,
        node.saturating_add(0x1C),
        &(used as u64).to_le_bytes()[..4],
    );
    seal(image, node, 0x28, 8);
}

// Lays the leaf of a file.
fn lay_leaf(image: &mut [u8], file: u8) {
    begin_node(image, file, 0);
    let mut at = place_of(file).saturating_add(ENTRIES);
    for name in 0..NAMES - 1 {
        at = lay_entry(image, at, file, name, false);
    }
    end_node(image, file, at, LAST_IN_LEAF);
}

// Lays the branch.
fn lay_branch(image: &mut [u8]) {
    begin_node(image, BRANCH, 1);
    let mut at = place_of(BRANCH).saturating_add(ENTRIES);
    for file in 0..FILES - 1 {
        at = lay_entry(image, at, file, NAMES - 1, true);
    }
    end_node(image, BRANCH, at, LAST_IN_BRANCH);
}

// Lays a file with its names.
fn lay_file(image: &mut [u8], file: u8) {
    let names = if file == FILES - 1 { NAMES - 1 } else { NAMES };
    let record = FIRST_FILE.saturating_add(file);
    let at = begin_file(image, record, names, false);
    let mut at = lay_standard(image, at, [0; 4], 0x20);
    for name in 0..names {
        let name_attribute = Value {
            kind: FILE_NAME,
            id: name.saturating_add(1),
            name: "",
            value: &key_of(file, name),
        };
        at = lay_value(image, at, name_attribute);
    }
    let stream = Value {
        kind: DATA,
        id: 9,
        name: "",
        value: b"",
    };
    let at = lay_value(image, at, stream);
    end_file(image, record, at);
}

// Lays the record of the directory.
fn lay_directory(alloc: Global, image: &mut [u8]) -> Result<(), test::Fail> {
    let at = begin_file(image, M.file, 1, true);
    let at = lay_standard(image, at, [0; 4], 0);
    let at = lay_name(alloc, image, at, 1, &M)?;
    let root = Value {
        kind: INDEX_ROOT,
        id: 2,
        name: "$I30",
        value: ROOT_NODE,
    };
    let at = lay_value(image, at, root);
    put(image, at, ALLOCATION);
    let bits = Value {
        kind: BITMAP,
        id: 4,
        name: "$I30",
        value: BITS,
    };
    let at = lay_value(image, at.saturating_add(80), bits);
    end_file(image, M.file, at);
    lay_in_root(alloc, image, &[M])?;
    Ok(())
}

// The volume with the directory `m`.
fn volume_with_m(alloc: Global) -> Result<Vec<u8>, test::Fail> {
    let mut image = volume(alloc)?;
    lay_directory(alloc, &mut image)?;
    lay_branch(&mut image);
    set_bit(
        &mut image,
        CLUSTER_BITS,
        FIRST_CLUSTER.saturating_add(BRANCH),
    );
    for file in 0..FILES {
        lay_leaf(&mut image, file);
        lay_file(&mut image, file);
        set_bit(&mut image, CLUSTER_BITS, FIRST_CLUSTER.saturating_add(file));
    }
    Ok(image)
}

// No run here makes as many reads.
const UNREACHED: u64 = 1_000_000;

// Read 200 behind those of the mount check. The index records alone are 304 sectors.
const FAILING: u64 = 1507 + 200;

// What `ls /m` prints: a line of eight bytes for each of the 295 names, in eight of which `:` is printed as `%003A`, and `ok`.
const LISTED_LINES: usize = 295 + 1;

const LISTED_BYTES: usize = 295 * 8 + 8 * 4 + 3;

fn lines_of(text: &[u8]) -> usize {
    text.iter().filter(|byte| **byte == b'\n').count()
}

// What a line on the directory comes to where a read fails: the status, and how many lines and bytes are printed.
fn told(
    alloc: Global,
    image: &[u8],
    line: &[u8],
    read: u64,
) -> Result<(u8, usize, usize), test::Fail> {
    let (status, out) = failing(alloc, image, line, CallKind::Read, read)?;
    Ok((status, lines_of(out.bytes()), out.bytes().len()))
}

// The last name is found by the nodes on its way, of which there are three, before the read that fails. All names are in 38, and
// a list of them comes to it. Where no read fails all are listed.
#[test]
fn a_path_is_walked_by_its_index(rt: HostRuntime) -> Result<(), test::Fail> {
    let image = volume_with_m(rt.alloc())?;
    sound(rt.alloc(), 2048, &image)?;
    let rows: [(&[u8], u64, (u8, usize, usize)); 3] = [
        (b"attr /m/T6\n", FAILING, (0, 2, 13)),
        (b"ls /m\n", FAILING, (6, 0, 0)),
        (b"ls /m\n", UNREACHED, (0, LISTED_LINES, LISTED_BYTES)),
    ];
    for (line, read, wanted) in rows {
        assert_eq!(rt; told(rt.alloc(), &image, line, read)?, wanted);
    }
    Ok(())
}
