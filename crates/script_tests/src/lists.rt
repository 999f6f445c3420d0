//! A file that stands in two records: record 26 with a list of its attributes, and its extension record 27, laid by hand
//! into the volume that `format 2048 4096 1 DATA` makes. Its `$DATA` has a cluster in each, 200 and 201. What is laid is
//! zero elsewhere, and ends before byte 510 of a record, so the update sequences keep zeros.
//!
//! Layout: Linux-NTFS documentation, "File Record", "Attribute Headers" and attribute $ATTRIBUTE_LIST; Carrier, File System
//! Forensic Analysis, chapter 13.
use laid_volumes::damage::{CLUSTER_BITS, RECORD_BITS, put, record, set_bit};
use laid_volumes::laid::{LaidName, ROOT_RECORD, begin, lay_in_root};
use laid_volumes::made::{refusal, volume};
use laid_volumes::scripts::{Row, is_sound, wrong_row};
use mft_table::MountNo;
use std::alloc::Global;
use std::test;

// Types of attributes.
const STANDARD_INFORMATION: u8 = 0x10;

const ATTRIBUTE_LIST: u8 = 0x20;

const FILE_NAME: u8 = 0x30;

const DATA: u8 = 0x80;

// The file, and its extension record.
const FILE: u8 = 26;

const EXTENSION: u8 = 27;

// The cluster in which a list lies that is no value.
const LIST_CLUSTER: u8 = 202;

const LIST_PLACE: usize = 202 * 4096;

// An attribute, as a list names it: by its type, the number of its first cluster, the record that holds it, and its id.
#[derive(Clone, Copy)]
struct Entry {
    kind: u8,
    first: u8,
    holder: u8,
    sequence: u8,
    id: u8,
}

// The attributes of the file: its list, and those that the list names.
const LIST: Entry = Entry {
    kind: ATTRIBUTE_LIST,
    first: 0,
    holder: FILE,
    sequence: 1,
    id: 1,
};

const STANDARD: Entry = Entry {
    kind: STANDARD_INFORMATION,
    first: 0,
    holder: FILE,
    sequence: 1,
    id: 0,
};

const NAMED: Entry = Entry {
    kind: FILE_NAME,
    first: 0,
    holder: FILE,
    sequence: 1,
    id: 2,
};

const BEGIN: Entry = Entry {
    kind: DATA,
    first: 0,
    holder: FILE,
    sequence: 1,
    id: 3,
};

const REST: Entry = Entry {
    kind: DATA,
    first: 1,
    holder: EXTENSION,
    sequence: 1,
    id: 0,
};

const RIGHT: [Entry; 4] = [STANDARD, NAMED, BEGIN, REST];

// Lays the entry of an attribute at a place.
fn lay_entry(image: &mut [u8], at: usize, entry: Entry) {
    put(
        image,
        at,
        &[entry.kind, 0, 0, 0, 32, 0, 0, 0x1A, entry.first],
    );
    put(
        image,
        at.saturating_add(0x10),
        &[entry.holder, 0, 0, 0, 0, 0, entry.sequence, 0, entry.id],
    );
}

// Lays entries one behind the other, and tells their bytes: seven at most.
fn lay_entries(image: &mut [u8], at: usize, entries: &[Entry]) -> u8 {
    let mut len: u8 = 0;
    for entry in entries {
        lay_entry(image, at.saturating_add(usize::from(len)), *entry);
        len = len.saturating_add(32);
    }
    len
}

// Lays the header of a resident attribute, whose value has so many bytes.
fn lay_header(image: &mut [u8], at: usize, kind: u8, id: u8, len: u8) {
    let whole = (u16::from(len) + 31) / 8 * 8;
    put(image, at, &[kind]);
    put(image, at.saturating_add(0x04), &whole.to_le_bytes());
    put(image, at.saturating_add(0x0E), &[id, 0, len, 0, 0, 0, 24]);
}

// Lays the header of an extent of one cluster, and its run.
fn lay_extent(image: &mut [u8], at: usize, part: Entry, cluster: u8) {
    put(image, at, &[part.kind, 0, 0, 0, 72, 0, 0, 0, 1, 0, 64]);
    put(image, at.saturating_add(0x0E), &[part.id, 0, part.first]);
    put(image, at.saturating_add(0x18), &[part.first]);
    put(image, at.saturating_add(0x20), &[64]);
    put(image, at.saturating_add(0x40), &[0x21, 1, cluster]);
}

// Lays the sizes of a stream into its first extent.
fn lay_sizes(image: &mut [u8], at: usize, allocated: u64, real: u64) {
    put(image, at.saturating_add(0x28), &allocated.to_le_bytes());
    put(image, at.saturating_add(0x30), &real.to_le_bytes());
    put(image, at.saturating_add(0x38), &real.to_le_bytes());
}

// Lays a list at a place, and tells where the next attribute stands.
fn lay_list(image: &mut [u8], at: usize, id: u8, entries: &[Entry]) -> usize {
    let value = at.saturating_add(24);
    let len = lay_entries(image, value, entries);
    lay_header(image, at, ATTRIBUTE_LIST, id, len);
    value.saturating_add(usize::from(len))
}

// .. a list of 128 bytes in a cluster.
fn lay_placed_list(image: &mut [u8], at: usize) -> usize {
    lay_extent(image, at, LIST, LIST_CLUSTER);
    lay_sizes(image, at, 4096, 128);
    at.saturating_add(72)
}

// .. a name of one unit, in the root.
fn lay_name(image: &mut [u8], at: usize) -> usize {
    let value = at.saturating_add(24);
    lay_header(image, at, FILE_NAME, 2, 68);
    put(image, value, &[5, 0, 0, 0, 0, 0, 5]);
    put(image, value.saturating_add(0x40), &[1, 0, b'a']);
    at.saturating_add(96)
}

// Ends a record at a place.
fn end(image: &mut [u8], at: usize) {
    put(image, at, &[0xFF; 4]);
}

// Begins the file: the attribute before its list.
fn begin_file(image: &mut [u8]) -> usize {
    let at = begin(image, FILE, 1, 0);
    lay_header(image, at, STANDARD_INFORMATION, 0, 48);
    at.saturating_add(72)
}

// Ends the file: the attributes behind its list.
fn end_file(image: &mut [u8], at: usize) {
    let at = lay_name(image, at);
    lay_extent(image, at, BEGIN, 200);
    lay_sizes(image, at, 8192, 8192);
    end(image, at.saturating_add(72));
}

// Lays the file with this list.
fn lay_file(image: &mut [u8], entries: &[Entry]) {
    let at = begin_file(image);
    let at = lay_list(image, at, 1, entries);
    end_file(image, at);
}

// Lays its extension record, with this extent.
fn lay_extension(image: &mut [u8], rest: Entry) {
    let at = begin(image, EXTENSION, 0, FILE);
    lay_extent(image, at, rest, 201);
    end(image, at.saturating_add(72));
}

// Marks the records and the clusters of the file as in use.
fn mark_file(image: &mut [u8]) {
    set_bit(image, RECORD_BITS, FILE);
    set_bit(image, RECORD_BITS, EXTENSION);
    set_bit(image, CLUSTER_BITS, 200);
    set_bit(image, CLUSTER_BITS, 201);
}

// A volume with the file, which has this list.
fn volume_with(alloc: Global, entries: &[Entry]) -> Result<Vec<u8>, test::Fail> {
    let mut image = volume(alloc)?;
    lay_file(&mut image, entries);
    lay_extension(&mut image, REST);
    mark_file(&mut image);
    Ok(image)
}

// Why a volume is refused on which the file has this list.
fn answer(alloc: Global, entries: &[Entry]) -> Result<Option<MountNo>, test::Fail> {
    let image = volume_with(alloc, entries)?;
    refusal(alloc, &image)
}

fn refused(clause: u8, number: u64) -> Option<MountNo> {
    Some(MountNo::Refused { clause, number })
}

// The name of the file, in the root.
const A: LaidName = LaidName {
    file: FILE,
    parent: (ROOT_RECORD, ROOT_RECORD),
    space: 0,
    letters: "a",
    is_dir: false,
};

// Lines on the stream, the last about two bytes in each of its clusters.
const READS: [Row; 2] = [
    ("streams /a", "stream 8192\nok\n"),
    ("read /a 4094 4", "data 7778797a\nok\n"),
];

// Whether a volume with the file is sound, and the file is read, once its name is in the root.
fn is_read(alloc: Global, image: &mut [u8]) -> Result<bool, test::Fail> {
    lay_in_root(alloc, image, &[A])?;
    put(image, 201 * 4096 - 2, b"wxyz");
    let wrong = wrong_row(alloc, 2048, image, &READS)?;
    Ok(is_sound(alloc, 2048, image)? && wrong.is_none())
}

#[test]
fn a_right_list_is_taken(rt: HostRuntime) -> Result<(), test::Fail> {
    let mut image = volume_with(rt.alloc(), &RIGHT)?;
    assert_eq!(rt; refusal(rt.alloc(), &image)?, None);
    assert!(rt; is_read(rt.alloc(), &mut image)?);
    Ok(())
}

// A volume on which the list lies in a cluster.
fn volume_with_placed_list(alloc: Global) -> Result<Vec<u8>, test::Fail> {
    let mut image = volume_with(alloc, &RIGHT)?;
    let at = begin_file(&mut image);
    let at = lay_placed_list(&mut image, at);
    end_file(&mut image, at);
    lay_entries(&mut image, LIST_PLACE, &RIGHT);
    Ok(image)
}

#[test]
fn a_list_in_a_cluster_is_taken(rt: HostRuntime) -> Result<(), test::Fail> {
    let mut image = volume_with_placed_list(rt.alloc())?;
    set_bit(&mut image, CLUSTER_BITS, LIST_CLUSTER);
    assert_eq!(rt; refusal(rt.alloc(), &image)?, None);
    assert!(rt; is_read(rt.alloc(), &mut image)?);
    Ok(())
}

// The run of the list, 72 bytes behind the first place of the record's attributes, has no cluster on the volume.
#[test]
fn the_list_lies_in_a_hole(rt: HostRuntime) -> Result<(), test::Fail> {
    let mut image = volume_with_placed_list(rt.alloc())?;
    put(&mut image, record(FILE) + 0x38 + 72 + 0x40, &[1, 1, 0]);
    assert_eq!(rt; refusal(rt.alloc(), &image)?, refused(5, 26));
    Ok(())
}

const NOTHING: Entry = Entry {
    kind: DATA,
    first: 2,
    holder: EXTENSION,
    sequence: 1,
    id: 1,
};

const OTHER: Entry = Entry {
    kind: DATA,
    first: 1,
    holder: EXTENSION,
    sequence: 2,
    id: 0,
};

// An entry is missing, one stands twice, the list names itself, an entry names no attribute, and one has another sequence number.
const WRONG: [&[Entry]; 5] = [
    &[STANDARD, NAMED, BEGIN],
    &[STANDARD, NAMED, BEGIN, REST, REST],
    &[STANDARD, LIST, NAMED, BEGIN, REST],
    &[STANDARD, NAMED, BEGIN, REST, NOTHING],
    &[STANDARD, NAMED, BEGIN, OTHER],
];

#[test]
fn a_list_with_wrong_entries_is_refused(rt: HostRuntime) -> Result<(), test::Fail> {
    for (i, entries) in WRONG.into_iter().enumerate() {
        assert_eq!(rt; answer(rt.alloc(), entries)?, refused(5, 26), "{i}");
    }
    Ok(())
}

#[test]
fn the_file_has_two_lists(rt: HostRuntime) -> Result<(), test::Fail> {
    let mut image = volume_with(rt.alloc(), &RIGHT)?;
    let at = begin_file(&mut image);
    let at = lay_list(&mut image, at, 1, &RIGHT);
    let at = lay_list(&mut image, at, 4, &[]);
    end_file(&mut image, at);
    assert_eq!(rt; refusal(rt.alloc(), &image)?, refused(5, 26));
    Ok(())
}

#[test]
fn the_file_has_no_list(rt: HostRuntime) -> Result<(), test::Fail> {
    let mut image = volume_with(rt.alloc(), &RIGHT)?;
    let at = begin_file(&mut image);
    end_file(&mut image, at);
    assert_eq!(rt; refusal(rt.alloc(), &image)?, refused(5, 26));
    Ok(())
}

#[test]
fn the_list_stands_in_the_extension_record(rt: HostRuntime) -> Result<(), test::Fail> {
    let mut image = volume_with(rt.alloc(), &RIGHT)?;
    let at = begin_file(&mut image);
    end_file(&mut image, at);
    let at = begin(&mut image, EXTENSION, 0, FILE);
    let at = lay_list(&mut image, at, 1, &RIGHT);
    lay_extent(&mut image, at, REST, 201);
    end(&mut image, at.saturating_add(72));
    assert_eq!(rt; refusal(rt.alloc(), &image)?, refused(5, 26));
    Ok(())
}

// The list names the extent rightly, but cluster 1 of the stream is in none.
#[test]
fn the_extents_leave_a_gap(rt: HostRuntime) -> Result<(), test::Fail> {
    let behind = Entry {
        kind: DATA,
        first: 2,
        holder: EXTENSION,
        sequence: 1,
        id: 0,
    };
    let mut image = volume_with(rt.alloc(), &[STANDARD, NAMED, BEGIN, behind])?;
    lay_extension(&mut image, behind);
    assert_eq!(rt; refusal(rt.alloc(), &image)?, refused(6, 26));
    Ok(())
}

#[test]
fn the_base_reference_has_another_sequence_number(rt: HostRuntime) -> Result<(), test::Fail> {
    let mut image = volume_with(rt.alloc(), &RIGHT)?;
    put(&mut image, record(EXTENSION) + 0x26, &[2]);
    assert_eq!(rt; refusal(rt.alloc(), &image)?, refused(10, 27));
    Ok(())
}

// An extension record without attributes is named by no list, but it is in use.
#[test]
fn an_empty_extension_record_is_not_marked(rt: HostRuntime) -> Result<(), test::Fail> {
    let mut image = volume_with(rt.alloc(), &RIGHT)?;
    let at = begin(&mut image, 28, 0, FILE);
    end(&mut image, at);
    assert_eq!(rt; refusal(rt.alloc(), &image)?, refused(9, 28));
    set_bit(&mut image, RECORD_BITS, 28);
    assert_eq!(rt; refusal(rt.alloc(), &image)?, None);
    Ok(())
}
