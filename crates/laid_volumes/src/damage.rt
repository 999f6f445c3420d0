//! Damage to the volume that `format 2048 4096 1 DATA` makes, one clause of the volume definition at a time, and what is told of
//! one that was edited. Where things
//! lie was computed by hand from the table of items that `format` lays. No edit here touches the last two bytes of a
//! sector, but where it says so, so the update sequences of the records stay right.
ghost use Rattle.std.specs.Prelude.{◌≡◌, ◌<◌, ◌^◌, length};

// The byte at which the table of records begins.
const TABLE: usize = 2 * 4096;

/// The byte at which the bitmap of records begins.
pub const RECORD_BITS: usize = 18 * 4096;

const MIRROR: usize = 19 * 4096;

/// The byte at which the bitmap of clusters begins.
pub const CLUSTER_BITS: usize = 36 * 4096;

// Types of attributes.
const STANDARD_INFORMATION: u8 = 0x10;

const FILE_NAME: u8 = 0x30;

const VOLUME_INFORMATION: u8 = 0x70;

const DATA: u8 = 0x80;

const BITMAP: u8 = 0xB0;

/// Puts bytes at a place; nothing where they do not fit.
pub fn put(image: &mut [u8], at: usize, bytes: &[u8])
    ensures { length image.new ≡ length image.old }
{
    if at <= image.len() && bytes.len() <= image.len() - at {
        image[at..at + bytes.len()].copy_from_slice(bytes);
    }
}

/// The byte at a place, 0 past the end.
pub fn byte(image: &[u8], at: usize) -> u8 {
    image.get(at).copied().unwrap_or(0)
}

/// The number of two bytes at a place.
pub fn number(image: &[u8], at: usize) -> usize
    ensures { result < 2 ^ 16 }
{
    let next = byte(image, at.saturating_add(1));
    usize::from(byte(image, at)) + 256 * usize::from(next)
}

/// Whether these bytes stand at a place.
pub fn stands(image: &[u8], at: usize, bytes: &[u8]) -> bool {
    image
        .get(at..)
        .is_some_and(|behind| behind.starts_with(bytes))
}

/// Where record n begins.
pub fn record(n: u8) -> usize
    ensures { result < 2 ^ 20 }
{
    TABLE + 1024 * usize::from(n)
}

// Where the first attribute of a type of record n begins: of the first ten attributes, all of less than 65,536 bytes.
fn attribute(image: &[u8], n: u8, kind: u8) -> usize {
    let mut at = record(n).saturating_add(number(image, record(n) + 0x14));
    for _ in 0..10 {
        if byte(image, at) == kind {
            return at;
        }
        at = at.saturating_add(number(image, at.saturating_add(4)));
    }
    at
}

// Where the value of the first resident attribute of a type of record n begins.
fn value(image: &[u8], n: u8, kind: u8) -> usize {
    let at = attribute(image, n, kind);
    at.saturating_add(number(image, at.saturating_add(0x14)))
}

// Sets the table's first cluster to the number of clusters.
fn move_table(image: &mut [u8])
    ensures { length image.new ≡ length image.old }
{
    put(image, 0x30, &256u64.to_le_bytes());
}

// Takes the signature off record 0.
fn drop_first_record(image: &mut [u8])
    ensures { length image.new ≡ length image.old }
{
    put(image, record(0), &[0]);
}

// Sets the used size of record n to 2,000.
fn stretch_record(image: &mut [u8], n: u8)
    ensures { length image.new ≡ length image.old }
{
    put(image, record(n) + 0x18, &2000u32.to_le_bytes());
}

// Gives the second attribute of record n the id of its first.
fn repeat_id(image: &mut [u8], n: u8)
    ensures { length image.new ≡ length image.old }
{
    let first = record(n).saturating_add(number(image, record(n) + 0x14));
    let second = first.saturating_add(number(image, first.saturating_add(4)));
    let id = [
        byte(image, first.saturating_add(0x0E)),
        byte(image, first.saturating_add(0x0F)),
    ];
    put(image, second.saturating_add(0x0E), &id);
}

// Makes record n an extension record, without attributes, of the file of record `base`, which has its own number as
// sequence number.
fn extend(image: &mut [u8], n: u8, base: u8)
    ensures { length image.new ≡ length image.old }
{
    let at = record(n);
    put(image, at, b"FILE\x30\0\x03\0");
    put(
        image,
        at + 0x10,
        &[1, 0, 0, 0, 0x38, 0, 1, 0, 0x40, 0, 0, 0, 0, 4, 0, 0],
    );
    put(image, at + 0x20, &[base, 0, 0, 0, 0, 0, base, 0]);
    put(image, at + 0x2C, &[n, 0, 0, 0, 1, 0]);
    put(image, at + 0x38, &[0xFF; 4]);
    put(image, at + 510, &[1, 0]);
    put(image, at + 1022, &[1, 0]);
}

// Sets the initialized size of `$DATA` of record n to one byte more than its real size.
fn stretch_value(image: &mut [u8], n: u8)
    ensures { length image.new ≡ length image.old }
{
    let at = attribute(image, n, DATA);
    let real = number(image, at.saturating_add(0x30)).saturating_add(
        65_536 * number(image, at.saturating_add(0x32)),
    );
    put(
        image,
        at.saturating_add(0x38),
        &(real as u64).saturating_add(1).to_le_bytes(),
    );
}

// Lets the first run of `$DATA` of record n begin at a cluster below 128.
fn move_run(image: &mut [u8], n: u8, cluster: u8)
    ensures { length image.new ≡ length image.old }
{
    let at = attribute(image, n, DATA);
    let text = at.saturating_add(number(image, at.saturating_add(0x20)));
    put(image, text.saturating_add(2), &[cluster]);
}

/// Sets a bit of the bitmap that begins at a place.
pub fn set_bit(image: &mut [u8], bits: usize, n: u8)
    ensures { length image.new ≡ length image.old }
{
    let at = bits.saturating_add(usize::from(n / 8));
    let set = byte(image, at) | 1 << (n % 8);
    put(image, at, &[set]);
}

// Sets the sequence number of the parent in the first name of record n to 12.
fn age_parent(image: &mut [u8], n: u8)
    ensures { length image.new ≡ length image.old }
{
    let at = value(image, n, FILE_NAME);
    put(image, at.saturating_add(6), &[12, 0]);
}

// Sets the link count of record n to 2.
fn count_links(image: &mut [u8], n: u8)
    ensures { length image.new ≡ length image.old }
{
    put(image, record(n) + 0x12, &[2, 0]);
}

// Takes one unit off the table of case.
fn cut_case_table(image: &mut [u8])
    ensures { length image.new ≡ length image.old }
{
    let at = attribute(image, 10, DATA);
    put(image, at.saturating_add(0x30), &131_070u64.to_le_bytes());
    put(image, at.saturating_add(0x38), &131_070u64.to_le_bytes());
}

// Clears the bit of the only index record of the root.
fn clear_index_bit(image: &mut [u8])
    ensures { length image.new ≡ length image.old }
{
    let at = value(image, 5, BITMAP);
    put(image, at, &[0]);
}

/// Breaks a clause, by its number; the greater of two numbers that break it first.
pub fn break_clause(image: &mut [u8], clause: u8)
    ensures { length image.new ≡ length image.old }
{
    match clause {
        1 => move_table(image),
        2 => drop_first_record(image),
        3 => {
            stretch_record(image, 6);
            stretch_record(image, 5);
        }
        4 => {
            repeat_id(image, 9);
            repeat_id(image, 4);
        }
        5 => {
            extend(image, 26, 9);
            extend(image, 27, 4);
        }
        6 => {
            stretch_value(image, 6);
            stretch_value(image, 2);
        }
        7 => {
            move_run(image, 10, 36);
            move_run(image, 2, 19);
        }
        8 => {
            set_bit(image, CLUSTER_BITS, 255);
            set_bit(image, CLUSTER_BITS, 200);
        }
        9 => {
            set_bit(image, RECORD_BITS, 40);
            set_bit(image, RECORD_BITS, 30);
        }
        10 => {
            age_parent(image, 25);
            age_parent(image, 24);
        }
        11 => {
            count_links(image, 25);
            count_links(image, 24);
        }
        12 => clear_index_bit(image),
        _ => cut_case_table(image),
    }
}

/// Changes the last byte of record n, where its second update sequence ends.
pub fn tear(image: &mut [u8], n: u8)
    ensures { length image.new ≡ length image.old }
{
    let at = record(n) + 1023;
    let other = byte(image, at) ^ 0xFF;
    put(image, at, &[other]);
}

/// Marks the volume as not closed, in record 3, and in its copy too where both are wanted.
pub fn mark_dirty(image: &mut [u8], both: bool)
    ensures { length image.new ≡ length image.old }
{
    let at = value(image, 3, VOLUME_INFORMATION).saturating_add(0x0A);
    let flags = byte(image, at) | 1;
    put(image, at, &[flags]);
    if both {
        put(image, at.saturating_add(MIRROR - TABLE), &[flags]);
    }
}

/// The four bytes of DOS flags that `$STANDARD_INFORMATION` of record n tells.
pub fn dos_flags(image: &[u8], n: u8) -> [u8; 4] {
    let at = value(image, n, STANDARD_INFORMATION).saturating_add(0x20);
    let mut flags = [0; 4];
    for (i, flag) in flags.iter_mut().enumerate() {
        *flag = byte(image, at.saturating_add(i));
    }
    flags
}

/// Whether record 3 says that the volume was not closed.
pub fn is_marked(image: &[u8]) -> bool {
    byte(
        image,
        value(image, 3, VOLUME_INFORMATION).saturating_add(0x0A),
    ) & 1
        == 1
}

/// Has the table of 64 records end its written part in the middle of the last one, in record 0 and in its copy.
pub fn cut_table(image: &mut [u8])
    ensures { length image.new ≡ length image.old }
{
    let at = attribute(image, 0, DATA).saturating_add(0x38);
    let written: u32 = 64 * 1024 - 512;
    put(image, at, &written.to_le_bytes());
    put(
        image,
        at.saturating_add(MIRROR - TABLE),
        &written.to_le_bytes(),
    );
}

// A sparse stream named `a` of one hole of 268,435,457 clusters, one byte longer than 2^40.
fn long_stream() -> [u8; 88] {
    let mut attribute = [0; 88];
    attribute[0x00] = DATA;
    attribute[0x04] = 88;
    attribute[0x08] = 1;
    attribute[0x09] = 1;
    attribute[0x0A] = 0x48;
    attribute[0x0D] = 0x80;
    attribute[0x0E] = 9;
    attribute[0x1B] = 0x10;
    attribute[0x20] = 0x50;
    attribute[0x29] = 0x10;
    attribute[0x2D] = 1;
    attribute[0x30] = 1;
    attribute[0x35] = 1;
    attribute[0x48] = b'a';
    attribute[0x50..0x56].copy_from_slice(b"\x04\x01\0\0\x10\0");
    attribute
}

// Puts that stream behind the last attribute of record n, which is one of `$DATA`.
fn lengthen(image: &mut [u8], n: u8)
    ensures { length image.new ≡ length image.old }
{
    let stream = long_stream();
    let end = attribute(image, n, 0xFF);
    let used = (number(image, record(n) + 0x18) as u32).saturating_add(88);
    put(image, end, &stream);
    put(image, end.saturating_add(88), &[0xFF; 4]);
    put(image, record(n) + 0x18, &used.to_le_bytes());
}

/// Breaks a clause, by its number and in one place.
pub fn break_once(image: &mut [u8], clause: u8)
    ensures { length image.new ≡ length image.old }
{
    match clause {
        1 => move_table(image),
        2 => drop_first_record(image),
        3 => stretch_record(image, 5),
        4 => repeat_id(image, 4),
        5 => extend(image, 26, 4),
        6 => stretch_value(image, 2),
        7 => move_run(image, 2, 19),
        8 => set_bit(image, CLUSTER_BITS, 255),
        9 => set_bit(image, RECORD_BITS, 30),
        10 => age_parent(image, 24),
        11 => count_links(image, 25),
        12 => clear_index_bit(image),
        13 => cut_case_table(image),
        14 => mark_dirty(image, false),
        _ => lengthen(image, 4),
    }
}

/// What an entry tells of its file: the time of record change, as far as that is one byte, and four bytes of flags.
pub fn told_at(image: &[u8], key: Option<usize>) -> Option<(u8, [u8; 4])> {
    let at = key?;
    let mut flags = [0; 4];
    for (i, flag) in flags.iter_mut().enumerate() {
        *flag = byte(image, at.saturating_add(0x38).saturating_add(i));
    }
    Some((byte(image, at.saturating_add(0x18)), flags))
}
