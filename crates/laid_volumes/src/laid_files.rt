//! Two volumes with files: one that is empty, and one of each kind that the reading commands tell apart.
use crate::damage::put;
use crate::laid::{
    Extent, LaidName, ROOT_RECORD, Value, begin_file, end_file, lay_extent, lay_in_root, lay_index,
    lay_name, lay_standard, lay_value, own,
};
use crate::made::{made_on, volume};
use std::alloc::Global;
use std::test;

/// The sectors of the greater volume.
pub const SECTORS: u16 = 16_384;

/// The words that make it.
pub const FORMAT: &str = "format 16384 4096 1 DATA";

// Types of attributes.
const OBJECT_ID: u8 = 0x40;

const DATA: u8 = 0x80;

const REPARSE_POINT: u8 = 0xC0;

// The root's record, and its sequence number.
const ROOT: (u8, u8) = (ROOT_RECORD, ROOT_RECORD);

const F: LaidName = LaidName {
    file: 26,
    parent: ROOT,
    space: 0,
    letters: "f",
    is_dir: false,
};

/// The volume of 16,384 sectors with one empty file, `f`.
pub fn volume_with_f(alloc: Global) -> Result<Vec<u8>, test::Fail> {
    let mut image = made_on(alloc, SECTORS, FORMAT)?;
    let at = begin_file(&mut image, 26, 1, false);
    let at = lay_standard(&mut image, at, [0; 4], 0x20);
    let at = lay_name(alloc, &mut image, at, 1, &F)?;
    let at = lay_value(
        &mut image,
        at,
        Value {
            kind: DATA,
            id: 2,
            name: "",
            value: b"",
        },
    );
    end_file(&mut image, 26, at);
    lay_in_root(alloc, &mut image, &[F])?;
    Ok(image)
}

const D: LaidName = LaidName {
    file: 26,
    parent: ROOT,
    space: 0,
    letters: "d",
    is_dir: true,
};

// The names of record 27.
const A: LaidName = LaidName {
    file: 27,
    parent: ROOT,
    space: 0,
    letters: "a",
    is_dir: false,
};

const B: LaidName = LaidName {
    file: 27,
    parent: (26, 1),
    space: 0,
    letters: "b",
    is_dir: false,
};

// Those of record 28.
const LONG: LaidName = LaidName {
    file: 28,
    parent: ROOT,
    space: 1,
    letters: "longfilename.txt",
    is_dir: false,
};

const SHORT: LaidName = LaidName {
    file: 28,
    parent: ROOT,
    space: 2,
    letters: "LONGFI~1.TXT",
    is_dir: false,
};

const HOLED: LaidName = LaidName {
    file: 29,
    parent: ROOT,
    space: 3,
    letters: "h",
    is_dir: false,
};

const POINT: LaidName = LaidName {
    file: 30,
    parent: ROOT,
    space: 0,
    letters: "r",
    is_dir: true,
};

const STREAMED: LaidName = LaidName {
    file: 31,
    parent: ROOT,
    space: 0,
    letters: "x",
    is_dir: false,
};

// In the order of an index.
const IN_ROOT: [LaidName; 7] = [A, D, HOLED, LONG, SHORT, POINT, STREAMED];

// The names of its streams, in the order of the record: the unnamed one, and twenty.
const STREAMS: [&str; 21] = [
    "", "s00", "s01", "s02", "s03", "s04", "s05", "s06", "s07", "s08", "s09", "s10", "s11", "s12",
    "s13", "s14", "s15", "s16", "s17", "s18", "s19",
];

// A packed stream of two clusters.
const PACKED: Extent = Extent {
    id: 4,
    flags: 1,
    covered: 16,
    owned: 2,
    real: 60_000,
    initialized: 60_000,
    runs: &[0x21, 2, 200, 0, 1, 14],
};

// A cluster, a hole of 16 clusters and a cluster, whose bytes are initialized up to the eighth of the last cluster.
const WITH_HOLE: Extent = Extent {
    id: 2,
    flags: 0x8000,
    covered: 18,
    owned: 2,
    real: 73_000,
    initialized: 69_640,
    runs: &[0x21, 1, 202, 0, 1, 16, 0x11, 1, 1],
};

const ID: [u8; 16] = [0, 1, 2, 3, 4, 5, 6, 7, 8, 9, 10, 11, 12, 13, 14, 255];

// An id with four bytes behind it.
const LONGER_ID: &[u8] =
    b"\xA0\xA1\xA2\xA3\xA4\xA5\xA6\xA7\xA8\xA9\xAA\xAB\xAC\xAD\xAE\xAF\x01\x02\x03\x04";

// The directory `d`, and `r`, which has a reparse point.
fn lay_directories(alloc: Global, image: &mut [u8]) -> Result<(), test::Fail> {
    let at = begin_file(image, 26, 1, true);
    let at = lay_standard(image, at, [0; 4], 0);
    let at = lay_name(alloc, image, at, 1, &D)?;
    let at = lay_index(alloc, image, at, 2, &[B])?;
    end_file(image, 26, at);
    let at = begin_file(image, 30, 1, true);
    let at = lay_standard(image, at, [0; 4], 0x400);
    let at = lay_name(alloc, image, at, 1, &POINT)?;
    let at = lay_index(alloc, image, at, 2, &[])?;
    let point = Value {
        kind: REPARSE_POINT,
        id: 3,
        name: "",
        value: &[3, 0, 0, 0xA0, 2, 0, 0, 0, 0xAB, 0xCD],
    };
    let at = lay_value(image, at, point);
    end_file(image, 30, at);
    Ok(())
}

// The file of two names, `a` and `d/b`.
fn lay_named_twice(alloc: Global, image: &mut [u8]) -> Result<(), test::Fail> {
    let at = begin_file(image, 27, 2, false);
    let at = lay_standard(image, at, [1, 2, 3, 4], 0x21);
    let at = lay_name(alloc, image, at, 1, &A)?;
    let at = lay_name(alloc, image, at, 2, &B)?;
    let at = lay_value(
        image,
        at,
        Value {
            kind: OBJECT_ID,
            id: 3,
            name: "",
            value: &ID,
        },
    );
    let at = lay_value(
        image,
        at,
        Value {
            kind: DATA,
            id: 4,
            name: "",
            value: b"hello",
        },
    );
    let at = lay_value(
        image,
        at,
        Value {
            kind: DATA,
            id: 5,
            name: "s",
            value: b"ab",
        },
    );
    end_file(image, 27, at);
    Ok(())
}

// The file with a DOS name and a packed stream.
fn lay_packed(alloc: Global, image: &mut [u8]) -> Result<(), test::Fail> {
    let at = begin_file(image, 28, 2, false);
    let at = lay_standard(image, at, [0; 4], 0x820);
    let at = lay_name(alloc, image, at, 1, &LONG)?;
    let at = lay_name(alloc, image, at, 2, &SHORT)?;
    let at = lay_value(
        image,
        at,
        Value {
            kind: OBJECT_ID,
            id: 3,
            name: "",
            value: LONGER_ID,
        },
    );
    let at = lay_extent(image, at, PACKED);
    end_file(image, 28, at);
    own(image, &[200, 201]);
    Ok(())
}

// The file with a hole: the last bytes of its first cluster, and the first of its last one.
fn lay_holed(alloc: Global, image: &mut [u8]) -> Result<(), test::Fail> {
    let at = begin_file(image, 29, 1, false);
    let at = lay_standard(image, at, [0; 4], 0x220);
    let at = lay_name(alloc, image, at, 1, &HOLED)?;
    let at = lay_extent(image, at, WITH_HOLE);
    end_file(image, 29, at);
    own(image, &[202, 203]);
    put(image, 203 * 4096 - 2, b"xy");
    put(image, 203 * 4096, b"0123456789");
    Ok(())
}

// The file with many streams, all empty but the last.
fn lay_streamed(alloc: Global, image: &mut [u8]) -> Result<(), test::Fail> {
    let at = begin_file(image, 31, 1, false);
    let at = lay_standard(image, at, [0; 4], 0x20);
    let mut at = lay_name(alloc, image, at, 1, &STREAMED)?;
    let mut id: u8 = 2;
    for name in STREAMS {
        let value: &[u8] = if name == "s19" { b"last" } else { b"" };
        let stream = Value {
            kind: DATA,
            id,
            name,
            value,
        };
        at = lay_value(image, at, stream);
        id = id.saturating_add(1);
    }
    end_file(image, 31, at);
    Ok(())
}

/// The volume of 2,048 sectors with all other files here.
pub fn volume_with_all(alloc: Global) -> Result<Vec<u8>, test::Fail> {
    let mut image = volume(alloc)?;
    lay_directories(alloc, &mut image)?;
    lay_named_twice(alloc, &mut image)?;
    lay_packed(alloc, &mut image)?;
    lay_holed(alloc, &mut image)?;
    lay_streamed(alloc, &mut image)?;
    lay_in_root(alloc, &mut image, &IN_ROOT)?;
    Ok(image)
}
