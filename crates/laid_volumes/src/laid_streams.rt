//! A volume with one file, of which a stream lies in clusters.
use crate::laid::{
    Extent, LaidName, ROOT_RECORD, Value, begin_file, end_file, lay_extent, lay_in_root, lay_name,
    lay_standard, lay_value, own,
};
use crate::made::volume;
use std::alloc::Global;
use std::test;

// The file.
const K: LaidName = LaidName {
    file: 26,
    parent: (ROOT_RECORD, ROOT_RECORD),
    space: 0,
    letters: "k",
    is_dir: false,
};

/// 4094 bytes in cluster 135, of which 4090 were written.
pub const ONE: Extent = Extent {
    id: 2,
    flags: 0,
    covered: 1,
    owned: 1,
    real: 4094,
    initialized: 4090,
    runs: &[0x21, 1, 135, 0, 0],
};

/// Fourteen writes behind each other, of as many bytes as a command may have.
pub const LARGE: [&str; 14] = [
    "write /k 4090 ",
    "write /k 36858 ",
    "write /k 69626 ",
    "write /k 102394 ",
    "write /k 135162 ",
    "write /k 167930 ",
    "write /k 200698 ",
    "write /k 233466 ",
    "write /k 266234 ",
    "write /k 299002 ",
    "write /k 331770 ",
    "write /k 364538 ",
    "write /k 397306 ",
    "write /k 430074 ",
];

/// A new volume leaves the clusters from 135 on, and has here a file `k` with this stream in these clusters, and with a value `s` beside
/// it, unless that is empty.
pub fn volume_with(
    alloc: Global,
    stream: Extent,
    clusters: &[u8],
    beside: &[u8],
) -> Result<Vec<u8>, test::Fail> {
    let mut image = volume(alloc)?;
    let at = begin_file(&mut image, 26, 1, false);
    let at = lay_standard(&mut image, at, [0; 4], 0x20);
    let at = lay_name(alloc, &mut image, at, 1, &K)?;
    let mut at = lay_extent(&mut image, at, stream);
    if !beside.is_empty() {
        let value = Value {
            kind: 0x80,
            id: 3,
            name: "s",
            value: beside,
        };
        at = lay_value(&mut image, at, value);
    }
    end_file(&mut image, 26, at);
    own(&mut image, clusters);
    lay_in_root(alloc, &mut image, &[K])?;
    Ok(image)
}
