//! Directories one in another: until no record of the table is free, and each write failing in one that comes.
use crate::creates::wrong_write;
use laid_volumes::cases::{edited, edited_by};
use laid_volumes::made::volume;
use laid_volumes::scripts::Row;
use std::alloc::Global;
use std::test;

const SECTORS: u16 = 2048;

// Of the 64 records of a new volume those from 26 on are free, and of its 256 clusters those from 135 on.
const FREE: usize = 38;

const FULL: &[u8] = b"no 28 Unbuilt\nno 28 Unbuilt\ndf 256 121 64 0\nok\n\
    stat dir 1 0 0000 256 0 0 0 0\nok\n";

// Directories one in another until no record is free, and what is asked then; and what it prints.
fn nested(alloc: Global) -> Result<(Vec<u8>, Vec<u8>), test::Fail> {
    let (mut script, mut wanted, mut path) = (Vec::new(alloc), Vec::new(alloc), Vec::new(alloc));
    for _ in 0..FREE {
        path.extend_from_slice(b"/d")?;
        script.extend_from_slice(b"mkdir ")?;
        script.extend_from_slice(&path)?;
        script.push(b'\n')?;
        wanted.extend_from_slice(b"ok\n")?;
    }
    script.extend_from_slice(b"mkdir /e\ncreate /d/e\ndf\nstat ")?;
    script.extend_from_slice(&path)?;
    script.push(b'\n')?;
    wanted.extend_from_slice(FULL)?;
    Ok((script, wanted))
}

#[test]
fn directories_come_until_no_record_is_free(rt: HostRuntime) -> Result<(), test::Fail> {
    let (script, wanted) = nested(rt.alloc())?;
    let image = volume(rt.alloc())?;
    let _ = edited_by(rt.alloc(), SECTORS, &image, &script, &wanted)?;
    Ok(())
}

const OUTER: [Row; 1] = [("mkdir /d", "ok\n")];

const INNER: [Row; 2] = [("time 7", "ok\n"), ("mkdir /d/e", "ok\n")];

// What a path shows behind the edit, and the directory in which it came.
const BEHIND: [Row; 3] = [
    ("stat /d/e", "stat dir 1 0 0000 256 7 7 7 7\nok\n"),
    ("ls /d/e", "ok\n"),
    ("stat /d", "stat dir 1 0 0000 256 0 7 7 0\nok\n"),
];

// The mark is set in two sectors; then come one of the bitmap of records, two of record 27, two of record 26, whose index has its names in
// its root, and eight of the record of the root's index, which has the entry of that directory; and the mark is cleared in two.
const WRITES: u64 = 17;

#[test]
fn a_failing_write_leaves_a_volume_marked_or_whole(rt: HostRuntime) -> Result<(), test::Fail> {
    let image = edited(rt.alloc(), SECTORS, &volume(rt.alloc())?, &OUTER)?;
    let wrong = wrong_write(rt.alloc(), &image, &INNER, WRITES, &BEHIND)?;
    assert_eq!(rt; wrong, None);
    Ok(())
}
