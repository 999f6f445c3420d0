//! The word `check`, on volumes of 2,048, of 16,384 and of 65,535 sectors that `format` makes, whole and damaged.
use laid_volumes::damage::{break_once, mark_dirty, put, tear};
use laid_volumes::given::{AMPLE, run, sink_of};
use laid_volumes::laid_files::{FORMAT, SECTORS};
use laid_volumes::made::{disk_on, failing_disk, made_on, volume};
use std::alloc::Global;
use std::test;

const SOUND: &str = "sound\n";

// Whether `check` of so many sectors with these contents ends so, and writes nothing.
fn ends_so(
    alloc: Global,
    sectors: u16,
    image: &[u8],
    status: u8,
    text: &str,
) -> Result<bool, test::Fail> {
    let mut disk = disk_on(alloc, sectors, image)?;
    let mut out = sink_of(alloc, AMPLE, 0)?;
    let got = run(alloc, "check", &mut disk, &mut out)?;
    Ok(got == status && out.bytes() == text.as_bytes() && disk.writes().is_empty())
}

#[test]
fn a_new_volume_is_sound(rt: HostRuntime) -> Result<(), test::Fail> {
    for (sectors, words) in [
        (2048, "format 2048 512 1 A"),
        (2048, "format 2048 1024 1 A"),
        (2048, "format 2048 2048 1 A"),
        (2048, "format 2048 4096 1 A"),
        (65_535, "format 65535 512 1 A"),
    ] {
        let image = made_on(rt.alloc(), sectors, words)?;
        assert!(rt; ends_so(rt.alloc(), sectors, &image, 0, SOUND)?, "{words}");
    }
    Ok(())
}

// Of two records that are torn the lesser is told.
#[test]
fn a_torn_record_is_told(rt: HostRuntime) -> Result<(), test::Fail> {
    let mut image = volume(rt.alloc())?;
    tear(&mut image, 9);
    tear(&mut image, 6);
    assert!(rt; ends_so(rt.alloc(), 2048, &image, 3, "refused S3 6\n")?);
    Ok(())
}

// Where record 3 alone says so, it differs from its copy, and that is told first.
#[test]
fn a_volume_that_was_not_closed_is_told(rt: HostRuntime) -> Result<(), test::Fail> {
    let mut image = volume(rt.alloc())?;
    mark_dirty(&mut image, false);
    assert!(rt; ends_so(rt.alloc(), 2048, &image, 3, "refused S14 3\n")?);
    mark_dirty(&mut image, true);
    assert!(rt; ends_so(rt.alloc(), 2048, &image, 3, "refused dirty\n")?);
    Ok(())
}

// What `check` prints where a clause is broken in one place.
const DAMAGES: [(u8, &str); 15] = [
    (1, "refused S1 7\n"),
    (2, "refused S2 0\n"),
    (3, "refused S3 5\n"),
    (4, "refused S4 4\n"),
    (5, "refused S5 4\n"),
    (6, "refused S6 2\n"),
    (7, "refused S7 19\n"),
    (8, "refused S8 255\n"),
    (9, "refused S9 30\n"),
    (10, "refused S10 24\n"),
    (11, "refused S11 25\n"),
    (12, "refused S12 5\n"),
    (13, "refused S13 10\n"),
    (14, "refused S14 3\n"),
    (15, "refused S15 4\n"),
];

#[test]
fn each_damage_is_told(rt: HostRuntime) -> Result<(), test::Fail> {
    let whole = volume(rt.alloc())?;
    for (clause, text) in DAMAGES {
        let mut image = whole.as_slice().to_vec(rt.alloc())?;
        break_once(&mut image, clause);
        assert!(rt; ends_so(rt.alloc(), 2048, &image, 3, text)?, "{text}");
    }
    Ok(())
}

// One more damage: a mark in record 3 alone, in both copies, two torn records, or a boot sector without its end.
fn damage_more(image: &mut [u8], step: u8) {
    match step {
        0 => {}
        1 => mark_dirty(image, false),
        2 => mark_dirty(image, true),
        3 => {
            tear(image, 9);
            tear(image, 6);
        }
        _ => put(image, 0x1FE, &[0]),
    }
}

// On the greater volume each damage is told before those that were there. A disk may have lost its last sector, or all.
#[test]
fn each_damage_of_a_greater_volume_is_told(rt: HostRuntime) -> Result<(), test::Fail> {
    let mut image = made_on(rt.alloc(), SECTORS, FORMAT)?;
    for (step, sectors, status, text) in [
        (0, SECTORS, 0, SOUND),
        (1, SECTORS, 3, "refused S14 3\n"),
        (2, SECTORS, 3, "refused dirty\n"),
        (3, SECTORS, 3, "refused S3 6\n"),
        (0, SECTORS - 1, 3, "refused S1 6\n"),
        (4, SECTORS, 3, "refused S1 1\n"),
        (0, 0, 3, "refused S1 1\n"),
    ] {
        damage_more(&mut image, step);
        assert!(rt;
            ends_so(rt.alloc(), sectors, &image, status, text)?,
            "step {step}, {sectors} sectors"
        );
    }
    Ok(())
}

// The status of `check` on a disk of which one read fails; that of no run where another text is printed than goes with it.
fn failing(alloc: Global, image: &[u8], number: u64) -> Result<u8, test::Fail> {
    let mut disk = failing_disk(alloc, image, number)?;
    let mut out = sink_of(alloc, AMPLE, 0)?;
    let status = run(alloc, "check", &mut disk, &mut out)?;
    let text = if status == 0 { SOUND } else { "" };
    Ok(if out.bytes() == text.as_bytes() {
        status
    } else {
        u8::MAX
    })
}

// Each read fails in turn, until none is left to fail: the first whose number is not reached.
fn first_unread(alloc: Global, image: &[u8]) -> Result<Option<u64>, test::Fail> {
    for number in 1..=4000_u64 {
        match failing(alloc, image, number)? {
            0 => return Ok(Some(number)),
            6 => {}
            _ => return Ok(None),
        }
    }
    Ok(None)
}

#[test]
fn each_failing_read_is_told(rt: HostRuntime) -> Result<(), test::Fail> {
    let image = volume(rt.alloc())?;
    let number = first_unread(rt.alloc(), &image)?;
    assert!(rt; matches!(number, Some(390..)));
    Ok(())
}
