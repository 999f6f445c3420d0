//! The word `make`: what it prints and leaves, which words it takes, and where a call fails.
use laid_volumes::cases::{only_prints, prints};
use laid_volumes::given::{AMPLE, boot_sector, disk_of, run, sink_of};
use std::alloc::Global;
use std::test;
use vol_disk::{CallKind, Fail, FailDisk, MemDisk};

const NONE: &str = "made 0 0 0\ndf 2048 1913 64 38\n";

// The first number behind the seed 0 tells `mv`, and there is nothing to be moved.
const ONE: &str = "made 1 0 1\ndf 2048 1913 64 38\n";

// Neither has the second anything to remove, and the third has no directory to write in.
const THREE: &str = "made 3 0 3\ndf 2048 1913 64 38\n";

// Of these lines 38 make a directory, or a file in one that is there; then no record is free. None writes into a file that is there.
const MANY: &str = "made 300 38 262\ndf 2048 1913 64 0\n";

// A disk with a new volume of 2,048 clusters of 4,096 bytes, with room for many writes.
fn new_volume(alloc: Global) -> Result<MemDisk, test::Fail> {
    let mut disk = MemDisk::new(alloc, vec![in alloc; 0; 16_384 * 512]?);
    disk.reserve(40_000)?;
    let mut out = sink_of(alloc, AMPLE, 0)?;
    let _ = run(alloc, "format 16384 4096 1 DATA", &mut disk, &mut out)?;
    Ok(disk)
}

#[test]
fn the_text_is_that_of_the_lines(rt: HostRuntime) -> Result<(), test::Fail> {
    for (words, text) in [("make 0 1", NONE), ("make 1 0", ONE)] {
        let mut disk = new_volume(rt.alloc())?;
        prints(rt.alloc(), words, &mut disk, 0, text)?;
    }
    Ok(())
}

#[test]
fn a_seed_tells_the_same_twice(rt: HostRuntime) -> Result<(), test::Fail> {
    let mut first = new_volume(rt.alloc())?;
    let mut second = new_volume(rt.alloc())?;
    prints(rt.alloc(), "make 300 7", &mut first, 0, MANY)?;
    prints(rt.alloc(), "make 300 7", &mut second, 0, MANY)?;
    assert!(rt; first.contents() == second.contents());
    prints(rt.alloc(), "check", &mut first, 0, "sound\n")
}

#[test]
fn faulty_words_do_nothing(rt: HostRuntime) -> Result<(), test::Fail> {
    for words in [
        "make",
        "make 1",
        "make 01 1",
        "make 1 01",
        "make +1 1",
        "make 1000001 1",
        "make 1 18446744073709551616",
        "make 1 1 1",
    ] {
        let mut disk = disk_of(rt.alloc(), 16, &boot_sector(0x44, 0xF4))?;
        only_prints(rt.alloc(), words, &mut disk, 2, "")?;
    }
    Ok(())
}

#[test]
fn what_is_not_accepted_is_refused(rt: HostRuntime) -> Result<(), test::Fail> {
    let mut disk = disk_of(rt.alloc(), 16, &boot_sector(0x1FE, 0))?;
    only_prints(rt.alloc(), "make 1 1", &mut disk, 3, "refused S1 1\n")
}

// Each line is settled once: the third settle is the last of three lines.
#[test]
fn a_failing_disk_is_told(rt: HostRuntime) -> Result<(), test::Fail> {
    for (kind, number, status, text) in [
        (CallKind::Read, 1, 6, ""),
        (CallKind::Read, 40, 6, ""),
        (CallKind::Settle, 1, 6, ""),
        (CallKind::Settle, 3, 6, ""),
        (CallKind::Settle, 4, 0, THREE),
    ] {
        let fail = Fail {
            kind,
            number,
            lands: false,
        };
        let mut disk = FailDisk::new(new_volume(rt.alloc())?, vec![in rt.alloc(); fail]?);
        prints(rt.alloc(), "make 3 0", &mut disk, status, text)?;
        prints(rt.alloc(), "check", &mut disk.into_inner(), 0, "sound\n")?;
    }
    Ok(())
}

// A part of the text was printed, and the volume is whole.
#[test]
fn a_failing_sink_is_told(rt: HostRuntime) -> Result<(), test::Fail> {
    for (room, fails, printed) in [(AMPLE, 1, ""), (5, 0, "made ")] {
        let mut disk = new_volume(rt.alloc())?;
        let mut out = sink_of(rt.alloc(), room, fails)?;
        let got = run(rt.alloc(), "make 1 0", &mut disk, &mut out)?;
        assert!(rt;
            got == 5 && out.bytes() == printed.as_bytes(),
            "room {room}"
        );
        prints(rt.alloc(), "check", &mut disk, 0, "sound\n")?;
    }
    Ok(())
}
