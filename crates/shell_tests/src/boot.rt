//! The word `boot`, words that print nothing, and a sink that fails.
use laid_volumes::FrontSink;
use laid_volumes::cases::only_prints;
use laid_volumes::given::{AMPLE, GEOMETRY, Pieces, boot_sector, disk_of, run, sink_of};
use std::alloc::Global;
use std::test;

#[test]
fn boot_prints_the_geometry_or_the_clause(rt: HostRuntime) -> Result<(), test::Fail> {
    for (sectors, at, byte, status, text) in [
        (16_384, 0x44, 0xF4, 0, GEOMETRY),
        (16_384, 0x44, 0x01, 0, GEOMETRY),
        (16_384, 0x1FE, 0x00, 3, "refused S1 1\n"),
        (16_383, 0x44, 0xF4, 3, "refused S1 6\n"),
        (0, 0x44, 0xF4, 3, "refused S1 1\n"),
    ] {
        let mut disk = disk_of(rt.alloc(), sectors, &boot_sector(at, byte))?;
        only_prints(rt.alloc(), "boot", &mut disk, status, text)?;
    }
    Ok(())
}

// The status of `boot` where a sink has so much room and fails at a call, and how many bytes it has, if they are those that come first.
fn geometry_into(
    alloc: Global,
    room: usize,
    fails: u64,
) -> Result<(u8, Option<usize>), test::Fail> {
    let mut disk = disk_of(alloc, 16_384, &boot_sector(0x44, 0xF4))?;
    let whole = sink_of(alloc, room, fails)?;
    let mut out = Pieces { whole };
    let status = run(alloc, "boot", &mut disk, &mut out)?;
    let bytes = out.whole.bytes();
    if GEOMETRY.as_bytes().starts_with(bytes) && disk.writes().is_empty() {
        Ok((status, Some(bytes.len())))
    } else {
        Ok((status, None))
    }
}

#[test]
fn a_failing_sink_got_the_calls_before(rt: HostRuntime) -> Result<(), test::Fail> {
    for (room, fails, status, length) in [
        (AMPLE, 1, 5, 0),
        (AMPLE, 2, 5, 25),
        (AMPLE, 5, 5, 100),
        (AMPLE, 6, 0, 115),
        (17, 0, 5, 17),
        (114, 0, 5, 114),
        (115, 0, 0, 115),
    ] {
        let got = geometry_into(rt.alloc(), room, fails)?;
        assert_eq!(rt;
            got,
            (status, Some(length)),
            "room {room}, failing at {fails}"
        );
    }
    Ok(())
}

#[test]
fn other_words_print_nothing(rt: HostRuntime) -> Result<(), test::Fail> {
    for words in ["", "boot x", "bo", "run x", "make", "check x"] {
        let mut disk = disk_of(rt.alloc(), 16, &boot_sector(0x44, 0xF4))?;
        only_prints(rt.alloc(), words, &mut disk, 2, "")?;
    }
    Ok(())
}

// The front is kept over calls, and no more than there is room for.
#[test]
fn a_sink_remembers_how_its_text_began(rt: HostRuntime) -> Result<(), test::Fail> {
    for (room, status, front) in [
        (AMPLE, 0, "sector 512\ncluster 4096\nsectors 16384\ncl"),
        (17, 5, "sector 512\ncluste"),
    ] {
        let mut disk = disk_of(rt.alloc(), 16_384, &boot_sector(0x44, 0xF4))?;
        let whole = sink_of(rt.alloc(), room, 0)?;
        let mut out = FrontSink::new(Pieces { whole });
        let got = run(rt.alloc(), "boot", &mut disk, &mut out)?;
        assert!(rt;
            got == status && out.front() == front.as_bytes(),
            "room {room}"
        );
    }
    Ok(())
}
