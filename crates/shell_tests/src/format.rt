//! The word `format`, and what the words that read say of the disk then.
use laid_volumes::cases::{only_prints, prints};
use laid_volumes::given::{AMPLE, GEOMETRY, run, sink_of};
use std::alloc::Global;
use std::test;
use vol_disk::{CallKind, Fail, FailDisk, MemDisk};

const FORMAT: &str = "format 16384 4096 1 DATA";

const SMALL: &str = "format 2048 4096 1 DATA";

const OUT_OF_RANGE: &str = "format 2047 4096 1 X";

const LABEL: &str = "label DATA\nversion 3.1\n";

// A disk of so many sectors that is no volume, with room for the writes of one.
fn blank(alloc: Global, sectors: u16) -> Result<MemDisk, test::Fail> {
    let mut disk = MemDisk::new(alloc, vec![in alloc; 0xA5; usize::from(sectors) * 512]?);
    disk.reserve(2000)?;
    Ok(disk)
}

#[test]
fn a_volume_is_what_was_asked_for(rt: HostRuntime) -> Result<(), test::Fail> {
    let mut disk = blank(rt.alloc(), 16_384)?;
    only_prints(rt.alloc(), OUT_OF_RANGE, &mut disk, 3, "refused options\n")?;
    for (words, text) in [
        (FORMAT, "formatted 2048\n"),
        ("boot", GEOMETRY),
        ("label", LABEL),
        ("check", "sound\n"),
    ] {
        prints(rt.alloc(), words, &mut disk, 0, text)?;
    }
    assert!(rt; disk.settles() == [disk.writes().len()].as_slice());
    Ok(())
}

// Twice a label of 32 units, of which the second has a character of two.
#[test]
fn a_label_may_be_long(rt: HostRuntime) -> Result<(), test::Fail> {
    for (label, text) in [
        (
            "%0041%0041%0041%0041%0041%0041%0041%0041%0041%0041%0041%0041%0041%0041%0041%0041\
             %0041%0041%0041%0041%0041%0041%0041%0041%0041%0041%0041%0041%0041%0041%0041%0041",
            "label AAAAAAAAAAAAAAAAAAAAAAAAAAAAAAAA\nversion 3.1\n",
        ),
        (
            "AAAAAAAAAAAAAAAAAAAAAAAAAAAAAA😀",
            "label AAAAAAAAAAAAAAAAAAAAAAAAAAAAAA😀\nversion 3.1\n",
        ),
    ] {
        let mut disk = blank(rt.alloc(), 2048)?;
        let words = format!(in rt.alloc(); "format 2048 512 1 {label}")?;
        prints(rt.alloc(), &words, &mut disk, 0, "formatted 2048\n")?;
        prints(rt.alloc(), "label", &mut disk, 0, text)?;
    }
    Ok(())
}

#[test]
fn what_is_not_taken_writes_nothing(rt: HostRuntime) -> Result<(), test::Fail> {
    for (words, status, text) in [
        (OUT_OF_RANGE, 3, "refused options\n"),
        ("format 2049 4096 1 X", 3, "refused options\n"),
        ("format 2048 8192 1 X", 3, "refused options\n"),
        ("format 2048 0 1 X", 3, "refused options\n"),
        ("format", 2, ""),
        ("format 2048 4096 1", 2, ""),
        ("format 2048 4096 1 X X", 2, ""),
        ("format 02048 4096 1 X", 2, ""),
        ("format +2048 4096 1 X", 2, ""),
        ("format 2048 4294967296 1 X", 2, ""),
        ("format 2048 4096 18446744073709551616 X", 2, ""),
        ("format 2048 4096 1 a/b", 2, ""),
        (
            "format 2048 4096 1 AAAAAAAAAAAAAAAAAAAAAAAAAAAAAAAAA",
            2,
            "",
        ),
        ("format 2048 4096 1 AAAAAAAAAAAAAAAAAAAAAAAAAAAAAAA😀", 2, ""),
    ] {
        let mut disk = blank(rt.alloc(), 2048)?;
        only_prints(rt.alloc(), words, &mut disk, status, text)?;
    }
    Ok(())
}

// A run in which this call of the disk fails ends so, with this text.
fn ends_so(
    alloc: Global,
    kind: CallKind,
    number: u64,
    status: u8,
    text: &str,
) -> Result<(), test::Fail> {
    let fail = Fail {
        kind,
        number,
        lands: false,
    };
    let mut disk = FailDisk::new(blank(alloc, 2048)?, vec![in alloc; fail]?);
    prints(alloc, SMALL, &mut disk, status, text)
}

#[test]
fn each_failing_write_is_told(rt: HostRuntime) -> Result<(), test::Fail> {
    for number in 1..=1080_u64 {
        ends_so(rt.alloc(), CallKind::Write, number, 6, "")?;
    }
    Ok(())
}

// There is no write behind the last one, and one settle.
#[test]
fn a_failing_settle_is_told(rt: HostRuntime) -> Result<(), test::Fail> {
    ends_so(rt.alloc(), CallKind::Settle, 1, 6, "")?;
    ends_so(rt.alloc(), CallKind::Settle, 2, 0, "formatted 256\n")?;
    ends_so(rt.alloc(), CallKind::Write, 1081, 0, "formatted 256\n")
}

// The volume is made all the same.
#[test]
fn a_failing_sink_is_told(rt: HostRuntime) -> Result<(), test::Fail> {
    let mut disk = blank(rt.alloc(), 2048)?;
    for words in [OUT_OF_RANGE, SMALL] {
        let mut out = sink_of(rt.alloc(), AMPLE, 1)?;
        let got = run(rt.alloc(), words, &mut disk, &mut out)?;
        assert!(rt; got == 5 && out.bytes().is_empty(), "{words}");
    }
    prints(rt.alloc(), "label", &mut disk, 0, LABEL)
}
