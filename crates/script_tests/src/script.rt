//! The word `run`, on the volume that `format` makes. What each reading command answers is tested in `reading`; here it is
//! how a script is read, settled, printed and ended.
use laid_volumes::damage::{mark_dirty, tear};
use laid_volumes::given::sink_of;
use laid_volumes::made::volume;
use laid_volumes::scripts::{TEXT_ROOM, failing, run_on, settling, source_of};
use std::alloc::Global;
use std::test;
use vol_disk::{CallKind, Failed, Source};

// Two lines that are refused, and what is printed of them; the rest has no reply.
const SHORT: &[u8] = b"zzz\n# a comment\n\nrm /f";

const SHORT_REPLIES: &str = "no 1 Syntax\nno 28 Unbuilt\n";

// A source that gives one byte at a call.
#[derive(Drop)]
struct Slowly<S: Source> {
    whole: S,
}

impl<S: Source> Source for Slowly<S> {
    ghost left = { λ source. S.Source.left source.whole };

    ghost faults = { λ source. S.Source.faults source.whole };

    fn read(&mut self, into: &mut [u8]) -> Result<usize, Failed> {
        let len = into.len().min(1);
        self.whole.read(&mut into[..len])
    }
}

// Whether a script ends so, with this text and so many settles, and writes nothing.
fn ends_so(
    alloc: Global,
    image: &[u8],
    script: &[u8],
    status: u8,
    text: &str,
    settles: usize,
) -> Result<bool, test::Fail> {
    let mut disk = settling(alloc, image)?;
    let mut source = source_of(alloc, script, 0)?;
    let mut out = sink_of(alloc, TEXT_ROOM, 0)?;
    let got = run_on(alloc, &mut disk, &mut source, &mut out)?;
    Ok(
        got == status
            && out.bytes() == text.as_bytes()
            && disk.settles().len() == settles
            && disk.writes().is_empty(),
    )
}

#[test]
fn a_script_is_answered_line_by_line(rt: HostRuntime) -> Result<(), test::Fail> {
    let image = volume(rt.alloc())?;
    for (script, text, settles) in [
        ("", "", 0),
        ("\n#ls /\n", "", 0),
        ("zzz\n", "no 1 Syntax\n", 1),
        ("rm /f\n", "no 28 Unbuilt\n", 1),
        ("@3 rm /f\n@16 rm /f", "no 28 Unbuilt\nno 1 Syntax\n", 2),
    ] {
        assert!(rt;
            ends_so(rt.alloc(), &image, script.as_bytes(), 0, text, settles)?,
            "{script}"
        );
    }
    assert!(rt; ends_so(rt.alloc(), &image, SHORT, 0, SHORT_REPLIES, 2)?);
    Ok(())
}

#[test]
fn a_script_comes_in_any_pieces(rt: HostRuntime) -> Result<(), test::Fail> {
    let mut disk = settling(rt.alloc(), &volume(rt.alloc())?)?;
    let mut source = Slowly {
        whole: source_of(rt.alloc(), SHORT, 0)?,
    };
    let mut out = sink_of(rt.alloc(), TEXT_ROOM, 0)?;
    let status = run_on(rt.alloc(), &mut disk, &mut source, &mut out)?;
    assert!(rt; status == 0 && out.bytes() == SHORT_REPLIES.as_bytes());
    Ok(())
}

#[test]
fn a_long_line_has_one_reply(rt: HostRuntime) -> Result<(), test::Fail> {
    let image = volume(rt.alloc())?;
    for (len, text) in [
        (70_000, "no 1 Syntax\n"),
        (70_001, "no 2 Long\n"),
        (200_000, "no 2 Long\n"),
    ] {
        let script = vec![in rt.alloc(); b'a'; len]?;
        assert!(rt;
            ends_so(rt.alloc(), &image, &script, 0, text, 1)?,
            "{len} bytes"
        );
    }
    let mut comment = vec![in rt.alloc(); b'#'; 100_000]?;
    comment.extend_from_slice(b"\nrm /f\n")?;
    assert!(rt; ends_so(rt.alloc(), &image, &comment, 0, "no 28 Unbuilt\n", 1)?);
    Ok(())
}

// A volume that is not accepted is refused as `check` says, and the script is left alone.
#[test]
fn a_volume_that_is_not_accepted_is_refused(rt: HostRuntime) -> Result<(), test::Fail> {
    let mut image = volume(rt.alloc())?;
    mark_dirty(&mut image, true);
    assert!(rt; ends_so(rt.alloc(), &image, SHORT, 3, "refused dirty\n", 0)?);
    tear(&mut image, 9);
    assert!(rt; ends_so(rt.alloc(), &image, SHORT, 3, "refused S3 9\n", 0)?);
    Ok(())
}

// The status of the short script where a call of the source or of the sink fails, or the sink has so much room; how many bytes are
// printed, if they are those that come first, and how often the disk is settled.
fn told(
    alloc: Global,
    image: &[u8],
    source_fails: u64,
    room: usize,
    fails: u64,
) -> Result<(u8, Option<usize>, usize), test::Fail> {
    let mut disk = settling(alloc, image)?;
    let mut source = source_of(alloc, SHORT, source_fails)?;
    let mut out = sink_of(alloc, room, fails)?;
    let status = run_on(alloc, &mut disk, &mut source, &mut out)?;
    let len = if SHORT_REPLIES.as_bytes().starts_with(out.bytes()) {
        Some(out.bytes().len())
    } else {
        None
    };
    Ok((status, len, disk.settles().len()))
}

// The two calls of the source fail in turn. The first gives the whole script, whose last line has not ended then.
#[test]
fn each_failing_call_of_the_source_is_told(rt: HostRuntime) -> Result<(), test::Fail> {
    let image = volume(rt.alloc())?;
    for (fails, status, len) in [(1, 4, 0), (2, 4, 12), (3, 0, 26)] {
        let told = told(rt.alloc(), &image, fails, TEXT_ROOM, 0)?;
        assert_eq!(rt; (told.0, told.1), (status, Some(len)), "call {fails}");
    }
    Ok(())
}

// Each reply is one call of the sink. A line whose reply is not printed was settled.
#[test]
fn each_failing_call_of_the_sink_is_told(rt: HostRuntime) -> Result<(), test::Fail> {
    let image = volume(rt.alloc())?;
    for (room, fails, status, len, settles) in [
        (TEXT_ROOM, 1, 5, 0, 1),
        (TEXT_ROOM, 2, 5, 12, 2),
        (TEXT_ROOM, 3, 0, 26, 2),
        (15, 0, 5, 15, 2),
    ] {
        let told = told(rt.alloc(), &image, 0, room, fails)?;
        assert_eq!(rt;
            told,
            (status, Some(len), settles),
            "room {room}, call {fails}"
        );
    }
    Ok(())
}

// A line whose settle fails has no reply.
#[test]
fn each_failing_settle_is_told(rt: HostRuntime) -> Result<(), test::Fail> {
    let image = volume(rt.alloc())?;
    for (number, status, text) in [(1, 6, ""), (2, 6, "no 1 Syntax\n"), (3, 0, SHORT_REPLIES)] {
        let (got, out) = failing(rt.alloc(), &image, SHORT, CallKind::Settle, number)?;
        assert!(rt;
            got == status && out.bytes() == text.as_bytes(),
            "settle {number}"
        );
    }
    Ok(())
}

// A read of the mount that fails ends the run before its first line.
#[test]
fn a_failing_read_is_told(rt: HostRuntime) -> Result<(), test::Fail> {
    let image = volume(rt.alloc())?;
    for number in [1, 2, 100, 395] {
        let (status, out) = failing(rt.alloc(), &image, SHORT, CallKind::Read, number)?;
        assert!(rt; status == 6 && out.bytes().is_empty(), "read {number}");
    }
    Ok(())
}
