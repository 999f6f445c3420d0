//! Lines of a script as commands, and replies as text.
use cmd_lang::{LineFault, parse_line, print_reply};
use std::alloc::{AllocError, Global};
use std::test::Fail;
use tree_model::{Answer, Command, No, Path, Reply, ShownLink, ShownLinks};
use vol_bytes::Octets;
use vol_disk::{Failed, MemSink};

// Each command once: a line, its session and its command.
const LINES: [(&str, u8, &str); 36] = [
    ("time 1000", 0, "Time { now: 1000 }"),
    ("ls /", 0, "Ls { path: Path { names: [] } }"),
    (
        "stat /d",
        0,
        "Stat { path: Path { names: [Name { units: [100] }] } }",
    ),
    (
        "links /a",
        0,
        "Links { path: Path { names: [Name { units: [97] }] } }",
    ),
    (
        "cat /d/f",
        0,
        "Cat { path: Path { names: [Name { units: [100] }, Name { units: [102] }] }, stream: None }",
    ),
    (
        "cat /f:S",
        0,
        "Cat { path: Path { names: [Name { units: [102] }] }, stream: Some(Name { units: [83] }) }",
    ),
    (
        "cat /:s",
        0,
        "Cat { path: Path { names: [] }, stream: Some(Name { units: [115] }) }",
    ),
    (
        "read /p 2046 4",
        0,
        "Read { path: Path { names: [Name { units: [112] }] }, stream: None, at: 2046, len: 4 }",
    ),
    (
        "create /a%0020b",
        0,
        "Create { path: Path { names: [Name { units: [97, 32, 98] }] } }",
    ),
    (
        "create /é",
        0,
        "Create { path: Path { names: [Name { units: [233] }] } }",
    ),
    (
        "mkdir /d",
        0,
        "Mkdir { path: Path { names: [Name { units: [100] }] } }",
    ),
    (
        "rm /f",
        0,
        "Rm { path: Path { names: [Name { units: [102] }] } }",
    ),
    ("rmdir /", 0, "Rmdir { path: Path { names: [] } }"),
    (
        "ln /a /b",
        0,
        "Ln { old: Path { names: [Name { units: [97] }] }, new: Path { names: [Name { units: [98] }] } }",
    ),
    (
        "mv /a /A",
        0,
        "Mv { old: Path { names: [Name { units: [97] }] }, new: Path { names: [Name { units: [65] }] } }",
    ),
    (
        "@2 write /f 0 00ff",
        2,
        "Write { path: Path { names: [Name { units: [102] }] }, stream: None, at: 0, bytes: Octets { bytes: [0, 255] } }",
    ),
    (
        "truncate /f 3",
        0,
        "Truncate { path: Path { names: [Name { units: [102] }] }, stream: None, size: 3 }",
    ),
    (
        "punch /p 2048 8192",
        0,
        "Punch { path: Path { names: [Name { units: [112] }] }, stream: None, at: 2048, len: 8192 }",
    ),
    (
        "streams /f",
        0,
        "Streams { path: Path { names: [Name { units: [102] }] } }",
    ),
    (
        "rmstream /f:s",
        0,
        "Rmstream { path: Path { names: [Name { units: [102] }] }, name: Name { units: [115] } }",
    ),
    (
        "attr /f",
        0,
        "Attr { path: Path { names: [Name { units: [102] }] } }",
    ),
    (
        "setattr /f 0001",
        0,
        "Setattr { path: Path { names: [Name { units: [102] }] }, flags: 1 }",
    ),
    (
        "setattr /f 3127",
        0,
        "Setattr { path: Path { names: [Name { units: [102] }] }, flags: 12583 }",
    ),
    (
        "sec /f",
        0,
        "Sec { path: Path { names: [Name { units: [102] }] } }",
    ),
    (
        "setsec /a 256",
        0,
        "Setsec { path: Path { names: [Name { units: [97] }] }, id: 256 }",
    ),
    ("sd 4294967295", 0, "Sd { id: 4294967295 }"),
    (
        "reparse /a",
        0,
        "Reparse { path: Path { names: [Name { units: [97] }] } }",
    ),
    (
        "mkreparse /a a000000c 0102",
        0,
        "Mkreparse { path: Path { names: [Name { units: [97] }] }, tag: 2684354572, bytes: Octets { bytes: [1, 2] } }",
    ),
    (
        "mkreparse /a 0000000c -",
        0,
        "Mkreparse { path: Path { names: [Name { units: [97] }] }, tag: 12, bytes: Octets { bytes: [] } }",
    ),
    (
        "rmreparse /a",
        0,
        "Rmreparse { path: Path { names: [Name { units: [97] }] } }",
    ),
    (
        "objid /f",
        0,
        "Objid { path: Path { names: [Name { units: [102] }] } }",
    ),
    ("@0 df", 0, "Df"),
    (
        "@1 open /f rd -",
        1,
        "Open { path: Path { names: [Name { units: [102] }] }, stream: None, access: Access { r: true, w: false, d: true }, \
         share: Access { r: false, w: false, d: false } }",
    ),
    ("@15 hread 0 0 1", 15, "Hread { handle: 0, at: 0, len: 1 }"),
    (
        "hwrite 63 18446744073709551615 41",
        0,
        "Hwrite { handle: 63, at: 18446744073709551615, bytes: Octets { bytes: [65] } }",
    ),
    ("@1 close 0", 1, "Close { handle: 0 }"),
];

// Lines that are in no row of the grammar.
const REFUSED: [&str; 36] = [
    "",
    " ",
    "zzz",
    "LS /",
    "ls",
    "ls  /",
    "ls / ",
    " ls /",
    "ls / /",
    "ls a",
    "ls //",
    "ls /a/",
    "ls /a:b",
    "cat /f:",
    "cat /a:b:c",
    "rmstream /f",
    "time 01",
    "time +1",
    "time -1",
    "time 18446744073709551616",
    "sd 4294967296",
    "close 4294967296",
    "df x",
    "@16 df",
    "@01 df",
    "@1",
    "@1 ",
    "@ df",
    "write /f 0 -",
    "write /f 0 4A",
    "write /f 0 4",
    "setattr /f 0040",
    "setattr /f 001",
    "mkreparse /a A000000C 00",
    "open /f wr r",
    "open /f - r",
];

// Whether a line is read as this command of this session.
fn means(alloc: Global, line: &str, session: u8, command: &str) -> Result<bool, AllocError> {
    let Ok((of, said)) = parse_line(alloc, line.as_bytes()) else {
        return Ok(false);
    };
    let shown = format!(in alloc; "{said:?}")?;
    Ok(of == session && shown.as_str() == command)
}

#[test]
fn lines_mean_commands(rt: HostRuntime) -> Result<(), AllocError> {
    for (line, session, command) in LINES {
        assert!(rt; means(rt.alloc(), line, session, command)?, "{line}");
    }
    Ok(())
}

// How many names or bytes a line has, or why it is refused.
fn size_of(alloc: Global, line: &[u8]) -> Result<usize, LineFault> {
    match parse_line(alloc, line)?.1 {
        Command::Ls { path } => Ok(path.into_vec().len()),
        Command::Write { bytes, .. } => Ok(bytes.as_slice().len()),
        _ => Ok(0),
    }
}

#[test]
fn other_lines_are_refused(rt: HostRuntime) {
    for line in REFUSED {
        let size = size_of(rt.alloc(), line.as_bytes());
        assert_eq!(rt; size, Err(LineFault::Syntax), "{line}");
    }
}

// Long lines: how one begins, what follows how often, and its size.
const LONG: [(&[u8], &[u8], usize, Result<usize, LineFault>); 6] = [
    (b"write /f 0 ", b"4", 65_536, Ok(32_768)),
    (b"ls ", b"/a", 1000, Ok(1000)),
    // the longest, of 70,000 bytes
    (b"write /ff 0 ", b"4", 69_988, Ok(34_994)),
    (b"", b"a", 70_000, Err(LineFault::Syntax)),
    (b"", b"a", 70_001, Err(LineFault::Long)),
    // a byte that is in no text
    (b"ls /", b"\xFF", 1, Err(LineFault::Syntax)),
];

fn long_line(
    alloc: Global,
    begin: &[u8],
    piece: &[u8],
    count: usize,
) -> Result<Vec<u8>, AllocError> {
    let mut line = Vec::from_slice(alloc, begin)?;
    for _piece in 0..count {
        line.extend_from_slice(piece)?;
    }
    Ok(line)
}

#[test]
fn long_lines_are_read(rt: HostRuntime) -> Result<(), AllocError> {
    for (begin, piece, count, size) in LONG {
        let line = long_line(rt.alloc(), begin, piece, count)?;
        assert_eq!(rt; size_of(rt.alloc(), &line), size, "{count}");
    }
    Ok(())
}

/// A reply as it is printed; a device fault has no text.
pub fn printed(alloc: Global, reply: &Reply) -> Result<Vec<u8>, Fail> {
    let mut out = MemSink::new(alloc, Vec::new(alloc));
    out.reserve(30_000)?;
    match reply {
        Reply::Device => {}
        _ => print_reply(reply, &mut out)?,
    }
    Ok(out.bytes().to_vec(alloc)?)
}

// The line of a link of the root, as `links` has none.
fn link_of_root(alloc: Global) -> Result<Answer, Fail> {
    let mut lines = Vec::new(alloc);
    lines.push(ShownLink {
        space: 0,
        path: Path::from_vec(Vec::new(alloc)),
    })?;
    Ok(Answer::Links(ShownLinks::from_vec(lines)))
}

// Answers that `machine` has not.
#[test]
fn answers_are_printed(rt: HostRuntime) -> Result<(), Fail> {
    let bytes = Octets::from_vec(Vec::from_slice(rt.alloc(), &[1, 0, 0x80])?);
    let text = printed(rt.alloc(), &Reply::Ok(Answer::Sd(bytes)))?;
    assert!(rt; text.as_slice() == b"sd 010080\nok\n".as_slice());
    let text = printed(rt.alloc(), &Reply::Ok(Answer::Handle(63)))?;
    assert!(rt; text.as_slice() == b"handle 63\nok\n".as_slice());
    let text = printed(rt.alloc(), &Reply::Ok(Answer::Done))?;
    assert!(rt; text.as_slice() == b"ok\n".as_slice());
    let text = printed(rt.alloc(), &Reply::Ok(link_of_root(rt.alloc())?))?;
    assert!(rt; text.as_slice() == b"link 0 /\nok\n".as_slice());
    Ok(())
}

// Each refusal.
const REFUSALS: [(No, &str); 29] = [
    (No::Syntax, "no 1 Syntax\n"),
    (No::Long, "no 2 Long\n"),
    (No::NoHandle, "no 3 NoHandle\n"),
    (No::NotFound, "no 4 NotFound\n"),
    (No::NotDir, "no 5 NotDir\n"),
    (No::Reparse, "no 6 Reparse\n"),
    (No::Hidden, "no 7 Hidden\n"),
    (No::DosName, "no 8 DosName\n"),
    (No::BadName, "no 9 BadName\n"),
    (No::IsDir, "no 10 IsDir\n"),
    (No::NoStream, "no 11 NoStream\n"),
    (No::NoReparse, "no 12 NoReparse\n"),
    (No::Exists, "no 13 Exists\n"),
    (No::NotEmpty, "no 14 NotEmpty\n"),
    (No::Loop, "no 15 Loop\n"),
    (No::Packed, "no 16 Packed\n"),
    (No::BadTag, "no 17 BadTag\n"),
    (No::NoSecurity, "no 18 NoSecurity\n"),
    (No::TooBig, "no 19 TooBig\n"),
    (No::TooManyLinks, "no 20 TooManyLinks\n"),
    (No::TooManyHandles, "no 21 TooManyHandles\n"),
    (No::TooDeep, "no 24 TooDeep\n"),
    (No::Memory, "no 27 Memory\n"),
    (No::Unbuilt, "no 28 Unbuilt\n"),
    (No::Linked, "no 30 Linked\n"),
    (
        No::Shared {
            session: 1,
            handle: 0,
        },
        "no 22 Shared 1 0\n",
    ),
    (
        No::TooManyParts {
            length: 37_080,
            more: 4336,
        },
        "no 23 TooManyParts 37080 4336\n",
    ),
    (No::MftFull { need: 97, free: 40 }, "no 25 MftFull 97 40\n"),
    (No::NoRoom { need: 10, free: 9 }, "no 26 NoRoom 10 9\n"),
];

#[test]
fn refusals_are_printed(rt: HostRuntime) -> Result<(), Fail> {
    for (no, text) in REFUSALS {
        let shown = printed(rt.alloc(), &Reply::No(no))?;
        assert!(rt; shown.as_slice() == text.as_bytes(), "{text}");
    }
    Ok(())
}

// The room of a sink that fails at call 66, what comes of the print, and how many bytes the sink has then: 131,081 bytes are handed on in
// pieces of 2,048, so in 65 calls.
const PIECES: [(usize, Result<(), Failed>, usize); 2] = [
    (200_000, Ok(()), 131_081),
    (4, Err(Failed), 4),
];

// Prints 65,536 bytes.
fn print_many(alloc: Global, out: &mut MemSink) -> Result<Result<(), Failed>, Fail> {
    let bytes = Octets::from_vec(vec![in alloc; 0x41; 65_536]?);
    Ok(print_reply(&Reply::Ok(Answer::Data(bytes)), out))
}

#[test]
fn a_long_answer_has_few_pieces(rt: HostRuntime) -> Result<(), Fail> {
    for (room, done, len) in PIECES {
        let mut out = MemSink::new(rt.alloc(), vec![in rt.alloc(); 66]?);
        out.reserve(room)?;
        assert_eq!(rt; print_many(rt.alloc(), &mut out)?, done, "{room}");
        assert_eq!(rt; out.bytes().len(), len, "{room}");
    }
    Ok(())
}
