//! Handles of several sessions on one volume: what they share, what they read, and how they are numbered. The expected text is that of
//! the table of commands and of that of refusals.
use laid_volumes::laid_files::{SECTORS, volume_with_all, volume_with_f};
use laid_volumes::scripts::{Row, replies, wrong_row};
use std::test;

// Sessions by turns. The file `/a` is `/d/b` too, and has the streams `hello` and, by the name `s`, `ab`.
const TURNS: [Row; 48] = [
    ("@1 open /a r r", "handle 0\nok\n"),
    ("@1 open /A r r", "handle 1\nok\n"),
    ("@2 open /d/b:S r rwd", "handle 0\nok\n"),
    ("@3 open /a w rwd", "no 22 Shared 1 0\n"),
    ("@3 open /a d rwd", "no 22 Shared 1 0\n"),
    ("@3 open /a:s r wd", "no 22 Shared 1 0\n"),
    ("@3 open /x w -", "handle 0\nok\n"),
    ("cat /a", "data 68656c6c6f\nok\n"),
    ("cat /x:s19", "no 22 Shared 3 0\n"),
    ("@1 hread 0 1 2", "data 656c\nok\n"),
    ("@1 hread 1 4 9", "data 6f\nok\n"),
    ("@1 hread 1 5 9", "data -\nok\n"),
    ("@1 hread 1 0 32769", "no 19 TooBig\n"),
    ("@1 hread 1 1099511627775 2", "no 19 TooBig\n"),
    ("@2 hread 0 0 9", "data 6162\nok\n"),
    ("@2 hread 1 0 9", "no 3 NoHandle\n"),
    ("@3 hread 0 0 9", "no 3 NoHandle\n"),
    ("@1 close 0", "ok\n"),
    ("@1 close 0", "no 3 NoHandle\n"),
    ("@1 hread 0 0 1", "no 3 NoHandle\n"),
    ("@3 open /a d rwd", "no 22 Shared 1 1\n"),
    ("@2 close 1", "no 3 NoHandle\n"),
    ("@1 open /d/b:s r r", "handle 0\nok\n"),
    ("@1 hread 0 0 9", "data 6162\nok\n"),
    ("@1 close 0", "ok\n"),
    ("@1 close 1", "ok\n"),
    ("@2 close 0", "ok\n"),
    ("@4 open /a w -", "handle 0\nok\n"),
    ("@1 open /a r rwd", "no 22 Shared 4 0\n"),
    ("cat /d/b", "no 22 Shared 4 0\n"),
    ("read /a:s 0 1", "no 22 Shared 4 0\n"),
    ("read /a 0 32769", "no 19 TooBig\n"),
    ("cat /a:t", "no 11 NoStream\n"),
    ("stat /a", "stat file 2 5 0021 256 1 2 3 4\nok\n"),
    ("@4 hread 0 0 1", "no 3 NoHandle\n"),
    ("@4 hwrite 0 4096 00", "no 28 Unbuilt\n"),
    ("open / r r", "no 10 IsDir\n"),
    ("open /d r r", "no 10 IsDir\n"),
    ("open /d:s r r", "no 11 NoStream\n"),
    ("open /a:t r r", "no 11 NoStream\n"),
    ("open /nothing r r", "no 4 NotFound\n"),
    ("open /a/b r r", "no 5 NotDir\n"),
    ("open /r/x r r", "no 6 Reparse\n"),
    ("open /$MFT r r", "no 7 Hidden\n"),
    ("open /longfilename.txt r r", "no 16 Packed\n"),
    ("open /h rwd rwd", "handle 0\nok\n"),
    ("hread 0 72998 10", "data 0000\nok\n"),
    ("time 7", "ok\n"),
];

#[test]
fn sessions_share_files(rt: HostRuntime) -> Result<(), test::Fail> {
    let image = volume_with_all(rt.alloc())?;
    assert_eq!(rt; wrong_row(rt.alloc(), 2048, &image, &TURNS)?, None);
    Ok(())
}

#[test]
fn a_session_has_64_handles(rt: HostRuntime) -> Result<(), test::Fail> {
    let alloc = rt.alloc();
    let mut script = Vec::new(alloc);
    let mut text = Vec::new(alloc);
    for handle in 0..64 {
        script.extend_from_slice(b"@15 open /f r r\n")?;
        text.extend_from_slice(format!(in alloc; "handle {handle}\nok\n")?.as_bytes())?;
    }
    for (line, reply) in [
        ("@15 open /f r r\n", "no 21 TooManyHandles\n"),
        ("@15 open /f w -\n", "no 21 TooManyHandles\n"),
        ("@15 open /g r r\n", "no 4 NotFound\n"),
        ("@14 open /f w r\n", "no 22 Shared 15 0\n"),
        ("@14 open /f r r\n", "handle 0\nok\n"),
        ("@14 open /f w r\n", "no 22 Shared 14 0\n"),
        ("@15 close 37\n", "ok\n"),
        ("@15 close 5\n", "ok\n"),
        ("@15 open /f r r\n", "handle 5\nok\n"),
        ("@15 open /f r r\n", "handle 37\nok\n"),
        ("@15 open /f r r\n", "no 21 TooManyHandles\n"),
    ] {
        script.extend_from_slice(line.as_bytes())?;
        text.extend_from_slice(reply.as_bytes())?;
    }
    let image = volume_with_f(alloc)?;
    let Some(out) = replies(alloc, SECTORS, &image, &script)? else {
        return Err("the end")?;
    };
    assert!(rt; out.bytes() == text.as_slice());
    Ok(())
}
