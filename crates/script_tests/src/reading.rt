//! The reading commands of a script, on volumes that `format` makes and on which files were laid. What a script prints, by the
//! table of commands and that of refusals; a reply is its lines and `ok`, or the refusal.
use laid_volumes::laid_files::{FORMAT, SECTORS, volume_with_all, volume_with_f};
use laid_volumes::made::made_on;
use laid_volumes::scripts::{Row, failing, is_sound, replies, script_of, wrong_row};
use std::alloc::Global;
use std::test;
use vol_disk::CallKind;

// Lines on a new volume.
const NEW_VOLUME: [Row; 19] = [
    ("ls /", "ok\n"),
    ("stat /", "stat dir 0 0 0006 256 0 0 0 0\nok\n"),
    ("df", "df 2048 1913 64 38\nok\n"),
    ("cat /$MFT", "no 7 Hidden\n"),
    ("cat /$MFT/x", "no 7 Hidden\n"),
    ("ls /$Extend/$ObjId", "no 7 Hidden\n"),
    ("cat /.", "no 7 Hidden\n"),
    ("cat /", "no 10 IsDir\n"),
    ("cat /:s", "no 11 NoStream\n"),
    ("links /", "ok\n"),
    ("streams /", "ok\n"),
    ("attr /", "attr 0006\nok\n"),
    ("sec /", "sec 256\nok\n"),
    ("objid /", "objid -\nok\n"),
    ("reparse /", "no 12 NoReparse\n"),
    ("ls /f", "no 4 NotFound\n"),
    (
        "sd 256",
        "sd 0100008000000000000000000000000000000000\nok\n",
    ),
    ("sd 257", "no 18 NoSecurity\n"),
    ("sd 4294967295", "no 18 NoSecurity\n"),
];

#[test]
fn a_new_volume_is_read(rt: HostRuntime) -> Result<(), test::Fail> {
    let image = made_on(rt.alloc(), SECTORS, FORMAT)?;
    assert_eq!(rt; wrong_row(rt.alloc(), SECTORS, &image, &NEW_VOLUME)?, None);
    Ok(())
}

// Lines on the volume with one empty file.
const EMPTY_FILE: [Row; 39] = [
    ("ls /", "file f\nok\n"),
    ("@15 ls /", "file f\nok\n"),
    ("@16 ls /", "no 1 Syntax\n"),
    ("zzz", "no 1 Syntax\n"),
    ("stat /f", "stat file 1 0 0020 256 0 0 0 0\nok\n"),
    ("stat /F", "stat file 1 0 0020 256 0 0 0 0\nok\n"),
    ("df", "df 2048 1913 64 37\nok\n"),
    ("cat /f", "data -\nok\n"),
    ("cat /F", "data -\nok\n"),
    ("cat /x", "no 4 NotFound\n"),
    ("cat /x/y", "no 4 NotFound\n"),
    ("cat /f/x", "no 5 NotDir\n"),
    ("ls /f", "no 5 NotDir\n"),
    ("cat /f:s", "no 11 NoStream\n"),
    ("read /f:s 0 32769", "no 11 NoStream\n"),
    ("read /f 0 4", "data -\nok\n"),
    ("read /f 0 32769", "no 19 TooBig\n"),
    ("read /f 1099511627775 1", "data -\nok\n"),
    ("read /f 1099511627775 2", "no 19 TooBig\n"),
    ("read /f 18446744073709551615 1", "no 19 TooBig\n"),
    ("read /f 18446744073709551616 1", "no 1 Syntax\n"),
    ("read /f 00 1", "no 1 Syntax\n"),
    ("streams /f", "stream 0\nok\n"),
    ("attr /f", "attr 0020\nok\n"),
    ("sec /f", "sec 256\nok\n"),
    ("reparse /f", "no 12 NoReparse\n"),
    ("objid /f", "objid -\nok\n"),
    ("links /f", "link 0 /f\nok\n"),
    ("rm /f", "no 28 Unbuilt\n"),
    ("rm /x", "no 28 Unbuilt\n"),
    ("close 5", "no 3 NoHandle\n"),
    ("time 5", "ok\n"),
    ("@1 ls /", "file f\nok\n"),
    ("@2 cat /x", "no 4 NotFound\n"),
    ("# ls /", ""),
    ("", ""),
    ("@15 open /f r r", "handle 0\nok\n"),
    ("@1 stat /f", "stat file 1 0 0020 256 0 0 0 0\nok\n"),
    ("@0 cat /F", "data -\nok\n"),
];

#[test]
fn an_empty_file_is_read(rt: HostRuntime) -> Result<(), test::Fail> {
    let image = volume_with_f(rt.alloc())?;
    assert!(rt; is_sound(rt.alloc(), SECTORS, &image)?);
    assert_eq!(rt; wrong_row(rt.alloc(), SECTORS, &image, &EMPTY_FILE)?, None);
    Ok(())
}

// Lines on the volume with files of each kind.
const EACH_KIND: [Row; 34] = [
    (
        "ls /",
        "file a\ndir d\nfile h\nfile longfilename.txt\ndir r\nfile x\nok\n",
    ),
    ("ls /d", "file b\nok\n"),
    ("links /a", "link 0 /a\nlink 0 /d/b\nok\n"),
    ("links /D/B", "link 0 /a\nlink 0 /d/b\nok\n"),
    (
        "links /longfilename.txt",
        "link 2 /LONGFI~1.TXT\nlink 1 /longfilename.txt\nok\n",
    ),
    ("stat /d/b", "stat file 2 5 0021 256 1 2 3 4\nok\n"),
    ("cat /a", "data 68656c6c6f\nok\n"),
    ("read /a 1 2", "data 656c\nok\n"),
    ("cat /d/b:S", "data 6162\nok\n"),
    ("cat /a:t", "no 11 NoStream\n"),
    ("streams /a", "stream 5\nstream 2 s\nok\n"),
    ("objid /a", "objid 000102030405060708090a0b0c0d0eff\nok\n"),
    (
        "stat /longfi~1.txt",
        "stat file 1 60000 0020 256 0 0 0 0\nok\n",
    ),
    ("streams /longfilename.txt", "packed 60000\nok\n"),
    ("cat /longfilename.txt", "no 16 Packed\n"),
    ("read /longfilename.txt 0 32769", "no 16 Packed\n"),
    (
        "objid /longfilename.txt",
        "objid a0a1a2a3a4a5a6a7a8a9aaabacadaeaf\nok\n",
    ),
    ("stat /h", "stat file 1 73000 0020 256 0 0 0 0\nok\n"),
    ("cat /h", "no 19 TooBig\n"),
    ("read /h 4094 4", "data 78790000\nok\n"),
    ("read /h 69630 4", "data 00003031\nok\n"),
    ("read /h 69638 4", "data 36370000\nok\n"),
    ("read /h 72998 10", "data 0000\nok\n"),
    ("read /h 73000 1", "data -\nok\n"),
    ("cat /d", "no 10 IsDir\n"),
    ("cat /d:s", "no 11 NoStream\n"),
    ("stat /d", "stat dir 1 0 0000 256 0 0 0 0\nok\n"),
    ("reparse /r", "reparse a0000003 abcd\nok\n"),
    ("attr /r", "attr 0000\nok\n"),
    ("ls /r", "ok\n"),
    ("ls /r/x", "no 6 Reparse\n"),
    (
        "streams /x",
        "stream 0\nstream 0 s00\nstream 0 s01\nstream 0 s02\nstream 0 s03\nstream 0 s04\nstream 0 s05\n\
         stream 0 s06\nstream 0 s07\nstream 0 s08\nstream 0 s09\nstream 0 s10\nstream 0 s11\nstream 0 s12\n\
         stream 0 s13\nstream 0 s14\nstream 0 s15\nstream 0 s16\nstream 0 s17\nstream 0 s18\nstream 4 s19\n\
         ok\n",
    ),
    ("cat /x:s19", "data 6c617374\nok\n"),
    ("df", "df 256 117 64 32\nok\n"),
];

// The most bytes that are read at once, most of them in the hole: `data`, two digits for each, and `ok`.
const LONG_READ: &[u8] = b"read /h 4094 32768\n";

const LONG_REPLY: usize = 5 + 2 * 32_768 + 1 + 3;

#[test]
fn files_of_each_kind_are_read(rt: HostRuntime) -> Result<(), test::Fail> {
    let image = volume_with_all(rt.alloc())?;
    assert!(rt; is_sound(rt.alloc(), 2048, &image)?);
    assert_eq!(rt; wrong_row(rt.alloc(), 2048, &image, &EACH_KIND)?, None);
    let long = replies(rt.alloc(), 2048, &image, LONG_READ)?;
    assert_eq!(rt; long.map(|out| out.bytes().len()), Some(LONG_REPLY));
    Ok(())
}

// Each session says something of its own, and some say more later.
const SESSIONS: [Row; 20] = [
    ("@7 cat /a", "data 68656c6c6f\nok\n"),
    ("@0 ls /d", "file b\nok\n"),
    ("@15 read /h 4094 4", "data 78790000\nok\n"),
    ("@3 links /D/B", "link 0 /a\nlink 0 /d/b\nok\n"),
    ("@12 cat /d/b:S", "data 6162\nok\n"),
    ("@1 stat /d/b", "stat file 2 5 0021 256 1 2 3 4\nok\n"),
    ("@14 df", "df 256 117 64 32\nok\n"),
    (
        "@9 objid /a",
        "objid 000102030405060708090a0b0c0d0eff\nok\n",
    ),
    ("@5 reparse /r", "reparse a0000003 abcd\nok\n"),
    ("@7 cat /a:t", "no 11 NoStream\n"),
    ("@10 streams /a", "stream 5\nstream 2 s\nok\n"),
    ("@2 cat /z", "no 4 NotFound\n"),
    ("@13 ls /r/x", "no 6 Reparse\n"),
    ("@4 attr /r", "attr 0000\nok\n"),
    ("@11 cat /longfilename.txt", "no 16 Packed\n"),
    ("@8 read /h 69638 4", "data 36370000\nok\n"),
    ("@6 cat /h", "no 19 TooBig\n"),
    ("@15 sec /d", "sec 256\nok\n"),
    ("@0 ls /a", "no 5 NotDir\n"),
    ("@8 cat /d", "no 10 IsDir\n"),
];

#[test]
fn sixteen_sessions_are_answered(rt: HostRuntime) -> Result<(), test::Fail> {
    let image = volume_with_all(rt.alloc())?;
    assert_eq!(rt; wrong_row(rt.alloc(), 2048, &image, &SESSIONS)?, None);
    Ok(())
}

// Lines that read, and their replies.
const READS: [Row; 4] = [
    ("ls /d", "file b\nok\n"),
    ("read /h 69638 4", "data 36370000\nok\n"),
    ("links /a", "link 0 /a\nlink 0 /d/b\nok\n"),
    ("cat /d/b:s", "data 6162\nok\n"),
];

// Whether a text is that of the first few of some replies, and not of all.
fn is_front(alloc: Global, text: &[u8], rows: &[Row]) -> Result<bool, test::Fail> {
    let mut front = Vec::new(alloc);
    for (_, reply) in rows {
        if text == front.as_slice() {
            return Ok(true);
        }
        front.extend_from_slice(reply.as_bytes())?;
    }
    Ok(false)
}

// How many bytes the lines print where a read fails, if they end with status 6 and that is the text of the first few.
fn printed(
    alloc: Global,
    image: &[u8],
    script: &[u8],
    number: u64,
) -> Result<Option<usize>, test::Fail> {
    let (status, out) = failing(alloc, image, script, CallKind::Read, number)?;
    if status == 6 && is_front(alloc, out.bytes(), &READS)? {
        Ok(Some(out.bytes().len()))
    } else {
        Ok(None)
    }
}

// Some reads fail, one in each run: before the first line, in one that reads, or behind the last. Some print a part.
#[test]
fn a_failing_read_ends_the_script(rt: HostRuntime) -> Result<(), test::Fail> {
    let image = volume_with_all(rt.alloc())?;
    let script = script_of(rt.alloc(), &READS)?;
    let mut most = 0;
    for number in [
        1, 412, 572, 580, 588, 596, 604, 612, 620, 628, 636, 644, 652, 660,
    ] {
        match printed(rt.alloc(), &image, &script, number)? {
            Some(len) => most = len.max(most),
            None => return Err(number)?,
        }
    }
    assert!(rt; most > 0);
    Ok(())
}

// No read fails here, and all are answered.
#[test]
fn lines_that_read_are_answered(rt: HostRuntime) -> Result<(), test::Fail> {
    let image = volume_with_all(rt.alloc())?;
    let script = script_of(rt.alloc(), &READS)?;
    let (status, _) = failing(rt.alloc(), &image, &script, CallKind::Read, 5000)?;
    assert_eq!(rt; status, 0);
    assert_eq!(rt; wrong_row(rt.alloc(), 2048, &image, &READS)?, None);
    Ok(())
}
