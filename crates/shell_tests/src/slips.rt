//! What is told of the lines of a script that are no commands: how many, the first of them, and what is likely wrong with it.
use laid_volumes::given::{AMPLE, sink_of};
use laid_volumes::made::{disk_of, volume};
use laid_volumes::{NotedSink, NotedSource, ScriptNotes, run_shell};
use std::alloc::{AllocError, Global};
use std::cell::RefCell;
use std::test;
use vol_disk::MemSource;

// A script, and what is told of it: the whole of it, but for what is advised behind a semicolon. Nothing is told where it is empty.
const SLIPS: [(&str, &str); 16] = [
    ("", ""),
    ("ls /\n#ls\n\n@15 df\nls /none\n", ""),
    (
        "ls /\r\n",
        "1 line was answered no 1 Syntax, line 1: it ends with a carriage return",
    ),
    (
        "\u{FEFF}ls /\n",
        "1 line was answered no 1 Syntax, line 1: the script begins with a byte order mark",
    ),
    (
        "df\n\u{FEFF}df\n",
        "1 line was answered no 1 Syntax, line 2: \"\\xef\\xbb\\xbfdf\" is no command",
    ),
    (
        "#\n\nls\t/\ndf\nls\t/\n",
        "2 lines were answered no 1 Syntax, the first of them line 3: it has a tab",
    ),
    (
        "df\n\n#\nls  /",
        "1 line was answered no 1 Syntax, line 4: it has two spaces in a row",
    ),
    (
        " df\n",
        "1 line was answered no 1 Syntax, line 1: it has two spaces in a row, or a space at an end",
    ),
    (
        "df \n",
        "1 line was answered no 1 Syntax, line 1: it has two spaces in a row, or a space at an end",
    ),
    (
        "dir /\n",
        "1 line was answered no 1 Syntax, line 1: \"dir\" is no command",
    ),
    (
        "@15 dir /\n",
        "1 line was answered no 1 Syntax, line 1: \"dir\" is no command",
    ),
    (
        "@16 df\n",
        "1 line was answered no 1 Syntax, line 1: \"@16\" is no command",
    ),
    (
        "ls a.txt\n",
        "1 line was answered no 1 Syntax, line 1: \"a.txt\" stands where a path is wanted",
    ),
    (
        "mv /a b\n",
        "1 line was answered no 1 Syntax, line 1: \"b\" stands where a path is wanted",
    ),
    (
        "time x\n",
        "1 line was answered no 1 Syntax, line 1: it does not have the form of the command time",
    ),
    (
        "ls\n",
        "1 line was answered no 1 Syntax, line 1: it does not have the form of the command ls",
    ),
];

// Whether this is told of what was noted, or nothing where it is empty.
fn is_told(alloc: Global, notes: &ScriptNotes, wanted: &str) -> Result<bool, AllocError> {
    match notes.slips() {
        None => Ok(wanted.is_empty()),
        Some(slips) => {
            let told = format!(in alloc; "{slips}")?;
            Ok(!wanted.is_empty() && told.as_str().starts_with(wanted))
        }
    }
}

// Whether this is told of a script, or nothing where it is empty.
fn tells(alloc: Global, image: &[u8], script: &[u8], wanted: &str) -> Result<bool, test::Fail> {
    let notes = RefCell::new(ScriptNotes::new());
    let mut disk = disk_of(alloc, image)?;
    disk.reserve(8)?;
    let mut source = NotedSource::new(
        &notes,
        MemSource::new(script.to_vec(alloc)?, Vec::new(alloc)),
    );
    let mut out = NotedSink::new(&notes, sink_of(alloc, 4 * AMPLE, 0)?);
    let words = vec![in alloc; "run".to_string(alloc)?]?;
    if run_shell(alloc, &words, &mut disk, &mut source, &mut out) != 0 {
        return Ok(false);
    }
    match notes.try_borrow() {
        Ok(notes) => Ok(is_told(alloc, &notes, wanted)?),
        Err(_) => Ok(false),
    }
}

#[test]
fn each_slip_is_told(rt: HostRuntime) -> Result<(), test::Fail> {
    let image = volume(rt.alloc())?;
    for (script, wanted) in SLIPS {
        assert!(rt;
            tells(rt.alloc(), &image, script.as_bytes(), wanted)?,
            "{wanted}"
        );
    }
    Ok(())
}

// Lines of each length lie across the ends of what the source gives, comments and commands by turns, and the last is wrong.
#[test]
fn the_line_is_told_wherever_pieces_end(rt: HostRuntime) -> Result<(), test::Fail> {
    let image = volume(rt.alloc())?;
    for len in [506, 510, 511, 512, 1100] {
        let mut script = vec![in rt.alloc(); b'#'; len]?;
        script.extend_from_slice(b"\nls /")?;
        script.extend_from_slice(vec![in rt.alloc(); b'x'; len]?.as_slice())?;
        script.extend_from_slice(b"\ndf\n\ndir\n#")?;
        let wanted = "1 line was answered no 1 Syntax, line 5: \"dir\" is no command";
        assert!(rt; tells(rt.alloc(), &image, &script, wanted)?, "{len}");
    }
    Ok(())
}
