//! The lines of a script, from sources that give it at once, byte by byte, and in part.
use script_lines::{LineReader, Next};
use std::alloc::{AllocError, Global};
use vol_disk::{Failed, MemSource, Source};

// A source that gives one byte at a call.
#[derive(Drop)]
struct Slowly<S: Source> {
    whole: S,
}

impl<S: Source> Source for Slowly<S> {
    ghost left = { λ source. S.Source.left source.whole };

    ghost faults = { λ source. S.Source.faults source.whole };

    fn read(&mut self, into: &mut [u8]) -> Result<usize, Failed> {
        let len = into.len().min(1);
        self.whole.read(&mut into[..len])
    }
}

// A source of these bytes, whose call of this number fails; 0 is none.
fn source_of(alloc: Global, text: &[u8], fails: u64) -> Result<MemSource, AllocError> {
    Ok(MemSource::new(text.to_vec(alloc)?, vec![in alloc; fails]?))
}

// The commands of a source, each with `|` behind it, and what came after the last.
fn commands_of<S: Source>(alloc: Global, mut source: S) -> Result<(Vec<u8>, Next), AllocError>
where
    S: Drop,
{
    let mut reader = LineReader::new();
    let mut line = Vec::new(alloc);
    let mut commands = Vec::new(alloc);
    for _ in 0..9 {
        match reader.next_command(&mut source, &mut line) {
            Next::Line => {
                commands.extend_from_slice(&line)?;
                commands.push(b'|')?;
            }
            next => return Ok((commands, next)),
        }
    }
    Ok((commands, Next::TooMuch))
}

#[test]
fn lines_come_in_any_pieces(rt: HostRuntime) -> Result<(), AllocError> {
    for (text, wanted) in [
        ("", ""),
        ("\n\n#\n", ""),
        ("a\n\n#b\nc\n", "a|c|"),
        ("ab c", "ab c|"),
        ("#", ""),
        ("a\n#b", "a|"),
    ] {
        let text = text.as_bytes();
        let (whole, next) = commands_of(rt.alloc(), source_of(rt.alloc(), text, 0)?)?;
        assert!(rt;
            whole.as_slice() == wanted.as_bytes() && next == Next::End,
            "{wanted}"
        );
        let slowly = Slowly {
            whole: source_of(rt.alloc(), text, 0)?,
        };
        let (pieces, next) = commands_of(rt.alloc(), slowly)?;
        assert!(rt;
            pieces.as_slice() == wanted.as_bytes() && next == Next::End,
            "{wanted}"
        );
    }
    Ok(())
}

// The second call would fail, but the end was met before; the first one does.
#[test]
fn a_fault_ends_the_lines(rt: HostRuntime) -> Result<(), AllocError> {
    let (none, next) = commands_of(rt.alloc(), source_of(rt.alloc(), b"a\nb", 1)?)?;
    assert!(rt; none.is_empty() && next == Next::Failed);
    let (ended, next) = commands_of(rt.alloc(), source_of(rt.alloc(), b"a\nb", 2)?)?;
    assert!(rt; ended.as_slice() == b"a|".as_slice() && next == Next::Failed);
    let (all, next) = commands_of(rt.alloc(), source_of(rt.alloc(), b"a\nb", 3)?)?;
    assert!(rt; all.as_slice() == b"a|b|".as_slice() && next == Next::End);
    Ok(())
}

#[test]
fn a_long_line_is_kept_in_part(rt: HostRuntime) -> Result<(), AllocError> {
    for (len, wanted) in [(69_999, 70_002), (70_001, 70_004), (200_000, 70_004)] {
        let mut text = vec![in rt.alloc(); b'a'; len]?;
        text.extend_from_slice(b"\nb\n")?;
        let (commands, next) = commands_of(rt.alloc(), source_of(rt.alloc(), &text, 0)?)?;
        assert_eq!(rt; commands.len(), wanted);
        assert!(rt; commands.ends_with(b"a|b|") && next == Next::End);
    }
    Ok(())
}
