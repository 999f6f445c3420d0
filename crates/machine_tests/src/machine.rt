//! What the plain machine replies to lines, printed. Its tree is laid out by hand: in the root a directory `d`, a file `f`, which `d` has
//! under a DOS name, and a file with a name that is not all printed plainly.

use crate::commands::printed;
use cmd_lang::{LineFault, parse_line};
use plain_tree::{PlainFacts, PlainMachine, PlainTree};
use std::alloc::Global;
use std::test::Fail;
use tree_model::{Answer, Content, Link, Node, Point, RawAttr, RawAttrs, Reply, Stream, Streams};
use upcase::UpCase;
use vol_bytes::{Name, Octets, units_of_text};

// Small letters of ASCII are compared as capitals, all other units as themselves.
fn case(alloc: Global) -> Result<UpCase, Fail> {
    let mut bytes = Vec::new(alloc);
    for unit in 0..=u16::MAX {
        let folded = match unit {
            0x61..=0x7A => unit - 0x20,
            _ => unit,
        };
        bytes.extend_from_slice(&folded.to_le_bytes())?;
    }
    Ok(UpCase::load(alloc, &bytes)?)
}

fn octets(alloc: Global, bytes: &[u8]) -> Result<Octets, Fail> {
    Ok(Octets::from_vec(Vec::from_slice(alloc, bytes)?))
}

// The unnamed stream, of three bytes, and a packed one of seven.
fn streams(alloc: Global) -> Result<Streams, Fail> {
    let mut streams = Vec::new(alloc);
    streams.push(Stream {
        name: Name::from_vec(Vec::new(alloc)),
        content: Content::Plain(octets(alloc, b"abc")?),
    })?;
    streams.push(Stream {
        name: units_of_text(alloc, b"p")?,
        content: Content::Packed(7),
    })?;
    Ok(Streams::from_vec(streams))
}

// An object id, of which the first sixteen bytes count.
fn others(alloc: Global) -> Result<RawAttrs, Fail> {
    let mut others = Vec::new(alloc);
    others.push(RawAttr {
        kind: 0x40,
        name: Name::from_vec(Vec::new(alloc)),
        value: Content::Plain(octets(alloc, b"0123456789abcdefgh")?),
    })?;
    Ok(RawAttrs::from_vec(others))
}

// The file `f`.
fn file(alloc: Global) -> Result<Node, Fail> {
    let streams = streams(alloc)?;
    let others = others(alloc)?;
    let bytes = octets(alloc, b"xy")?;
    Ok(Node {
        dir: false,
        times: [1, 2, 3, 4],
        flags: 0x20,
        security: 257,
        streams,
        point: Some(Point {
            tag: 0xA000_000C,
            bytes,
        }),
        others,
    })
}

// Any other one.
fn node(alloc: Global, dir: bool) -> Node {
    Node {
        dir,
        times: [1000, 1001, 1002, u64::MAX],
        flags: 0,
        security: 256,
        streams: Streams::from_vec(Vec::new(alloc)),
        point: None,
        others: RawAttrs::from_vec(Vec::new(alloc)),
    }
}

fn link(alloc: Global, parent: u64, text: &str, child: u64, space: u8) -> Result<Link, Fail> {
    Ok(Link {
        parent,
        name: units_of_text(alloc, text.as_bytes())?,
        space,
        child,
    })
}

// Directories, names in them, the files and the namespaces.
const LINKS: [(u64, &str, u64, u8); 4] = [
    (27, "g", 28, 2),
    (5, "f", 28, 0),
    (5, "d", 27, 0),
    (5, "a%0020é😀%D83D", 29, 0),
];

fn tree(alloc: Global) -> Result<PlainTree, Fail> {
    let mut tree = PlainTree {
        case: case(alloc)?,
        nodes: Vec::new(alloc),
        links: Vec::new(alloc),
        hidden: Vec::new(alloc),
    };
    for (number, dir) in [(5, true), (27, true), (29, false)] {
        tree.nodes.push((number, node(alloc, dir)))?;
    }
    tree.nodes.push((28, file(alloc)?))?;
    for (parent, text, child, space) in LINKS {
        tree.add_link(link(alloc, parent, text, child, space)?)?;
    }
    Ok(tree)
}

const FACTS: PlainFacts = PlainFacts {
    clusters: 9,
    free: 4,
    records: 64,
    free_records: 30,
};

fn machine(alloc: Global, tree: PlainTree) -> PlainMachine {
    PlainMachine {
        tree,
        opens: Vec::new(alloc),
        now: 0,
    }
}

// What a machine replies to a line.
fn reply_to(
    alloc: Global,
    machine: &mut PlainMachine,
    line: &str,
) -> Result<Option<Reply>, LineFault> {
    let (session, command) = parse_line(alloc, line.as_bytes())?;
    Ok(machine.step(alloc, &FACTS, session, &command))
}

// The same, printed: nothing where it leaves the line.
fn told(alloc: Global, machine: &mut PlainMachine, line: &str) -> Result<Vec<u8>, Fail> {
    match reply_to(alloc, machine, line)? {
        Some(reply) => printed(alloc, &reply),
        None => Ok(Vec::new(alloc)),
    }
}

const ANSWERS: [(&str, &str); 17] = [
    ("stat /F", "stat file 1 3 0020 257 1 2 3 4\nok\n"),
    (
        "stat /A%0020é😀%D83D",
        "stat file 1 0 0000 256 1000 1001 1002 18446744073709551615\nok\n",
    ),
    ("attr /F", "attr 0020\nok\n"),
    ("sec /F", "sec 257\nok\n"),
    ("df", "df 9 4 64 30\nok\n"),
    ("cat /F", "data 616263\nok\n"),
    ("read /F 1 9", "data 6263\nok\n"),
    ("cat /F:P", "no 16 Packed\n"),
    ("objid /F", "objid 30313233343536373839616263646566\nok\n"),
    ("objid /d", "objid -\nok\n"),
    ("reparse /F", "reparse a000000c 7879\nok\n"),
    ("ls /", "file a%0020é😀%D83D\ndir d\nfile f\nok\n"),
    // a DOS name is not listed
    ("ls /d", "ok\n"),
    ("links /F", "link 2 /d/g\nlink 0 /f\nok\n"),
    ("streams /F", "stream 3\npacked 7 p\nok\n"),
    ("rm /", "no 28 Unbuilt\n"),
    // left to others
    ("time 7", ""),
];

#[test]
fn lines_are_answered(rt: HostRuntime) -> Result<(), Fail> {
    let mut machine = machine(rt.alloc(), tree(rt.alloc())?);
    for (line, text) in ANSWERS {
        let told = told(rt.alloc(), &mut machine, line)?;
        assert!(rt; told.as_slice() == text.as_bytes(), "{line}");
    }
    Ok(())
}

// The tree with 2,000 names more in `d`.
fn large_tree(alloc: Global) -> Result<PlainTree, Fail> {
    let mut tree = tree(alloc)?;
    for number in 100..2100 {
        let text = format!(in alloc; "n{number}")?;
        tree.add_link(link(alloc, 27, &text, number, 0)?)?;
        tree.nodes.push((number, node(alloc, false)))?;
    }
    Ok(tree)
}

// 900 lines of ten bytes, 1,100 of eleven, and three bytes.
#[test]
fn a_large_directory(rt: HostRuntime) -> Result<(), Fail> {
    let mut machine = machine(rt.alloc(), large_tree(rt.alloc())?);
    for (line, len) in [("ls /d", 21_103), ("sec /D/N2099", 11)] {
        let told = told(rt.alloc(), &mut machine, line)?;
        assert_eq!(rt; told.len(), len, "{line}");
    }
    Ok(())
}

// The tree after each call for edits of `f`, at a moment of its own.
fn edited(alloc: Global) -> Result<PlainTree, Fail> {
    let mut tree = tree(alloc)?;
    let bytes = octets(alloc, b"z")?;
    let tag = 0xA000_0003;
    tree.set_flags(10, 28, 0x21);
    tree.set_security(11, 28, 258);
    tree.set_point(12, 28, Some(Point { tag, bytes }));
    tree.touch(13, 28);
    tree.stamp(14, 28);
    Ok(tree)
}

#[test]
fn a_file_is_edited(rt: HostRuntime) -> Result<(), Fail> {
    let mut machine = machine(rt.alloc(), edited(rt.alloc())?);
    for (line, text) in [
        ("stat /f", "stat file 1 3 0021 258 1 13 14 4\nok\n"),
        ("reparse /f", "reparse a0000003 7a\nok\n"),
    ] {
        let told = told(rt.alloc(), &mut machine, line)?;
        assert!(rt; told.as_slice() == text.as_bytes(), "{line}");
    }
    Ok(())
}

// How many lines a reply has, by its vector.
fn count(reply: Option<Reply>) -> usize {
    match reply {
        Some(Reply::Ok(Answer::List(lines))) => lines.into_vec().len(),
        Some(Reply::Ok(Answer::Links(lines))) => lines.into_vec().len(),
        Some(Reply::Ok(Answer::Streams(lines))) => lines.into_vec().len(),
        _ => 0,
    }
}

#[test]
fn vectors_are_given_back(rt: HostRuntime) -> Result<(), Fail> {
    let mut machine = machine(rt.alloc(), tree(rt.alloc())?);
    for (line, lines) in [("ls /", 3), ("links /f", 2), ("streams /f", 2)] {
        let reply = reply_to(rt.alloc(), &mut machine, line)?;
        assert_eq!(rt; count(reply), lines, "{line}");
    }
    assert_eq!(rt; streams(rt.alloc())?.into_vec().len(), 2);
    assert_eq!(rt; others(rt.alloc())?.into_vec().len(), 1);
    Ok(())
}
