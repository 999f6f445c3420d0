//! The first words of commands.
ghost use Rattle.std.specs.Prelude.{◌≡◌, ◌↔◌, IsTrue};
ghost use Rattle.cmd_lang.specs.Grammar.{path_command, path_verb_text, verb_text};
ghost use Rattle.cmd_lang.specs.Lines.{Finds};

use tree_model::{Command, Path};

/// A command that has a path alone.
#[derive(Clone, Copy)]
pub enum PathVerb {
    Ls,
    Stat,
    Links,
    Create,
    Mkdir,
    Rm,
    Rmdir,
    Streams,
    Attr,
    Sec,
    Reparse,
    Rmreparse,
    Objid,
}

/// The command that a first word asks for.
#[derive(Clone, Copy)]
pub enum Verb {
    OfPath(PathVerb),
    Time,
    Cat,
    Read,
    Ln,
    Mv,
    Write,
    Truncate,
    Punch,
    Rmstream,
    Setattr,
    Setsec,
    Sd,
    Mkreparse,
    Df,
    Open,
    Hread,
    Hwrite,
    Close,
}

const VERBS: [Verb; 31] = [
    Verb::Time,
    Verb::OfPath(PathVerb::Ls),
    Verb::OfPath(PathVerb::Stat),
    Verb::OfPath(PathVerb::Links),
    Verb::Cat,
    Verb::Read,
    Verb::OfPath(PathVerb::Create),
    Verb::OfPath(PathVerb::Mkdir),
    Verb::OfPath(PathVerb::Rm),
    Verb::OfPath(PathVerb::Rmdir),
    Verb::Ln,
    Verb::Mv,
    Verb::Write,
    Verb::Truncate,
    Verb::Punch,
    Verb::OfPath(PathVerb::Streams),
    Verb::Rmstream,
    Verb::OfPath(PathVerb::Attr),
    Verb::Setattr,
    Verb::OfPath(PathVerb::Sec),
    Verb::Setsec,
    Verb::Sd,
    Verb::OfPath(PathVerb::Reparse),
    Verb::Mkreparse,
    Verb::OfPath(PathVerb::Rmreparse),
    Verb::OfPath(PathVerb::Objid),
    Verb::Df,
    Verb::Open,
    Verb::Hread,
    Verb::Hwrite,
    Verb::Close,
];

fn path_verb_text(verb: PathVerb) -> &'static [u8]
    ensures { result.now ≡ path_verb_text verb }
{
    match verb {
        PathVerb::Ls => b"ls",
        PathVerb::Stat => b"stat",
        PathVerb::Links => b"links",
        PathVerb::Create => b"create",
        PathVerb::Mkdir => b"mkdir",
        PathVerb::Rm => b"rm",
        PathVerb::Rmdir => b"rmdir",
        PathVerb::Streams => b"streams",
        PathVerb::Attr => b"attr",
        PathVerb::Sec => b"sec",
        PathVerb::Reparse => b"reparse",
        PathVerb::Rmreparse => b"rmreparse",
        PathVerb::Objid => b"objid",
    }
}

fn verb_text(verb: Verb) -> &'static [u8]
    ensures { result.now ≡ verb_text verb }
{
    match verb {
        Verb::OfPath(verb) => path_verb_text(verb),
        Verb::Time => b"time",
        Verb::Cat => b"cat",
        Verb::Read => b"read",
        Verb::Ln => b"ln",
        Verb::Mv => b"mv",
        Verb::Write => b"write",
        Verb::Truncate => b"truncate",
        Verb::Punch => b"punch",
        Verb::Rmstream => b"rmstream",
        Verb::Setattr => b"setattr",
        Verb::Setsec => b"setsec",
        Verb::Sd => b"sd",
        Verb::Mkreparse => b"mkreparse",
        Verb::Df => b"df",
        Verb::Open => b"open",
        Verb::Hread => b"hread",
        Verb::Hwrite => b"hwrite",
        Verb::Close => b"close",
    }
}

fn is_word_of(verb: Verb, word: &[u8]) -> bool
    ensures { IsTrue result ↔ (word.now ≡ verb_text verb) }
{
    verb_text(verb) == word
}

/// The command that a first word asks for.
pub fn verb_of(word: &[u8]) -> Option<Verb>
    ensures { Finds (λ verb. word.now ≡ verb_text verb) result }
{
    'verbs: for verb in VERBS {
        if is_word_of(verb, word) {
            return Some(verb);
        }
    }
    None
}

/// The command that has this path alone.
pub fn path_command(verb: PathVerb, path: Path) -> Command
    ensures { result ≡ path_command verb path }
{
    match verb {
        PathVerb::Ls => Command::Ls { path },
        PathVerb::Stat => Command::Stat { path },
        PathVerb::Links => Command::Links { path },
        PathVerb::Create => Command::Create { path },
        PathVerb::Mkdir => Command::Mkdir { path },
        PathVerb::Rm => Command::Rm { path },
        PathVerb::Rmdir => Command::Rmdir { path },
        PathVerb::Streams => Command::Streams { path },
        PathVerb::Attr => Command::Attr { path },
        PathVerb::Sec => Command::Sec { path },
        PathVerb::Reparse => Command::Reparse { path },
        PathVerb::Rmreparse => Command::Rmreparse { path },
        PathVerb::Objid => Command::Objid { path },
    }
}
