//! The commands of a script, as far as a person is told of a line that is none.

/// How many paths stand behind a command; none where the word is no command.
pub fn paths_behind(word: &[u8]) -> Option<u8> {
    match str::from_utf8(word).unwrap_or("") {
        "time" | "sd" | "df" | "hread" | "hwrite" | "close" => Some(0),
        "ls"
        | "stat"
        | "links"
        | "cat"
        | "read"
        | "create"
        | "mkdir"
        | "rm"
        | "rmdir"
        | "write"
        | "truncate"
        | "punch"
        | "streams"
        | "rmstream"
        | "attr"
        | "setattr"
        | "sec"
        | "setsec"
        | "reparse"
        | "mkreparse"
        | "rmreparse"
        | "objid"
        | "open" => Some(1),
        "ln" | "mv" => Some(2),
        _ => None,
    }
}
