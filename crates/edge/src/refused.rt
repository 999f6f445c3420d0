//! What a person is told on standard error beside the line that refuses a volume: what is asked, and of which record or cluster.
use std::fmt;

/// A sentence in which a number of the refusing line may stand.
#[derive(Clone, Copy)]
pub struct Sentence<'a> {
    before: &'static str,
    number: &'a str,
    behind: &'static str,
}

impl fmt::Display for Sentence<'_> {
    fn fmt<W: fmt::Write>(&self, to: &mut fmt::Formatter<W>) -> fmt::Result {
        to.write_str(self.before)?;
        to.write_str(self.number)?;
        to.write_str(self.behind)
    }
}

// A sentence without a number.
fn plain(text: &'static str) -> Sentence<'static> {
    Sentence {
        before: text,
        number: "",
        behind: "",
    }
}

const UNKNOWN: &str = "this volume is not read here; docs/FORMAT.md says what the clause asks";

// By the number of the test that fails, on a disk of so many sectors.
fn sentence_on_boot(number: &str, sectors: u64) -> &'static str {
    match number {
        "1" if sectors == 0 => "IMAGE has no whole sector of 512 bytes",
        "1" => {
            "no NTFS boot sector is at the front of IMAGE; of a whole disk with a partition table \
             give the partition alone"
        }
        "2" => "a sector of the volume has not 512 bytes",
        "3" => "a cluster of the volume has not 1, 2, 4 or 8 sectors",
        "4" => "a file record of the volume has not 1024 bytes",
        "5" => "an index record of the volume has not 4096 bytes",
        "6" => {
            "IMAGE is shorter than the volume in it, as a copy is that was cut short, or the volume \
             tells a size out of range"
        }
        "7" => "the table of records, or its mirror, begins behind the last cluster",
        _ => UNKNOWN,
    }
}

// By the record that is told: that of the version, that of the mirror, or another that has a copy.
fn sentence_on_mirror(number: &str) -> Sentence<'_> {
    match number {
        "3" => plain("record 3 does not tell version 3.1, or differs from its copy in the mirror"),
        "1" => plain(
            "record 1 does not place the mirror where the boot sector does, or differs from its \
             copy in it",
        ),
        _ => Sentence {
            before: "record ",
            number,
            behind: " differs from its copy in the mirror",
        },
    }
}

// What stands before and behind the number, by the clause.
fn sentence_around(clause: &str) -> (&'static str, &'static str) {
    match clause {
        "S3" => (
            "record ",
            " does not open as a record in use, or has a wrong length or place in it",
        ),
        "S4" => (
            "record ",
            " lacks an attribute, has one in a wrong form, or has them in a wrong order or with \
             equal ids, or is one of the first 12 and extends another",
        ),
        "S5" => (
            "the attribute list of record ",
            " is missing or damaged, or does not name each part of the file once",
        ),
        "S6" => (
            "the extents of a stream of record ",
            " do not follow one another, or its sizes do not fit them",
        ),
        "S7" => (
            "cluster ",
            " is owned twice, or past the end of the volume, or is the first and not the boot \
             sector's",
        ),
        "S8" => (
            "the bitmap of clusters is wrong about cluster ",
            ", which is taken exactly where something owns it, or cannot be read",
        ),
        "S9" => (
            "the bitmap of records is wrong about record ",
            ", which is taken exactly where it is in use, or cannot be read",
        ),
        "S10" => (
            "a reference in record ",
            " leads to a record that is not in use, begins no file or has another sequence number, \
             or to no directory",
        ),
        "S11" => (
            "the names of record ",
            " are none, are not as many as it counts, lack a partner or have two, are several of a \
             directory, or do not lead up to the root",
        ),
        "S12" => (
            "an index of record ",
            " is damaged, or does not list exactly the names in that directory in their order",
        ),
        "S13" => (
            "the table of case in record ",
            " has not its 131072 bytes, or is compressed or encrypted",
        ),
        "S15" => (
            "a stream of record ",
            " is longer than 1099511627776 bytes, the most that is served",
        ),
        _ => (UNKNOWN, ""),
    }
}

// By the clause and the number that a refusal tells.
fn sentence_on_clause<'a>(clause: &str, number: &'a str, sectors: u64) -> Sentence<'a> {
    match clause {
        "S1" => plain(sentence_on_boot(number, sectors)),
        "S2" => plain(
            "record 0 does not open, or does not tell in one list of runs where the whole table of \
             24 to 4194304 records lies",
        ),
        "S14" => sentence_on_mirror(number),
        _ => {
            let (before, behind) = sentence_around(clause);
            Sentence {
                before,
                number: if behind.is_empty() { "" } else { number },
                behind,
            }
        }
    }
}

/// The sentence on the line that refuses an image of so many sectors.
pub fn sentence_on_refusal(line: &str, sectors: u64) -> Sentence<'_> {
    match line.strip_prefix("refused ").unwrap_or("") {
        "dirty" => plain(
            "the volume is sound, but was not closed; let the system that used it last, or its own \
             check, close it",
        ),
        told => match told.split_once(' ') {
            Some((clause, number)) => sentence_on_clause(clause, number, sectors),
            None => plain(UNKNOWN),
        },
    }
}
