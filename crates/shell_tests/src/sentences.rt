//! The sentence on standard error beside a line that refuses: each clause has its own, about the number of the line.
use laid_volumes::sentence_on_refusal;
use std::test;

// A line, and how the sentence on it begins.
const SENTENCES: [(&str, &str); 20] = [
    ("refused S1 1", "no NTFS boot sector is at the front"),
    ("refused S1 2", "a sector of the volume has not 512"),
    (
        "refused S1 3",
        "a cluster of the volume has not 1, 2, 4 or 8",
    ),
    ("refused S1 4", "a file record of the volume has not 1024"),
    ("refused S1 5", "an index record of the volume has not 4096"),
    (
        "refused S1 7",
        "the table of records, or its mirror, begins",
    ),
    ("refused S3 5", "record 5 does not open"),
    ("refused S4 4", "record 4 lacks an attribute"),
    ("refused S5 9", "the attribute list of record 9 is missing"),
    ("refused S6 2", "the extents of a stream of record 2 do not"),
    ("refused S7 19", "cluster 19 is owned twice"),
    (
        "refused S8 200",
        "the bitmap of clusters is wrong about cluster 200",
    ),
    (
        "refused S9 30",
        "the bitmap of records is wrong about record 30",
    ),
    ("refused S10 24", "a reference in record 24 leads to"),
    ("refused S11 25", "the names of record 25 are none"),
    ("refused S13 10", "the table of case in record 10 "),
    ("refused S12 5", "an index of record 5 is damaged"),
    ("refused S14 2", "record 2 differs from its copy"),
    ("refused S15 26", "a stream of record 26 is longer"),
    ("refused dirty", "the volume is sound, but was not closed"),
];

#[test]
fn each_clause_has_a_sentence_of_its_own(rt: HostRuntime) -> Result<(), test::Fail> {
    for (line, wanted) in SENTENCES {
        let told = format!(in rt.alloc(); "{}", sentence_on_refusal(line, 1))?;
        assert!(rt; told.as_str().starts_with(wanted), "{line}");
    }
    Ok(())
}
