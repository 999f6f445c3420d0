//! Errors with numbers, as a person reads them. What is expected is the sentence that the words beside each cause ask for.
use data_runs::RunFault;
use mft_table::{MftNo, MountNo, TableNo};
use ntfs_boot::BootFault;
use std::test::Fail;
use tree_model::No;

// Run texts that mean no runs, by the place of the run.
const RUNS: [(RunFault, &str); 4] = [
    (RunFault::Cut { at: 3 }, "the text ends within the run at 3"),
    (
        RunFault::ZeroLength { at: 4 },
        "the run at 4 has no cluster",
    ),
    (RunFault::Wide { at: 5 }, "the run at 5 is too large"),
    (
        RunFault::Negative { at: 6 },
        "the run at 6 begins below cluster 0",
    ),
];

// Refusals with numbers.
const REFUSALS: [(No, &str); 4] = [
    (
        No::Shared {
            session: 1,
            handle: 2,
        },
        "shared: 1 2",
    ),
    (
        No::TooManyParts {
            length: 37_080,
            more: 4336,
        },
        "too many parts: 37080 4336",
    ),
    (
        No::MftFull { need: 97, free: 40 },
        "the table of records is full: 97 40",
    ),
    (No::NoRoom { need: 10, free: 9 }, "no room: 10 9"),
];

#[test]
fn errors_have_their_texts(rt: HostRuntime) -> Result<(), Fail> {
    for (fault, text) in RUNS {
        assert_eq!(rt; format!(in rt.alloc(); "{fault}")?.as_str(), text);
    }
    for (no, text) in REFUSALS {
        assert_eq!(rt; format!(in rt.alloc(); "{no}")?.as_str(), text);
    }
    Ok(())
}

#[test]
fn errors_of_volumes_have_their_texts(rt: HostRuntime) -> Result<(), Fail> {
    let torn = MftNo::Torn { number: 7 };
    let boot = TableNo::Boot(BootFault::NotNtfs);
    let refused = MountNo::Refused {
        clause: 14,
        number: 3,
    };
    let text = format!(in rt.alloc(); "{torn}; {boot}; {refused}")?;
    assert_eq!(rt;
        text.as_str(),
        "record 7 does not open; the boot sector is refused: no NTFS boot sector; the volume breaks S14 at 3"
    );
    Ok(())
}
