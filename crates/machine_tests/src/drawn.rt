//! The numbers that are drawn for a generated script, and the lines that they tell, against values from outside.
use cmd_lang::{make_script, next_draw, parse_line};
use std::alloc::Global;
use std::fmt::Debug;

// The line of a number, and a line of a script, are the same command.
fn is_line(alloc: Global, x: u64, line: &str) -> bool {
    match (make_script(alloc, x), parse_line(alloc, line.as_bytes())) {
        (Ok(made), Ok((session, said))) => {
            match (format!(in alloc; "{made:?}"), format!(in alloc; "{said:?}")) {
                (Ok(made), Ok(said)) => session == 0 && made.as_str() == said.as_str(),
                _ => false,
            }
        }
        _ => false,
    }
}

#[test]
fn numbers_are_drawn(rt: HostRuntime) {
    for (x, next) in [
        (0, 1_442_695_040_888_963_407),
        (1_442_695_040_888_963_407, 1_876_011_003_808_476_466),
        (7, 9_098_160_460_397_411_210),
        (u64::MAX, 13_525_302_890_751_722_018),
    ] {
        assert_eq!(rt; next_draw(x), next, "{x}");
    }
}

#[test]
fn numbers_tell_lines(rt: HostRuntime) {
    let alloc = rt.alloc();
    for (x, line) in [
        (1_442_695_040_888_963_407, "mv /d15/f27 /d0/f27"),
        (1_876_011_003_808_476_466, "rm /d8/f48"),
        (
            7_401_132_627_792_533_940,
            "write /d4/f23 110592 d8d8d8d8d8d8d8d8d8d8d8d8d8d8d8d8",
        ),
        (7_076_646_890_315_895_283, "create /d13/f38"),
        (6_566_661_184_467_396_264, "ln /d7/f60 /d7/g60"),
        (3_927_283_149_119_487_913, "mkdir /d11"),
    ] {
        assert!(rt; is_line(alloc, x, line));
    }
}
