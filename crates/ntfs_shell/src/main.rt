//! `ntfs_shell`: commands on the image of an NTFS 3.1 volume.
#![tactic(auto)]

use edge::start;
use std::io::IsTerminal;
use std::process::ExitCode;

fn main(rt: HostRuntime) -> ExitCode {
    ExitCode::from(start(&rt, rt.stderr().is_terminal()))
}
