//! How a run ends, and the status of the program.
ghost use Rattle.std.specs.Prelude.{◌≡◌, ◌≢◌};
ghost use Rattle.shell.specs.Ending.{status_of};
ghost use Rattle.shell.specs.Run.{ending_of_script};

use script_run::ScriptEnd;

/// All was done and printed.
pub const DONE: u8 = 0;

/// The words are not known.
pub const UNKNOWN_WORDS: u8 = 2;

/// The volume was refused.
pub const REFUSED: u8 = 3;

/// The script failed to come.
pub const SOURCE_FAILED: u8 = 4;

/// The output failed to go.
pub const SINK_FAILED: u8 = 5;

/// The disk failed.
pub const DEVICE_FAILED: u8 = 6;

/// Memory ran out.
pub const OUT_OF_MEMORY: u8 = 7;

/// The script was too long.
pub const TOO_MUCH: u8 = 8;

/// How a run of one of the program's words ends.
#[derive(Clone, Copy, Debug, PartialEq, Eq)]
pub enum Ending {
    /// All was done and printed.
    Done,
    /// The volume or the options were refused, and the line that says so was printed.
    Refused,
    /// The script failed to come.
    Source,
    /// The output failed to go.
    Sink,
    /// The disk failed.
    Device,
    /// Memory ran out.
    Memory,
    /// The script was too long.
    TooMuch,
}

impl Ending {
    /// The ending of a run by that of its script.
    pub fn of_script(end: ScriptEnd) -> Ending
        ensures { result ≡ ending_of_script end }
    {
        match end {
            ScriptEnd::Done => Ending::Done,
            ScriptEnd::Source => Ending::Source,
            ScriptEnd::Sink => Ending::Sink,
            ScriptEnd::Device => Ending::Device,
            ScriptEnd::Memory => Ending::Memory,
            ScriptEnd::TooMuch => Ending::TooMuch,
        }
    }

    /// The status that the program ends with.
    pub fn status(self) -> u8
        ensures status { result ≡ status_of self }
        ensures known { result ≢ UNKNOWN_WORDS }
    {
        match self {
            Ending::Done => DONE,
            Ending::Refused => REFUSED,
            Ending::Source => SOURCE_FAILED,
            Ending::Sink => SINK_FAILED,
            Ending::Device => DEVICE_FAILED,
            Ending::Memory => OUT_OF_MEMORY,
            Ending::TooMuch => TOO_MUCH,
        }
    }
}
