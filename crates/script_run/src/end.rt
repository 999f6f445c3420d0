//! How a script ends.
ghost use Rattle.std.specs.Prelude.{◌≡◌};
ghost use Rattle.script_run.specs.Ran.{is_broken};

/// How a script ends.
#[derive(Clone, Copy, Debug, PartialEq, Eq)]
pub enum ScriptEnd {
    /// All lines were answered.
    Done,
    /// The script failed to come.
    Source,
    /// The output failed to go.
    Sink,
    /// The disk failed.
    Device,
    /// Memory ran out.
    Memory,
    /// The script has more than 2^30 bytes.
    TooMuch,
}

impl ScriptEnd {
    /// Whether the disk failed, so that nothing more may be written.
    pub fn is_broken(self) -> bool
        ensures { result ≡ is_broken self }
    {
        matches!(self, ScriptEnd::Device)
    }
}
