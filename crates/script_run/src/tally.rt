//! How many lines were done, and how many refused.
ghost use Rattle.std.specs.Prelude.{◌≡◌, ◌≢◌, ◌+◌, ◌<◌, ◌^◌};
ghost use Rattle.script_run.specs.Draws.{Counts};

use tree_model::Reply;

/// How many lines were done, and how many refused.
#[derive(Clone, Copy, Debug, PartialEq, Eq)]
pub struct Tally {
    pub oks: u64,
    pub nos: u64,
}

impl Tally {
    /// Before the first line.
    pub fn new() -> Tally
        ensures oks { result.oks ≡ 0 }
        ensures nos { result.nos ≡ 0 }
    {
        Tally { oks: 0, nos: 0 }
    }

    /// Counts a line that has this reply.
    pub fn count(&mut self, reply: &Reply)
        requires room { self.old.oks + self.old.nos + 1 < 2 ^ 64 }
        requires reply { reply.now ≢ Reply.Device }
        ensures { Counts reply.now self.old self.new }
    {
        match reply {
            Reply::Ok(_) => self.oks += 1,
            _ => self.nos += 1,
        }
    }
}
