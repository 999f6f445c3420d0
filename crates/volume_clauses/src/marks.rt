//! What is known of a record's way to the root.
ghost use Rattle.std.specs.Prelude.{◌≡◌, ◌↔◌, IsTrue};
ghost use Rattle.volume_clauses.specs.declared.marks.Mark.TheVariants.{Unknown};
ghost use Rattle.volume_clauses.specs.Marks.{is_found, verdict_of};

/// What is known of a record's way to the root.
#[derive(Clone, Copy, Debug)]
pub enum Mark {
    /// Nothing yet.
    Unknown,
    /// The record is on the way that is being walked.
    Walking,
    /// Its parents reach the root.
    Found,
    /// They do not.
    Lost,
}

impl Mark {
    /// Whether nothing is known yet.
    pub fn is_unknown(self) -> bool
        ensures { IsTrue result ↔ self ≡ Unknown }
    {
        matches!(self, Mark::Unknown)
    }

    /// Whether its parents are known to reach the root.
    pub fn is_found(self) -> bool
        ensures { result ≡ is_found self }
    {
        matches!(self, Mark::Found)
    }

    /// What a whole way is, by the mark of the record at which it ends. One that ends on itself goes in a circle.
    pub fn verdict(self) -> Mark
        ensures { result ≡ verdict_of self }
    {
        match self {
            Mark::Found => Mark::Found,
            _ => Mark::Lost,
        }
    }
}
