//! The clauses on a volume whose table of records was found.
ghost use Rattle.std.specs.Prelude.{◌≡◌};
ghost use Rattle.volume_def.specs.Sound.{clause_number};
ghost use Rattle.clause_order.specs.Clauses.{named};

use mft_table::MountNo;

/// A clause of the volume definition, in their order.
#[derive(Clone, Copy, Debug, PartialEq, Eq)]
pub enum Clause {
    Shape,
    Attributes,
    Lists,
    Extents,
    Owners,
    ClusterBits,
    RecordBits,
    References,
    Links,
    CaseTable,
    Indexes,
    Version,
    MirrorPlace,
    Mirror,
    Limits,
}

impl Clause {
    /// The number in its name, from S3 to S15: that on the version and the mirror is one, S14.
    pub fn number(self) -> u8
        ensures { result ≡ clause_number (named self) }
    {
        match self {
            Clause::Shape => 3,
            Clause::Attributes => 4,
            Clause::Lists => 5,
            Clause::Extents => 6,
            Clause::Owners => 7,
            Clause::ClusterBits => 8,
            Clause::RecordBits => 9,
            Clause::References => 10,
            Clause::Links => 11,
            Clause::CaseTable => 13,
            Clause::Indexes => 12,
            Clause::Version | Clause::MirrorPlace | Clause::Mirror => 14,
            Clause::Limits => 15,
        }
    }

    /// The refusal of a volume by this clause, and the number that breaks it.
    pub fn refusal(self, number: u64) -> MountNo
        ensures { result ≡ MountNo.Refused (clause_number (named self)) number }
    {
        MountNo::Refused {
            clause: self.number(),
            number,
        }
    }
}
