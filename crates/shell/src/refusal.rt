//! Why a volume is refused.
ghost use Rattle.std.specs.Prelude.{◌≡◌};
ghost use Rattle.ntfs_boot.specs.Geometry.{number_of};
ghost use Rattle.shell.specs.Refusals.{boot_refusal};

use ntfs_boot::BootFault;

/// A clause of the volume definition, and the number that it tells.
#[derive(Clone, Copy, Debug, PartialEq, Eq)]
pub struct Refusal {
    /// The clause, from 1.
    pub clause: u8,
    /// What the clause tells, as a record's number.
    pub number: u64,
}

/// The table of records is not where the boot sector and record 0 tell.
pub const NO_TABLE: Refusal = Refusal {
    clause: 2,
    number: 0,
};

/// Record 3 is no record in use that can be read.
pub const NO_VOLUME_RECORD: Refusal = Refusal {
    clause: 3,
    number: 3,
};

/// Record 3 tells no version.
pub const NO_VERSION: Refusal = Refusal {
    clause: 14,
    number: 3,
};

/// A boot sector is refused by the least number that fails.
pub fn boot_refusal(fault: BootFault) -> Refusal
    ensures { result ≡ boot_refusal (number_of fault) }
{
    Refusal {
        clause: 1,
        number: u64::from(fault.number()),
    }
}
