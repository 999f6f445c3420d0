//! The order of the clauses.
ghost use Rattle.std.specs.Prelude.{◌≡◌, ◌<◌, ◌+◌, ℕ, None, Some, IfErr, IsFalse, IsTrue, OnOk};
ghost use Rattle.volume_def.specs.Sound.{HoldBelow, rank_of};
ghost use Rattle.volume_def.specs.View.{VolumeView};
ghost use Rattle.mft_table.specs.MountNos.{CountsMount};
ghost use Rattle.clause_order.specs.Clauses.{named};
ghost use Rattle.clause_order.specs.Refusals.{DecidesFirst, IsRefusalIf};

use crate::clause::Clause;
use mft_table::MountNo;

/// The one number that a clause speaks of, where what it asks there does not hold.
pub fn first_unless(holds: bool, number: u64) -> Option<u64>
    ensures holds { IsTrue holds → result ≡ None }
    ensures fails { IsFalse holds → result ≡ Some number }
{
    if holds { None } else { Some(number) }
}

/// Goes on where no number breaks the clause, and refuses the volume with the least number that does.
///
/// # Errors
///
/// `Refused` alone.
pub fn refuse_first(clause: Clause, first: Option<u64>) -> Result<(), MountNo>
    ensures ok { OnOk result ((view : VolumeView) → HoldBelow view (rank_of (named clause)) → DecidesFirst (named clause) view first
        → HoldBelow view (rank_of (named clause) + 1)) }
    ensures none { OnOk result (first ≡ None) }
    ensures err { IfErr result (λ no. (view : VolumeView) (end : ℕ) → rank_of (named clause) < end
        → IsRefusalIf end (HoldBelow view (rank_of (named clause)) × DecidesFirst (named clause) view first) view no) }
    ensures faults { IfErr result (λ no. (count : ℕ) → CountsMount count count no) }
{
    match first {
        None => Ok(()),
        Some(number) => Err(clause.refusal(number)),
    }
}
