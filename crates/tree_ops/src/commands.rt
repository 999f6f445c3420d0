//! A command is done.
ghost use Rattle.std.specs.Prelude.{◌≡◌, ◌&&◌, ℕ, IfSome, IsTrue, OnErr, OnOk, false};
ghost use Rattle.mft_table.specs.Mft.{MftReads, faults_of, view};
ghost use Rattle.share_table.specs.Held.{HoldsOpens};
ghost use Rattle.tree_model.specs.Facts.{TellsFacts};
ghost use Rattle.tree_model.specs.Refusals.{Facts, is_edit};
ghost use Rattle.tree_model.specs.Staging.{is_built};
ghost use Rattle.tree_read.specs.Answered.{Counts};
ghost use Rattle.tree_read.specs.Standings.{IsStanding};
ghost use Rattle.tree_ops.specs.Wanted.{Does, machine_on};
ghost use Rattle.mft_table.specs.InUse.{IsInUse};

use crate::built::Built;
use crate::handles::{close, hread, open};
use crate::security::sd;
use mft_table::Mft;
use share_table::Opens;
use std::alloc::Global;
use tree_model::{Answer, Command, No};
use tree_read::{Standing, Stop, df, show_at};
use vol_disk::Disk;

/// The answer to a command of a session that is no edit that is built, or the refusal that is due, and what it leaves of the opens and of
/// the moment. `last` is the directory in which the last path ended, before the command and behind it.
pub fn answer<D: Disk>(
    alloc: Global,
    mft: &mut Mft<'_, D>,
    last: &mut Option<Standing>,
    opens: &mut Opens,
    moment: &mut u64,
    session: u8,
    command: &Command,
) -> Result<Answer, Stop>
    requires volume { IsInUse D.Disk mft.old }
    requires last { IsTrue (view D.Disk mft.old).told → IfSome last.old (IsStanding (view D.Disk mft.old)) }
    requires held { IsTrue (view D.Disk mft.old).told → HoldsOpens (machine_on (view D.Disk mft.old) opens.old moment.old) }
    requires plain { (is_edit command.now && is_built command.now) ≡ false }
    ensures reads { (reads : ℕ) × MftReads D.Disk mft.old mft.new reads }
    ensures counts { Counts result (faults_of D.Disk mft.old) (faults_of D.Disk mft.new) }
    ensures does { (facts : Facts) → IsTrue (view D.Disk mft.old).told → TellsFacts (view D.Disk mft.old) facts
        → Does facts (machine_on (view D.Disk mft.old) opens.old moment.old) session command.now result
        (machine_on (view D.Disk mft.old) opens.new moment.new) }
    ensures plain { OnOk result (is_edit command.now ≡ false) }
    ensures last { IsTrue (view D.Disk mft.old).told → IfSome last.new (IsStanding (view D.Disk mft.old)) }
    ensures opens { OnErr result (opens.new ≡ opens.old) }
    ensures moment { OnErr result (moment.new ≡ moment.old) }
{
    match Built::of(command) {
        None => Err(Stop::No(No::Unbuilt)),
        Some(Built::Df) => Ok(df(mft.mounted())),
        Some(Built::Shown(path, what)) => show_at(alloc, mft, last, opens, path, what),
        Some(Built::Time(now)) => {
            *moment = now;
            Ok(Answer::Done)
        }
        Some(Built::Open(opening)) => open(alloc, mft, last, opens, session, opening),
        Some(Built::Hread { handle, at, len }) => {
            hread(alloc, mft, opens, session, handle, at, len)
        }
        Some(Built::Close(handle)) => close(opens, session, handle),
        Some(Built::Sd(id)) => sd(alloc, mft, id),
    }
}
