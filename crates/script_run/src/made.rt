//! All generated lines, what is printed of them, and the closing of the volume.
ghost use Rattle.std.specs.Prelude.{◌≡◌, ◌≢◌, ◌+◌, ◌<◌, ◌^◌, ℕ, List, None, Option};
ghost use Rattle.volume_def.specs.View.{VolumeView};
ghost use Rattle.session_def.specs.State.{Begins, State};
ghost use Rattle.tree_ops.specs.Runs.{Ready};
ghost use Rattle.tree_ops.specs.Serves.{Serves};
ghost use Rattle.tree_ops.specs.Volumes.{VolumeGoesOn, disk_under, mark_of};
ghost use Rattle.script_run.specs.Ran.{BlamesEnd, Ran};
ghost use Rattle.script_run.specs.Says.{of_seed};
ghost use Rattle.script_run.specs.SoFar.{RanLines};
ghost use Rattle.script_run.specs.World.{world};
ghost use Rattle.script_run.specs.Told.{CountsMade, Tells};

use crate::draws::take_draws;
use crate::end::ScriptEnd;
use crate::tally::Tally;
use cmd_lang::print_made;
use std::alloc::Global;
use tree_model::{Command, Reply};
use tree_ops::Volume;
use vol_disk::{Disk, Sink, Source};

// Prints what the lines come to, and what is free behind them.
fn tell<D: Disk, K: Sink>(volume: &mut Volume<'_, D>, tally: &Tally, out: &mut K) -> ScriptEnd
    requires serves { Serves D.Disk volume.old }
    requires sum { tally.now.oks + tally.now.nos < 2 ^ 64 }
    ensures serves { result ≢ ScriptEnd.Device → Serves D.Disk volume.new }
    ensures keeps { VolumeGoesOn D.Disk volume.old volume.new }
    ensures settled { D.settled (disk_under D.Disk volume.new) ≡ D.settled (disk_under D.Disk volume.old) }
    ensures faults { CountsMade result (D.faults (disk_under D.Disk volume.old)) (D.faults (disk_under D.Disk volume.new))
        (K.faults out.old) (K.faults out.new) }
    ensures did { (first : VolumeView) (last : State) → Ready D.Disk first volume.old last
        → Tells D.Disk result first last tally.now.oks tally.now.nos volume.old volume.new (K.got out.old) (K.got out.new) }
{
    match volume.apply(0, &Command::Df) {
        Reply::Ok(answer) => match print_made(tally.oks, tally.nos, &answer, out) {
            Ok(()) => ScriptEnd::Done,
            Err(_) => ScriptEnd::Sink,
        },
        Reply::No(_) => ScriptEnd::Memory,
        Reply::Device => ScriptEnd::Device,
    }
}

// Does all lines, and prints what they come to.
fn make_lines<D: Disk, K: Sink>(
    alloc: Global,
    volume: &mut Volume<'_, D>,
    seed: u64,
    count: u64,
    out: &mut K,
) -> ScriptEnd
    requires serves { Serves D.Disk volume.old }
    ensures serves { result ≢ ScriptEnd.Device → Serves D.Disk volume.new }
    ensures keeps { VolumeGoesOn D.Disk volume.old volume.new }
    ensures faults { CountsMade result (D.faults (disk_under D.Disk volume.old)) (D.faults (disk_under D.Disk volume.new))
        (K.faults out.old) (K.faults out.new) }
    ensures ran { (first : State) (left : Option (List ℕ)) → Ready D.Disk first.view volume.old first
        → mark_of D.Disk volume.old ≡ None
        → RanLines D.Disk first (of_seed seed count) (K.got out.old) (D.settled (disk_under D.Disk volume.old)) result volume.new
        left (K.got out.new) }
{
    match take_draws(alloc, volume, seed, count) {
        Ok(tally) => tell(volume, &tally, out),
        Err(end) => end,
    }
}

/// Does the lines of so many numbers drawn behind the seed, prints what they come to, and closes the volume, unless the disk failed.
/// Nothing is taken from the source.
pub fn run_made<D: Disk, S: Source, K: Sink>(
    alloc: Global,
    volume: &mut Volume<'_, D>,
    seed: u64,
    count: u64,
    script: &S,
    out: &mut K,
) -> ScriptEnd
    requires serves { Serves D.Disk volume.old }
    ensures keeps { VolumeGoesOn D.Disk volume.old volume.new }
    ensures unread { result ≢ ScriptEnd.Source }
    ensures within { result ≢ ScriptEnd.TooMuch }
    ensures faults { BlamesEnd result (world D.Disk S.Source K.Sink (disk_under D.Disk volume.old) script.now out.old)
        (world D.Disk S.Source K.Sink (disk_under D.Disk volume.new) script.now out.new) }
    ensures ran { (first : State) → Ready D.Disk first.view volume.old first → Begins first
        → mark_of D.Disk volume.old ≡ None
        → Ran first.image (of_seed seed count)
        result (world D.Disk S.Source K.Sink (disk_under D.Disk volume.old) script.now out.old)
        (world D.Disk S.Source K.Sink (disk_under D.Disk volume.new) script.now out.new) }
{
    let end = make_lines(alloc, volume, seed, count, out);
    if end.is_broken() {
        return end;
    }
    match volume.close() {
        Ok(()) => end,
        Err(_) => ScriptEnd::Device,
    }
}
