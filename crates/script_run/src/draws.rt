//! The lines of drawn numbers, one after another.
ghost use Rattle.std.specs.Prelude.{◌≡◌, ◌≢◌, ◌+◌, None, IfErr, IfOk, OnErr};
ghost use Rattle.volume_def.specs.View.{VolumeView};
ghost use Rattle.session_def.specs.State.{State};
ghost use Rattle.tree_model.specs.declared.reply.Reply.TheVariants as reply_is;
ghost use Rattle.tree_ops.specs.Runs.{Ready};
ghost use Rattle.tree_ops.specs.Serves.{Serves};
ghost use Rattle.tree_ops.specs.Volumes.{VolumeGoesOn, disk_under, mark_of};
ghost use Rattle.script_run.specs.Turns.{CountsReply};
ghost use Rattle.script_run.specs.Draws.{CountsDraw, DrewLine, DrewLines, RepliedDraw};

use crate::end::ScriptEnd;
use crate::tally::Tally;
use cmd_lang::{make_script, next_draw};
use std::alloc::Global;
use tree_model::Reply;
use tree_ops::Volume;
use vol_disk::Disk;

// The reply to the line of a drawn number. An error is how the run ends where there is no memory for the line.
fn reply_to_draw<D: Disk>(
    alloc: Global,
    volume: &mut Volume<'_, D>,
    drawn: u64,
) -> Result<Reply, ScriptEnd>
    requires serves { Serves D.Disk volume.old }
    ensures serves { result ≢ Ok reply_is.Device → Serves D.Disk volume.new }
    ensures keeps { VolumeGoesOn D.Disk volume.old volume.new }
    ensures settled { D.settled (disk_under D.Disk volume.new) ≡ D.settled (disk_under D.Disk volume.old) }
    ensures faults { IfOk result (λ given. CountsReply given
        (D.faults (disk_under D.Disk volume.old)) (D.faults (disk_under D.Disk volume.new))) }
    ensures memory { IfErr result (λ end. end ≡ ScriptEnd.Memory) }
    ensures same { OnErr result (volume.new ≡ volume.old) }
    ensures did { (first : VolumeView) (before : State) → Ready D.Disk first volume.old before
        → IfOk result (RepliedDraw D.Disk first before volume.old drawn volume.new) }
{
    match make_script(alloc, drawn) {
        Ok(command) => Ok(volume.apply(0, &command)),
        Err(_) => Err(ScriptEnd::Memory),
    }
}

// Does the line of a drawn number, and settles once. It gives the reply, or how the run ends.
fn take_draw<D: Disk>(
    alloc: Global,
    volume: &mut Volume<'_, D>,
    drawn: u64,
) -> Result<Reply, ScriptEnd>
    requires serves { Serves D.Disk volume.old }
    ensures serves { result ≢ Err ScriptEnd.Device → Serves D.Disk volume.new }
    ensures keeps { VolumeGoesOn D.Disk volume.old volume.new }
    ensures faults { CountsDraw result (D.faults (disk_under D.Disk volume.old)) (D.faults (disk_under D.Disk volume.new)) }
    ensures answered { IfOk result (λ given. given ≢ reply_is.Device) }
    ensures did { (first : VolumeView) (before : State) → Ready D.Disk first volume.old before
        → DrewLine D.Disk first before volume.old drawn result volume.new }
{
    let reply = reply_to_draw(alloc, volume, drawn)?;
    if let Reply::Device = reply {
        return Err(ScriptEnd::Device);
    }
    match volume.settle() {
        Ok(()) => Ok(reply),
        Err(_) => Err(ScriptEnd::Device),
    }
}

/// Does the lines of so many numbers, drawn one after another behind the seed, and counts them by their replies. An error is how the
/// run ends where not all lines were done.
pub fn take_draws<D: Disk>(
    alloc: Global,
    volume: &mut Volume<'_, D>,
    seed: u64,
    count: u64,
) -> Result<Tally, ScriptEnd>
    requires serves { Serves D.Disk volume.old }
    ensures serves { result ≢ Err ScriptEnd.Device → Serves D.Disk volume.new }
    ensures keeps { VolumeGoesOn D.Disk volume.old volume.new }
    ensures faults { CountsDraw result (D.faults (disk_under D.Disk volume.old)) (D.faults (disk_under D.Disk volume.new)) }
    ensures sum { IfOk result (λ tally. tally.oks + tally.nos ≡ count) }
    ensures did { (first : State) → Ready D.Disk first.view volume.old first → mark_of D.Disk volume.old ≡ None
        → DrewLines D.Disk first seed count (D.settled (disk_under D.Disk volume.old)) result volume.new }
{
    let mut tally = Tally::new();
    let mut drawn = seed;
    'lines: for _place in 0..count {
        drawn = next_draw(drawn);
        let reply = take_draw(alloc, volume, drawn)?;
        tally.count(&reply);
    }
    Ok(tally)
}
