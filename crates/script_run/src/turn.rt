//! One line of a script: its reply, which is settled and printed.
ghost use Rattle.std.specs.Prelude.{◌≡◌, ◌≢◌, ℕ, List};
ghost use Rattle.volume_def.specs.View.{VolumeView};
ghost use Rattle.session_def.specs.State.{State};
ghost use Rattle.tree_ops.specs.Runs.{Ready};
ghost use Rattle.tree_ops.specs.declared.volume.Volume.{Volume};
ghost use Rattle.tree_ops.specs.Serves.{Serves};
ghost use Rattle.tree_ops.specs.Volumes.{VolumeGoesOn, disk_under};
ghost use Rattle.script_run.specs.Says.{SaysLine, refusal_of};
ghost use Rattle.script_run.specs.Turns.{CountsReply, CountsTurn, LineFailed, Replied, TurnDid};

use cmd_lang::{LineFault, parse_line, print_reply};
use std::alloc::Global;
use tree_model::{No, Reply};
use tree_ops::Volume;
use vol_disk::{Disk, Sink};

/// How a line went.
#[derive(Clone, Copy, Debug, PartialEq, Eq)]
pub enum Went {
    /// It was answered, and the next one may come.
    On,
    /// The disk failed.
    Device,
    /// The reply could not be printed.
    Sink,
}

// The refusal of a line that says no command.
fn refusal_of(fault: LineFault) -> No
    ensures { result ≡ refusal_of fault }
{
    match fault {
        LineFault::Syntax => No::Syntax,
        LineFault::Long => No::Long,
        LineFault::Memory => No::Memory,
    }
}

// The reply to a line.
fn reply_to<D: Disk>(alloc: Global, volume: &mut Volume<'_, D>, line: &[u8]) -> Reply
    requires serves { Serves D.Disk volume.old }
    ensures serves { result ≢ Reply.Device → Serves D.Disk volume.new }
    ensures keeps { VolumeGoesOn D.Disk volume.old volume.new }
    ensures settled { D.settled (disk_under D.Disk volume.new) ≡ D.settled (disk_under D.Disk volume.old) }
    ensures faults { CountsReply result (D.faults (disk_under D.Disk volume.old)) (D.faults (disk_under D.Disk volume.new)) }
    ensures replied { result ≢ Reply.Device → (first : VolumeView) (before : State) → Ready D.Disk first volume.old before
        → Replied SaysLine D.Disk first before volume.old line.now result volume.new }
    ensures failed { result ≡ Reply.Device → (first : VolumeView) (before : State) → Ready D.Disk first volume.old before
        → LineFailed SaysLine D.Disk first before line.now volume.new }
{
    match parse_line(alloc, line) {
        Ok((session, command)) => volume.apply(session, &command),
        Err(fault) => Reply::No(refusal_of(fault)),
    }
}

// Settles, and prints the reply to a line.
fn settle_and_print<D: Disk, K: Sink>(
    volume: &mut Volume<'_, D>,
    reply: &Reply,
    out: &mut K,
) -> Went
    requires serves { Serves D.Disk volume.old }
    requires reply { reply.now ≢ Reply.Device }
    ensures serves { result ≢ Went.Device → Serves D.Disk volume.new }
    ensures keeps { VolumeGoesOn D.Disk volume.old volume.new }
    ensures faults { CountsTurn result (D.faults (disk_under D.Disk volume.old)) (D.faults (disk_under D.Disk volume.new))
        (K.faults out.old) (K.faults out.new) }
    ensures did { (first : VolumeView) (before : State) (from : Volume D D.Disk) (line : List ℕ) → Ready D.Disk first from before
        → Replied SaysLine D.Disk first before from line reply.now volume.old
        → D.settled (disk_under D.Disk volume.old) ≡ D.settled (disk_under D.Disk from)
        → TurnDid D.Disk K.Sink result first before from line out.old volume.new out.new }
{
    match volume.settle() {
        Ok(()) => {}
        Err(_) => return Went::Device,
    }
    match print_reply(reply, out) {
        Ok(()) => Went::On,
        Err(_) => Went::Sink,
    }
}

/// Does what a line says, settles once, and prints the reply.
pub fn take_turn<D: Disk, K: Sink>(
    alloc: Global,
    volume: &mut Volume<'_, D>,
    line: &[u8],
    out: &mut K,
) -> Went
    requires serves { Serves D.Disk volume.old }
    ensures serves { result ≢ Went.Device → Serves D.Disk volume.new }
    ensures keeps { VolumeGoesOn D.Disk volume.old volume.new }
    ensures faults { CountsTurn result (D.faults (disk_under D.Disk volume.old)) (D.faults (disk_under D.Disk volume.new))
        (K.faults out.old) (K.faults out.new) }
    ensures did { (first : VolumeView) (before : State) → Ready D.Disk first volume.old before
        → TurnDid D.Disk K.Sink result first before volume.old line.now out.old volume.new out.new }
{
    let reply = reply_to(alloc, volume, line);
    if let Reply::Device = reply {
        return Went::Device;
    }
    settle_and_print(volume, &reply, out)
}
