//! A volume in use, and what is done with it.
ghost use Rattle.std.specs.Prelude.{◌≡◌, ◌≢◌, ◌&&◌, ◌||◌, ◌+◌, ◌<◌, ◌≤◌, ℕ, IsOk, List, None, Option, Ok, [], OnErr, OnOk};
ghost use Rattle.std.specs.Prelude.{Some, false, is_some};
ghost use Rattle.vol_disk.specs.Contents.{WhereTold, settled_more};
ghost use Rattle.vol_disk.specs.Count.{CountsFault, Rose};
ghost use Rattle.volume_def.specs.VersionClause.{IsClean};
ghost use Rattle.volume_def.specs.View.{VolumeView};
ghost use Rattle.mft_table.specs.HeldTables.{HoldsTables, volume_in};
ghost use Rattle.mft_table.specs.MirrorClusters.{IsMirrorInside};
ghost use Rattle.mft_table.specs.Mounted.{StandsOn};
ghost use Rattle.mft_table.specs.Mft.{is_mft_broken};
ghost use Rattle.mft_table.specs.InUse.{IsInUse};
ghost use Rattle.session_def.specs.Session.{is_done_edit};
ghost use Rattle.session_def.specs.State.{State};
ghost use Rattle.volume_mark.specs.Mark.{IsHarmed};
ghost use Rattle.tree_model.specs.Refusals.{is_edit};
ghost use Rattle.tree_model.specs.Staging.{is_built};
ghost use Rattle.tree_model.specs.declared.command.Command.TheVariants as command_is;
ghost use Rattle.tree_model.specs.declared.reply.Reply.TheVariants as reply_is;
ghost use Rattle.made_done.specs.MadeOwed.{made_command};
ghost use Rattle.made_done.specs.Written.{SetsShown};
ghost use Rattle.tree_model.specs.Subjects.{stream_name};
ghost use Rattle.tree_ops.specs.Edits.{command_of, stream_command};
ghost use Rattle.tree_ops.specs.Replies.{edit_reply};

use crate::close::CloseNo;
use crate::commands::answer;
use crate::create::create;
use crate::edit::{Edit, set_flags};
use crate::secure::set_security;
use crate::streams::{StreamEdit, edit_stream, hwrite};
use mark_write::Flag;
use mft_table::{Mft, Mounted};
use share_table::Opens;
use std::alloc::Global;
use tree_model::{Answer, Command, Path, Reply};
use tree_read::{Standing, Stop, name_or};
use vol_bytes::{Name, Octets};
use vol_disk::Disk;
use vol_stage::Stage;

/// A volume in use. It has no `Drop`: `finish` gives the disk back.
pub struct Volume<'d, D: Disk> {
    alloc: Global,
    mft: Mft<'d, D>,
    /// The directory in which the last path ended, where one is remembered: a path in the same directory begins there. A command that
    /// edits forgets it.
    last: Option<Standing>,
    /// The opens of all sessions.
    opens: Opens,
    /// The moment that edits write.
    moment: u64,
    /// Where the mark lies, once an edit was done.
    mark: Option<Flag>,
}

impl<'d, D: Disk> Volume<'d, D> {
    ghost use Rattle.tree_ops.specs.Volumes.{disk_under, mark_of, moment_of, opens_of, reference_under, view_under};
    ghost use Rattle.tree_ops.specs.Serves.{Serves};

    /// Takes a volume into use, with the tables that `mount` gave. Nothing is read.
    pub fn new(alloc: Global, disk: &'d mut D, mounted: Mounted) -> Volume<'d, D>
        requires stands { StandsOn (D.size disk.old) mounted }
        requires mirror { IsMirrorInside mounted }
        requires accepted { WhereTold (D.now disk.old) (λ image. HoldsTables 15 image mounted) }
        ensures same_reference { reference_under D.Disk result ≡ disk.entry.ghost_name }
        ensures disk { disk_under D.Disk result ≡ disk.old }
        ensures serves { Serves D.Disk result }
        ensures view { WhereTold (D.now disk.old) (λ image. view_under D.Disk result ≡ volume_in image mounted) }
        ensures unmarked { mark_of D.Disk result ≡ None }
        ensures opens { opens_of D.Disk result ≡ [] }
        ensures moment { moment_of D.Disk result ≡ 0 }
    {
        let stage = Stage::over(alloc, disk);
        Volume {
            alloc,
            mft: Mft::resume(stage, mounted),
            last: None,
            opens: Opens::new(alloc),
            moment: 0,
            mark: None,
        }
    }

    /// Gives the disk back.
    pub fn finish(self) -> &'d mut D
        ensures same_reference { result.ghost_name ≡ reference_under D.Disk self.entry }
        ensures disk { result.now ≡ disk_under D.Disk self.entry }
    {
        let Volume {
            alloc: _,
            mft,
            last: _,
            opens: _,
            moment: _,
            mark: _,
        } = self;
        let (stage, _) = mft.into_parts();
        stage.finish()
    }
}

// The reply to an edit.
fn reply_to(ended: Result<(), Stop>) -> Reply
    ensures { result ≡ edit_reply ended }
{
    match ended {
        Ok(()) => Reply::Ok(Answer::Done),
        Err(Stop::No(refused)) => Reply::No(refused),
        Err(Stop::Device) => Reply::Device,
    }
}

impl<D: Disk> Volume<'_, D> {
    ghost use Rattle.tree_ops.specs.Volumes.{VolumeGoesOn, VolumeReads, VolumeStill, disk_under, mark_of};
    ghost use Rattle.tree_ops.specs.Serves.{Serves};
    ghost use Rattle.tree_ops.specs.Runs.{Applied, Closed, Failed, Ready};
    ghost use Rattle.tree_ops.specs.Replies.{Replies};

    // `setattr`
    fn set(&mut self, session: u8, path: &Path, flags: u16) -> Reply
        requires serves { Serves D.Disk self.old }
        requires shown { SetsShown (command_is.Setattr path.now flags) }
        ensures { Replies D.Disk self.old self.new session (command_is.Setattr path.now flags) result }
    {
        let ended = set_flags(
            self.alloc,
            &mut self.mft,
            &mut self.last,
            &mut self.mark,
            self.moment,
            path,
            flags,
        );
        reply_to(ended)
    }

    // `write`, `punch` and `truncate`: an edit of the stream of this name.
    fn edit_stream(&mut self, session: u8, path: &Path, name: &Name, what: StreamEdit<'_>) -> Reply
        requires serves { Serves D.Disk self.old }
        ensures { (stream : Option (List ℕ)) → stream_name stream ≡ name.now
            → Replies D.Disk self.old self.new session (stream_command what.entry path.now stream) result }
    {
        let ended = edit_stream(
            self.alloc,
            &mut self.mft,
            &mut self.last,
            &mut self.mark,
            &self.opens,
            self.moment,
            path,
            name,
            what,
        );
        reply_to(ended)
    }

    // `rmstream`
    fn remove_stream(&mut self, session: u8, path: &Path, name: &Name) -> Reply
        requires serves { Serves D.Disk self.old }
        ensures { Replies D.Disk self.old self.new session (command_is.Rmstream path.now name.now) result }
    {
        let ended = edit_stream(
            self.alloc,
            &mut self.mft,
            &mut self.last,
            &mut self.mark,
            &self.opens,
            self.moment,
            path,
            name,
            StreamEdit::Remove,
        );
        reply_to(ended)
    }

    // `hwrite`
    fn hwrite(&mut self, session: u8, handle: u32, at: u64, bytes: &Octets) -> Reply
        requires serves { Serves D.Disk self.old }
        ensures { Replies D.Disk self.old self.new session (command_is.Hwrite handle at bytes.now) result }
    {
        let ended = hwrite(
            self.alloc,
            &mut self.mft,
            &mut self.last,
            &mut self.mark,
            &self.opens,
            self.moment,
            session,
            handle,
            at,
            bytes,
        );
        reply_to(ended)
    }

    // `setsec`
    fn secure(&mut self, session: u8, path: &Path, id: u32) -> Reply
        requires serves { Serves D.Disk self.old }
        requires shown { SetsShown (command_is.Setsec path.now id) }
        ensures { Replies D.Disk self.old self.new session (command_is.Setsec path.now id) result }
    {
        let ended = set_security(
            self.alloc,
            &mut self.mft,
            &mut self.last,
            &mut self.mark,
            self.moment,
            path,
            id,
        );
        reply_to(ended)
    }

    // `create` and `mkdir`
    fn create(&mut self, session: u8, path: &Path, directory: bool) -> Reply
        requires serves { Serves D.Disk self.old }
        requires shown { SetsShown (made_command directory path.now) }
        ensures { Replies D.Disk self.old self.new session (made_command directory path.now) result }
    {
        let ended = create(
            self.alloc,
            &mut self.mft,
            &mut self.last,
            &mut self.mark,
            self.moment,
            path,
            directory,
        );
        reply_to(ended)
    }

    // An edit is done.
    fn edit(&mut self, session: u8, edit: Edit<'_>) -> Reply
        requires serves { Serves D.Disk self.old }
        requires shown { SetsShown (command_of edit) }
        ensures { Replies D.Disk self.old self.new session (command_of edit.entry) result }
    {
        let unnamed = Name::from_vec(Vec::new(self.alloc));
        match edit {
            Edit::Setattr { path, flags } => self.set(session, path, flags),
            Edit::Write {
                path,
                stream,
                at,
                bytes,
            } => {
                let what = StreamEdit::Write { from: at, bytes };
                self.edit_stream(session, path, name_or(stream, &unnamed), what)
            }
            Edit::Hwrite { handle, at, bytes } => self.hwrite(session, handle, at, bytes),
            Edit::Truncate { path, stream, size } => {
                let what = StreamEdit::Resize { size };
                self.edit_stream(session, path, name_or(stream, &unnamed), what)
            }
            Edit::Punch {
                path,
                stream,
                at,
                len,
            } => {
                let what = StreamEdit::Punch { from: at, len };
                self.edit_stream(session, path, name_or(stream, &unnamed), what)
            }
            Edit::Rmstream { path, name } => self.remove_stream(session, path, name),
            Edit::Create { path } => self.create(session, path, false),
            Edit::Mkdir { path } => self.create(session, path, true),
            Edit::Setsec { path, id } => self.secure(session, path, id),
        }
    }

    // Any other command is done, or refused.
    fn other(&mut self, session: u8, command: &Command) -> Reply
        requires serves { Serves D.Disk self.old }
        requires plain { (is_edit command.now && is_built command.now) ≡ false }
        ensures { Replies D.Disk self.old self.new session command.now result }
    {
        match answer(
            self.alloc,
            &mut self.mft,
            &mut self.last,
            &mut self.opens,
            &mut self.moment,
            session,
            command,
        ) {
            Ok(shown) => Reply::Ok(shown),
            Err(Stop::No(refused)) => Reply::No(refused),
            Err(Stop::Device) => Reply::Device,
        }
    }

    /// Does a command of a session and gives its reply, `Device` where the disk failed. It does not settle the disk.
    ///
    /// Whatever the command, what was done is a step of the machine, and leaves on the disk what the command is to leave (`applied`).
    /// Only an edit that was done writes (`still`), and behind the first one the volume is marked (`marks`). A device fault leaves it
    /// marked, or whole (`failed`).
    pub fn apply(&mut self, session: u8, command: &Command) -> Reply
        requires serves { Serves D.Disk self.old }
        requires shown { SetsShown command.now }
        ensures serves { result ≢ reply_is.Device → Serves D.Disk self.new }
        ensures goes_on { VolumeGoesOn D.Disk self.old self.new }
        ensures settled { D.settled (disk_under D.Disk self.new) ≡ D.settled (disk_under D.Disk self.old) }
        ensures still { result ≢ reply_is.Device → is_done_edit (Ok (session, command.now)) result ≡ false
            → VolumeStill D.Disk self.old self.new }
        ensures marks { result ≢ reply_is.Device → is_some (mark_of D.Disk self.new)
            ≡ (is_some (mark_of D.Disk self.old) || is_done_edit (Ok (session, command.now)) result) }
        ensures applied { result ≢ reply_is.Device → (first : VolumeView) (before : State) → Ready D.Disk first self.old before
            → Applied D.Disk first before session command.now result self.new }
        ensures failed { result ≡ reply_is.Device → (first : VolumeView) (before : State) → Ready D.Disk first self.old before
            → Failed D.Disk first before session command.now self.new }
        ensures quiet { result ≢ reply_is.Device → D.faults (disk_under D.Disk self.new) ≡ D.faults (disk_under D.Disk self.old) }
        ensures device { result ≡ reply_is.Device
            → Rose (D.faults (disk_under D.Disk self.old)) (D.faults (disk_under D.Disk self.new)) }
    {
        match Edit::of(command) {
            Some(edit) => self.edit(session, edit),
            None => self.other(session, command),
        }
    }

    /// Has the disk make stay what was written to it.
    ///
    /// # Errors
    ///
    /// `Device` where the disk failed; the volume is then not used any more.
    pub fn settle(&mut self) -> Result<(), CloseNo>
        requires serves { Serves D.Disk self.old }
        ensures serves { OnOk result (Serves D.Disk self.new) }
        ensures reads { VolumeReads D.Disk self.old self.new }
        ensures settled { OnOk result (D.settled (disk_under D.Disk self.new)
            ≡ settled_more (D.settled (disk_under D.Disk self.old)) (D.now (disk_under D.Disk self.old))) }
        ensures unsettled { OnErr result (D.settled (disk_under D.Disk self.new) ≡ D.settled (disk_under D.Disk self.old)) }
        ensures faults { CountsFault result (D.faults (disk_under D.Disk self.old)) (D.faults (disk_under D.Disk self.new)) }
    {
        match self.mft.settle() {
            Ok(()) => Ok(()),
            Err(_) => Err(CloseNo::Device),
        }
    }

    /// Closes the volume: where it was marked, clears the mark and settles. Where no edit was done, there is nothing to do.
    ///
    /// # Errors
    ///
    /// `Device` where the disk failed, which leaves the volume marked, or whole.
    pub fn close(&mut self) -> Result<(), CloseNo>
        requires serves { Serves D.Disk self.old }
        ensures goes_on { VolumeGoesOn D.Disk self.old self.new }
        ensures untouched { mark_of D.Disk self.old ≡ None → IsOk result × VolumeReads D.Disk self.old self.new }
        ensures closed { OnOk result ((first : VolumeView) (state : State) → Ready D.Disk first self.old state
            → Closed D.Disk first state self.old self.new) }
        ensures harmed { OnErr result ((first : VolumeView) (state : State) → Ready D.Disk first self.old state
            → IsHarmed first state.machine.tree (D.now (disk_under D.Disk self.new))) }
        ensures unsettled { OnErr result (D.settled (disk_under D.Disk self.new) ≡ D.settled (disk_under D.Disk self.old)) }
        ensures most { D.written (disk_under D.Disk self.new) ≤ D.written (disk_under D.Disk self.old) + 2 }
        ensures faults { CountsFault result (D.faults (disk_under D.Disk self.old)) (D.faults (disk_under D.Disk self.new)) }
    {
        let Some(flag) = self.mark else {
            return Ok(());
        };
        match self.mft.close_marked(&flag) {
            Ok(()) => Ok(()),
            Err(_) => Err(CloseNo::Device),
        }
    }
}
