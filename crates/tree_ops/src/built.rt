//! Which commands are built that edit nothing.
ghost use Rattle.std.specs.Prelude.{◌≡◌, ◌&&◌, None, IfSome, false, not};
ghost use Rattle.tree_model.specs.Refusals.{is_edit};
ghost use Rattle.tree_model.specs.Staging.{is_built};
ghost use Rattle.tree_ops.specs.Wanted.{command_by};

use tree_model::{Access, Command, Path};
use tree_read::Shown;
use vol_bytes::Name;

/// A stream that is to be opened: where it is, and what is asked and shared.
#[derive(Clone, Copy)]
pub struct Opening<'c> {
    pub path: &'c Path,
    /// The unnamed stream where none is named.
    pub stream: &'c Option<Name>,
    pub access: Access,
    pub share: Access,
}

/// A command that is built, by how it is done.
#[derive(Clone, Copy)]
pub enum Built<'c> {
    Df,
    /// Something is shown of the file that a path leads to.
    Shown(&'c Path, Shown<'c>),
    /// The moment is set that edits write.
    Time(u64),
    Open(Opening<'c>),
    /// Bytes of a range are shown of the stream of a handle.
    Hread { handle: u32, at: u64, len: u64 },
    /// A handle is given back.
    Close(u32),
    /// The security descriptor of an id is shown.
    Sd(u32),
}

impl<'c> Built<'c> {
    /// How a command is done that is no edit, `None` where it is not built. `Edit::of` has those that edit; no other place says which are
    /// built.
    pub fn of(command: &'c Command) -> Option<Built<'c>>
        ensures is { IfSome result (λ built. command.now ≡ command_by built) }
        ensures none { result ≡ None → (is_built command.now && not (is_edit command.now)) ≡ false }
        ensures reads { IfSome result (λ _. is_edit command.now ≡ false) }
    {
        match command {
            Command::Df => Some(Built::Df),
            Command::Ls { path } => Some(Built::Shown(path, Shown::Ls)),
            Command::Stat { path } => Some(Built::Shown(path, Shown::Stat)),
            Command::Links { path } => Some(Built::Shown(path, Shown::Links)),
            Command::Cat { path, stream } => Some(Built::Shown(path, Shown::Cat { stream })),
            Command::Read {
                path,
                stream,
                at,
                len,
            } => {
                let what = Shown::Read {
                    stream,
                    at: *at,
                    len: *len,
                };
                Some(Built::Shown(path, what))
            }
            Command::Streams { path } => Some(Built::Shown(path, Shown::Streams)),
            Command::Attr { path } => Some(Built::Shown(path, Shown::Attr)),
            Command::Sec { path } => Some(Built::Shown(path, Shown::Sec)),
            Command::Reparse { path } => Some(Built::Shown(path, Shown::Reparse)),
            Command::Objid { path } => Some(Built::Shown(path, Shown::Objid)),
            Command::Time { now } => Some(Built::Time(*now)),
            Command::Open {
                path,
                stream,
                access,
                share,
            } => {
                let opening = Opening {
                    path,
                    stream,
                    access: *access,
                    share: *share,
                };
                Some(Built::Open(opening))
            }
            Command::Hread { handle, at, len } => Some(Built::Hread {
                handle: *handle,
                at: *at,
                len: *len,
            }),
            Command::Close { handle } => Some(Built::Close(*handle)),
            Command::Sd { id } => Some(Built::Sd(*id)),
            _ => None,
        }
    }
}
