//! A buffer in front of a sink, so that the sink gets few pieces.
ghost use Rattle.std.specs.Prelude.{◌≡◌, ◌+◌, ◌≤◌, [], ◌++◌, length, OnOk};
ghost use Rattle.arrayvec.specs.ArrayVec.{array_vec_len};
ghost use Rattle.cmd_lang.specs.Output.{output, Prints};

use arrayvec::ArrayVec;
use vol_disk::{Failed, Sink, write_all};

/// How many bytes are held back at most: the space is filled anew for each reply, most of which are short.
const ROOM: usize = 2048;

/// Bytes that the sink did not get yet.
pub type Held = ArrayVec<u8, 2048>;

/// Hands the sink all that is held back.
pub fn flush<K: Sink>(out: &mut K, held: &mut Held) -> Result<(), Failed>
    ensures prints { Prints (output K.Sink out.old held.old.items) (output K.Sink out.new held.new.items) [] result }
    ensures items { OnOk result (held.new.items ≡ []) }
    ensures len { OnOk result (array_vec_len held.new ≡ 0) }
{
    write_all(out, held.as_slice())?;
    held.clear();
    Ok(())
}

// Holds a piece back that there is room for.
fn hold(held: &mut Held, piece: &[u8])
    requires { array_vec_len held.old + length piece.now ≤ 2048 }
    ensures { held.new.items ≡ held.old.items ++ piece.now }
{
    held.try_extend_from_slice(piece).unwrap();
}

/// Prints a short piece.
pub fn put<K: Sink>(out: &mut K, held: &mut Held, piece: &[u8]) -> Result<(), Failed>
    requires { length piece.now ≤ 2048 }
    ensures { Prints (output K.Sink out.old held.old.items) (output K.Sink out.new held.new.items) piece.now result }
{
    if piece.len() > ROOM - held.len() {
        flush(out, held)?;
        hold(held, piece);
        return Ok(());
    }
    hold(held, piece);
    Ok(())
}
