//! Whole texts into a sink.
ghost use Rattle.std.specs.Prelude.{◌≡◌, ◌≤◌, OnOk, OnErr};
ghost use Rattle.vol_disk.specs.Count.{CountsFault};
ghost use Rattle.vol_disk.specs.Stream.{IsAppended, IsAppendedPart};

use crate::{Failed, Sink};

/// Writes all of `text`, in as many pieces as the sink wants. Where it fails, the sink took a part
/// of the text from its front.
pub fn write_all<K: Sink>(out: &mut K, text: &[u8]) -> Result<(), Failed>
    ensures got { OnOk result (IsAppended (K.got out.old) text.now (K.got out.new)) }
    ensures part { OnErr result (IsAppendedPart (K.got out.old) text.now (K.got out.new)) }
    ensures faults { CountsFault result (K.faults out.old) (K.faults out.new) }
{
    let mut done = 0;
    while done < text.len() {
        done += out.write(&text[done..])?;
    }
    Ok(())
}
