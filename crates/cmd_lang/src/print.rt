//! Replies, printed.
ghost use Rattle.std.specs.Prelude.{◌≢◌, ◌+◌, ◌++◌, ◌<◌, ◌≤◌, ◌^◌, flat_map, length, OnErr, OnOk};
ghost use Rattle.vol_disk.specs.Count.{CountsFault};
ghost use Rattle.vol_disk.specs.Stream.{IsAppended, IsAppendedPart};
ghost use Rattle.cmd_lang.specs.Output.{output, Prints};
ghost use Rattle.cmd_lang.specs.Printed.{data_text, answer_text, link_text, listed_text, made_text, name_word, stream_text, text_of};
ghost use Rattle.tree_model.specs.declared.reply.Reply.TheVariants as reply_is;

use crate::held::{Held, flush, put};
use crate::line::{
    kind_text, made_line, number_front, refusal_line, short_line, stream_word, tag_front,
};
use crate::pieces::{put_bytes, put_name, put_path};
use tree_model::{Answer, Listed, Reply, ShownLink, ShownStream};
use vol_disk::{Failed, Sink};

// A line of `ls`.
fn put_listed<K: Sink>(out: &mut K, held: &mut Held, listed: &Listed) -> Result<(), Failed>
    ensures { Prints (output K.Sink out.old held.old.items) (output K.Sink out.new held.new.items) (listed_text listed.now) result }
{
    put(out, held, kind_text(listed.dir))?;
    put(out, held, b" ")?;
    put_name(out, held, listed.name.as_slice())?;
    put(out, held, b"\n")
}

// A line of `links`.
fn put_link<K: Sink>(out: &mut K, held: &mut Held, link: &ShownLink) -> Result<(), Failed>
    ensures { Prints (output K.Sink out.old held.old.items) (output K.Sink out.new held.new.items) (link_text link.now) result }
{
    put(
        out,
        held,
        number_front(b"link", u64::from(link.space)).as_slice(),
    )?;
    put(out, held, b" ")?;
    put_path(out, held, link.path.as_slice())?;
    put(out, held, b"\n")
}

// The word for the name of a stream, where it has one.
fn put_name_word<K: Sink>(out: &mut K, held: &mut Held, units: &[u16]) -> Result<(), Failed>
    ensures { Prints (output K.Sink out.old held.old.items) (output K.Sink out.new held.new.items) (name_word units.now) result }
{
    if units.is_empty() {
        return Ok(());
    }
    put(out, held, b" ")?;
    put_name(out, held, units)
}

// A line of `streams`.
fn put_stream<K: Sink>(out: &mut K, held: &mut Held, stream: &ShownStream) -> Result<(), Failed>
    ensures { Prints (output K.Sink out.old held.old.items) (output K.Sink out.new held.new.items) (stream_text stream.now) result }
{
    put(
        out,
        held,
        number_front(stream_word(stream.packed), stream.size).as_slice(),
    )?;
    put_name_word(out, held, stream.name.as_slice())?;
    put(out, held, b"\n")
}

fn put_listing<K: Sink>(out: &mut K, held: &mut Held, lines: &[Listed]) -> Result<(), Failed>
    ensures { Prints (output K.Sink out.old held.old.items) (output K.Sink out.new held.new.items) (flat_map listed_text lines.now) result }
{
    'lines: for line in lines {
        put_listed(out, held, line)?;
    }
    Ok(())
}

fn put_links<K: Sink>(out: &mut K, held: &mut Held, lines: &[ShownLink]) -> Result<(), Failed>
    ensures { Prints (output K.Sink out.old held.old.items) (output K.Sink out.new held.new.items) (flat_map link_text lines.now) result }
{
    'lines: for line in lines {
        put_link(out, held, line)?;
    }
    Ok(())
}

fn put_streams<K: Sink>(out: &mut K, held: &mut Held, lines: &[ShownStream]) -> Result<(), Failed>
    ensures { Prints (output K.Sink out.old held.old.items) (output K.Sink out.new held.new.items) (flat_map stream_text lines.now) result }
{
    'lines: for line in lines {
        put_stream(out, held, line)?;
    }
    Ok(())
}

// A line of a name and bytes.
fn put_data<K: Sink>(out: &mut K, held: &mut Held, name: &[u8], bytes: &[u8]) -> Result<(), Failed>
    requires { length name.now ≤ 256 }
    ensures { Prints (output K.Sink out.old held.old.items) (output K.Sink out.new held.new.items) (data_text name.now bytes.now) result }
{
    put(out, held, name)?;
    put(out, held, b" ")?;
    put_bytes(out, held, bytes)?;
    put(out, held, b"\n")
}

// The lines before `ok`.
fn put_answer<K: Sink>(out: &mut K, held: &mut Held, answer: &Answer) -> Result<(), Failed>
    ensures { Prints (output K.Sink out.old held.old.items) (output K.Sink out.new held.new.items) (answer_text answer.now) result }
{
    match answer {
        Answer::List(lines) => put_listing(out, held, lines.as_slice()),
        Answer::Links(lines) => put_links(out, held, lines.as_slice()),
        Answer::Streams(lines) => put_streams(out, held, lines.as_slice()),
        Answer::Data(bytes) => put_data(out, held, b"data", bytes.as_slice()),
        Answer::Sd(bytes) => put_data(out, held, b"sd", bytes.as_slice()),
        Answer::ObjectId(bytes) => put_data(out, held, b"objid", bytes.as_slice()),
        Answer::Reparse { tag, bytes } => put_data(
            out,
            held,
            tag_front(*tag).as_slice(),
            bytes.as_slice(),
        ),
        short => put(out, held, short_line(short).as_slice()),
    }
}

// The text of a reply.
fn put_reply<K: Sink>(out: &mut K, held: &mut Held, reply: &Reply) -> Result<(), Failed>
    ensures { Prints (output K.Sink out.old held.old.items) (output K.Sink out.new held.new.items) (text_of reply.now) result }
{
    match reply {
        Reply::Ok(answer) => {
            put_answer(out, held, answer)?;
            put(out, held, b"ok\n")
        }
        Reply::No(no) => put(out, held, refusal_line(*no).as_slice()),
        Reply::Device => Ok(()),
    }
}

/// Prints a reply: its lines and `ok`, or the line of its refusal. It takes no memory.
/// A device fault has no text, so a caller does not print one.
///
/// # Errors
///
/// Where the sink failed; it then took a part of the text from its front.
pub fn print_reply<K: Sink>(reply: &Reply, out: &mut K) -> Result<(), Failed>
    requires { reply.now ≢ reply_is.Device }
    ensures text { OnOk result (IsAppended (K.got out.old) (text_of reply.now) (K.got out.new)) }
    ensures part { OnErr result (IsAppendedPart (K.got out.old) (text_of reply.now) (K.got out.new)) }
    ensures faults { CountsFault result (K.faults out.old) (K.faults out.new) }
{
    let mut held = Held::new();
    put_reply(out, &mut held, reply)?;
    flush(out, &mut held)
}

// The text of a run of generated lines.
fn put_made<K: Sink>(
    out: &mut K,
    held: &mut Held,
    oks: u64,
    nos: u64,
    answer: &Answer,
) -> Result<(), Failed>
    requires { oks + nos < 2 ^ 64 }
    ensures { Prints (output K.Sink out.old held.old.items) (output K.Sink out.new held.new.items)
        (made_text (oks + nos) oks nos ++ answer_text answer.now) result }
{
    put(out, held, made_line(oks + nos, oks, nos).as_slice())?;
    put_answer(out, held, answer)
}

/// Prints what a run of generated lines comes to: how many there were, how many of them were done and how many refused, and the
/// lines of an answer, without `ok`. It takes no memory.
///
/// # Errors
///
/// Where the sink failed; it then took a part of the text from its front.
pub fn print_made<K: Sink>(oks: u64, nos: u64, answer: &Answer, out: &mut K) -> Result<(), Failed>
    requires { oks + nos < 2 ^ 64 }
    ensures text { OnOk result (IsAppended (K.got out.old) (made_text (oks + nos) oks nos ++ answer_text answer.now) (K.got out.new)) }
    ensures part { OnErr result (IsAppendedPart (K.got out.old) (made_text (oks + nos) oks nos ++ answer_text answer.now) (K.got out.new)) }
    ensures faults { CountsFault result (K.faults out.old) (K.faults out.new) }
{
    let mut held = Held::new();
    put_made(out, &mut held, oks, nos, answer)?;
    flush(out, &mut held)
}
