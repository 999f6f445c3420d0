//! A run text that is cut: where its first clusters end, and the bytes from there on.
ghost use Rattle.std.specs.Prelude.{◌≡◌, ◌+◌, ◌^◌, ◌<◌, ◌≤◌, drop, length};
ghost use Rattle.vol_bytes.specs.Field.{SameOutside};
ghost use Rattle.ntfs_def.specs.Runs.{MeansRuns, length_width, run_length, run_width};
ghost use Rattle.extent_edits.specs.Texts.{ClearsFrom, CutsText, EndsAt};

use byteorder::{ByteOrder, LittleEndian};
use data_runs::Run;

// The bytes of the length of the run at `at`.
fn length_width(text: &[u8], at: usize) -> usize
    requires { at < length text.now }
    ensures { result ≡ length_width (drop at text.now) }
{
    (text[at] % 16) as usize
}

/// The bytes of the run at `at`.
pub fn run_width(text: &[u8], at: usize) -> usize
    requires { at < length text.now }
    ensures { result ≡ run_width (drop at text.now) }
{
    1 + length_width(text, at) + (text[at] / 16) as usize
}

// Where the first `count` clusters end in a text: the place of the run behind those that are whole, and how many clusters of it.
fn end_of(text: &[u8], runs: &[Run], count: u64) -> (usize, u64)
    requires { MeansRuns text.now runs.now }
    ensures { EndsAt text.now runs.now count result.0 result.1 }
{
    let mut at = 0;
    let mut left = count;
    let mut whole = 0;
    'runs: while whole < runs.len() {
        if left < runs[whole].len {
            return (at, left);
        }
        left -= runs[whole].len;
        at += run_width(text, at);
        whole += 1;
    }
    (at, 0)
}

// Gives the run at `at` so many clusters, in as many bytes as its length has.
fn put_clusters(text: &mut [u8], at: usize, clusters: u64)
    requires inside { at + run_width (drop at text.old) ≤ length text.old }
    requires some { 0 < length_width (drop at text.old) }
    requires narrow { length_width (drop at text.old) ≤ 8 }
    requires fits { clusters < 256 ^ length_width (drop at text.old) }
    ensures clusters { run_length (drop at text.new) ≡ clusters }
    ensures rest { SameOutside text.old text.new (at + 1) (at + (1 + length_width (drop at text.old))) }
{
    let width = length_width(text, at);
    LittleEndian::write_uint(&mut text[at + 1..], clusters, width);
}

// Puts zeros in place of all bytes from `at` on.
fn clear_from(text: &mut [u8], at: usize)
    requires { at ≤ length text.old }
    ensures { ClearsFrom text.old text.new at }
{
    text[at..].fill(0);
}

/// Cuts a text of these runs behind the first `count` clusters, in place. The bytes of the runs in front of the end stay; the run in which
/// it lies has its new length in as many bytes; and all behind them are zeros.
pub fn cut_text(text: &mut [u8], runs: &[Run], count: u64)
    requires { MeansRuns text.old runs.now }
    ensures { CutsText text.old text.new runs.now count }
{
    let (at, left) = end_of(text, runs, count);
    if left == 0 {
        clear_from(text, at);
        return;
    }
    put_clusters(text, at, left);
    let end = at + run_width(text, at);
    clear_from(text, end);
}
