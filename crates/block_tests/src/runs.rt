//! Run lists: texts of `mkntfs` and of the documentation, read and written; a long list that is changed and cut.
use data_runs::{Run, RunList, RunNo, Spot, decode, read_runs};
use std::test::Fail;

// A text, the runs that it means, and the text that is written of them.
type Row = (&'static [u8], &'static [Run], &'static [u8]);

// The second row is the example of a fragmented file in the Linux-NTFS documentation, "Data Runs"; the last two are of a volume that
// `mkntfs -s 512 -c 512` made in 16 MB: those of `$LogFile` and of the bad clusters, as `ntfsinfo -v` prints them.
#[rattlefmt::skip]
const ROWS: [Row; 7] = [
    (
        b"\x11\x30\x60\x21\x10\x00\x01\x11\x20\xE0\x00",
        &[Run { len: 0x30, lcn: Some(0x60) }, Run { len: 0x10, lcn: Some(0x160) }, Run { len: 0x20, lcn: Some(0x140) }],
        b"\x11\x30\x60\x21\x10\x00\x01\x11\x20\xE0\x00",
    ),
    (
        b"\x31\x38\x73\x25\x34\x32\x14\x01\xE5\x11\x02\x31\x42\xAA\x00\x03\x00",
        &[Run { len: 0x38, lcn: Some(0x34_2573) }, Run { len: 0x114, lcn: Some(0x36_3758) }, Run { len: 0x42, lcn: Some(0x39_3802) }],
        b"\x31\x38\x73\x25\x34\x32\x14\x01\xE5\x11\x02\x31\x42\xAA\x00\x03\x00",
    ),
    (
        b"\x11\x30\x20\x01\x60\x11\x10\x30\x00",
        &[Run { len: 0x30, lcn: Some(0x20) }, Run { len: 0x60, lcn: None }, Run { len: 0x10, lcn: Some(0x50) }],
        b"\x11\x30\x20\x01\x60\x11\x10\x30\x00",
    ),
    (b"\x11\x80\x20\x00", &[Run { len: 0x80, lcn: Some(0x20) }], b"\x12\x80\x00\x20\x00"),
    (b"\x00\x91", &[], b"\x00"),
    (b"\x22\x00\x10\x07\x40\x00\x00\x00", &[Run { len: 0x1000, lcn: Some(0x4007) }], b"\x22\x00\x10\x07\x40\x00"),
    (b"\x02\xFF\x7F\x00\x00\x00\x00\x00", &[Run { len: 0x7FFF, lcn: None }], b"\x02\xFF\x7F\x00"),
];

// Whether a list is written so, and nothing behind it; at most 32 bytes.
fn is_written(list: &RunList, text: &[u8]) -> bool {
    let mut out = [0xEE; 32];
    let len = list.encoded_len();
    if len > 32 || list.encode_into(&mut out) != len || len != text.len() {
        return false;
    }
    out.starts_with(text) && out.get(len) == Some(&0xEE)
}

#[test]
fn texts_mean_their_runs(rt: HostRuntime) -> Result<(), Fail> {
    for (text, runs, written) in ROWS {
        let list = decode(rt.alloc(), text)?;
        assert!(rt;
            list.runs() == runs && is_written(&list, written),
            "{text:?}"
        );
    }
    Ok(())
}

// Puts a run in place of as many clusters, or a hole where it has no place; false where they are not all inside.
fn put(list: &mut RunList, vcn: u64, run: Run) -> Result<bool, RunNo> {
    let total = list.total_clusters();
    if vcn > total || run.len > total - vcn {
        return Ok(false);
    }
    match run.lcn {
        None => list.make_hole(vcn, run.len)?,
        Some(lcn) => {
            if lcn > 1 << 61 || run.len > 1 << 61 {
                return Ok(false);
            }
            list.fill_hole(vcn, run)?;
        }
    }
    Ok(true)
}

const HOLE: Run = Run { len: 1, lcn: None };

#[rattlefmt::skip]
const NEXT: Run = Run { len: 1, lcn: Some(10_001) };

// 10,000 runs of one cluster, two clusters apart: the gaps are no clusters of the stream, so none joins.
#[test]
fn long_lists_change(rt: HostRuntime) -> Result<(), Fail> {
    let mut text = Vec::new(rt.alloc());
    for _ in 0..10_000 {
        text.extend_from_slice(b"\x11\x01\x02")?;
    }
    text.push(0)?;
    let means = read_runs(rt.alloc(), &text)?.is_some();
    let mut list = decode(rt.alloc(), &text)?;
    let few = list.split_bytes(15_000) == 4_999;
    // a hole, and the place of a cluster that goes on from the one before
    let done = put(&mut list, 5_000, HOLE)? && put(&mut list, 5_000, NEXT)?;
    let joined = list.runs().len() == 9_999 && list.spot(5_000) == Spot::At(10_001);
    assert!(rt; means && few && done && joined);
    list.cut_at(5_001);
    assert!(rt; list.total_clusters() == 5_001 && list.run_from(5_000).is_some());
    Ok(())
}
