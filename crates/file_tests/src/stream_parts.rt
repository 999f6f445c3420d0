//! Streams noted of the largest volume. The records are laid from the published layout; what is expected is what was laid.
use crate::laid::record;
use attr_view::RecordView;
use ntfs_def::Spot;
use record_notes::Streams;
use std::test::Fail;

// One run of 10,000 clusters at 100.
const SOME_TEXT: [u8; 5] = [0x12, 0x10, 0x27, 100, 0];

// A run of 20,000 clusters at 50, and one of as many more that is a hole.
const MORE_TEXT: [u8; 8] = [0x12, 0x20, 0x4E, 50, 0x02, 0x20, 0x4E, 0];

// Each cluster lies where the first part that holds it says, however many parts hold it too.
#[test]
fn the_first_part_tells(rt: HostRuntime) -> Result<(), Fail> {
    let mut streams = Streams::new(rt.alloc(), 512, 1 << 26, 1 << 22)?;
    streams.note(rt.alloc(), 6, &RecordView::new(&record(&SOME_TEXT))?)?;
    for _again in 0..10_000 {
        streams.note(rt.alloc(), 6, &RecordView::new(&record(&MORE_TEXT))?)?;
    }
    streams.note(rt.alloc(), 7, &RecordView::new(&record(&MORE_TEXT))?)?;
    // 16,384 is behind the last that is needed
    let bits = &streams.cluster_bits;
    let first = bits.spot(9_999) == Spot::At(10_099) && bits.spot(10_000) == Spot::At(10_050);
    assert!(rt; first && bits.spot(16_384) == Spot::Outside);
    Ok(())
}
