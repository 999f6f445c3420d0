//! Owners of clusters. The records are laid from the published layout; what is expected is what was laid.
use crate::laid::record;
use attr_view::RecordView;
use record_notes::Owners;
use std::test::Fail;

// One run of a cluster at 0.
const BOOT_TEXT: [u8; 4] = [0x11, 1, 0, 0];

// One run of all other clusters of the largest volume.
const REST_TEXT: [u8; 7] = [0x14, 0xFF, 0xFF, 0xFF, 0x03, 1, 0];

#[test]
fn owns_all_of_the_largest_volume(rt: HostRuntime) -> Result<(), Fail> {
    let clusters = 1 << 26;
    let mut owners = Owners::new(rt.alloc(), clusters)?;
    owners.note(rt.alloc(), 7, &RecordView::new(&record(&BOOT_TEXT))?)?;
    owners.note(rt.alloc(), 8, &RecordView::new(&record(&REST_TEXT))?)?;
    assert_eq!(rt; owners.first_wrong_cluster(), None);

    let mut bitmap = vec![in rt.alloc(); 0xFF; 1 << 23]?;
    assert_eq!(rt; owners.bitmap_len(1 << 24), 1 << 23);
    let without = [
        owners.first_wrong_bit(&bitmap, 0),
        owners.first_without_bit(1 << 23),
        owners.first_without_bit((1 << 23) - 1),
    ];
    assert_eq!(rt; without, [None, None, Some(clusters - 8)]);
    if let Some(last) = bitmap.last_mut() {
        *last = 0x7F;
    }
    assert_eq!(rt; owners.first_wrong_bit(&bitmap, 0), Some(clusters - 1));

    // the same clusters over and over are marked once
    for _again in 0..10_000 {
        owners.note(rt.alloc(), 9, &RecordView::new(&record(&REST_TEXT))?)?;
    }
    assert_eq!(rt; owners.first_wrong_cluster(), Some(1));
    Ok(())
}
