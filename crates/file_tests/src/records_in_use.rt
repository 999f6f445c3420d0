//! Records in use.
use record_notes::Used;
use std::test::Fail;

#[test]
fn compares_the_largest_table(rt: HostRuntime) -> Result<(), Fail> {
    let mut used = Used::new(rt.alloc(), 1 << 22)?;
    used.note((1 << 22) - 1);
    assert_eq!(rt; used.bitmap_len(), 1 << 19);
    let mut bitmap = vec![in rt.alloc(); 0; 1 << 19]?;
    assert_eq!(rt; used.first_wrong_bit(&bitmap, 0), Some((1 << 22) - 1));
    if let Some(last) = bitmap.last_mut() {
        *last = 0x80;
    }
    assert_eq!(rt; used.first_wrong_bit(&bitmap, 0), None);
    Ok(())
}
