//! The value of a root with an entry less.
ghost use Rattle.std.specs.Prelude.{◌≡◌, ◌<◌, ◌≤◌, IfErr, IfNone, IfOk, IfSome, IsTrue, length};
ghost use Rattle.ntfs_def.specs.Attribute.{attributes};
ghost use Rattle.ntfs_def.specs.FileName.{is_name_key};
ghost use Rattle.ntfs_def.specs.KeyOrder.{fold_of, name_order};
ghost use Rattle.file_record.specs.Held.{RecordHeld};
ghost use Rattle.root_takes.specs.ShrunkRoot.{CanShrinkIn, HasShrunk, IsHitRoot, IsLeafHit, ShrinksIn};

use collation::{Collation, FileNameOrder};
use file_record::{FileNo, FileParts, PartPlace};
use index_puts::seek_block;
use index_takes::shrink_root;
use std::alloc::Global;
use upcase::UpCase;
use vol_bytes::Octets;

// The place of the entry of a key in a root that leads to no record; `None` where it has none, leads to one, says no node, or has a key
// that is not valid.
fn hit_in_root<C: Collation>(root: &[u8], order: &C, key: &[u8]) -> Option<usize>
    requires { IsTrue (C.valid order.now key.now) }
    ensures some { IfSome result (IsLeafHit (C.order order.now) root.now key.now) }
    ensures none { IfNone result (IsHitRoot (C.order order.now) (C.valid order.now) root.now key.now → ⊥) }
{
    let Some(spot) = seek_block(root, order, key) else {
        return None;
    };
    if !spot.hit {
        return None;
    }
    match spot.child {
        Some(_) => None,
        None => Some(spot.place),
    }
}

// A root with the entry of a key less; `None` where it is none that leads to no record and has one.
fn shrunk_root(
    alloc: Global,
    root: &[u8],
    upcase: UpCase,
    key: &[u8],
) -> Result<Option<Octets>, FileNo>
    requires short { length root.now ≤ 1024 }
    requires key { IsTrue (is_name_key key.now) }
    ensures shrunk { IfOk result (λ shrunk. IfSome shrunk (HasShrunk (name_order (fold_of upcase)) root.now key.now)) }
    ensures none { IfOk result (λ shrunk. IfNone shrunk (IsHitRoot (name_order (fold_of upcase)) is_name_key root.now key.now → ⊥)) }
    ensures memory { IfErr result (λ no. no ≡ FileNo.Memory) }
{
    let Some(place) = hit_in_root(root, &FileNameOrder { upcase }, key) else {
        return Ok(None);
    };
    let mut shrunk = Vec::from_slice(alloc, root)?;
    shrink_root(&mut shrunk, place);
    Ok(Some(Octets::from_vec(shrunk)))
}

/// The value of a root that stands at this place of a file, with the entry of a key less; `None` where it is no root, leads to a record, or
/// has no such entry.
///
/// # Errors
///
/// `Memory`.
pub fn shrunk_at(
    alloc: Global,
    file: &FileParts,
    place: PartPlace,
    upcase: UpCase,
    key: &[u8],
) -> Result<Option<Octets>, FileNo>
    requires place { RecordHeld file.now place.record (λ held. place.attribute < length (attributes held.block)) }
    requires key { IsTrue (is_name_key key.now) }
    ensures shrunk { IfOk result (λ shrunk. IfSome shrunk (λ bytes. RecordHeld file.now place.record (λ held.
        ShrinksIn (name_order (fold_of upcase)) held.block place.attribute key.now bytes))) }
    ensures none { IfOk result (λ shrunk. IfNone shrunk (RecordHeld file.now place.record (λ held.
        CanShrinkIn (name_order (fold_of upcase)) is_name_key held.block place.attribute key.now → ⊥))) }
    ensures memory { IfErr result (λ no. no ≡ FileNo.Memory) }
{
    let held = &file.records()[place.record];
    match held.view().attr(place.attribute).value() {
        Some(root) => shrunk_root(alloc, root, upcase, key),
        None => Ok(None),
    }
}
