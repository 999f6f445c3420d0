//! The value of a root with an entry more.
ghost use Rattle.std.specs.Prelude.{◌≡◌, ◌+◌, ◌≤◌, ◌<◌, false, IfErr, IfNone, IfOk, IfSome, IsTrue, length};
ghost use Rattle.ntfs_def.specs.Attribute.{attributes};
ghost use Rattle.ntfs_def.specs.FileName.{is_name_key};
ghost use Rattle.ntfs_def.specs.KeyOrder.{fold_of, name_order};
ghost use Rattle.ntfs_def.specs.Node.{item_in, key_len};
ghost use Rattle.ntfs_def.specs.declared.index.NodeForm.TheVariants.{Names};
ghost use Rattle.index_node.specs.Edit.{IsShortEntry};
ghost use Rattle.file_record.specs.Held.{RecordHeld};
ghost use Rattle.root_puts.specs.GrownRoot.{CanGrowIn, GrowsIn, HasGrown, IsLeafPlace, IsLeafRoot};

use collation::{Collation, FileNameOrder};
use file_record::{FileNo, FileParts, PartPlace};
use index_node::{NodeView, seek_in};
use index_puts::grow_root;
use ntfs_def::{NodeForm, index_record};
use std::alloc::Global;
use upcase::UpCase;
use vol_bytes::{Octets, u16_at};

// The place of a key in a root that leads to no record; `None` where it leads to one, says no node, or has a key that is not valid.
fn seek_root<C: Collation>(root: &[u8], order: &C, key: &[u8]) -> Option<usize>
    requires { IsTrue (C.valid order.now key.now) }
    ensures some { IfSome result (IsLeafPlace (C.order order.now) root.now key.now) }
    ensures none { IfNone result (IsLeafRoot (C.valid order.now) root.now → ⊥) }
{
    let Ok(node) = NodeView::new(root, NodeForm::Names) else {
        return None;
    };
    let Some((place, _)) = seek_in(&node, order, key) else {
        return None;
    };
    match place.child() {
        Some(_) => None,
        None => Some(place.number()),
    }
}

// The key of an entry by itself.
fn key_of(entry: &[u8]) -> &[u8]
    requires { 16 + key_len entry.now 0 ≤ length entry.now }
    ensures { result.now ≡ (item_in entry.now).key }
{
    let len = u16_at(entry, index_record::KEY_LEN) as usize;
    &entry[index_record::KEY..index_record::KEY + len]
}

// A root with an entry more; `None` where it is none that leads to no record.
fn grown_root(
    alloc: Global,
    root: &[u8],
    upcase: UpCase,
    entry: &[u8],
) -> Result<Option<Octets>, FileNo>
    requires short { length root.now ≤ 1024 }
    requires entry { IsShortEntry Names false entry.now }
    requires key { IsTrue (is_name_key (item_in entry.now).key) }
    ensures grown { IfOk result (λ grown. IfSome grown (HasGrown (name_order (fold_of upcase)) root.now entry.now)) }
    ensures none { IfOk result (λ grown. IfNone grown (IsLeafRoot is_name_key root.now → ⊥)) }
    ensures memory { IfErr result (λ no. no ≡ FileNo.Memory) }
{
    let Some(place) = seek_root(root, &FileNameOrder { upcase }, key_of(entry)) else {
        return Ok(None);
    };
    let mut grown = Vec::from_slice(alloc, root)?;
    grow_root(&mut grown, place, entry)?;
    Ok(Some(Octets::from_vec(grown)))
}

/// The value of a root that stands at this place of a file, with an entry more; `None` where it leads to a record, is no root, or its
/// record has fewer free bytes than the entry.
///
/// # Errors
///
/// `Memory`.
pub fn grown_at(
    alloc: Global,
    file: &FileParts,
    place: PartPlace,
    upcase: UpCase,
    entry: &[u8],
) -> Result<Option<Octets>, FileNo>
    requires place { RecordHeld file.now place.record (λ held. place.attribute < length (attributes held.block)) }
    requires entry { IsShortEntry Names false entry.now }
    requires key { IsTrue (is_name_key (item_in entry.now).key) }
    ensures grown { IfOk result (λ grown. IfSome grown (λ bytes. RecordHeld file.now place.record (λ held.
        GrowsIn (name_order (fold_of upcase)) held.block place.attribute entry.now bytes))) }
    ensures none { IfOk result (λ grown. IfNone grown (RecordHeld file.now place.record (λ held.
        CanGrowIn is_name_key held.block place.attribute (length entry.now) → ⊥))) }
    ensures memory { IfErr result (λ no. no ≡ FileNo.Memory) }
{
    let held = &file.records()[place.record];
    if entry.len() > held.free_bytes() {
        return Ok(None);
    }
    match held.view().attr(place.attribute).value() {
        Some(root) => grown_root(alloc, root, upcase, entry),
        None => Ok(None),
    }
}
