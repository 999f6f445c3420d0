//! The index record of the root directory.
ghost use Rattle.std.specs.Prelude.{◌≡◌, ◌≤◌, ◌++◌, ◌∷◌, [], IfOk, OnOk, length};
ghost use Rattle.ntfs_def.specs.Fixup.{sequence_number};
ghost use Rattle.volume_format.specs.NodeBlock.{blank_node};
ghost use Rattle.record_bytes.specs.Entries.{last_entry};
ghost use Rattle.volume_format.specs.Planned.{IsRootRecord};
ghost use Rattle.volume_format.specs.RootIndex.{root_entries, root_entry, system_name};

use crate::system_values::name_value;
use index_node::{NodeForm, lay_out};
use ntfs_fixup::seal;
use record_bytes::{LAST_ENTRY, push_name_entry, put_front};
use std::alloc::{AllocError, Global};
use vol_bytes::Octets;

// An index record without entries.
fn blank_node(block: &mut [u8; 4096])
    ensures { block.new ≡ blank_node }
{
    let header = [
        0x49, 0x4E, 0x44, 0x58, 0x28, 0, 9, 0, 0, 0, 0, 0, 0, 0, 0, 0, 0, 0, 0, 0, 0, 0, 0, 0,
        0x28, 0, 0, 0, 0x28, 0, 0, 0, 0xE8, 0x0F, 0, 0, 0, 0, 0, 0, 0, 0, 0, 0, 0, 0, 0, 0, 0, 0,
        0, 0, 0, 0, 0, 0, 0, 0, 0, 0, 0, 0, 0, 0,
    ];
    *block = [0; 4096];
    put_front(block, &header);
}

// The entry of a record in the root, behind the others.
fn push_entry(
    alloc: Global,
    entries: &mut Vec<Octets>,
    number: u8,
    sequence: u8,
    directory: u8,
    letters: &[u8],
) -> Result<(), AllocError>
    requires { length letters.now ≤ 10 }
    ensures { OnOk result (entries.new.items
        ≡ entries.old.items ++ root_entry (system_name number sequence directory letters.now) ∷ []) }
{
    let name = name_value(alloc, 5, directory, letters)?;
    let mut entry = Vec::new(alloc);
    push_name_entry(&mut entry, number, sequence, &name)?;
    entries.push(Octets::from_vec(entry))?;
    Ok(())
}

// The last entry, behind the others.
fn push_last(alloc: Global, entries: &mut Vec<Octets>) -> Result<(), AllocError>
    ensures { OnOk result (entries.new.items ≡ entries.old.items ++ last_entry ∷ []) }
{
    let mut entry = Vec::new(alloc);
    entry.extend_from_slice(&LAST_ENTRY)?;
    entries.push(Octets::from_vec(entry))?;
    Ok(())
}

// The entries of the root, in name order.
fn root_entries(alloc: Global) -> Result<Vec<Octets>, AllocError>
    ensures { IfOk result (λ entries. entries.items ≡ root_entries) }
{
    let mut entries = Vec::new(alloc);
    push_entry(alloc, &mut entries, 4, 4, 0, b"$AttrDef")?;
    push_entry(alloc, &mut entries, 8, 8, 0, b"$BadClus")?;
    push_entry(alloc, &mut entries, 6, 6, 0, b"$Bitmap")?;
    push_entry(alloc, &mut entries, 7, 7, 0, b"$Boot")?;
    push_entry(alloc, &mut entries, 11, 11, 0x10, b"$Extend")?;
    push_entry(alloc, &mut entries, 2, 2, 0, b"$LogFile")?;
    push_entry(alloc, &mut entries, 0, 1, 0, b"$MFT")?;
    push_entry(alloc, &mut entries, 1, 1, 0, b"$MFTMirr")?;
    push_entry(alloc, &mut entries, 9, 9, 0, b"$Secure")?;
    push_entry(alloc, &mut entries, 10, 10, 0, b"$UpCase")?;
    push_entry(alloc, &mut entries, 3, 3, 0, b"$Volume")?;
    push_entry(alloc, &mut entries, 5, 5, 0x10, b".")?;
    push_last(alloc, &mut entries)?;
    Ok(entries)
}

/// The index record of the root, as stored.
pub fn fill_root_node(alloc: Global, block: &mut [u8; 4096]) -> Result<(), AllocError>
    ensures root { OnOk result (IsRootRecord block.new) }
    ensures number { OnOk result (sequence_number block.new ≡ 1) }
{
    blank_node(block);
    let entries = root_entries(alloc)?;
    match lay_out(block, NodeForm::Names, false, &entries) {
        Ok(()) => {}
        Err(_) => unreachable!(),
    }
    seal(block);
    Ok(())
}
