//! A record that is made, attribute by attribute.
ghost use Rattle.std.specs.Prelude.{◌≡◌, ◌≢◌, ◌≤◌, ◌<◌, ◌+◌, ◌*◌, ◌^◌, ◌%◌, ◌++◌, Some, drop, IfOk, OnErr, OnOk, length};
ghost use Rattle.attr_view.specs.Edit.{Inserts, SetsHeader};
ghost use Rattle.ntfs_def.specs.declared.kinds.TheConstants.{END};
ghost use Rattle.ntfs_def.specs.Attribute.{attributes};
ghost use Rattle.ntfs_def.specs.Record.{used_size};
ghost use Rattle.ntfs_def.specs.Runs.{EndsInReach};
ghost use Rattle.ntfs_def.specs.Shape.{HasShape, IsOneAttribute};
ghost use Rattle.ntfs_def.specs.Units.{wide};
ghost use Rattle.volume_def.specs.Files.{Value};
ghost use Rattle.record_bytes.specs.AttributeBytes.{one_run, resident_len, runs_at};
ghost use Rattle.record_bytes.specs.NewRecord.{AddsPart, IsEmptyRecord, IsNewRecord, blank_block, blank_record};

use crate::attribute::{non_resident, push_wide, resident};
use attr_view::{RecordHeader, RecordMut};
use ntfs_def::record_header::{IN_USE, NEXT_ID, NUMBER};
use ntfs_def::{Run, Sizes};
use std::alloc::{AllocError, Global};
use vol_bytes::{put_u32, u16_at};

/// Puts a header of 64 bytes over the first bytes of a block.
pub fn put_front(block: &mut [u8], header: &[u8; 64])
    requires { 64 ≤ length block.old }
    ensures { block.new ≡ header.now ++ drop 64 block.old }
{
    block[..64].copy_from_slice(header);
}

/// A record without attributes, in use, and with one name.
pub fn blank(block: &mut [u8; 1024], number: u8, sequence: u8, flags: u8)
    requires odd { flags % 2 ≡ 1 }
    ensures bytes { block.new ≡ blank_block number sequence flags }
    ensures new { IsNewRecord number (Some (blank_record number sequence flags)) block.new }
    ensures used { used_size block.new ≡ 0x40 }
{
    let header = [
        0x46, 0x49, 0x4C, 0x45, 0x30, 0, 3, 0, 0, 0, 0, 0, 0, 0, 0, 0, sequence, 0, 1, 0, 0x38, 0,
        flags, 0, 0x40, 0, 0, 0, 0, 4, 0, 0, 0, 0, 0, 0, 0, 0, 0, 0, 0, 0, 0, 0, number, 0, 0, 0,
        0, 0, 0, 0, 0, 0, 0, 0, 0xFF, 0xFF, 0xFF, 0xFF, 0, 0, 0, 0,
    ];
    *block = [0; 1024];
    put_front(block, &header);
}

// Sets the fields of a record's header that an owner chooses.
fn set_fields(block: &mut [u8; 1024], header: RecordHeader)
    requires { HasShape block.old (length (attributes block.old)) }
    ensures { SetsHeader block.old block.new header }
{
    match RecordMut::new(block) {
        Ok(mut record) => record.set_header(header),
        Err(_) => unreachable!(),
    }
}

/// A record without attributes, of this number and header. Its update sequence number is 0.
pub fn lay_record(block: &mut [u8; 1024], number: u32, header: RecordHeader)
    ensures { IsEmptyRecord number header block.new }
{
    blank(block, 0, 0, IN_USE as u8);
    put_u32(block, NUMBER, number);
    set_fields(block, header);
}

// Puts an attribute behind all others.
fn add(block: &mut [u8; 1024], attr: &[u8])
    requires shape { HasShape block.old (length (attributes block.old)) }
    requires one { IsOneAttribute attr.now }
    requires room { used_size block.old + length attr.now ≤ 1024 }
    ensures { Inserts block.old block.new attr.now (length (attributes block.old)) }
{
    let mut record = match RecordMut::new(block) {
        Ok(record) => record,
        Err(_) => unreachable!(),
    };
    let end = record.view().count();
    match record.insert(end, attr) {
        Ok(()) => {}
        Err(_) => unreachable!(),
    }
}

// The units of a name in bytes.
#[tactic(auto, using(crate::proofs::NewRecordLaws::wide_laws))]
fn wide(alloc: Global, letters: &[u8]) -> Result<Vec<u8>, AllocError>
    ensures bytes { IfOk result (λ bytes. bytes.items ≡ wide letters.now) }
    ensures len { IfOk result (λ bytes. length bytes.items ≡ 2 * length letters.now) }
{
    let mut bytes = Vec::new(alloc);
    push_wide(&mut bytes, letters)?;
    Ok(bytes)
}

/// Puts a resident attribute behind the others, with the next id.
pub fn add_value(
    alloc: Global,
    block: &mut [u8; 1024],
    kind: u32,
    letters: &[u8],
    value: &[u8],
) -> Result<(), AllocError>
    requires shape { HasShape block.old (length (attributes block.old)) }
    requires kind { kind ≢ END }
    requires name { length letters.now ≤ 255 }
    requires value { length value.now ≤ 900 }
    requires room { used_size block.old + resident_len (wide letters.now) value.now ≤ 1024 }
    ensures shape { OnOk result (HasShape block.new (length (attributes block.new))) }
    ensures used { OnOk result (used_size block.new ≡ used_size block.old + resident_len (wide letters.now) value.now) }
    ensures adds { OnOk result (AddsPart block.old block.new kind (wide letters.now) (Value value.now)) }
    ensures kept { OnErr result (block.new ≡ block.old) }
{
    let id = u16_at(block, NEXT_ID);
    let name = wide(alloc, letters)?;
    let attr = resident(alloc, kind, &name, id, value)?;
    add(block, &attr);
    Ok(())
}

/// Puts a non-resident attribute behind the others, with the next id. Its stream lies in one run.
pub fn add_stream(
    alloc: Global,
    block: &mut [u8; 1024],
    kind: u32,
    letters: &[u8],
    sizes: Sizes,
    run: Run,
) -> Result<(), AllocError>
    requires shape { HasShape block.old (length (attributes block.old)) }
    requires kind { kind ≢ END }
    requires name { length letters.now ≤ 255 }
    requires first { sizes.first ≡ 0 }
    requires some { 0 < run.len }
    requires few { run.len ≤ 2 ^ 62 }
    requires reach { EndsInReach run.len run.lcn }
    requires room { used_size block.old + (runs_at (wide letters.now) + 24) ≤ 1024 }
    ensures shape { OnOk result (HasShape block.new (length (attributes block.new))) }
    ensures used { OnOk result (used_size block.new ≤ used_size block.old + (runs_at (wide letters.now) + 24)) }
    ensures adds { OnOk result (AddsPart block.old block.new kind (wide letters.now) (one_run sizes run)) }
    ensures kept { OnErr result (block.new ≡ block.old) }
{
    let id = u16_at(block, NEXT_ID);
    let name = wide(alloc, letters)?;
    let attr = non_resident(alloc, kind, &name, id, sizes, run)?;
    add(block, &attr);
    Ok(())
}
