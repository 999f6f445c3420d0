//! Files of a volume of 2 MiB that is laid here from the published layout: its clusters have one sector, and its table of
//! 63 records lies in the clusters from 32 on. What is expected of a file is what was laid.
ghost use Rattle.std.specs.Prelude.{◌≡◌, ◌<◌, ◌^◌, IfOk, IsTrue, length};
ghost use Rattle.mft_table.specs.Mft.{mounted_of};
ghost use Rattle.mft_table.specs.MirrorClusters.{IsMirrorInside};
ghost use Rattle.file_record.specs.Held.{parts_held};
ghost use Rattle.file_record.specs.Sizes.{IsExtent};
ghost use Rattle.file_record.specs.Written.{PartHeld};

use crate::laid::{has_mirror, mount, put};
use attr_view::Sizes;
use file_record::{BaseFile, FileNo, FileParts, load_base};
use mft_table::Mft;
use std::alloc::{AllocError, Global};
use std::test;
use vol_disk::{Disk, MemDisk};
use vol_stage::Stage;

const CLUSTERS: usize = 4095;

// The boot sector without its program.
#[rattlefmt::skip]
const BOOT: [u8; 84] = [
    0xEB, 0x52, 0x90, 0x4E, 0x54, 0x46, 0x53, 0x20, 0x20, 0x20, 0x20, 0x00, 0x02, 0x01, 0x00, 0x00,
    0x00, 0x00, 0x00, 0x00, 0x00, 0xF8, 0x00, 0x00, 0x00, 0x00, 0x00, 0x00, 0x00, 0x00, 0x00, 0x00,
    0x00, 0x00, 0x00, 0x00, 0x80, 0x00, 0x80, 0x00, 0xFF, 0x0F, 0x00, 0x00, 0x00, 0x00, 0x00, 0x00,
    0x20, 0x00, 0x00, 0x00, 0x00, 0x00, 0x00, 0x00, 0xFF, 0x07, 0x00, 0x00, 0x00, 0x00, 0x00, 0x00,
    0x02, 0x00, 0x00, 0x00, 0x08, 0x00, 0x00, 0x00, 0xF7, 0x9F, 0x46, 0x02, 0x12, 0xEE, 0xF5, 0x34,
    0x00, 0x00, 0x00, 0x00,
];

// A resident attribute without a name.
fn resident(into: &mut Vec<u8>, kind: u32, id: u16, value: &[u8]) -> Result<(), AllocError> {
    let len = value.len().min(512);
    let size = (24 + len + 7) / 8 * 8;
    let mut bytes = [0; 544];
    put(&mut bytes, 0x00, &kind.to_le_bytes());
    put(&mut bytes, 0x04, &(size as u32).to_le_bytes());
    put(&mut bytes, 0x0E, &id.to_le_bytes());
    put(&mut bytes, 0x10, &(len as u32).to_le_bytes());
    put(&mut bytes, 0x14, &[24]);
    put(&mut bytes, 24, value);
    into.extend_from_slice(&bytes[..size])
}

// A non-resident attribute without a name, of so many bytes, in one run of less than 256 clusters of 512 bytes.
fn extent(into: &mut Vec<u8>, kind: u32, id: u16, len: u64, lcn: u16) -> Result<(), AllocError>
    requires { len < 2 ^ 16 }
{
    let clusters = (len + 511) / 512;
    let mut bytes = [0; 72];
    put(&mut bytes, 0x00, &kind.to_le_bytes());
    put(&mut bytes, 0x04, &[72]);
    put(&mut bytes, 0x08, &[1]);
    put(&mut bytes, 0x0E, &id.to_le_bytes());
    put(&mut bytes, 0x18, &clusters.saturating_sub(1).to_le_bytes());
    put(&mut bytes, 0x20, &[64]);
    put(&mut bytes, 0x28, &(512 * clusters).to_le_bytes());
    put(&mut bytes, 0x30, &len.to_le_bytes());
    put(&mut bytes, 0x38, &len.to_le_bytes());
    put(&mut bytes, 64, &[0x21, clusters as u8]);
    put(&mut bytes, 66, &lcn.to_le_bytes());
    into.extend_from_slice(&bytes)
}

// An entry of an attribute list, for an attribute without a name that begins its stream.
fn entry(into: &mut Vec<u8>, kind: u32, holder: u64, id: u16) -> Result<(), AllocError> {
    let mut bytes = [0; 32];
    put(&mut bytes, 0x00, &kind.to_le_bytes());
    put(&mut bytes, 0x04, &[32, 0, 0, 0x1A]);
    put(&mut bytes, 0x10, &holder.to_le_bytes());
    put(&mut bytes, 0x16, &[1]);
    put(&mut bytes, 0x18, &id.to_le_bytes());
    into.extend_from_slice(&bytes)
}

// Lays a record in use with these attributes, sealed under number 1.
fn lay(image: &mut [u8], number: usize, base: u64, attributes: &[u8])
    requires { number < 2 ^ 20 }
    ensures { length image.new ≡ length image.old }
{
    let len = attributes.len().min(900);
    let mut block = [0; 1024];
    put(&mut block, 0x00, b"FILE");
    put(&mut block, 0x04, &[0x30, 0, 3, 0]);
    put(&mut block, 0x10, &[1]);
    put(&mut block, 0x14, &[0x38, 0, 1]);
    put(&mut block, 0x18, &(len as u32 + 64).to_le_bytes());
    put(&mut block, 0x1C, &[0, 4]);
    put(&mut block, 0x20, &base.to_le_bytes());
    put(&mut block, 0x2C, &(number as u32).to_le_bytes());
    put(&mut block, 0x38, &attributes[..len]);
    put(&mut block, 0x38 + len, &[0xFF; 4]);
    let low = [block[510], block[511]];
    put(&mut block, 0x30, &[1, 0, low[0], low[1]]);
    put(&mut block, 510, &[1, 0]);
    put(&mut block, 1022, &[1, 0]);
    put(image, 512 * (32 + 2 * number), &block);
}

// The reference to a record.
fn reference(number: u64) -> u64
    requires { number < 2 ^ 32 }
{
    number + (1 << 48)
}

// The volume, with record 0 alone.
fn volume(alloc: Global) -> Result<Vec<u8>, AllocError>
    ensures { IfOk result (λ image. length image.items ≡ 2097152) }
{
    let mut image = vec![in alloc; 0; 512 * (CLUSTERS + 1)]?;
    put(&mut image, 0, &BOOT);
    put(&mut image, 510, &[0x55, 0xAA]);
    let mut attributes = Vec::new(alloc);
    resident(&mut attributes, 0x10, 0, &[0; 48])?;
    extent(&mut attributes, 0x80, 1, 0xFC00, 32)?;
    lay(&mut image, 0, 0, &attributes);
    Ok(image)
}

// File 28 with 306 names in 34 records, and a list of 9,824 bytes in the clusters from 400 on.
fn lay_many(alloc: Global, image: &mut [u8]) -> Result<(), AllocError>
    ensures { length image.new ≡ length image.old }
{
    let mut list = Vec::new(alloc);
    entry(&mut list, 0x10, 28, 0)?;
    for number in 29..63u64 {
        let mut names = Vec::new(alloc);
        for id in 0..9u16 {
            entry(&mut list, 0x30, number, id)?;
            resident(&mut names, 0x30, id, &[0; 68])?;
        }
        lay(image, number as usize, reference(28), &names);
    }
    let mut base = Vec::new(alloc);
    resident(&mut base, 0x10, 0, &[0; 48])?;
    extent(&mut base, 0x20, 1, 9824, 400)?;
    lay(image, 28, 0, &base);
    put(image, 512 * 400, &list);
    Ok(())
}

// Whether a part is an extent.
fn is_extent(file: &FileParts, i: usize) -> bool
    requires { i < length (parts_held file.now) }
    ensures { IsTrue result → PartHeld file.now i IsExtent }
{
    file.attr(i).sizes().is_some()
}

// Counts 4,660 links of the file, and sets the sizes of its list, its second part: the last entry is none of it then.
fn edit<D: Disk>(mft: &mut Mft<'_, D>, file: &mut FileParts) -> Result<(), test::Fail>
    requires { IsMirrorInside (mounted_of D.Disk mft.old) }
{
    if mft.broken() {
        return Err("the stage is broken")?;
    }
    file.set_links(mft, 0x1234)?;
    if mft.broken() || file.count() < 2 || !is_extent(file, 1) {
        return Err("the second part is no extent")?;
    }
    file.set_sizes(mft, 1, 9792, 9792)?;
    Ok(())
}

// The file, read anew behind that.
fn read_edited<D: Disk>(alloc: Global, mft: &mut Mft<'_, D>) -> Result<Option<BaseFile>, test::Fail>
    requires { IsMirrorInside (mounted_of D.Disk mft.old) }
{
    if mft.mounted().records.count() <= 28 {
        return Err("the file is past the table")?;
    }
    let mut file = FileParts::load(alloc, mft, 28)?;
    edit(mft, &mut file)?;
    Ok(load_base(alloc, mft, 28)?)
}

fn edit_and_read(alloc: Global) -> Result<Option<BaseFile>, test::Fail> {
    let mut image = volume(alloc)?;
    lay_many(alloc, &mut image)?;
    let mut disk = MemDisk::new(alloc, image);
    let mut stage = Stage::over(alloc, &mut disk);
    match mount(alloc, &mut stage) {
        Ok(mounted) => {
            let has_mirror = has_mirror(&mounted);
            let mut mft = Mft::resume(stage, mounted);
            let found = if has_mirror {
                read_edited(alloc, &mut mft)
            } else {
                Err("the volume has no mirror".into())
            };
            let (stage, _) = mft.into_parts();
            let _ = stage.finish();
            found
        }
        Err(fail) => {
            let _ = stage.finish();
            Err(fail)
        }
    }
}

// Each record of names is listed still, and each name in it is a part.
#[test]
fn a_file_of_many_records_is_edited(rt: HostRuntime) -> Result<(), test::Fail> {
    let Some(file) = edit_and_read(rt.alloc())? else {
        return Err("no file")?;
    };
    if file.parts.count() != 308 || file.header.links != 0x1234 {
        return Err("another number of parts or of links")?;
    }
    let sizes = Sizes {
        allocated: 10_240,
        real: 9792,
        initialized: 9792,
        first: 0,
        last: 19,
    };
    assert_eq!(rt; file.parts.attr(1).sizes(), Some(sizes));
    Ok(())
}

// Loads a file through tables that are found anew.
fn load<D: Disk>(
    alloc: Global,
    disk: &mut D,
    number: u64,
) -> Result<Result<FileParts, FileNo>, test::Fail> {
    let mut stage = Stage::over(alloc, disk);
    match mount(alloc, &mut stage) {
        Ok(mounted) => {
            let mut mft = Mft::resume(stage, mounted);
            let file = if number < mft.mounted().records.count() {
                FileParts::load(alloc, &mut mft, number)
            } else {
                Err(FileNo::MftFull)
            };
            let (stage, _) = mft.into_parts();
            let _ = stage.finish();
            Ok(file)
        }
        Err(fail) => {
            let _ = stage.finish();
            Err(fail)
        }
    }
}

// The types and ids of a file's attributes.
fn told(alloc: Global, file: &FileParts) -> Result<Vec<(u32, u16)>, test::Fail> {
    let mut told = Vec::new(alloc);
    for attribute in file.attributes() {
        told.push((attribute.kind(), attribute.id()))?;
    }
    Ok(told)
}

// The types and ids of the parts of a file of an image.
fn parts_of(alloc: Global, image: Vec<u8>, number: u64) -> Result<Vec<(u32, u16)>, test::Fail>
    requires { length image.items ≡ 2097152 }
{
    let mut disk = MemDisk::new(alloc, image);
    let file = load(alloc, &mut disk, number)??;
    told(alloc, &file)
}

// File 30, whose list names a record past the table, one that does not open, one of another file, and one of its own.
fn lay_passed(alloc: Global, image: &mut [u8]) -> Result<(), AllocError>
    ensures { length image.new ≡ length image.old }
{
    let mut list = Vec::new(alloc);
    entry(&mut list, 0x30, 63, 0)?;
    entry(&mut list, 0x30, 40, 0)?;
    entry(&mut list, 0x30, 36, 0)?;
    entry(&mut list, 0x80, 35, 2)?;
    let mut base = Vec::new(alloc);
    resident(&mut base, 0x20, 4, &list)?;
    lay(image, 30, 0, &base);
    let mut data = Vec::new(alloc);
    resident(&mut data, 0x80, 2, b"data")?;
    lay(image, 35, reference(30), &data);
    lay(image, 36, reference(31), &data);
    lay(image, 40, reference(30), &data);
    put(image, 512 * (33 + 2 * 40) + 510, &[9]);
    Ok(())
}

// A file, and its parts: records that are none of it are passed over, and one that does not open, or is no base record, has none.
const PASSED: [(u64, &[(u32, u16)]); 3] = [(30, &[(0x20, 4), (0x80, 2)]), (35, &[]), (40, &[])];

#[test]
fn other_records_are_passed_over(rt: HostRuntime) -> Result<(), test::Fail> {
    for (number, wanted) in PASSED {
        let mut image = volume(rt.alloc())?;
        lay_passed(rt.alloc(), &mut image)?;
        let parts = parts_of(rt.alloc(), image, number)?;
        if parts.as_slice() != wanted {
            return Err(number)?;
        }
    }
    Ok(())
}
