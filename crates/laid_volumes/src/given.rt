//! What the tests run on: a disk, a sink, and words.
ghost use Rattle.std.specs.Prelude.{◌≡◌, ◌%◌, vec_len};

use byteorder::{ByteOrder, LittleEndian};
use edge::run_shell;
use std::alloc::{AllocError, Global};
use std::test;
use vol_disk::{Disk, Failed, MemDisk, MemSink, MemSource, Sink};

/// What `boot` prints of the volume of `boot_sector`.
pub const GEOMETRY: &str = "\
sector 512
cluster 4096
sectors 16384
clusters 2048
mft 2
mirror 19
record 1024
index 4096
serial 0000000000000001
";

/// More than any text here is long.
pub const AMPLE: usize = 2048;

/// Sector 0 of a volume of 2,048 clusters of 4,096 bytes, with one byte of it changed.
pub fn boot_sector(at: usize, byte: u8) -> [u8; 512] {
    let mut sector = [0; 512];
    sector[..11].copy_from_slice(b"\xEB\x52\x90NTFS    ");
    LittleEndian::write_u16(&mut sector[0x0B..], 512);
    sector[0x0D] = 8;
    LittleEndian::write_u64(&mut sector[0x28..], 16_384);
    LittleEndian::write_u64(&mut sector[0x30..], 2);
    LittleEndian::write_u64(&mut sector[0x38..], 19);
    sector[0x40] = 0xF6;
    sector[0x44] = 0xF4;
    LittleEndian::write_u64(&mut sector[0x48..], 1);
    sector[0x1FE] = 0x55;
    sector[0x1FF] = 0xAA;
    if at < 512 {
        sector[at] = byte;
    }
    sector
}

/// A disk with these contents, and room for some writes.
pub fn disk_with(alloc: Global, contents: Vec<u8>) -> Result<MemDisk, test::Fail>
    requires { vec_len contents % 512 ≡ 0 }
{
    let mut disk = MemDisk::new(alloc, contents);
    disk.reserve(8)?;
    Ok(disk)
}

/// A disk of so many sectors, zero behind this first one.
pub fn disk_of(alloc: Global, sectors: u16, first: &[u8; 512]) -> Result<MemDisk, test::Fail> {
    let mut image = first.to_vec(alloc)?;
    image.resize(usize::from(sectors) * 512, 0)?;
    disk_with(alloc, image)
}

/// A sink with this room, whose call of this number fails; 0 is none.
pub fn sink_of(alloc: Global, room: usize, fails: u64) -> Result<MemSink, test::Fail> {
    let mut sink = MemSink::new(alloc, vec![in alloc; fails]?);
    sink.reserve(room)?;
    Ok(sink)
}

/// A sink that takes at most 25 bytes at a call.
#[derive(Drop)]
pub struct Pieces<K: Sink> {
    pub whole: K,
}

impl<K: Sink> Sink for Pieces<K> {
    ghost got = { λ sink. K.Sink.got sink.whole };

    ghost faults = { λ sink. K.Sink.faults sink.whole };

    fn write(&mut self, from: &[u8]) -> Result<usize, Failed> {
        self.whole.write(&from[..from.len().min(25)])
    }
}

/// The status of a run on these words.
pub fn run<D: Disk, K: Sink>(
    alloc: Global,
    line: &str,
    disk: &mut D,
    out: &mut K,
) -> Result<u8, AllocError> {
    let mut words = Vec::new(alloc);
    for word in line.split_whitespace() {
        words.push(word.to_string(alloc)?)?;
    }
    let mut script = MemSource::new(Vec::new(alloc), Vec::new(alloc));
    Ok(run_shell(alloc, &words, disk, &mut script, out))
}
