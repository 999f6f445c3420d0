//! Disks in memory and over files, and sources and sinks over streams, some of whose calls fail.
use std::fs::{self, OpenOptions};
use std::io::{self, ErrorKind};
use std::{env, test};
use vol_disk::{Disk, Failed, FileDisk, MemDisk, Sink, Source, StdSink, StdSource};

const ZERO: [u8; 512] = [0; 512];

const ONE: [u8; 512] = [1; 512];

const TWO: [u8; 512] = [2; 512];

// Writes a sector and settles, and writes the last one of 20,000.
fn write_far<D: Disk>(disk: &mut D) -> Result<(), Failed> {
    if disk.sectors() != 20_000 {
        return Err(Failed);
    }
    disk.write(1, &ONE)?;
    disk.settle()?;
    disk.write(19_999, &TWO)?;
    disk.barrier()
}

// Whether a sector reads so.
fn reads<D: Disk>(disk: &mut D, sector: u64, wanted: &[u8; 512]) -> bool {
    if sector >= disk.sectors() {
        return false;
    }
    let mut into = [3; 512];
    disk.read(sector, &mut into).is_ok() && into == *wanted
}

#[test]
fn a_disk_in_memory_keeps_its_writes(rt: HostRuntime) -> Result<(), test::Fail> {
    let mut disk = MemDisk::new(rt.alloc(), vec![in rt.alloc(); 0; 10_240_000]?);
    disk.reserve(9)?;
    assert_eq!(rt; write_far(&mut disk), Ok(()));
    assert!(rt; disk.contents().ends_with(&TWO) && disk.first().ends_with(&ZERO));
    assert_eq!(rt; (disk.writes().len(), disk.settles().len()), (2, 1));
    Ok(())
}

// A stream whose first call fails with an error of this kind. Later ones take or give one byte.
#[derive(Drop)]
struct Flaky {
    first: Option<ErrorKind>,
}

impl io::Read for Flaky {
    fn read(&mut self, into: &mut [u8]) -> io::Result<usize> {
        if let Some(kind) = self.first.take() {
            return Err(io::Error::from(kind));
        }
        match into.first_mut() {
            Some(byte) => {
                *byte = 7;
                Ok(1)
            }
            None => Ok(0),
        }
    }
}

impl io::Write for Flaky {
    fn write(&mut self, from: &[u8]) -> io::Result<usize> {
        if let Some(kind) = self.first.take() {
            return Err(io::Error::from(kind));
        }
        Ok(from.len().min(1))
    }

    fn flush(&mut self) -> io::Result<()> {
        Ok(())
    }
}

#[test]
fn an_interrupted_call_is_asked_for_again(rt: HostRuntime) {
    for (first, wanted) in [
        (ErrorKind::Interrupted, Ok(1)),
        (ErrorKind::BrokenPipe, Err(Failed)),
        (ErrorKind::WouldBlock, Err(Failed)),
    ] {
        let mut into = [0; 4];
        let mut source = StdSource::new(Flaky { first: Some(first) });
        assert!(rt; source.read(&mut into) == wanted);
        let mut sink = StdSink::new(Flaky { first: Some(first) });
        assert!(rt; sink.write(b"abc") == wanted);
    }
}

// Writes the second of three sectors.
fn write_second<D: Disk>(disk: &mut D) -> Result<(), Failed> {
    if disk.sectors() != 3 {
        return Err(Failed);
    }
    disk.write(1, &ONE)?;
    disk.barrier()?;
    disk.settle()
}

#[test]
fn a_file_is_a_disk(rt: HostRuntime) -> io::Result<()> {
    let path = env::temp_dir(&rt)?.join(rt.alloc(), "vol_disk_a_file_is_a_disk")?;
    fs::write(&rt, path.as_path(), [0; 1024].as_slice())?;
    let file = OpenOptions::new()
        .read(true)
        .write(true)
        .open(&rt, path.as_path())?;
    let mut disk = FileDisk::new(file, 3);
    assert_eq!(rt; write_second(&mut disk), Ok(()));
    // The file ends before the third sector.
    let read = reads(&mut disk, 1, &ONE) && !reads(&mut disk, 2, &ZERO);
    let bytes = fs::read(&rt, path.as_path())?;
    assert!(rt; read && bytes.ends_with(&ONE));
    fs::remove_file(&rt, path.as_path())
}

// The null device takes each write and cannot be synchronised.
#[test]
fn a_disk_that_cannot_be_synchronised_fails(rt: HostRuntime) -> io::Result<()> {
    let file = OpenOptions::new().write(true).open(&rt, "/dev/null")?;
    let mut disk = FileDisk::new(file, 1);
    let answers = [
        disk.barrier(),
        disk.write(0, &ONE),
        disk.barrier(),
        disk.settle(),
    ];
    assert!(rt; answers == [Ok(()), Ok(()), Err(Failed), Err(Failed)]);
    Ok(())
}
