//! A disk that tells on standard error how far a long reading, or a run of drawn lines, has come.
ghost use Rattle.std.specs.Prelude.{◌≡◌};

use vol_disk::{Disk, Failed};

/// The reads from one line to the next: 128 MiB.
const STEP: u64 = 262_144;

/// The drawn lines from one line to the next.
const LINES: u64 = 10_000;

/// What a person is told of a disk.
#[derive(Clone, Copy, Debug, PartialEq, Eq)]
pub enum Watch {
    /// Nothing.
    Nothing,
    /// How much was read of it.
    Reads,
    /// That, and how many lines were done: each was settled once.
    Lines,
}

/// A disk over another that tells, where that is wanted, how much was read of it, and how often it was settled.
#[derive(Drop)]
pub struct WatchedDisk<'a, R: Eprint, D: Disk + Drop> {
    inner: D,
    rt: &'a R,
    watch: Watch,
    reads: u64,
    lines: u64,
    has_failed_to_write: bool,
}

impl<'a, R: Eprint, D: Disk + Drop> WatchedDisk<'a, R, D> {
    ghost use Rattle.edge.specs.Watched.{inner_of};

    /// All goes to `inner`; `watch` says what a person is told of it.
    pub fn new(rt: &'a R, inner: D, watch: Watch) -> WatchedDisk<'a, R, D>
        ensures { inner_of result ≡ inner }
    {
        WatchedDisk {
            inner,
            rt,
            watch,
            reads: 0,
            lines: 0,
            has_failed_to_write: false,
        }
    }

    /// Whether a write of it failed.
    pub fn has_failed_to_write(&self) -> bool {
        self.has_failed_to_write
    }

    // Counts a read, and tells of the last of each step.
    fn count(&mut self)
        ensures { inner_of self.new ≡ inner_of self.old }
    {
        self.reads = self.reads.saturating_add(1);
        if self.watch != Watch::Nothing && self.reads % STEP == 0 {
            let _ = self
                .rt
                .eprintln(format_args!("ntfs_shell: {} MiB read", self.reads / 2048));
        }
    }

    // Counts a line that was done, and tells of the last of each step.
    fn count_line(&mut self)
        ensures { inner_of self.new ≡ inner_of self.old }
    {
        self.lines = self.lines.saturating_add(1);
        if self.watch == Watch::Lines && self.lines % LINES == 0 {
            let _ = self
                .rt
                .eprintln(format_args!("ntfs_shell: {} lines done", self.lines));
        }
    }
}

impl<R: Eprint, D: Disk + Drop> Disk for WatchedDisk<'_, R, D> {
    ghost now = { λ disk. D.Disk.now disk.inner };

    ghost settled = { λ disk. D.Disk.settled disk.inner };

    ghost fenced = { λ disk. D.Disk.fenced disk.inner };

    ghost size = { λ disk. D.Disk.size disk.inner };

    ghost faults = { λ disk. D.Disk.faults disk.inner };

    ghost written = { λ disk. D.Disk.written disk.inner };

    ghost fetched = { λ disk. D.Disk.fetched disk.inner };

    ghost late = { λ disk. D.Disk.late disk.inner };

    ghost told_length = { λ disk. D.Disk.told_length disk.inner };

    ghost size_fits = { λ disk. D.Disk.size_fits disk.inner };

    fn sectors(&self) -> u64 {
        self.inner.sectors()
    }

    fn read(&mut self, sector: u64, into: &mut [u8; 512]) -> Result<(), Failed> {
        self.count();
        self.inner.read(sector, into)
    }

    fn write(&mut self, sector: u64, from: &[u8; 512]) -> Result<(), Failed> {
        match self.inner.write(sector, from) {
            Ok(()) => Ok(()),
            Err(failed) => {
                self.has_failed_to_write = true;
                Err(failed)
            }
        }
    }

    fn barrier(&mut self) -> Result<(), Failed> {
        self.inner.barrier()
    }

    fn settle(&mut self) -> Result<(), Failed> {
        self.inner.settle()?;
        self.count_line();
        Ok(())
    }
}
