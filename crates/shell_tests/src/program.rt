//! The edge of the program, over a runtime that notes what is opened, printed and said.
use laid_volumes::given::{GEOMETRY, boot_sector};
use laid_volumes::start;
use std::alloc::{Allocator, Global};
use std::cell::{Cell, RefCell};
use std::env::FillError;
use std::fmt::Display;
use std::fs::{File, Metadata, OpenOptions};
use std::io::{BufRead, ErrorKind};
use std::os::fd::AsRawFd;
use std::path::PathBuf;
use std::rt::{Env, Files};
use std::{env, fs, io};

// The system with other arguments, the words of a line, and with a script for standard input. A path without a
// slash leads to the folder for temporary files. Standard output and error are kept. Of an image with `kept_`
// before its name only reading is allowed.
#[derive(Drop)]
struct Noted<'a> {
    rt: HostRuntime,
    line: &'a [u8],
    script: &'static [u8],
    opened: RefCell<Vec<i32>>,
    is_denied: Cell<bool>,
    printed: RefCell<Vec<u8>>,
    said: RefCell<Vec<u8>>,
}

fn busy() -> io::Error {
    io::Error::from(ErrorKind::ResourceBusy)
}

fn unsupported() -> io::Error {
    io::Error::from(ErrorKind::Unsupported)
}

fn keep(kept: &RefCell<Vec<u8>>, bytes: &[u8]) -> io::Result<()> {
    let mut kept = kept.try_borrow_mut().map_err(|_| busy())?;
    kept.extend_from_slice(bytes)?;
    Ok(())
}

fn copy_of(alloc: Global, kept: &RefCell<Vec<u8>>) -> io::Result<Vec<u8>> {
    let kept = kept.try_borrow().map_err(|_| busy())?;
    Ok(kept.to_vec(alloc)?)
}

// The word of this number in a line.
fn word_of(line: &[u8], number: usize) -> Option<&[u8]> {
    let mut count = 0;
    for word in line.split(|byte| *byte == b' ') {
        if count == number {
            return Some(word);
        }
        count = count.saturating_add(1);
    }
    None
}

// Where a file of the tests lies.
fn path_of(rt: &HostRuntime, name: &str) -> io::Result<PathBuf> {
    if name.contains('/') {
        return Ok(PathBuf::from_str(rt.alloc(), name)?);
    }
    let name = name.strip_prefix("kept_").unwrap_or(name);
    Ok(env::temp_dir(rt)?.join(rt.alloc(), name)?)
}

impl Alloc for Noted<'_> {
    type A = Global;

    fn alloc(&self) -> Global {
        self.rt.alloc()
    }
}

impl Env for Noted<'_> {
    fn arg(&self, i: usize, buf: &mut [u8]) -> Result<usize, FillError> {
        let Some(word) = word_of(self.line, i) else {
            return Err(FillError::NotPresent);
        };
        if word.len() > buf.len() {
            return Err(FillError::TooLong);
        }
        buf[..word.len()].copy_from_slice(word);
        Ok(word.len())
    }

    fn var(&self, _name: &str, _buf: &mut [u8]) -> Result<usize, FillError> {
        Err(FillError::NotPresent)
    }

    fn var_at(&self, _i: usize, _buf: &mut [u8]) -> Result<usize, FillError> {
        Err(FillError::NotPresent)
    }
}

impl Files for Noted<'_> {
    type File = File;

    type Dir = File;

    // The image is opened for reading and writing first, and then for reading alone.
    fn open_file(&self, how: &OpenOptions, path: &str) -> io::Result<File> {
        if path.starts_with("kept_") && !self.is_denied.replace(true) {
            return Err(io::Error::from(ErrorKind::PermissionDenied));
        }
        let path = path_of(&self.rt, path)?;
        let file = self.rt.open_file(how, path.as_str())?;
        let mut opened = self.opened.try_borrow_mut().map_err(|_| busy())?;
        opened.push(file.as_raw_fd())?;
        Ok(file)
    }

    fn open_dir(&self, _path: &str) -> io::Result<File> {
        Err(unsupported())
    }

    fn metadata(&self, path: &str) -> io::Result<Metadata> {
        let path = path_of(&self.rt, path)?;
        self.rt.metadata(path.as_str())
    }

    fn symlink_metadata(&self, _path: &str) -> io::Result<Metadata> {
        Err(unsupported())
    }

    fn copy(&self, _from: &str, _to: &str) -> io::Result<u64> {
        Err(unsupported())
    }

    fn rename(&self, _from: &str, _to: &str) -> io::Result<()> {
        Err(unsupported())
    }

    fn remove_file(&self, _path: &str) -> io::Result<()> {
        Err(unsupported())
    }

    fn create_dir(&self, _path: &str) -> io::Result<()> {
        Err(unsupported())
    }

    fn remove_dir(&self, _path: &str) -> io::Result<()> {
        Err(unsupported())
    }

    fn remove_dir_all<B: Allocator>(&self, _alloc: B, _path: &str) -> io::Result<()> {
        Err(unsupported())
    }
}

impl Input for Noted<'_> {
    type Reader = &'static [u8];

    fn read_line<A: Allocator + Clone>(&self, buf: &mut String<A>) -> io::Result<usize> {
        self.rt.read_line(buf)
    }

    fn lines<A: Allocator>(&self, alloc: A) -> io::Lines<&'static [u8], A> {
        self.script.lines(alloc)
    }

    fn reader(&self) -> &'static [u8] {
        self.script
    }
}

impl Print for Noted<'_> {
    fn print<D: Display + Drop>(&self, value: D) -> io::Result<()> {
        let text = format!(in self.alloc(); "{value}")?;
        keep(&self.printed, text.as_bytes())
    }

    fn println<D: Display + Drop>(&self, value: D) -> io::Result<()> {
        let text = format!(in self.alloc(); "{value}\n")?;
        keep(&self.printed, text.as_bytes())
    }

    fn write_all(&self, bytes: &[u8]) -> io::Result<()> {
        keep(&self.printed, bytes)
    }
}

impl Eprint for Noted<'_> {
    fn eprint<D: Display + Drop>(&self, value: D) -> io::Result<()> {
        let text = format!(in self.alloc(); "{value}")?;
        keep(&self.said, text.as_bytes())
    }

    fn eprintln<D: Display + Drop>(&self, value: D) -> io::Result<()> {
        let text = format!(in self.alloc(); "{value}\n")?;
        keep(&self.said, text.as_bytes())
    }
}

// Makes a file of so many bytes that begins with this sector.
fn lay(rt: &HostRuntime, name: &str, first: &[u8; 512], length: usize) -> io::Result<()> {
    let mut bytes = first.to_vec(rt.alloc())?;
    bytes.resize(length, 0)?;
    fs::write(rt, path_of(rt, name)?.as_path(), bytes.as_slice())
}

// Whether the image, opened last, has a descriptor of its own beside three that are held.
fn is_apart(opened: &RefCell<Vec<i32>>) -> bool {
    let Ok(opened) = opened.try_borrow() else {
        return false;
    };
    match opened.as_slice() {
        [] => true,
        [a, b, c, rest @ ..] => {
            a != b && a != c && b != c && rest.iter().all(|fd| fd != a && fd != b && fd != c)
        }
        _ => false,
    }
}

// Whether the program ends so on a script.
fn ends(rt: HostRuntime, script: &'static [u8], end: &End) -> io::Result<bool> {
    let noted = Noted {
        rt,
        line: end.line,
        script,
        opened: RefCell::new(Vec::new(rt.alloc())),
        is_denied: Cell::new(false),
        printed: RefCell::new(Vec::new(rt.alloc())),
        said: RefCell::new(Vec::new(rt.alloc())),
    };
    let got = start(&noted, false);
    let out = copy_of(rt.alloc(), &noted.printed)?;
    let told = copy_of(rt.alloc(), &noted.said)?;
    let sentence = str::from_utf8(&told).unwrap_or("");
    Ok(
        got == end.status
            && is_apart(&noted.opened)
            && out.starts_with(end.printed.as_bytes())
            && out.is_empty() == end.printed.is_empty()
            && sentence.contains(end.said)
            && told.is_empty() == end.said.is_empty(),
    )
}

/// Words, and how the program ends on them.
#[derive(Clone, Copy)]
struct End {
    line: &'static [u8],
    status: u8,
    /// How its output begins; empty where nothing is printed.
    printed: &'static str,
    /// What it says on standard error, among more; empty where nothing is said.
    said: &'static str,
}

const ENDS: [End; 33] = [
    End {
        line: b"ntfs_shell",
        status: 2,
        printed: "",
        said: "--help",
    },
    End {
        line: b"ntfs_shell boot",
        status: 2,
        printed: "",
        said: "--help",
    },
    End {
        line: b"ntfs_shell --help",
        status: 0,
        printed: "usage: ntfs_shell IMAGE WORDS\n",
        said: "",
    },
    End {
        line: b"ntfs_shell --version",
        status: 0,
        printed: "ntfs_shell 0.1.0\n",
        said: "",
    },
    End {
        line: b"ntfs_shell ntfs_shell_whole boot",
        status: 0,
        printed: GEOMETRY,
        said: "",
    },
    End {
        line: b"ntfs_shell ntfs_shell_whole format 2047 4096 1 X",
        status: 3,
        printed: "refused options\n",
        said: "options: SECTORS is from 2048",
    },
    End {
        line: b"ntfs_shell ntfs_shell_blank format 16384 4096 1 DATA",
        status: 0,
        printed: "formatted 2048\n",
        said: "",
    },
    End {
        line: b"ntfs_shell ntfs_shell_blank boot",
        status: 0,
        printed: GEOMETRY,
        said: "",
    },
    End {
        line: b"ntfs_shell ntfs_shell_whole bot",
        status: 2,
        printed: "",
        said: "\"bot\" is no word of the program; see ntfs_shell --help",
    },
    End {
        line: b"ntfs_shell ntfs_shell_blank check",
        status: 0,
        printed: "sound\n",
        said: "",
    },
    End {
        line: b"ntfs_shell ntfs_shell_whole check",
        status: 3,
        printed: "refused S2 0\n",
        said: "S2 0: record 0 does not open",
    },
    End {
        line: b"ntfs_shell ntfs_shell_whole make 1 1",
        status: 3,
        printed: "refused S2 0\n",
        said: "S2 0: record 0 does not open",
    },
    End {
        line: b"ntfs_shell ntfs_shell_blank make 1 0",
        status: 0,
        printed: "made 1 0 1\ndf 2048 1913 64 38\n",
        said: "",
    },
    End {
        line: b"ntfs_shell ntfs_shell_whole run",
        status: 3,
        printed: "refused S2 0\n",
        said: "S2 0: record 0 does not open",
    },
    End {
        line: b"ntfs_shell ntfs_shell_blank run",
        status: 0,
        printed: "",
        said: "",
    },
    End {
        line: b"ntfs_shell ntfs_shell_cut label",
        status: 3,
        printed: "refused S1 6\n",
        said: "S1 6: IMAGE is shorter",
    },
    End {
        line: b"ntfs_shell ntfs_shell_bare boot",
        status: 3,
        printed: "refused S1 1\n",
        said: "partition",
    },
    End {
        line: b"ntfs_shell ntfs_shell_empty boot",
        status: 3,
        printed: "refused S1 1\n",
        said: "no whole sector",
    },
    End {
        line: b"ntfs_shell /\x1B boot",
        status: 6,
        printed: "",
        said: "IMAGE \"/\\u{1b}\" cannot be opened",
    },
    End {
        line: b"ntfs_shell a\xFF\n boot",
        status: 2,
        printed: "",
        said: "argument 1 is not UTF-8: \"a\\xff\\n\"",
    },
    End {
        line: b"ntfs_shell /dev boot",
        status: 6,
        printed: "",
        said: "cannot be opened for reading and writing",
    },
    End {
        line: b"ntfs_shell check ntfs_shell_whole",
        status: 6,
        printed: "",
        said: "; IMAGE stands first, and check behind it",
    },
    End {
        line: b"ntfs_shell ntfs_shell_whole boot now",
        status: 2,
        printed: "",
        said: "boot takes no word behind it; see",
    },
    End {
        line: b"ntfs_shell ntfs_shell_whole format 2048 4096 1",
        status: 2,
        printed: "",
        said: "format takes SECTORS, CLUSTER, SERIAL and LABEL behind it",
    },
    End {
        line: b"ntfs_shell ntfs_shell_whole format 2048 4096 0x1 X",
        status: 2,
        printed: "",
        said: "known: SERIAL is a decimal number",
    },
    End {
        line: b"ntfs_shell ntfs_shell_whole format 2048 4096 1 a:b",
        status: 2,
        printed: "",
        said: "known: LABEL has 1 to 32 units",
    },
    End {
        line: b"ntfs_shell ntfs_shell_whole format 2048 4k 1 X",
        status: 2,
        printed: "",
        said: "known: CLUSTER is 512",
    },
    End {
        line: b"ntfs_shell ntfs_shell_whole format 2048 513 1 X",
        status: 3,
        printed: "refused options\n",
        said: "options: CLUSTER is 512",
    },
    End {
        line: b"ntfs_shell ntfs_shell_whole make 1000001 1",
        status: 2,
        printed: "",
        said: "known: N is a decimal number of at most 1000000",
    },
    End {
        line: b"ntfs_shell ntfs_shell_whole make 1 01",
        status: 2,
        printed: "",
        said: "known: SEED is a decimal number",
    },
    End {
        line: b"ntfs_shell kept_ntfs_shell_blank check",
        status: 0,
        printed: "sound\n",
        said: "",
    },
    End {
        line: b"ntfs_shell kept_ntfs_shell_blank run",
        status: 0,
        printed: "",
        said: "can only be read, so an edit will fail as a device fault",
    },
    End {
        line: b"ntfs_shell kept_ntfs_shell_blank format 16384 4096 1 X",
        status: 6,
        printed: "",
        said: "cannot be opened for reading and writing",
    },
];

// Scripts, and how a run of them ends. The image is that of `ENDS`, as they leave it.
const RUNS: [(&[u8], End); 2] = [
    (
        b"df\ncreate /f\ndf\n",
        End {
            line: b"ntfs_shell kept_ntfs_shell_blank run",
            status: 6,
            printed: "df 2048 1913 64 38\nok\n",
            said: "so the first line that writes failed, and the run ended there",
        },
    ),
    (
        b"#\nls\t/\ndf\n",
        End {
            line: b"ntfs_shell ntfs_shell_blank run",
            status: 0,
            printed: "no 1 Syntax\ndf 2048 1913 64 38\nok\n",
            said: "ntfs_shell: 1 line was answered no 1 Syntax, line 2: it has a tab",
        },
    ),
];

// The images that the words name, each by its first sector and its length.
fn lay_images(rt: &HostRuntime) -> io::Result<()> {
    lay(rt, "ntfs_shell_whole", &boot_sector(0x44, 0xF4), 8_388_608)?;
    lay(rt, "ntfs_shell_blank", &[0; 512], 8_388_608)?;
    lay(rt, "ntfs_shell_cut", &boot_sector(0x44, 0xF4), 4096)?;
    lay(rt, "ntfs_shell_bare", &[0; 512], 4096)?;
    lay(rt, "ntfs_shell_empty", &[0; 512], 511)
}

fn remove_images(rt: &HostRuntime) -> io::Result<()> {
    for name in [
        "ntfs_shell_whole",
        "ntfs_shell_blank",
        "ntfs_shell_cut",
        "ntfs_shell_bare",
        "ntfs_shell_empty",
    ] {
        fs::remove_file(rt, path_of(rt, name)?.as_path())?;
    }
    Ok(())
}

#[test]
fn each_end_says_what_can_be_done(rt: HostRuntime) -> io::Result<()> {
    lay_images(&rt)?;
    for end in ENDS {
        assert!(rt; ends(rt, b"", &end)?, "{}, {}", end.status, end.said);
    }
    for (script, end) in RUNS {
        assert!(rt; ends(rt, script, &end)?, "{}, {}", end.status, end.said);
    }
    remove_images(&rt)
}
