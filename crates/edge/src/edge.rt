//! The edge of the program: its arguments, the image's file and the standard streams.
use crate::arguments::{Request, odd_argument, read_arguments, request_of};
use crate::explain::{first_line, sentence_on, sentence_on_read_only};
use crate::front::FrontSink;
use crate::help::{HELP, VERSION};
use crate::image::{Image, ImageFault, hold_streams, open_image};
use crate::noted::{NotedSink, NotedSource, ScriptNotes};
use crate::refused::sentence_on_refusal;
use crate::watched::{Watch, WatchedDisk};
use crate::words::{broken_option, fault_of, word_before_image};
use shell::ending::{DEVICE_FAILED, DONE, OUT_OF_MEMORY, REFUSED, SINK_FAILED, UNKNOWN_WORDS};
use shell::{Access, access_of, run_shell};
use std::cell::RefCell;
use std::fs::File;
use std::io;
use std::io::ErrorKind;
use std::rt::{Env, Files};
use vol_disk::{Disk, Sink, Source, StdSink, StdSource};

// Says in one line why nothing was done, or what failed. Where that fails too, the status alone tells it.
fn complain(rt: &impl Eprint, reason: &str) {
    let _ = rt.eprintln(format_args!("ntfs_shell: {reason}"));
}

fn print_text(rt: &(impl Print + Eprint), text: &str) -> u8 {
    match rt.print(text) {
        Ok(()) => DONE,
        Err(_) => {
            complain(rt, "standard output failed");
            SINK_FAILED
        }
    }
}

/// What the end of a run is told by.
#[derive(Clone, Copy)]
struct Run<'a> {
    request: Request<'a>,
    access: Access,
    status: u8,
    /// The first bytes that were printed.
    printed: &'a [u8],
    sectors: u64,
    is_writable: bool,
    has_failed_to_write: bool,
}

// Says why a volume, or the options of a new one, were refused.
fn explain_refusal(rt: &impl Eprint, run: &Run<'_>) {
    let line = first_line(run.printed);
    if line == "refused options" {
        let fault = broken_option(run.request.words, run.sectors);
        let _ = rt.eprintln(format_args!("ntfs_shell: {line}: {fault}; nothing was written"));
        return;
    }
    let sentence = sentence_on_refusal(line, run.sectors);
    let _ = rt.eprintln(format_args!("ntfs_shell: {line}: {sentence}"));
}

// Whether lines were run on an image that could only be read, and ended at its failure.
fn is_read_only_failure(run: &Run<'_>) -> bool {
    run.status == DEVICE_FAILED
        && !run.is_writable
        && matches!(run.access, Access::Runs | Access::Makes)
}

// Says what a person can do about a status, by what the words ask of the image and what was printed.
fn explain(rt: &impl Eprint, run: &Run<'_>) {
    if run.status == REFUSED {
        explain_refusal(rt, run);
    } else if run.status == UNKNOWN_WORDS {
        let fault = fault_of(run.request.image, run.request.words);
        let _ = rt.eprintln(format_args!(
            "ntfs_shell: these words are not known: {fault}; see ntfs_shell --help"
        ));
    } else if is_read_only_failure(run) {
        complain(rt, sentence_on_read_only(run.has_failed_to_write));
    } else if let Some(sentence) = sentence_on(run.status, run.access) {
        complain(rt, sentence);
    }
}

// Says which lines of a script were no commands.
fn explain_slips(rt: &impl Eprint, notes: &ScriptNotes) {
    if let Some(slips) = notes.slips() {
        let _ = rt.eprintln(format_args!("ntfs_shell: {slips}"));
    }
}

// Says why there is no disk over the image.
fn complain_of_image<R: Eprint>(rt: &R, request: &Request<'_>, fault: &ImageFault) {
    let image = request.image;
    let _ = match word_before_image(image, request.words) {
        Some(word) => rt.eprintln(format_args!(
            "ntfs_shell: IMAGE {image:?} {fault}; IMAGE stands first, and {word} behind it"
        )),
        None => rt.eprintln(format_args!("ntfs_shell: IMAGE {image:?} {fault}")),
    };
}

// Says which argument is not UTF-8.
fn complain_of_argument<R: Env + Eprint>(rt: &R) {
    let mut bytes = [0; 4096];
    match odd_argument(rt, &mut bytes) {
        Some((number, len)) => {
            let argument = bytes[..len].escape_ascii();
            let _ = rt.eprintln(format_args!(
                "ntfs_shell: argument {number} is not UTF-8: \"{argument}\""
            ));
        }
        None => complain(rt, "an argument is not UTF-8"),
    }
}

// What a person is told while the words are done, where that can be shown.
fn watch_of(watched: bool, access: Access) -> Watch {
    if !watched {
        return Watch::Nothing;
    }
    match access {
        Access::Makes => Watch::Lines,
        _ => Watch::Reads,
    }
}

// Does what the words ask of the opened image, and says how that ended.
fn run_words<R, S, K>(
    rt: &R,
    request: &Request<'_>,
    image: Image,
    watch: Watch,
    script: S,
    out: K,
) -> u8
where
    R: AllocGlobal + Eprint,
    S: Source + Drop,
    K: Sink + Drop,
{
    let is_writable = image.is_writable;
    let notes = RefCell::new(ScriptNotes::new());
    let mut disk = WatchedDisk::new(rt, image.disk, watch);
    let mut script = NotedSource::new(&notes, script);
    let mut out = FrontSink::new(NotedSink::new(&notes, out));
    let status = run_shell(rt.alloc(), request.words, &mut disk, &mut script, &mut out);
    explain(
        rt,
        &Run {
            request: *request,
            access: access_of(request.words),
            status,
            printed: out.front(),
            sectors: disk.sectors(),
            is_writable,
            has_failed_to_write: disk.has_failed_to_write(),
        },
    );
    if let Ok(notes) = notes.try_borrow() {
        explain_slips(rt, &notes);
    }
    status
}

fn run_request<R>(rt: &R, request: &Request<'_>, watched: bool) -> u8
where
    R: Files<File = File> + AllocGlobal + Input + Print + Eprint,
{
    let _held = match hold_streams(rt) {
        Ok(held) => held,
        Err(error) => {
            let _ = rt.eprintln(format_args!("ntfs_shell: cannot open /dev/null: {error}"));
            return DEVICE_FAILED;
        }
    };
    let access = access_of(request.words);
    let image = match open_image(rt, request.image, access) {
        Ok(image) => image,
        Err(ImageFault::Memory) => {
            complain(rt, "out of memory; nothing was done");
            return OUT_OF_MEMORY;
        }
        Err(fault) => {
            complain_of_image(rt, request, &fault);
            return DEVICE_FAILED;
        }
    };
    if !image.is_writable && access != Access::Reads {
        let _ = rt.eprintln(format_args!(
            "ntfs_shell: IMAGE {:?} can only be read, so an edit will fail as a device fault",
            request.image
        ));
    }
    let script = StdSource::new(rt.reader());
    let out = StdSink::new(io::writer(rt));
    run_words(rt, request, image, watch_of(watched, access), script, out)
}

fn start_with<R>(rt: &R, arguments: &[String], watched: bool) -> u8
where
    R: Files<File = File> + AllocGlobal + Input + Print + Eprint,
{
    match arguments {
        [_, word] if word.as_str() == "--help" => return print_text(rt, HELP),
        [_, word] if word.as_str() == "--version" => return print_text(rt, VERSION),
        _ => {}
    }
    match request_of(arguments) {
        Some(request) => run_request(rt, &request, watched),
        None => {
            complain(rt, "IMAGE and a word are wanted; see ntfs_shell --help");
            UNKNOWN_WORDS
        }
    }
}

/// Does what the program's arguments ask for, and gives its status. Where it is `watched`, a long reading tells on standard
/// error how far it has come.
pub fn start<R>(rt: &R, watched: bool) -> u8
where
    R: Env + Files<File = File> + AllocGlobal + Input + Print + Eprint,
{
    match read_arguments(rt) {
        Ok(arguments) => start_with(rt, &arguments, watched),
        Err(error) if error.kind() == ErrorKind::OutOfMemory => {
            complain(rt, "out of memory; nothing was done");
            OUT_OF_MEMORY
        }
        Err(_) => {
            complain_of_argument(rt);
            UNKNOWN_WORDS
        }
    }
}
