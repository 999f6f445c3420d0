//! What a person is told on standard error beside a status: what failed, and what can be done. What is told beside a refusal
//! is in `refused`.
use shell::Access;
use shell::ending::{DEVICE_FAILED, OUT_OF_MEMORY, SINK_FAILED, SOURCE_FAILED, TOO_MUCH};

// The sentence on a failure of a word that only reads IMAGE.
fn sentence_on_reading(status: u8) -> Option<&'static str> {
    match status {
        SINK_FAILED => Some(
            "standard output failed, so the answer is not whole; IMAGE was only read, so ask again",
        ),
        DEVICE_FAILED => Some(
            "a sector of IMAGE could not be read, so nothing was printed; IMAGE was only read, so \
             copy what can be read of it, and ask the copy",
        ),
        OUT_OF_MEMORY => {
            Some("out of memory, so nothing was printed; IMAGE was only read, so ask again")
        }
        _ => None,
    }
}

// The sentence on a failure of the word that makes a volume.
fn sentence_on_formatting(status: u8) -> Option<&'static str> {
    match status {
        SINK_FAILED => Some(
            "standard output failed, so the answer is not whole; the volume was made if the options \
             are in their ranges, so ask boot and label of IMAGE",
        ),
        DEVICE_FAILED => Some(
            "IMAGE failed while a volume was made, so nothing was printed; IMAGE may hold no volume \
             now, or a part of one, so format it again, or take another",
        ),
        OUT_OF_MEMORY => {
            Some("out of memory, so nothing was printed; IMAGE is as it was, so ask again")
        }
        _ => None,
    }
}

// The sentence on a failure of the word that runs a script.
fn sentence_on_running(status: u8) -> Option<&'static str> {
    match status {
        SOURCE_FAILED => Some(
            "standard input failed, so the script was cut off; the lines that ended before were \
             answered",
        ),
        SINK_FAILED => Some(
            "standard output failed, so what was printed is not whole, and a script ended there; the \
             line whose reply was cut off had its turn",
        ),
        DEVICE_FAILED => Some(
            "IMAGE failed, so the script ended there; a line without a reply may have been done or \
             not, so ask check of IMAGE: where it says sound, the volume is whole; where it refuses, \
             an edit or the closing was cut off, and a tool that repairs is wanted",
        ),
        OUT_OF_MEMORY => Some("out of memory, so the script ended there"),
        TOO_MUCH => Some(
            "the script has more than 1073741824 bytes; the lines that end within so many were \
             answered",
        ),
        _ => None,
    }
}

// The sentence on a failure of the word that runs drawn lines.
fn sentence_on_making(status: u8) -> Option<&'static str> {
    match status {
        SINK_FAILED => Some(
            "standard output failed, so the answer is not whole; where IMAGE was accepted, all lines \
             had their turn, and the volume was closed",
        ),
        DEVICE_FAILED => Some(
            "IMAGE failed, so the lines ended there, or the volume was not closed behind them; ask check \
             of IMAGE: where it says sound, the volume is whole; where it refuses, an edit or the \
             closing was cut off, and a tool that repairs is wanted",
        ),
        OUT_OF_MEMORY => Some(
            "out of memory, so nothing was printed; the lines before it had their turn, and the volume \
             was closed",
        ),
        _ => None,
    }
}

/// The sentence on a failure of an IMAGE that could only be read, by whether a write failed, where lines were run.
pub fn sentence_on_read_only(has_failed_to_write: bool) -> &'static str {
    if has_failed_to_write {
        "IMAGE can only be read, so the first line that writes failed, and the run ended there; IMAGE is as \
         it was"
    } else {
        "a sector of IMAGE could not be read, so the run ended there; IMAGE was only read, so copy what can \
         be read of it, and run the copy"
    }
}

/// The sentence on a status that is neither done nor a refusal, nor of unknown words, where the words ask this of IMAGE.
pub fn sentence_on(status: u8, access: Access) -> Option<&'static str> {
    match access {
        Access::Reads => sentence_on_reading(status),
        Access::Formats => sentence_on_formatting(status),
        Access::Runs => sentence_on_running(status),
        Access::Makes => sentence_on_making(status),
    }
}

/// The first line of a text.
pub fn first_line(text: &[u8]) -> &str {
    str::from_utf8(text)
        .unwrap_or("")
        .lines()
        .next()
        .unwrap_or("")
}
