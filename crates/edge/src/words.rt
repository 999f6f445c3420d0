//! What is wrong with the words of a command line: the word or the option that breaks its rule.
use std::fmt;

/// The fewest sectors of a new volume.
const FEWEST_SECTORS: u64 = 2048;

/// Why words are not known.
#[derive(Clone, Copy)]
pub enum WordsFault<'a> {
    /// This word stands where IMAGE does.
    ImageBehind(&'a str),
    /// This is no word of the program.
    NoWord(&'a str),
    /// Words stand behind one that takes none.
    TakesNone(&'a str),
    /// This is wrong with the options of a word.
    Options(&'static str),
}

impl fmt::Display for WordsFault<'_> {
    fn fmt<W: fmt::Write>(&self, to: &mut fmt::Formatter<W>) -> fmt::Result {
        match *self {
            WordsFault::ImageBehind(word) => write!(to, "IMAGE stands first, and {word} behind it"),
            WordsFault::NoWord(word) => write!(to, "{word:?} is no word of the program"),
            WordsFault::TakesNone(word) => write!(to, "{word} takes no word behind it"),
            WordsFault::Options(rule) => to.write_str(rule),
        }
    }
}

// Whether this is a word of the program.
fn is_known(word: &str) -> bool {
    matches!(word, "boot" | "label" | "check" | "format" | "run" | "make")
}

/// The word that stands where IMAGE does, before what may be IMAGE.
pub fn word_before_image<'a>(image: &'a str, words: &[String]) -> Option<&'a str> {
    match words {
        [word, ..] if is_known(image) && !is_known(word) => Some(image),
        _ => None,
    }
}

// The number that a word writes in decimal, without a sign or a leading zero.
fn number_in(word: &str) -> Option<u64> {
    match word.as_bytes() {
        [b'0'] => Some(0),
        [b'1'..=b'9', ..] => word.parse::<u64>().ok(),
        _ => None,
    }
}

// The rule of an option of `format` that its word breaks: where the numbers are numbers, that of the label.
fn broken_format(words: &[String]) -> &'static str {
    match words {
        [sectors, _, _, _] if number_in(sectors).is_none() => {
            "SECTORS is a decimal number below 18446744073709551616, without a sign or a leading zero"
        }
        [_, cluster, _, _] if number_in(cluster).is_none() => "CLUSTER is 512, 1024, 2048 or 4096",
        [_, cluster, _, _] if number_in(cluster) > Some(4_294_967_295) => {
            "CLUSTER is 512, 1024, 2048 or 4096"
        }
        [_, _, serial, _] if number_in(serial).is_none() => {
            "SERIAL is a decimal number below 18446744073709551616, without a sign or a leading zero"
        }
        [_, _, _, _] => {
            "LABEL has 1 to 32 units, and a space, /, : and % in it are written %0020, %002F, %003A and %0025"
        }
        _ => "format takes SECTORS, CLUSTER, SERIAL and LABEL behind it",
    }
}

// The rule of a number of `make` that its word breaks.
fn broken_make(words: &[String]) -> &'static str {
    match words {
        [count, _] if number_in(count).is_none() => {
            "N is a decimal number of at most 1000000, without a sign or a leading zero"
        }
        [count, _] if number_in(count) > Some(1_000_000) => {
            "N is a decimal number of at most 1000000, without a sign or a leading zero"
        }
        [_, _] => {
            "SEED is a decimal number below 18446744073709551616, without a sign or a leading zero"
        }
        _ => "make takes N and SEED behind it",
    }
}

/// What is wrong with words that are not known.
pub fn fault_of<'a>(image: &'a str, words: &'a [String]) -> WordsFault<'a> {
    if let Some(word) = word_before_image(image, words) {
        return WordsFault::ImageBehind(word);
    }
    match words {
        [] => WordsFault::NoWord(""),
        [word, rest @ ..] => match word.as_str() {
            "format" => WordsFault::Options(broken_format(rest)),
            "make" => WordsFault::Options(broken_make(rest)),
            word if is_known(word) => WordsFault::TakesNone(word),
            word => WordsFault::NoWord(word),
        },
    }
}

/// Why options of a new volume are refused.
#[derive(Clone, Copy)]
pub enum OptionsFault {
    /// IMAGE has so many whole sectors.
    Sectors(u64),
    Cluster,
    Clusters,
}

impl fmt::Display for OptionsFault {
    fn fmt<W: fmt::Write>(&self, to: &mut fmt::Formatter<W>) -> fmt::Result {
        match *self {
            OptionsFault::Sectors(sectors) => write!(
                to,
                "SECTORS is from {FEWEST_SECTORS} to the whole sectors of IMAGE, which are {sectors}"
            ),
            OptionsFault::Cluster => to.write_str("CLUSTER is 512, 1024, 2048 or 4096"),
            OptionsFault::Clusters => to.write_str("the volume has at most 67108864 clusters"),
        }
    }
}

/// The option of `format` that breaks its rule, on an image of so many sectors.
pub fn broken_option(words: &[String], sectors: u64) -> OptionsFault {
    let (asked, cluster) = match words {
        [_, asked, cluster, ..] => (number_in(asked), number_in(cluster)),
        _ => (None, None),
    };
    let asked = asked.unwrap_or(0);
    if asked < FEWEST_SECTORS || asked > sectors {
        return OptionsFault::Sectors(sectors);
    }
    match cluster {
        Some(512 | 1024 | 2048 | 4096) => OptionsFault::Clusters,
        _ => OptionsFault::Cluster,
    }
}
