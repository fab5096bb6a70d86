// What can go wrong, as one line for a person. `Display` and `From` are by hand: no derive of std's makes either.
use crate::limits::{MAX_FRAME_LENGTH, MAX_HEADER, MAX_TEXT};
use cli::options::Kind;
use cli::scan::ScanError;
use std::alloc::{AllocError, AllocFailed};
use std::{fmt, io};

#[derive(Clone, Copy)]
pub enum Action {
    Read,
    Write,
}

#[derive(Clone, Copy)]
pub enum Problem<'a> {
    UnknownOption(&'a str),
    NoValue(Kind),
    Missing(Kind),
    Repeated(Kind),
    Operands,
    HeaderAlone,
    NoPair(&'a str),
    NameTwice(&'a str),
    NoDataKey(&'a str),
    FrameLength,
    Id,
    NoKey(&'a str),
    HeaderTooLong,
    TextTooLong(&'a str),
    Exists(&'a str),
    NoFile(&'a str),
    File(Action, &'a str, io::Error),
    // a message that isn't opened: which refusal, by its number, at which frame if at one, and what it means; the library's own type isn't
    // known to this crate
    Refused {
        number: u8,
        frame: Option<u32>,
        why: &'a str,
    },
    NoSuchPair(&'a str, &'a str),
    LongHeader(&'a str),
    LongFrames(&'a str, u32),
    LongMessage(&'a str),
    Changed(&'a str),
    NoText,
    Memory,
}

impl<'a> From<AllocError> for Problem<'a> {
    fn from(_error: AllocError) -> Problem<'a> {
        Problem::Memory
    }
}

impl<'a, T: Drop> From<AllocFailed<T>> for Problem<'a> {
    fn from(_error: AllocFailed<T>) -> Problem<'a> {
        Problem::Memory
    }
}

impl<'a> From<ScanError<'a>> for Problem<'a> {
    fn from(error: ScanError<'a>) -> Problem<'a> {
        match error {
            ScanError::Unknown(word) => Problem::UnknownOption(word),
            ScanError::NoValue(kind) => Problem::NoValue(kind),
            ScanError::Memory => Problem::Memory,
        }
    }
}

impl fmt::Display for Action {
    fn fmt<W: fmt::Write>(&self, f: &mut fmt::Formatter<W>) -> fmt::Result {
        match self {
            Action::Read => f.write_str("read"),
            Action::Write => f.write_str("write"),
        }
    }
}

impl fmt::Display for Problem<'_> {
    fn fmt<W: fmt::Write>(&self, f: &mut fmt::Formatter<W>) -> fmt::Result {
        match *self {
            Problem::UnknownOption(word) => write!(
                f,
                "unknown option {word:?}; --help lists the options"
            ),
            Problem::NoValue(kind) => write!(f, "{kind} needs a value"),
            Problem::Missing(kind) => write!(f, "{kind} is missing"),
            Problem::Repeated(kind) => write!(f, "{kind} is given more than once"),
            Problem::Operands => f.write_str("one INPUT and one OUTPUT are needed"),
            Problem::HeaderAlone => f.write_str("--header takes one INPUT and nothing else"),
            Problem::NoPair(word) => write!(f, "--context {word:?} is not NAME=VALUE"),
            Problem::NameTwice(name) => write!(f, "--context gives the name {name:?} twice"),
            Problem::NoDataKey(word) => write!(
                f,
                "--data-key {word:?} is not PROVIDER_ID:PROVIDER_INFO:FILE"
            ),
            Problem::FrameLength => write!(
                f,
                "--frame-length is not a number from 1 to {MAX_FRAME_LENGTH}"
            ),
            Problem::Id => f.write_str("--id is not 64 hexadecimal digits"),
            Problem::NoKey(path) => write!(
                f,
                "{path:?} is not a key: 32 bytes, or 64 hexadecimal digits"
            ),
            Problem::HeaderTooLong => write!(
                f,
                "context and encrypted data keys make a header of more than {MAX_HEADER} bytes"
            ),
            Problem::TextTooLong(path) => write!(f, "{path:?} has more than {MAX_TEXT} bytes"),
            Problem::Exists(path) => write!(f, "{path:?} exists; --force replaces it"),
            Problem::NoFile(path) => write!(f, "{path:?} is not a regular file"),
            Problem::File(action, path, error) => write!(f, "cannot {action} {path:?}: {error}"),
            Problem::Refused {
                number,
                frame: None,
                why,
            } => write!(f, "refused: {number}: {why}"),
            Problem::Refused {
                number,
                frame: Some(frame),
                why,
            } => write!(f, "refused: {number}, frame {frame}: {why}"),
            Problem::NoSuchPair(name, value) => write!(
                f,
                "the context does not hold the value {value:?} under the name {name:?}"
            ),
            Problem::LongHeader(path) => write!(
                f,
                "{path:?} has a header of more than {MAX_HEADER} bytes"
            ),
            Problem::LongFrames(path, n) => write!(
                f,
                "{path:?} has frames of {n} bytes; the most is {MAX_FRAME_LENGTH}"
            ),
            Problem::LongMessage(path) => write!(
                f,
                "the text in {path:?} has more than {MAX_TEXT} bytes"
            ),
            Problem::Changed(path) => write!(f, "{path:?} changed while it was read"),
            Problem::NoText => f.write_str("a word of the command line is not UTF-8"),
            Problem::Memory => f.write_str("out of memory"),
        }
    }
}
