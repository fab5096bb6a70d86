// The header of a message, printed for a person. Nothing of it is checked: that takes the key.
use crate::escaped::{Escaped, EscapedPair};
use crate::message::no_header;
use commands::problem::Problem;
use files::read::read_start;
use frames::FrameKind;
use header_read::{Context, EncryptedDataKeys, Header, read_header};
use programs::{FileResult, START_ROOM, input_len, say};
use std::fmt;

// A header with how many bytes it has with its tag, and the message.
#[derive(Clone, Copy)]
struct Shown<'m> {
    header: Header<'m>,
    header_len: u64,
    message_len: u64,
}

// A call of its own, or its room would stand on the stack below what opens, too.
#[inline(never)]
pub fn print_header<'a>(rt: &HostRuntime, path: &'a str) -> Result<(), Problem<'a>> {
    let message_len = input_len(rt, path)?;
    let mut start = [0; START_ROOM];
    let len = read_start(rt, path, &mut start).reading(path)?;
    let begun = &start[..len];
    let read = read_header(begun).ok_or_else(|| no_header(begun, path))?;
    let shown = Shown {
        header: read.header,
        header_len: len.saturating_sub(read.rest.len()) as u64,
        message_len,
    };
    say(rt, shown)
}

// How many frames so many bytes are, if they are frames; only the final one may have less text than the others.
fn frames_in(len: u64, frame_length: u32) -> Option<u64> {
    let beside_final = len.checked_sub(FrameKind::Final.overhead() as u64)?;
    let longest_text = frame_length as u64;
    let regular = longest_text + FrameKind::Regular.overhead() as u64;
    (beside_final % regular <= longest_text).then_some(beside_final / regular + 1)
}

fn write_context<W: fmt::Write>(f: &mut fmt::Formatter<W>, context: Context) -> fmt::Result {
    for pair in context.pairs() {
        let pair = EscapedPair(pair);
        write!(f, "context: {pair}\n")?;
    }
    Ok(())
}

fn write_data_keys<W: fmt::Write>(
    f: &mut fmt::Formatter<W>,
    keys: EncryptedDataKeys,
) -> fmt::Result {
    for key in keys.data_keys() {
        let id = Escaped(key.provider_id);
        let info = Escaped(key.provider_info);
        let len = key.ciphertext.len();
        write!(
            f,
            "data key: {len} bytes\n  provider id: {id}\n  provider info: {info}\n"
        )?;
    }
    Ok(())
}

impl fmt::Display for Shown<'_> {
    fn fmt<W: fmt::Write>(&self, f: &mut fmt::Formatter<W>) -> fmt::Result {
        f.write_str("message id: ")?;
        for byte in self.header.id {
            write!(f, "{byte:02x}")?;
        }
        f.write_str("\n")?;
        write_context(f, self.header.context)?;
        write_data_keys(f, self.header.encrypted_data_keys)?;
        let frame_length = self.header.frame_length;
        let header_len = self.header_len;
        let message_len = self.message_len;
        write!(
            f,
            "frame length: {frame_length}\nheader: {header_len} bytes\nmessage: {message_len} bytes\n"
        )?;
        match frames_in(message_len.saturating_sub(header_len), frame_length) {
            Some(count) => write!(f, "frames by length: {count}"),
            None => f.write_str("frames by length: none, no message has this length"),
        }
    }
}
