// Whole messages and their headers, made by another implementation: one case a line.
use crate::ciphers::all_zero;
use crate::requests::{Fixed, OwnedDataKey, OwnedLists, OwnedPair, header_request};
use crate::words::Words;
use anyhow::ensure;
use header::Request;
use header_read::ReadHeader;
use opening::{OpenRefusal, Opened};

pub fn header_case(words: &mut Words) -> anyhow::Result<bool> {
    let (message, expected) = words.read::<(Vec<u8>, &str)>()?;
    match (strongbox::read_header(message.as_slice()), expected) {
        (Some(read), "is") => header_is(read, words),
        (None, "none") => Ok(true),
        _ => Ok(false),
    }
}

// The parts of a header that was read, with its tag and how much comes after, as the words say them. What a word says is let go before the
// next is read.
fn header_is(read: ReadHeader, words: &mut Words) -> anyhow::Result<bool> {
    let header = read.header;
    let id = words.read::<Vec<u8>>()?.as_slice() == header.id;
    let frame_length = words.read::<u64>()? == u64::from(header.frame_length);
    let commitment = words.read::<Vec<u8>>()?.as_slice() == header.commitment;
    let tag = words.read::<Vec<u8>>()?.as_slice() == read.tag;
    let rest = words.read::<u64>()? == read.rest.len() as u64;
    let context = header.context.pairs().eq(
        words
            .read::<Vec<OwnedPair>>()?
            .iter()
            .map(|pair| pair.lend()),
    );
    let data_keys = header.encrypted_data_keys.data_keys().eq(
        words
            .read::<Vec<OwnedDataKey>>()?
            .iter()
            .map(|key| key.lend()),
    );
    Ok(id && frame_length && commitment && tag && rest && context && data_keys)
}

// Opened, or refused with the number and the frame that are expected; what is lent holds the text and zeros, or zeros.
pub fn open_case(words: &mut Words) -> anyhow::Result<bool> {
    let (key, lent, message) = words.read::<([u8; 32], usize, Vec<u8>)>()?;
    let mut out = vec![in words.heap; 170u8; lent]?;
    let answer = strongbox::open(&key, message.as_slice(), out.as_mut_slice());
    match (answer, words.read()?) {
        (Ok(opened), "is") => opened_is(opened, out.as_slice(), words),
        (Err(refusal), "refused") => refused_is(refusal, out.as_slice(), words),
        _ => Ok(false),
    }
}

fn opened_is(opened: Opened, out: &[u8], words: &mut Words) -> anyhow::Result<bool> {
    let (text, context) = words.read::<(Vec<u8>, Vec<OwnedPair>)>()?;
    Ok(
        opened.len == text.len()
            && text_and_zeros(text.as_slice(), out)
            && opened
                .context
                .pairs()
                .eq(context.iter().map(|pair| pair.lend())),
    )
}

fn text_and_zeros(text: &[u8], out: &[u8]) -> bool {
    out.strip_prefix(text).is_some_and(all_zero)
}

fn refused_is(refusal: OpenRefusal, out: &[u8], words: &mut Words) -> anyhow::Result<bool> {
    let expected = words.read::<(u64, u64)>()?;
    let said = (u64::from(refusal.number()), u64::from(refusal.frame()));
    Ok(said == expected && all_zero(out))
}

// The length of a message, for a text of so many bytes, or the number of the refusal.
pub fn length_case(words: &mut Words) -> anyhow::Result<bool> {
    let fixed = words.read::<Fixed>()?;
    ensure!(fixed.key.len() == 32, "bytes of another length");
    let (text_len, owned) = words.read::<(u64, OwnedLists)>()?;
    let lists = owned.lend(words.heap)?;
    let told = match strongbox::message_len(header_request(&fixed, &lists), text_len) {
        Ok(length) => ("is", length),
        Err(refusal) => ("refused", u64::from(refusal.number())),
    };
    Ok(words.read::<(&str, u64)>()? == told)
}

// Sealed into as many bytes as are lent, or as the message has; a refusal leaves them as they were.
pub fn seal_case(words: &mut Words) -> anyhow::Result<bool> {
    let (fixed, room, text, owned) = words.read::<(Fixed, &str, Vec<u8>, OwnedLists)>()?;
    let lists = owned.lend(words.heap)?;
    let request = Request {
        key: fixed.key.as_slice(),
        header: header_request(&fixed, &lists),
        text: text.as_slice(),
    };
    sealed_is(request, room_for(request, room)?, words)
}

// As many bytes as the word says, or for `?` as the message has, and none where it is refused, which the case then looks at.
fn room_for(request: Request, room: &str) -> anyhow::Result<usize> {
    let len = match room {
        "?" => strongbox::sealed_len(request).unwrap_or(0),
        given => given.parse::<u64>()?,
    };
    Ok(usize::try_from(len)?)
}

fn sealed_is(request: Request, room: usize, words: &mut Words) -> anyhow::Result<bool> {
    let mut out = vec![in words.heap; 0u8; room]?;
    match strongbox::seal(request, out.as_mut_slice()) {
        Ok(()) => {
            let (expected, message) = words.read::<(&str, Vec<u8>)>()?;
            Ok(expected == "is" && message.as_slice() == out.as_slice())
        }
        Err(refusal) => {
            let told = ("refused", u64::from(refusal.number()));
            Ok(words.read::<(&str, u64)>()? == told && all_zero(out.as_slice()))
        }
    }
}
