// A header, read from the front of a message.
ghost use Rattle.std.specs.Prelude.{◌≡◌};
ghost use Rattle.octets.specs.Cut.{cuts};
ghost use Rattle.format.specs.Reading.{read_context, read_header};
ghost use Rattle.header_read.specs.Cuts.{rests};
ghost use Rattle.header_read.specs.Parts.{rising_rest, context_reads, start_part, frame_length_part, frame_length_reads, header_reads, HasFixedLengths};

use crate::entries::Kind;
use crate::fields::{PairKind, cut_field};
use crate::types::{Context, EncryptedDataKeys, Header, ReadHeader};
use header::suite::{FRAMED, START};
use octets::{cut, cut_number, equal, less};
use std::marker::PhantomData;

// what comes after so many pairs; None if they aren't there, or at the first whose name doesn't come after the one before
// One walk, with the last name beside it: a list that is cut first and gone through afterwards is read twice, and to its end where the
// second name is wrong.
fn skip_rising_pairs(count: usize, bytes: &[u8]) -> Option<&[u8]>
    ensures { rests result ≡ rising_rest count bytes.now }
{
    let mut last: Option<&[u8]> = None;
    let mut rest = bytes;
    for _ in 0..count {
        let (pair, after) = PairKind::cut_off(rest)?;
        if let Some(name) = last {
            if !less(name, pair.name) {
                return None;
            }
        }
        last = Some(pair.name);
        rest = after;
    }
    Some(rest)
}

// the context, and what comes after: an empty field for no pair, or a field of a count and so many pairs, and no more
#[tactic(auto, unfolding(octets::specs::Bits::pick, octets::specs::Cut::and_then, crate::specs::Cuts::listed))]
fn cut_context(bytes: &[u8]) -> Option<(Context<'_>, &[u8])>
    ensures { context_reads result ≡ read_context bytes.now }
{
    let (field, rest) = cut_field(bytes)?;
    if field.is_empty() {
        let none = Context {
            count: 0,
            bytes: field,
            kind: PhantomData,
        };
        return Some((none, rest));
    }
    let (count, pairs) = cut_number::<u16, _>(field)?;
    if count == 0 {
        return None;
    }
    let end = skip_rising_pairs(count as usize, pairs)?;
    if !end.is_empty() {
        return None;
    }
    let context = Context {
        count: count as usize,
        bytes: pairs,
        kind: PhantomData,
    };
    Some((context, rest))
}

// the message id, behind the version and the suite, and what comes after
#[tactic(auto, unfolding(octets::specs::Cut::and_then, octets::specs::Cut::guard))]
fn cut_id(bytes: &[u8]) -> Option<(&[u8], &[u8])>
    ensures { cuts result ≡ start_part bytes.now }
{
    let (start, more) = cut(bytes, START.len())?;
    if !equal(start, &START) {
        return None;
    }
    cut(more, 32)
}

// the frame length, which isn't 0, behind the content type, and what comes after
#[tactic(auto, using(octets::proofs::Cuts::number_some, octets::proofs::Cuts::number_none), unfolding(octets::specs::Cut::and_then, octets::specs::Cut::guard))]
fn cut_frame_length(bytes: &[u8]) -> Option<(u32, &[u8])>
    ensures { frame_length_reads result ≡ frame_length_part bytes.now }
{
    let (content_type, more) = cut(bytes, FRAMED.len())?;
    if !equal(content_type, &FRAMED) {
        return None;
    }
    let (frame_length, rest) = cut_number::<u32, _>(more)?;
    if frame_length == 0 {
        return None;
    }
    Some((frame_length, rest))
}

// The header of a message, its tag, and what comes after, with no key; None if the message begins with no header.
#[tactic(auto, using(crate::proofs::HeaderParts::header_by_parts), unfolding(octets::specs::Cut::and_then))]
pub fn read_header(message: &[u8]) -> Option<ReadHeader<'_>>
    ensures value { header_reads result ≡ read_header message.now }
    ensures lengths { HasFixedLengths result }
{
    let (id, more) = cut_id(message)?;
    let (context, more) = cut_context(more)?;
    let (encrypted_data_keys, more) = EncryptedDataKeys::cut_counted(more)?;
    let (frame_length, more) = cut_frame_length(more)?;
    let (commitment, more) = cut(more, 32)?;
    let (tag, rest) = cut(more, 16)?;
    let header = Header {
        id,
        context,
        encrypted_data_keys,
        frame_length,
        commitment,
    };
    Some(ReadHeader { header, tag, rest })
}
