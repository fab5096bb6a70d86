// The next frame, read from the front of lent bytes.
ghost use Rattle.std.specs.Prelude.{◌≡◌};
ghost use Rattle.format.specs.Reading.{read_frame, read_regular, read_final};
ghost use Rattle.frames.specs.Kind.{is_final};
ghost use Rattle.frames.specs.Next.{next_frame, after_nonce, rest, body};

use crate::aad::frame_nonce;
use crate::frame::{END_MARKER, Frame, FrameKind};
use octets::cut_number;

// What comes after a nonce that has to be this frame's.
fn skip_nonce(number: u32, bytes: &[u8]) -> Option<&[u8]>
    ensures { rest result ≡ after_nonce number bytes.now }
{
    bytes.strip_prefix(&frame_nonce(number))
}

// A ciphertext of so many bytes and its tag.
fn read_body(kind: FrameKind, len: usize, bytes: &[u8]) -> Option<Frame<'_, '_>>
    ensures { next_frame result ≡ body (is_final kind) len bytes.now }
{
    let (ciphertext, more) = bytes.split_at_checked(len)?;
    let (tag, rest) = more.split_first_chunk()?;
    Some(Frame {
        kind,
        ciphertext,
        tag: *tag,
        rest,
    })
}

// What comes after a regular frame's number, and after the end marker: the two share the nonce and the body only.
fn read_regular(frame_length: u32, number: u32, bytes: &[u8]) -> Option<Frame<'_, '_>>
    ensures { next_frame result ≡ read_regular frame_length number bytes.now }
{
    let sealed = skip_nonce(number, bytes)?;
    read_body(FrameKind::Regular, frame_length as usize, sealed)
}

fn read_final(frame_length: u32, number: u32, bytes: &[u8]) -> Option<Frame<'_, '_>>
    ensures { next_frame result ≡ read_final frame_length number bytes.now }
{
    let (own_number, more) = cut_number::<u32, _>(bytes)?;
    if own_number != number {
        return None;
    }
    let more = skip_nonce(number, more)?;
    let (len, sealed) = cut_number::<u32, _>(more)?;
    if len > frame_length {
        return None;
    }
    read_body(FrameKind::Final, len as usize, sealed)
}

// The frame at the front of the bytes, which has to have this number and to stand there whole.
pub fn read_frame(frame_length: u32, number: u32, bytes: &[u8]) -> Option<Frame<'_, '_>>
    ensures value { next_frame result ≡ read_frame frame_length number bytes.now }
{
    let (mark, more) = cut_number::<u32, _>(bytes)?;
    if mark == END_MARKER {
        return read_final(frame_length, number, more);
    }
    if mark != number {
        return None;
    }
    read_regular(frame_length, number, more)
}
