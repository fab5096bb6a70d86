// Whole messages, sealed into lent bytes, and how long they are.
ghost use Rattle.std.specs.Prelude.{◌≡◌, ℕ, suc, true, List, [], length, is_ok, if◌then◌else◌};
ghost use Rattle.gcm.specs.Key.{key_of};
ghost use Rattle.format.specs.Request.{seal_refusal};
ghost use Rattle.format.specs.Message.{frames};
ghost use Rattle.header.specs.Models.{request_of, request_with};
ghost use Rattle.header.specs.Checked.{answer_number, header_refusal, text_fits, HandsOnHeader, HandsOn};
ghost use Rattle.sealing.specs.Whole.{sealed_message, frames_length};
ghost use Rattle.sealing.specs.Answers.{seal_number, length_number, LengthTold, MessageLength};

use crate::framing::Framing;
use crate::keys::Keys;
use frames::{FrameKind, KEY_LENGTH, MessageCipher, TAG_LENGTH};
use header::{
    Checked, CheckedHeader, HeaderRequest, Request, SealRefusal, check, check_header, text_fits,
};

// How long the message of so long a text is under a header, whatever its key: both passed their checks.
fn checked_len(header: HeaderRequest, checked: CheckedHeader, text_len: u64) -> u64
    requires checked { HandsOnHeader header checked }
    requires passed { header_refusal (request_with [] header []) ≡ 0 }
    requires fits { text_fits text_len header.frame_length ≡ true }
    ensures { (key t : List ℕ) → length t ≡ text_len → result ≡ length (sealed_message (request_with key header.entry t)) }
{
    let framing = Framing {
        text_len,
        frame_length: header.frame_length,
    };
    (checked.header_len + TAG_LENGTH) as u64 + framing.frames_len()
}

// How long the message of so long a text is under a header, whatever its key, or why it is refused.
pub fn message_len(header: HeaderRequest, text_len: u64) -> Result<u64, SealRefusal>
    ensures value { answer_number result ≡ length_number header.entry text_len }
    ensures told { LengthTold header.entry text_len result }
{
    let checked = check_header(header)?;
    if !text_fits(text_len, header.frame_length) {
        return Err(SealRefusal::Text);
    }
    Ok(checked_len(header, checked, text_len))
}

// How long a request's message is, or why it is refused. Of the key only its length is looked at.
pub fn sealed_len(request: Request) -> Result<u64, SealRefusal>
    ensures value { answer_number result ≡ seal_refusal (request_of request.entry) }
    ensures told { MessageLength (request_of request.entry) result }
{
    if request.key.len() != KEY_LENGTH {
        return Err(SealRefusal::KeyOrIdOrFrameLength);
    }
    message_len(request.header, request.text.len() as u64)
}

// All frames of a text, over all of the lent bytes.
fn seal_frames(cipher: &MessageCipher, framing: Framing, text: &[u8], out: &mut [u8])
    requires text { length text.now ≡ framing.text_len }
    requires room { length out.old ≡ frames_length framing.text_len framing.frame_length }
    ensures { out.new ≡ frames (suc (length text.now)) (key_of cipher.now.key) cipher.now.id framing.frame_length 1 text.now }
{
    let step = framing.frame_length as usize;
    let sealed = step + FrameKind::Regular.overhead();
    let regular = framing.regular_frames();
    // the text is secret, so it is cut by places, and their number is public
    for done in 0..regular {
        let from = done as usize * step;
        let at = done as usize * sealed;
        let part = &text[from..from + step];
        cipher
            .seal_frame(
                FrameKind::Regular,
                done + 1,
                part,
                &mut out[at..at + sealed],
            )
            .unwrap();
    }
    let from = regular as usize * step;
    let at = regular as usize * sealed;
    cipher
        .seal_frame(FrameKind::Final, regular + 1, &text[from..], &mut out[at..])
        .unwrap();
}

// The message of a request that isn't refused, over all of the lent bytes.
fn write_message(request: Request, checked: Checked, out: &mut [u8])
    requires checked { HandsOn request checked }
    requires passed { seal_refusal (request_of request) ≡ 0 }
    requires room { length out.old ≡ length (sealed_message (request_of request)) }
    ensures { out.new ≡ sealed_message (request_of request.entry) }
{
    let framing = Framing {
        text_len: request.text.len() as u64,
        frame_length: request.header.frame_length,
    };
    let mut keys = Keys::new(checked.key, checked.header.id);
    let at = keys.write_start(request.header, out);
    seal_frames(&keys.cipher, framing, request.text, &mut out[at..]);
    keys.cipher.wipe();
}

// A request's message, over all of the lent bytes, or why it is refused; they are then as they were.
pub fn seal(request: Request, out: &mut [u8]) -> Result<(), SealRefusal>
    ensures value { answer_number result ≡ seal_number (request_of request.entry) (length out.old) }
    ensures written { out.new ≡ (if is_ok result then sealed_message (request_of request.entry) else out.old) }
{
    let checked = check(request)?;
    let len = checked_len(request.header, checked.header, request.text.len() as u64);
    if out.len() as u64 != len {
        return Err(SealRefusal::OutLength);
    }
    write_message(request, checked, out);
    Ok(())
}
