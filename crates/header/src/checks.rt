// Whether a request is refused, and why: the first check that it fails.
ghost use Rattle.std.specs.Prelude.{◌≡◌, []};
ghost use Rattle.format.specs.Request.{seal_refusal};
ghost use Rattle.header.specs.Models.{request_of, request_with};
ghost use Rattle.header.specs.Checked.{array_32, text_fits, answer_number, header_refusal, HeaderChecked, RequestChecked};

use crate::asked::Header;
use crate::passed::{Checked, CheckedHeader};
use crate::refusal::SealRefusal;
use crate::request::{HeaderRequest, Request};
use crate::suite::{MAX_FRAMES, TEXT_LIMIT};

// 32 bytes, by value
pub fn array_32(bytes: &[u8]) -> Option<[u8; 32]>
    ensures value { result ≡ array_32 bytes.now }
{
    <[u8; 32]>::try_from(bytes).ok()
}

// whether so long a text can be sealed in frames of this length
#[tactic(auto, unfolding(format::specs::Request::end_marker))]
pub fn text_fits(text_len: u64, frame_length: u32) -> bool
    ensures value { result ≡ text_fits text_len frame_length }
{
    text_len <= MAX_FRAMES * frame_length as u64 && text_len < TEXT_LIMIT
}

// all that a header says, whatever the key and the text
pub fn check_header(header: HeaderRequest) -> Result<CheckedHeader, SealRefusal>
    ensures value { answer_number result ≡ header_refusal (request_with [] header.entry []) }
    ensures checked { HeaderChecked header.entry result }
{
    let asked = Header::checked(header)?;
    Ok(CheckedHeader {
        id: asked.id,
        pairs_len: asked.context.pairs_len,
        header_len: asked.len(),
    })
}

// a whole request; refusals go by `let .. else`
#[tactic(auto, unfolding(octets::specs::Bits::pick, format::specs::Request::end_marker))]
pub fn check(request: Request) -> Result<Checked, SealRefusal>
    ensures value { answer_number result ≡ seal_refusal (request_of request.entry) }
    ensures checked { RequestChecked request.entry result }
{
    let Some(key) = array_32(request.key) else {
        return Err(SealRefusal::KeyOrIdOrFrameLength);
    };
    let asked = request.header;
    let header = check_header(asked)?;
    if !text_fits(request.text.len() as u64, asked.frame_length) {
        return Err(SealRefusal::Text);
    }
    Ok(Checked { key, header })
}
