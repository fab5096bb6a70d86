// The header that a request asks for: its checks, its length, and its bytes.
ghost use Rattle.std.specs.Prelude.{◌≡◌, ℕ, List, [], length, IfOk};
ghost use Rattle.octets.specs.Writing.{Writes};
ghost use Rattle.format.specs.Header.{header_bytes};
ghost use Rattle.header.specs.Models.{header_with, request_with};
ghost use Rattle.header.specs.Checked.{answer_number, header_refusal};
ghost use Rattle.header.specs.Asked.{header_of};

use crate::checks::array_32;
use crate::context::Context;
use crate::data_keys::DataKeys;
use crate::refusal::SealRefusal;
use crate::request::HeaderRequest;
use crate::suite::{FRAMED, START};
use octets::Writer;

// what a header has beside its context and data keys, without its tag: start, id, content type, frame length, commitment
const FIXED_LEN: usize = 3 + 32 + 1 + 4 + 32;

// A header that passed its checks, but for its commitment.
#[derive(Clone, Copy)]
pub struct Header<'c, 'n, 'v, 'e, 'p, 'o, 'w> {
    pub id: [u8; 32],
    pub context: Context<'c, 'n, 'v>,
    data_keys: DataKeys<'e, 'p, 'o, 'w>,
    frame_length: u32,
}

impl<'c, 'n, 'v, 'e, 'p, 'o, 'w> Header<'c, 'n, 'v, 'e, 'p, 'o, 'w> {
    // what a request asks for, or the refusal by the first check that it fails; each check hands its value on or goes by `let .. else`
    #[tactic(auto, unfolding(octets::specs::Bits::pick, format::specs::Request::end_marker))]
    pub fn checked(
        asked: HeaderRequest<'_, 'c, 'n, 'v, 'e, 'p, 'o, 'w>,
    ) -> Result<Header<'c, 'n, 'v, 'e, 'p, 'o, 'w>, SealRefusal>
        ensures value { answer_number result ≡ header_refusal (request_with [] asked.entry []) }
        ensures asked { IfOk result (λ h. (k : List ℕ) → header_of h k ≡ header_with asked.entry k) }
    {
        let Some(id) = array_32(asked.id) else {
            return Err(SealRefusal::KeyOrIdOrFrameLength);
        };
        if asked.frame_length == 0 {
            return Err(SealRefusal::KeyOrIdOrFrameLength);
        }
        let Some(context) = Context::checked(asked.context) else {
            return Err(SealRefusal::Context);
        };
        let Some(data_keys) = DataKeys::checked(asked.encrypted_data_keys) else {
            return Err(SealRefusal::EncryptedDataKeys);
        };
        Ok(Header {
            id,
            context,
            data_keys,
            frame_length: asked.frame_length,
        })
    }

    // how many bytes it has, without its tag
    pub fn len(self) -> usize
        ensures value { (k : List ℕ) → length k ≡ 32 → result ≡ length (header_bytes (header_of self.entry k)) }
    {
        FIXED_LEN + self.context.len() + self.data_keys.len()
    }

    // with its commitment, behind what the writer wrote
    pub fn put(self, commitment: &[u8; 32], to: &mut Writer) -> Option<()>
        ensures value { Writes to.old (header_bytes (header_of self.entry commitment.now)) result to.new }
    {
        to.put(&START)?;
        to.put(&self.id)?;
        self.context.put(to)?;
        self.data_keys.put(to)?;
        to.put(&FRAMED)?;
        to.put_number(self.frame_length)?;
        to.put(commitment)
    }
}
