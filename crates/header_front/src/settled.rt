// Whether bytes settle what is read from them: Some only where nothing that follows makes a difference.
ghost use Rattle.std.specs.Prelude.{ℕ, List, IfSome};
ghost use Rattle.format.specs.Request.{Pair, EncryptedDataKey};
ghost use Rattle.format.specs.Reading.{read_header};
ghost use Rattle.header_front.specs.Settled.{Settles, read_tail, read_data_keys_on};

use header::suite::{FRAMED, START};
use header_read::{EncryptedDataKeys, cut_field};
use octets::{cut, cut_number, equal};

// the commitment's and the tag's bytes
const COMMITMENT_AND_TAG: usize = 48;

// From the content type on. A reader answers None for bytes that are too few as for wrong ones; here they differ.
fn tail_settled(bytes: &[u8]) -> Option<()>
    ensures { IfSome result (λ _. (id : List ℕ) (ps : List Pair) (ks : List EncryptedDataKey) → Settles bytes.now (read_tail id ps ks)) }
{
    let (content_type, more) = cut(bytes, FRAMED.len())?;
    if !equal(content_type, &FRAMED) {
        return Some(());
    }
    let (frame_length, rest) = cut_number::<u32, _>(more)?;
    if frame_length == 0 {
        return Some(());
    }
    if rest.len() < COMMITMENT_AND_TAG {
        return None;
    }
    Some(())
}

// From the number of encrypted data keys on.
fn data_keys_settled(bytes: &[u8]) -> Option<()>
    ensures { IfSome result (λ _. (id : List ℕ) (ps : List Pair) → Settles bytes.now (read_data_keys_on id ps)) }
{
    let (count, keys) = cut_number::<u16, _>(bytes)?;
    if count == 0 {
        return Some(());
    }
    let (_, rest) = EncryptedDataKeys::cut(count as usize, keys)?;
    tail_settled(rest)
}

pub fn settled(bytes: &[u8]) -> Option<()>
    ensures { IfSome result (λ _. Settles bytes.now read_header) }
{
    let (start, more) = cut(bytes, START.len())?;
    if !equal(start, &START) {
        return Some(());
    }
    let (_, context) = cut(more, 32)?;
    let (_, keys) = cut_field(context)?;
    data_keys_settled(keys)
}
