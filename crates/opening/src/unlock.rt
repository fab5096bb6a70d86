// A header checked with a key: what its frames are opened with.
ghost use Rattle.std.specs.Prelude.{◌≡◌, [], ◌∷◌, length};
ghost use Rattle.octets.specs.Bytes.{bytes_eq};
ghost use Rattle.gcm.specs.Key.{key_of};
ghost use Rattle.format.specs.Header.{header_bytes};
ghost use Rattle.format.specs.Reading.{read_header};
ghost use Rattle.frames.specs.Cipher.{header_tag};
ghost use Rattle.header_read.specs.Parts.{header_in, read_header_in};
ghost use Rattle.opening.specs.Unlocked.{Unlocks};

use crate::refusal::OpenRefusal;
use frames::MessageCipher;
use gcm::Key;
use header::array_32;
use header_read::ReadHeader;
use hkdf::{MessageKeys, message_keys};
use octets::equal;

#[derive(Drop)]
pub struct Unlocked {
    pub cipher: MessageCipher,
    pub frame_length: u32,
}

// Whether the tag is that of the bytes that the header was read from.
fn header_tag_right(cipher: &MessageCipher, bytes: &[u8], read: ReadHeader) -> bool
    requires { (read_header_in read ∷ []) ≡ read_header bytes.now }
    ensures { result ≡ bytes_eq (header_tag (key_of cipher.now.key) (header_bytes (header_in read.entry.header))) read.entry.tag.now }
{
    let end = bytes.len() - read.rest.len() - read.tag.len();
    let tag = cipher.header_tag(&bytes[0..end]);
    equal(&tag, read.tag)
}

// The sealing key, prepared, of a header that was read from the front of the bytes; refused where commitment or tag is another's.
pub fn unlock(key: &[u8; 32], bytes: &[u8], read: ReadHeader) -> Result<Unlocked, OpenRefusal>
    requires { (read_header_in read ∷ []) ≡ read_header bytes.now }
    ensures { Unlocks key.now (header_in read.entry.header) read.entry.tag.now result }
{
    let header = read.header;
    let id = array_32(header.id).unwrap();
    let MessageKeys {
        mut sealing_key,
        commitment,
    } = message_keys(*key, id);
    if !equal(&commitment, header.commitment) {
        sealing_key.fill(0);
        return Err(OpenRefusal::Commitment);
    }
    let mut cipher = MessageCipher {
        key: Key::new(&sealing_key),
        id,
    };
    sealing_key.fill(0);
    if !header_tag_right(&cipher, bytes, read) {
        cipher.wipe();
        return Err(OpenRefusal::HeaderTag);
    }
    Ok(Unlocked {
        cipher,
        frame_length: header.frame_length,
    })
}
