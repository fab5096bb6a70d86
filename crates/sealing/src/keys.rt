// The keys of one message, prepared, and the start of a message that is sealed with them.
ghost use Rattle.std.specs.Prelude.{◌≡◌, ◌+◌, ◌≤◌, [], ◌++◌, length};
ghost use Rattle.octets.specs.Splice.{Written};
ghost use Rattle.gcm.specs.Key.{key_of};
ghost use Rattle.header.specs.Models.{request_with};
ghost use Rattle.header.specs.Checked.{header_refusal};
ghost use Rattle.header.specs.Written.{asked_bytes};
ghost use Rattle.frames.specs.Cipher.{header_tag};
ghost use Rattle.sealing.specs.Keys.{KeysFor};

use frames::MessageCipher;
use gcm::Key;
use header::{HeaderRequest, write_header};
use hkdf::message_keys;
use octets::put;

#[derive(Drop)]
pub struct Keys {
    pub cipher: MessageCipher,
    pub commitment: [u8; 32],
}

impl Keys {
    // The cipher under the sealing key, and the commitment; the sealing key itself is overwritten.
    pub fn new(key: [u8; 32], id: [u8; 32]) -> Keys
        ensures { KeysFor key id result }
    {
        let mut keys = message_keys(key, id);
        let prepared = Key::new(&keys.sealing_key);
        keys.sealing_key = [0; 32];
        Keys {
            cipher: MessageCipher { key: prepared, id },
            commitment: keys.commitment,
        }
    }

    // A header that passed its checks and its tag, from the front of enough lent bytes on; and where the frames go.
    pub fn write_start(&self, header: HeaderRequest, out: &mut [u8]) -> usize
        requires passed { header_refusal (request_with [] header []) ≡ 0 }
        requires room { length (asked_bytes header self.now.commitment) + 16 ≤ length out.old }
        ensures { Written out.old 0 (asked_bytes header.entry self.now.commitment ++ header_tag (key_of self.now.cipher.key) (asked_bytes header.entry self.now.commitment)) result out.new }
    {
        let end = write_header(header, &self.commitment, out).unwrap();
        let tag = self.cipher.header_tag(&out[..end]);
        put(out, end, &tag).unwrap()
    }
}
