// The two keys of a message, from its data key and its id.
ghost use Rattle.std.specs.Prelude.{◌≡◌, ℕ, List};
ghost use Rattle.hkdf.specs.Hmac.{hmac};
ghost use Rattle.hkdf.specs.Hkdf.{hkdf};
ghost use Rattle.hkdf.specs.MessageKeys as Keys;

use crate::kdf::expand;
use crate::mac::hmac;

// the suite's number 4 120 and the letters DERIVEKEY
const DERIVE_LABEL: &[u8; 11] = b"\x04\x78DERIVEKEY";

const COMMIT_LABEL: &[u8; 9] = b"COMMITKEY";

#[derive(Clone, Copy, Drop)]
pub struct MessageKeys {
    pub sealing_key: [u8; 32],
    pub commitment: [u8; 32],
}

fn key_for(extracted: &[u8; 64], label: &[u8]) -> [u8; 32]
    ensures { (salt key : List ℕ) → extracted.now ≡ hmac salt key → result ≡ hkdf salt key label.now 32 }
{
    let mut key = [0; 32];
    expand(extracted, label, &mut key);
    key
}

#[tactic(auto, unfolding(crate::specs::MessageKeys::derive_label, crate::specs::MessageKeys::commit_label))]
pub fn message_keys(key: [u8; 32], id: [u8; 32]) -> MessageKeys
    ensures value { (result.sealing_key ≡ Keys.sealing_key key id) × (result.commitment ≡ Keys.commitment key id) }
{
    let mut extracted = hmac(&id, &key);
    let sealing_key = key_for(&extracted, DERIVE_LABEL);
    let commitment = key_for(&extracted, COMMIT_LABEL);
    extracted.fill(0);
    MessageKeys {
        sealing_key,
        commitment,
    }
}
