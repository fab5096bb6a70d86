// The tag of additional data and ciphertext.
ghost use Rattle.std.specs.Prelude.{◌≡◌};
ghost use Rattle.aes256.specs.Aes.{round_keys};
ghost use Rattle.gcm.specs.Gcm.{tag_of};
ghost use Rattle.gcm.specs.Key.{key_of};

use crate::counter::counter_block;
use crate::key::Key;
use aes256::encrypt_block;
use ghash::{Element, hash_block, hash_padded};

pub fn compute_tag(key: &Key, nonce: &[u8; 12], aad: &[u8], ciphertext: &[u8]) -> [u8; 16]
    ensures { result ≡ tag_of (round_keys (key_of key.now)) nonce.now aad.now ciphertext.now }
{
    let a = hash_padded(&key.table, Element::ZERO, aad);
    let b = hash_padded(&key.table, a, ciphertext);
    let lengths = Element {
        hi: (aad.len() as u64) << 3,
        lo: (ciphertext.len() as u64) << 3,
    };
    let hash = hash_block(&key.table, b, lengths);
    let mask = encrypt_block(&key.keys, counter_block(nonce, 1));
    (hash + Element::from_bytes(&mask)).to_bytes()
}
