// Keys prepared, and wiped.
ghost use Rattle.std.specs.Prelude.{◌≡◌};
ghost use Rattle.octets.specs.Bytes.{repeat};
ghost use Rattle.gcm.specs.Key.{key_of};

use crate::key::Key;
use aes256::{encrypt_block, expand_key};
use ghash::{Element, Table};

impl Key {
    pub fn new(key: &[u8; 32]) -> Key
        ensures value { key_of result ≡ key.now }
    {
        let keys = expand_key(key);
        let hash_key = encrypt_block(&keys, [0; 16]);
        let table = Table::new(Element::from_bytes(&hash_key));
        Key { keys, table }
    }

    // Overwritten by the key of zeros.
    pub fn wipe(&mut self)
        ensures value { key_of self.new ≡ repeat 32 0 }
    {
        *self = Key::new(&[0; 32]);
    }
}
