// HMAC over SHA-512, for keys and messages of any length.
ghost use Rattle.std.specs.Prelude.{◌≡◌, ℕ, List, [], ◌++◌};
ghost use Rattle.hkdf.specs.Hmac.{each_xor, block_key, hmac};
ghost use Rattle.hkdf.specs.Keyed.{Keyed};

use sha512::{Hasher, hash};

const INNER_MASK: u8 = 0x36;

const OUTER_MASK: u8 = 0x5c;

// a key as one block: hashed first where it is longer than a block
#[tactic(auto, using(crate::proofs::BlockKey::long_key, crate::proofs::BlockKey::short_key))]
fn block_key(key: &[u8]) -> [u8; 128]
    ensures { result ≡ block_key key.now }
{
    let mut block = [0; 128];
    if key.len() > 128 {
        block[..64].copy_from_slice(&hash(key));
    } else {
        block[..key.len()].copy_from_slice(key);
    }
    block
}

fn each_xor(mask: u8, block: [u8; 128]) -> [u8; 128]
    ensures { result ≡ each_xor mask block }
{
    let mut out = block;
    // by index: a key may be secret
    for i in 0..128 {
        out[i] = mask ^ block[i];
    }
    out
}

// an HMAC whose message comes in pieces
#[derive(Drop)]
pub(crate) struct Mac {
    inner: Hasher,
    outer: [u8; 128],
}

impl Mac {
    pub(crate) fn new(key: &[u8]) -> Self
        ensures { Keyed result key.now [] }
    {
        let block = block_key(key);
        let mut inner = Hasher::new();
        inner.update(&each_xor(INNER_MASK, block));
        Mac {
            inner,
            outer: each_xor(OUTER_MASK, block),
        }
    }

    pub(crate) fn update(&mut self, bytes: &[u8])
        ensures { (k m : List ℕ) → Keyed self.old k m → Keyed self.new k (m ++ bytes.now) }
    {
        self.inner.update(bytes);
    }

    pub(crate) fn finish(self) -> [u8; 64]
        ensures { (k m : List ℕ) → Keyed self k m → result ≡ hmac k m }
    {
        let Mac { inner, outer } = self;
        let mut hasher = Hasher::new();
        hasher.update(&outer);
        hasher.update(&inner.finish());
        hasher.finish()
    }
}

// three calls, as sha512's hash of its own state: a trait for both would be longer than they are
pub fn hmac(key: &[u8], bytes: &[u8]) -> [u8; 64]
    ensures value { result ≡ hmac key.now bytes.now }
{
    let mut mac = Mac::new(key);
    mac.update(bytes);
    mac.finish()
}
