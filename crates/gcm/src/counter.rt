// Counter mode: a text and the cipher's blocks, byte by byte, from one slice into another.
ghost use Rattle.std.specs.Prelude.{◌≡◌, ◌≤◌, ◌++◌, length};
ghost use Rattle.octets.specs.Bytes.{xor_bytes, to_bytes};
ghost use Rattle.aes256.specs.Aes.{round_keys};
ghost use Rattle.aes256.specs.RoundKeys.{key_of};
ghost use Rattle.gcm.specs.Gcm.{ctr};

use aes256::{RoundKeys, encrypt_block};

// The nonce and the four low bytes of the counter.
pub fn counter_block(nonce: &[u8; 12], c: u64) -> [u8; 16]
    ensures { result ≡ nonce.now ++ to_bytes 4 c }
{
    let mut block = [0; 16];
    block[..12].copy_from_slice(nonce);
    block[12..].copy_from_slice(&c.to_be_bytes()[4..]);
    block
}

// Writes `src`, under exclusive or with the first bytes of `mask`, over all of `dst`.
fn xor_into(src: &[u8], mask: &[u8; 16], dst: &mut [u8])
    requires { (length src.now ≤ 16) × (length dst.old ≡ length src.now) }
    ensures { dst.new ≡ xor_bytes src.now mask.now }
{
    // By place: a text is secret, and no iterator runs over it.
    for j in 0..src.len() {
        dst[j] = src[j] ^ mask[j];
    }
}

// All of `src`, from counter 2 on.
pub fn xor_keystream(keys: &RoundKeys, nonce: &[u8; 12], src: &[u8], dst: &mut [u8])
    requires { length dst.old ≡ length src.now }
    ensures { dst.new ≡ ctr (round_keys (key_of keys.now)) nonce.now src.now }
{
    // By place, as above.
    for i in 0..src.len().div_ceil(16) {
        let at = 16 * i;
        let end = src.len().min(at + 16);
        let mask = encrypt_block(keys, counter_block(nonce, i as u64 + 2));
        xor_into(&src[at..end], &mask, &mut dst[at..end]);
    }
}
