// One block encrypted.
ghost use Rattle.std.specs.Prelude.{◌≡◌};
ghost use Rattle.octets.specs.Bytes.{xor_bytes};
ghost use Rattle.aes256.specs.Aes.{aes, round_keys};
ghost use Rattle.aes256.specs.Columns.{words_bytes};
ghost use Rattle.aes256.specs.RoundKeys.{key_of};

use crate::keys::RoundKeys;
use crate::rounds::{last_round, round};

// a block as a state, and the first round key added
fn load(b: &[u8; 16], k: [u32; 4]) -> [u32; 4]
    ensures { words_bytes result ≡ xor_bytes b.now (words_bytes k) }
{
    let (columns, _) = b.as_chunks::<4>();
    let [k0, k1, k2, k3] = k;
    [
        u32::from_be_bytes(columns[0]) ^ k0,
        u32::from_be_bytes(columns[1]) ^ k1,
        u32::from_be_bytes(columns[2]) ^ k2,
        u32::from_be_bytes(columns[3]) ^ k3,
    ]
}

fn store(s: [u32; 4]) -> [u8; 16]
    ensures { result ≡ words_bytes s }
{
    let [w0, w1, w2, w3] = s;
    let [a0, a1, a2, a3] = w0.to_be_bytes();
    let [b0, b1, b2, b3] = w1.to_be_bytes();
    let [c0, c1, c2, c3] = w2.to_be_bytes();
    let [d0, d1, d2, d3] = w3.to_be_bytes();
    [
        a0, a1, a2, a3, b0, b1, b2, b3, c0, c1, c2, c3, d0, d1, d2, d3,
    ]
}

fn encrypt_words(words: &[u32; 60], block: [u8; 16]) -> [u8; 16]
    ensures { result ≡ aes (words_bytes words.now) block }
{
    let (keys, _) = words.as_chunks::<4>();
    let mut s = load(&block, keys[0]);
    // By number: states and keys are secret, and no iterator runs over them.
    for i in 1..14 {
        // By way of a `let`: a call's result that is an array isn't proved where it goes right into `s`.
        let next = round(s, keys[i]);
        s = next;
    }
    store(last_round(s, keys[14]))
}

pub fn encrypt_block(keys: &RoundKeys, block: [u8; 16]) -> [u8; 16]
    ensures value { result ≡ aes (round_keys (key_of keys.now)) block }
{
    encrypt_words(&keys.words, block)
}
