// What FIPS 197 prints, as theorems of the definitions and of the code.
ghost use Rattle.std.specs.Prelude.{◌≡◌, ℕ, ◌<◌, slice_index};
ghost use Rattle.aes256.specs.Aes.{sub_byte, aes, round_keys};
ghost use Rattle.aes256.specs.Examples.{printed_sbox, example_key, example_plaintext, example_ciphertext};

use crate::block::encrypt_block;
use crate::schedule::expand_key;

// the S-box is the printed one, at all 256 places
pub fn sbox_is_the_printed_one()
    ensures value { (k : ℕ) → k < 256 → sub_byte k ≡ slice_index printed_sbox k }
{}

const KEY: [u8; 32] = [
    0, 1, 2, 3, 4, 5, 6, 7, 8, 9, 10, 11, 12, 13, 14, 15, 16, 17, 18, 19, 20, 21, 22, 23, 24, 25,
    26, 27, 28, 29, 30, 31,
];

const PLAINTEXT: [u8; 16] = [
    0, 17, 34, 51, 68, 85, 102, 119, 136, 153, 170, 187, 204, 221, 238, 255,
];

// example C.3: the definitions give the printed ciphertext, and so do the calls
pub fn example_is_encrypted() -> [u8; 16]
    ensures definition { aes (round_keys example_key) example_plaintext ≡ example_ciphertext }
    ensures value { result ≡ example_ciphertext }
{
    let keys = expand_key(&KEY);
    encrypt_block(&keys, PLAINTEXT)
}
