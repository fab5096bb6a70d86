// One column of a state: a byte of each of four columns substituted, with and without mixing, and a word of the key added.
ghost use Rattle.std.specs.Prelude.{◌≡◌, bit_xor};
ghost use Rattle.aes256.specs.Columns.{sub_word, sub_mixed};

use crate::tables::{sub_and_mix, sub_byte};

pub(crate) fn mix_column(a: u32, b: u32, c: u32, d: u32, k: u32) -> u32
    ensures { result ≡ bit_xor (sub_mixed a b c d) k }
{
    let ab = sub_and_mix((a >> 24) as u8) ^ sub_and_mix(((b >> 16) % 256) as u8).rotate_right(8);
    let cd = sub_and_mix(((c >> 8) % 256) as u8).rotate_right(16)
        ^ sub_and_mix((d % 256) as u8).rotate_right(24);
    (ab ^ cd) ^ k
}

// without mixing, for the last round and the key schedule
pub(crate) fn sub_column(a: u32, b: u32, c: u32, d: u32, k: u32) -> u32
    ensures { result ≡ bit_xor (sub_word a b c d) k }
{
    let r = u32::from_be_bytes([
        sub_byte((a >> 24) as u8),
        sub_byte(((b >> 16) % 256) as u8),
        sub_byte(((c >> 8) % 256) as u8),
        sub_byte((d % 256) as u8),
    ]);
    r ^ k
}
