// The rounds, on states of four words, a column each. They don't share a closure for the column: a clause would have to
// say each of the four calls that stand there.
ghost use Rattle.std.specs.Prelude.{◌≡◌};
ghost use Rattle.octets.specs.Bytes.{xor_bytes};
ghost use Rattle.aes256.specs.Aes.{sub_bytes, shift_rows, mix_columns};
ghost use Rattle.aes256.specs.Columns.{words_bytes};

use crate::columns::{mix_column, sub_column};

pub(crate) fn round(s: [u32; 4], k: [u32; 4]) -> [u32; 4]
    ensures { words_bytes result ≡ xor_bytes (mix_columns 4 (shift_rows (sub_bytes (words_bytes s)))) (words_bytes k) }
{
    let [a, b, c, d] = s;
    let [k0, k1, k2, k3] = k;
    [
        mix_column(a, b, c, d, k0),
        mix_column(b, c, d, a, k1),
        mix_column(c, d, a, b, k2),
        mix_column(d, a, b, c, k3),
    ]
}

pub(crate) fn last_round(s: [u32; 4], k: [u32; 4]) -> [u32; 4]
    ensures { words_bytes result ≡ xor_bytes (shift_rows (sub_bytes (words_bytes s))) (words_bytes k) }
{
    let [a, b, c, d] = s;
    let [k0, k1, k2, k3] = k;
    [
        sub_column(a, b, c, d, k0),
        sub_column(b, c, d, a, k1),
        sub_column(c, d, a, b, k2),
        sub_column(d, a, b, c, k3),
    ]
}
