// The key schedule.
ghost use Rattle.std.specs.Prelude.{◌≡◌, ◌<◌, ◌≤◌};
ghost use Rattle.octets.specs.Bytes.{take, repeat};
ghost use Rattle.aes256.specs.Aes.{round_keys};
ghost use Rattle.aes256.specs.Columns.{word_bytes, words_bytes};
ghost use Rattle.aes256.specs.Schedule.{next_of};
ghost use Rattle.aes256.specs.RoundKeys.{key_of};

use crate::columns::sub_column;
use crate::keys::RoundKeys;
use crate::tables::round_constant;

// word i, from the one before and the one eight before
fn next_word(prev: u32, old: u32, i: usize) -> u32
    requires { (8 ≤ i) × (i < 60) }
    ensures { word_bytes result ≡ next_of (word_bytes prev) (word_bytes old) i }
{
    if i % 8 == 0 {
        let t = prev.rotate_left(8);
        old ^ sub_column(t, t, t, t, round_constant(i / 8 - 1))
    } else if i % 8 == 4 {
        old ^ sub_column(prev, prev, prev, prev, 0)
    } else {
        old ^ prev
    }
}

// the key in the first eight words; sha512 reads its words alike, but one function for both would be told width and room, and be no
// shorter
fn first_words(key: &[u8; 32]) -> [u32; 60]
    ensures { words_bytes (take 8 result) ≡ key.now }
{
    let (columns, _) = key.as_chunks::<4>();
    let mut w = [0; 60];
    // By place: a key is secret.
    for i in 0..8 {
        w[i] = u32::from_be_bytes(columns[i]);
    }
    w
}

// all other words, from the first eight
fn expand_words(first: [u32; 60]) -> [u32; 60]
    ensures { (take 8 result ≡ take 8 first) × (words_bytes result ≡ round_keys (words_bytes (take 8 first))) }
{
    let mut w = first;
    // By place: each word comes from two before it.
    for i in 8..60 {
        w[i] = next_word(w[i - 1], w[i - 8], i);
    }
    w
}

pub fn expand_key(key: &[u8; 32]) -> RoundKeys
    ensures value { key_of result ≡ key.now }
{
    let words = expand_words(first_words(key));
    RoundKeys { words }
}

impl RoundKeys {
    // Overwrites the key, by a key of zeros.
    pub fn wipe(&mut self)
        ensures value { key_of self.new ≡ repeat 32 0 }
    {
        *self = expand_key(&[0; 32]);
    }
}
