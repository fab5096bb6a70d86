// The expanded form of one key.
ghost use Rattle.std.specs.Prelude.{◌≡◌, length};
ghost use Rattle.octets.specs.Bytes.{take};
ghost use Rattle.aes256.specs.Aes.{round_keys};
ghost use Rattle.aes256.specs.Columns.{words_bytes};

// The fifteen round keys of a key, which is their first eight words. No other words can be in here. They are one array of
// words, and not fifteen of four, since the schedule makes each word from the ones one and eight before.
#[derive(Drop)]
pub struct RoundKeys {
    pub(crate) words: [u32; 60],
    ghost long: { length words ≡ 60 },
    ghost expanded: { words_bytes words ≡ round_keys (words_bytes (take 8 words)) },
}
