// A key in the form in which it is used.
ghost use Rattle.std.specs.Prelude.{◌≡◌};
ghost use Rattle.octets.specs.Bytes.{repeat, of_bytes};
ghost use Rattle.aes256.specs.Aes.{round_keys, aes};
ghost use Rattle.aes256.specs.RoundKeys.{key_of};
ghost use Rattle.ghash.specs.Table.{hash_key_of};

use aes256::RoundKeys;
use ghash::Table;

mod prepare;

// Round keys, and the table of the hash key that belongs to them: the block of zeros under the same key.
#[derive(Drop)]
pub struct Key {
    pub(crate) keys: RoundKeys,
    pub(crate) table: Table,
    ghost matching: { hash_key_of table ≡ of_bytes (aes (round_keys (key_of keys)) (repeat 16 0)) },
}
