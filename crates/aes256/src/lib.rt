// AES-256, the block cipher (FIPS 197): a key is expanded once, and blocks are encrypted under it.
// What a call returns is the value of the definitions in specs/Aes, for every key and every block.
// Decryption is not here: counter mode has no need of it.
// Tables are read at places that depend on key and block, so the time that a call takes may tell something of both.
#![tactic(auto)]

mod block;
mod columns;
mod examples;
mod keys;
mod rounds;
mod schedule;
mod tables;

pub use block::encrypt_block;
pub use keys::RoundKeys;
pub use schedule::expand_key;
