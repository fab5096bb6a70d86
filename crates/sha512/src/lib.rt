// SHA-512: the hash of bytes, at once or fed in pieces, equal to the definition of FIPS 180-4 for every message.
// The inner layer takes the initial state as an argument, so that the shorter hashes of the family can share it.
#![tactic(auto)]

mod blocks;
mod constants;
mod digest;
mod hasher;
mod stream;
mod words;

pub use hasher::{Hasher, hash};
