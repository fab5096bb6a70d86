// Galois/Counter Mode over AES-256: one piece sealed or opened under a key that is prepared once. What a call gives is
// the value of the definitions in specs/Gcm at the 32 bytes of that key. Opening writes nothing unless the tag is right.
#![tactic(auto)]

mod counter;
mod key;
mod piece;
mod tag;
mod theorem;

pub use key::Key;
pub use piece::{NotOpened, open, seal};
pub use theorem::opening_undoes_sealing;

#[cfg(test)]
mod tests;
