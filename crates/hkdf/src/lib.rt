// Keys from keys: HMAC and HKDF over SHA-512, and the two keys of a message, each equal to its definition for every input.
// Keys that are only passed through are overwritten with zeros at the end; nothing is promised of that.
#![tactic(auto)]

mod kdf;
mod keys;
mod known;
mod mac;

pub use kdf::{TooLong, derive};
pub use keys::{MessageKeys, message_keys};
pub use mac::hmac;
