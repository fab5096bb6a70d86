// Headers of messages to be sealed: what a request says, the checks that it has to pass, how long its header is, and the header
// written into lent bytes.
// Promised: a request is refused by the first check that it fails, with the number that the format gives that refusal; what is
// written is the format's header, byte for byte, and nothing else changes; where it is refused, nothing is written.
#![tactic(auto)]

mod asked;
mod checks;
mod context;
mod data_keys;
mod part;
mod passed;
mod refusal;
mod request;
pub mod suite;
#[cfg(test)]
mod tests;
mod write;

pub use checks::{array_32, check, check_header, text_fits};
pub use passed::{Checked, CheckedHeader};
pub use refusal::SealRefusal;
pub use request::{EncryptedDataKey, HeaderRequest, Pair, Request};
pub use write::write_header;
