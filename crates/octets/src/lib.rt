// Bytes and words: what every other crate stands on.
// Cutting bytes and big-endian numbers off the front of lent bytes, writing them into the middle of
// others, comparing and clearing. Every call says exactly what it gives and leaves, and takes
// whatever it is handed: where bytes lack or do not fit, the answer is None and nothing changes.
#![tactic(auto)]

mod compare;
mod number;
mod read;
mod write;
mod writer;

pub use compare::{equal, equal_fixed, less};
pub use number::Word;
pub use read::{cut, cut_number};
pub use write::{clear, put, put_number};
pub use writer::Writer;

#[cfg(test)]
mod tests;
