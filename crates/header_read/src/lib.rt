// Headers of messages as they are read: strictly, with no key, as parts of the message's bytes.
// Promised: what is read is exactly what the format says, and bytes that begin with anything else are no header; pairs and data
// keys come one by one in their order; nothing is copied.
#![tactic(auto)]

mod entries;
mod fields;
mod read;
#[cfg(test)]
mod tests;
mod types;

pub use entries::{Entries, EntriesLeft, Kind};
pub use fields::{DataKeyKind, PairKind, cut_field};
pub use read::read_header;
pub use types::{Context, DataKeys, EncryptedDataKeys, Header, Pairs, ReadHeader};
