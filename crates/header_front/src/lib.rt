// Whether bytes that a message begins with hold its header whole: for callers that hold only a part of a message at a time. Bytes that
// may still become a header are told apart from those that never do.
#![tactic(auto)]

mod front;
mod settled;

pub use front::{HeaderFront, header_front};
