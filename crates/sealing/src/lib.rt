// Sealing: a request's whole message into lent bytes, or the same message frame by frame.
// The first refusal that applies is told, in the order 2, 3, 4, 5, 1, and then the lent bytes are as they were; otherwise they
// hold the message. What a sealer wrote call by call, joined, is that message too.
#![tactic(auto)]

mod framing;
mod joined;
mod keys;
mod message;
mod sealer;
mod state;

pub use joined::calls_make_the_message;
pub use message::{message_len, seal, sealed_len};
pub use state::{FrameRefusal, Sealer};
