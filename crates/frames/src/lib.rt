// Frames: the parts that a message's text is sealed in, one AEAD call each.
// A frame is written into lent bytes of exactly its length and read from the front of others; every call says what it gives and
// leaves, and takes whatever it is handed: where lengths don't fit it refuses, and the lent bytes are as they were.
#![tactic(auto)]

mod aad;
mod cipher;
mod frame;
mod next;

pub use aad::{frame_aad, frame_nonce};
pub use cipher::{MessageCipher, header_tag, open_frame, seal_frame};
pub use frame::{END_MARKER, Frame, FrameKind, KEY_LENGTH, TAG_LENGTH, WrongLength};
pub use next::read_frame;
