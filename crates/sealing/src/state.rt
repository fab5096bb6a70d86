// How far the sealing of a message has come, and why a frame isn't sealed.
ghost use Rattle.std.specs.Prelude.{◌≡◌, ◌<◌, length};

use frames::MessageCipher;

// A message that is being sealed; number is that of the next frame. Whether the final one was sealed stands apart: the key is
// overwritten in place then, and an enum of the two states would move it.
#[derive(Drop)]
pub struct Sealer {
    pub(crate) cipher: MessageCipher,
    pub(crate) frame_length: u32,
    pub(crate) number: u32,
    pub(crate) finished: bool,
    ghost long: { length cipher.id ≡ 32 },
    ghost some: { 0 < frame_length },
    ghost fits: { frame_length < 4294967296 },
    ghost counted: { 0 < number },
    ghost few: { number < 4294967296 },
}

// the first that applies is told; the sealer and the lent bytes are then as they were
#[derive(Clone, Copy, Debug, PartialEq, Eq)]
pub enum FrameRefusal {
    // the final frame was sealed already
    Finished,
    // a regular frame's text that isn't of the frame length, or a final frame's that is longer; or a final frame with no text
    // after regular ones, which no message has
    TextLength,
    // more than 2^32 - 1 frames, or 2^63 bytes of text or more
    Text,
    // the lent bytes aren't as long as the frame
    OutLength,
}
