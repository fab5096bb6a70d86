// How far the opening of a message has come, and what one frame more answers.
use crate::unlock::Unlocked;

// number is the next frame's, or the final frame's once it was opened: an enum of the two states would hold it in both
#[derive(Drop)]
pub struct Opener {
    pub(crate) unlocked: Unlocked,
    pub(crate) header_len: usize,
    pub(crate) number: u32,
    pub(crate) done: bool,
}

// A frame that was opened: the length of its text, which stands in the caller's bytes, and how many of the lent bytes it took.
#[derive(Clone, Copy, Debug, PartialEq, Eq)]
pub struct FrameText {
    pub len: usize,
    pub taken: usize,
}

#[derive(Clone, Copy, Debug, PartialEq, Eq)]
pub enum Step {
    // the frame may be longer than the bytes that were lent
    NeedMore,
    Regular(FrameText),
    Final(FrameText),
    // the final frame was opened before, and no bytes were lent
    End,
}
