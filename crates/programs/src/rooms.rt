// How many bytes the largest parts of a message have.
use commands::limits::{MAX_FRAME_LENGTH, MAX_HEADER};

// A header with its tag.
pub const START_ROOM: usize = MAX_HEADER + 16;

// What a final frame has beside its text, as `frames` says by a function; an array's length is a constant.
const FINAL_BESIDE: usize = 40;

// The text of a frame, and a frame.
pub const TEXT_ROOM: usize = MAX_FRAME_LENGTH as usize;

pub const FRAME_ROOM: usize = TEXT_ROOM + FINAL_BESIDE;
