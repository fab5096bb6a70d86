// What the programs take: less than the format allows, so that a header and a frame fit in memory of a fixed size.
pub const DEFAULT_FRAME_LENGTH: u32 = 4096;

pub const MAX_FRAME_LENGTH: u32 = 16384;

pub const MAX_HEADER: usize = 16384;

pub const MAX_TEXT: u64 = 67108864;
