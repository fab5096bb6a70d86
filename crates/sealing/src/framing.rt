// How a text is cut into frames.
ghost use Rattle.std.specs.Prelude.{◌≡◌, ◌-◌, ◌/◌, ◌<◌, true};
ghost use Rattle.header.specs.Checked.{text_fits};
ghost use Rattle.sealing.specs.Whole.{frames_length};

use frames::FrameKind;

// A text that isn't too long for frames of this length.
#[derive(Clone, Copy)]
pub struct Framing {
    pub text_len: u64,
    pub frame_length: u32,
    ghost some: { 0 < frame_length },
    ghost fits: { text_fits text_len frame_length ≡ true },
}

impl Framing {
    // How many frames come before the final one.
    pub fn regular_frames(self) -> u32
        ensures value { result ≡ (self.text_len - 1) / self.frame_length }
        ensures few { result < 4294967295 }
    {
        (self.text_len.saturating_sub(1) / self.frame_length as u64) as u32
    }

    // How long all frames are.
    pub fn frames_len(self) -> u64
        ensures { result ≡ frames_length self.text_len self.frame_length }
    {
        let regular = FrameKind::Regular.overhead() as u64 * self.regular_frames() as u64;
        self.text_len + (regular + FrameKind::Final.overhead() as u64)
    }
}
