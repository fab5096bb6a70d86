// Why a message isn't opened. A frame's refusals say its number.
ghost use Rattle.std.specs.Prelude.{◌≡◌};
ghost use Rattle.opening.specs.Refusal.{refusal_number, frame_at, refusal_frame};

#[derive(Clone, Copy, Debug, PartialEq, Eq)]
pub enum OpenRefusal {
    // fewer lent bytes than the message has
    OutTooShort,
    // the bytes begin with no header and its tag
    NoHeader,
    // another commitment than this key's for this message id
    Commitment,
    // the header's tag isn't right
    HeaderTag,
    // what stands there isn't the next frame, whole
    Frame(u32),
    // the frame's tag isn't right
    FrameTag(u32),
    // something comes after the final frame
    AfterFinal(u32),
}

impl OpenRefusal {
    // its number, for people and programs
    pub fn number(self) -> u8
        ensures value { result ≡ refusal_number self }
    {
        match self {
            OpenRefusal::OutTooShort => 1,
            OpenRefusal::NoHeader => 3,
            OpenRefusal::Commitment => 4,
            OpenRefusal::HeaderTag => 5,
            OpenRefusal::Frame(_) => 6,
            OpenRefusal::FrameTag(_) => 7,
            OpenRefusal::AfterFinal(_) => 8,
        }
    }

    // the number of the frame that it is at
    pub fn at_frame(self) -> Option<u32>
        ensures value { result ≡ frame_at self }
    {
        match self {
            OpenRefusal::Frame(n) | OpenRefusal::FrameTag(n) | OpenRefusal::AfterFinal(n) => Some(
                n,
            ),
            _ => None,
        }
    }

    // the same, or 0, as the format's refusals say it
    pub fn frame(self) -> u32
        ensures value { result ≡ refusal_frame self }
    {
        self.at_frame().unwrap_or(0)
    }
}
