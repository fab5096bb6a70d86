// What frames are, and why one isn't written.
ghost use Rattle.std.specs.Prelude.{◌≡◌};
ghost use Rattle.frames.specs.Kind.{overhead, front_length};

// the bytes of a data key
pub const KEY_LENGTH: usize = 32;

// the bytes of a tag
pub const TAG_LENGTH: usize = 16;

// what stands before a final frame's own number; also the largest number that a frame can have
pub const END_MARKER: u32 = 4_294_967_295;

#[derive(Clone, Copy, Debug, PartialEq, Eq)]
pub enum FrameKind {
    Regular,
    Final,
}

impl FrameKind {
    // How much longer a frame is than its text.
    pub fn overhead(self) -> usize
        ensures value { result ≡ overhead self }
    {
        self.front_len() + TAG_LENGTH
    }

    // How many bytes stand before the ciphertext.
    pub(crate) fn front_len(self) -> usize
        ensures { result ≡ front_length self }
    {
        match self {
            FrameKind::Regular => 16,
            FrameKind::Final => 24,
        }
    }
}

// a frame that was read: what is sealed in it, and the bytes after it
#[derive(Clone, Copy)]
pub struct Frame<'c, 'r> {
    pub kind: FrameKind,
    pub ciphertext: &'c [u8],
    pub tag: [u8; 16],
    pub rest: &'r [u8],
}

// the lent bytes aren't as long as what is to be written
#[derive(Clone, Copy, Debug, PartialEq, Eq)]
pub struct WrongLength;
