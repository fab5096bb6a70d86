// Why a request is refused.
ghost use Rattle.std.specs.Prelude.{◌≡◌};
ghost use Rattle.header.specs.Refusal.{refusal_number};

// the first that applies is told, in the order 2, 3, 4, 5, 1 of their numbers
#[derive(Clone, Copy, Debug, PartialEq, Eq)]
pub enum SealRefusal {
    // the lent bytes aren't as long as what is to be written
    OutLength,
    // a key or an id that hasn't 32 bytes, or a frame length of 0
    KeyOrIdOrFrameLength,
    // names that don't strictly rise, or a name, a value or all of them too long
    Context,
    // no encrypted data key, more than 65,535, or one with a field of more than 65,535 bytes
    EncryptedDataKeys,
    // more than 2^32 - 1 frames, or 2^63 bytes or more
    Text,
}

impl SealRefusal {
    // its number, for people and programs
    pub fn number(self) -> u8
        ensures value { result ≡ refusal_number self }
    {
        match self {
            SealRefusal::OutLength => 1,
            SealRefusal::KeyOrIdOrFrameLength => 2,
            SealRefusal::Context => 3,
            SealRefusal::EncryptedDataKeys => 4,
            SealRefusal::Text => 5,
        }
    }
}
