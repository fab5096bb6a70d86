// SHA-512 of bytes, at once or fed in pieces of any lengths.
ghost use Rattle.std.specs.Prelude.{◌≡◌, ℕ, List, [], ◌++◌};
ghost use Rattle.sha512.specs.Sha512.{sha512};
ghost use Rattle.sha512.specs.Held.{Fed};

use crate::constants::initial_state;
use crate::digest::digest;
use crate::stream::Stream;

#[derive(Drop)]
pub struct Hasher {
    stream: Stream,
}

impl Hasher {
    pub fn new() -> Self
        ensures value { Fed result [] }
    {
        Hasher {
            stream: Stream::new(initial_state()),
        }
    }

    pub fn update(&mut self, bytes: &[u8])
        ensures value { (m : List ℕ) → Fed self.old m → Fed self.new (m ++ bytes.now) }
    {
        self.stream.update(bytes);
    }

    pub fn finish(self) -> [u8; 64]
        ensures value { (m : List ℕ) → Fed self m → result ≡ sha512 m }
    {
        digest(self.stream.finish())
    }
}

pub fn hash(bytes: &[u8]) -> [u8; 64]
    ensures value { result ≡ sha512 bytes.now }
{
    let mut hasher = Hasher::new();
    hasher.update(bytes);
    hasher.finish()
}
