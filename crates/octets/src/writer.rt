// Lent bytes written from the front on.
ghost use Rattle.std.specs.Prelude.{◌≡◌};
ghost use Rattle.octets.specs.Bytes.{to_bytes};
ghost use Rattle.octets.specs.Writing.{Starts, Writes, KeepsAtNone};

use crate::number::Word;
use crate::write::put;

// The next bytes go to the place `at`.
#[derive(Drop)]
pub struct Writer<'o> {
    pub(crate) out: &'o mut [u8],
    pub(crate) at: usize,
}

impl<'o> Writer<'o> {
    pub fn new(out: &'o mut [u8]) -> Writer<'o>
        ensures value { Starts out.entry result }
    {
        Writer { out, at: 0 }
    }

    // Writes bytes behind those that were written; None where they do not fit, and then nothing is written.
    pub fn put(&mut self, bytes: &[u8]) -> Option<()>
        ensures value { Writes self.old bytes.now result self.new }
        ensures keeps { KeepsAtNone self.old result self.new }
    {
        self.at = put(self.out, self.at, bytes)?;
        Some(())
    }

    // The same for a number in its bytes, the high one first.
    pub fn put_number<T: Word<N>, const N: usize>(&mut self, n: T) -> Option<()>
        ensures value { Writes self.old (to_bytes N (T.value n)) result self.new }
        ensures keeps { KeepsAtNone self.old result self.new }
    {
        self.put(&n.to_bytes())
    }
}
