// The two ends of a stream.
ghost use Rattle.std.specs.Prelude.{ℕ, List};
ghost use Rattle.streams.specs.Ends.{Comes, Goes};

use std::io;

// Where bytes come from. `gave` says that these are the bytes that came so far, and `ended` that no more will.
pub trait Source {
    ghost gave: { Self → List ℕ → Type 0 };

    ghost ended: { Self → Type 0 };

    // Fills the lent bytes from the front on, and answers how many came; fewer than there is room for only at the end.
    fn fill(&mut self, bytes: &mut [u8]) -> io::Result<usize>
        ensures came { Comes (gave self.old) (gave self.new) (ended self.new) bytes.old result bytes.new };
}

// Where bytes go. `took` says that these are the bytes that went there so far.
pub trait Sink {
    ghost took: { Self → List ℕ → Type 0 };

    fn put(&mut self, bytes: &[u8]) -> io::Result<()>
        ensures went { Goes (took self.old) (took self.new) bytes.now result };
}
