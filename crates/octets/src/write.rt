// Bytes and big-endian numbers, written into the middle of lent bytes.
ghost use Rattle.std.specs.Prelude.{◌≡◌, length};
ghost use Rattle.octets.specs.Bytes.{repeat, to_bytes};
ghost use Rattle.octets.specs.Splice.{Put};

use crate::number::Word;

// Writes bytes from a place on, and answers where the next go; None where they do not fit, and then
// nothing is written. For one place alone: a `Writer` keeps the place for bytes one after another.
pub fn put(out: &mut [u8], at: usize, bytes: &[u8]) -> Option<usize>
    ensures value { Put out.old at bytes.now result out.new }
{
    if out.len() < at || out.len() - at < bytes.len() {
        return None;
    }
    let end = at + bytes.len();
    out[at..end].copy_from_slice(bytes);
    Some(end)
}

// The same for a number in its bytes, the high one first.
pub fn put_number<T: Word<N>, const N: usize>(out: &mut [u8], at: usize, n: T) -> Option<usize>
    ensures value { Put out.old at (to_bytes N (T.value n)) result out.new }
{
    let bytes = n.to_bytes();
    put(out, at, &bytes)
}

// Sets every byte to 0.
pub fn clear(out: &mut [u8])
    ensures value { out.new ≡ repeat (length out.old) 0 }
{
    out.fill(0);
}
