// Bytes and big-endian numbers, read from the front of lent bytes.
ghost use Rattle.std.specs.Prelude.{◌≡◌};
ghost use Rattle.octets.specs.Cut.{cut, cuts, cut_number, word_cuts};

use crate::number::Word;

// The first n bytes and the rest; None where there are fewer.
#[tactic(auto, using(crate::proofs::Cuts::cut_checked, crate::proofs::Cuts::cut_none))]
pub fn cut(bytes: &[u8], n: usize) -> Option<(&[u8], &[u8])>
    ensures value { cuts result ≡ cut n bytes.now }
{
    bytes.split_at_checked(n)
}

// A big-endian number off the front and the rest; None where there are fewer bytes than it has.
#[tactic(auto, using(crate::proofs::Cuts::number_cut_some, crate::proofs::Cuts::number_cut_none))]
pub fn cut_number<T: Word<N>, const N: usize>(bytes: &[u8]) -> Option<(T, &[u8])>
    ensures value { word_cuts T.value result ≡ cut_number N bytes.now }
{
    let (front, rest) = bytes.split_first_chunk::<N>()?;
    Some((T::from_bytes(front), rest))
}
