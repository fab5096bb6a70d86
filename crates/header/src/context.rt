// The encryption context of a request that passed its checks.
ghost use Rattle.std.specs.Prelude.{◌≡◌, ◌+◌, ◌≤◌, true, length, IfSome, option_map};
ghost use Rattle.octets.specs.Writing.{Writes};
ghost use Rattle.format.specs.Request.{rising, pairs_bytes, short_pairs};
ghost use Rattle.format.specs.Header.{context_bytes};
ghost use Rattle.header.specs.Models.{pairs as pairs_of};
ghost use Rattle.header.specs.Checked.{context_length};

use crate::part::{parts_len, put_parts};
use crate::request::Pair;
use crate::suite::MAX_FIELD;
use octets::{Writer, less};

// the pairs' bytes and two more are a field
const MAX_PAIRS: usize = MAX_FIELD - 2;

// each pair has four bytes at least, so that a longer list is refused before it is gone through
const MOST_PAIRS: usize = MAX_PAIRS / 4;

// whether each name comes before the next
fn names_rise(pairs: &[Pair]) -> bool
    ensures { result ≡ rising (pairs_of pairs.now) }
{
    pairs.is_sorted_by(|a, b| less(a.name, b.name))
}

// pairs that fit a field, and how many bytes they have
#[derive(Clone, Copy)]
pub struct Context<'c, 'n, 'v> {
    pairs: &'c [Pair<'n, 'v>],
    pub pairs_len: usize,

    ghost long: { pairs_len ≡ length (pairs_bytes (pairs_of pairs.now)) },
    ghost fits: { pairs_len ≤ 65533 },
    ghost short: { short_pairs (pairs_of pairs.now) ≡ true },
}

impl<'c, 'n, 'v> Context<'c, 'n, 'v> {
    // None where the names do not rise, or a name, a value or all of them are too long
    pub fn checked(pairs: &'c [Pair<'n, 'v>]) -> Option<Context<'c, 'n, 'v>>
        ensures value { option_map (λ c. c.pairs_len) result ≡ context_length (pairs_of pairs.now) }
        ensures same { IfSome result (λ c. c.pairs.now ≡ pairs.now) }
    {
        if pairs.len() > MOST_PAIRS {
            return None;
        }
        if !names_rise(pairs) {
            return None;
        }
        let pairs_len = parts_len(pairs)?;
        if pairs_len > MAX_PAIRS {
            return None;
        }
        Some(Context { pairs, pairs_len })
    }

    // how many bytes it has in a header
    pub fn len(self) -> usize
        ensures { result ≡ length (context_bytes (pairs_of self.entry.pairs.now)) }
    {
        if self.pairs.is_empty() {
            return 2;
        }
        4 + self.pairs_len
    }

    // two bytes 0 for no pair; otherwise a field of the count and the pairs
    pub fn put(self, to: &mut Writer) -> Option<()>
        ensures { Writes to.old (context_bytes (pairs_of self.entry.pairs.now)) result to.new }
    {
        if self.pairs.is_empty() {
            return to.put_number(0u16);
        }
        to.put_number((2 + self.pairs_len) as u16)?;
        put_parts(to, self.pairs)
    }
}
