// What a header has many of, one after another: the pairs of its context and its encrypted data keys.
ghost use Rattle.std.specs.Prelude.{◌≡◌, ℕ, List};
ghost use Rattle.std.specs.Iterator.{at_most};
ghost use Rattle.header_read.specs.Cuts.{CutEntry, entry_cuts, cut_entries, cut_counted};
ghost use Rattle.header_read.specs.Cursor.{entries_cut, entries_left, taken};

use octets::cut_number;
use std::marker::PhantomData;

// A kind of entry, cut off the front of lent bytes. Lists name the kind and not the entry: a list whose type names the entry's
// lifetimes gets no proof where it is copied.
pub trait Kind<'m> {
    type Entry: Copy;

    // what an entry says, and how that is cut off the front of bytes
    ghost Value: { Type 0 };

    ghost says: { Self.Entry → Value };

    ghost cut: { List ℕ → List (CutEntry Value) };

    // The first entry, and what comes after; None where the bytes don't begin with one.
    fn cut_off(bytes: &'m [u8]) -> Option<(Self::Entry, &'m [u8])>
        ensures value { entry_cuts says result ≡ cut bytes.now };
}

// So many entries of a kind, one after another, in these bytes. Nothing is allocated, so the bytes themselves are kept, and how
// many entries they hold.
#[derive(Clone, Copy)]
pub struct Entries<'m, K> {
    pub(crate) count: usize,
    pub(crate) bytes: &'m [u8],
    pub(crate) kind: PhantomData<K>,
}

impl<'m, K: Kind<'m>> Entries<'m, K> {
    // So many entries off the front, and what comes after; None if there are fewer.
    pub fn cut(count: usize, bytes: &'m [u8]) -> Option<(Entries<'m, K>, &'m [u8])>
        ensures value { entries_cut K.cut result ≡ cut_entries K.cut count bytes.now }
    {
        let mut rest = bytes;
        for _ in 0..count {
            rest = K::cut_off(rest)?.1;
        }
        let entries = Entries {
            count,
            bytes,
            kind: PhantomData,
        };
        Some((entries, rest))
    }

    // A count of two bytes, which isn't 0, and so many entries, and what comes after.
    #[tactic(auto, using(octets::proofs::Cuts::number_some, octets::proofs::Cuts::number_none), unfolding(octets::specs::Cut::and_then, octets::specs::Cut::guard))]
    pub fn cut_counted(bytes: &'m [u8]) -> Option<(Entries<'m, K>, &'m [u8])>
        ensures value { entries_cut K.cut result ≡ cut_counted K.cut bytes.now }
    {
        let (count, entries) = cut_number::<u16, _>(bytes)?;
        if count == 0 {
            return None;
        }
        Entries::cut(count as usize, entries)
    }
}

// The entries that are left.
#[derive(Clone, Drop)]
pub struct EntriesLeft<'m, K>(pub(crate) Entries<'m, K>);

impl<'m, K: Kind<'m>> Iterator for EntriesLeft<'m, K> {
    type Item = K::Entry;

    ghost next_gives = { λ s r t. taken K.says r (entries_left K.cut t) ≡ entries_left K.cut s };

    ghost remaining = { λ s. at_most s.0.count };

    fn next(&mut self) -> Option<K::Entry> {
        if self.0.count == 0 {
            return None;
        }
        let (entry, rest) = K::cut_off(self.0.bytes)?;
        self.0.count -= 1;
        self.0.bytes = rest;
        Some(entry)
    }
}
