// What was read of a header: parts of the message's bytes, by value.
ghost use Rattle.std.specs.Prelude.{◌≡◌};
ghost use Rattle.header_read.specs.Parts.{pairs_in, data_keys_in};
ghost use Rattle.header_read.specs.Cursor.{pairs_left, data_keys_left};

use crate::entries::{Entries, EntriesLeft};
use crate::fields::{DataKeyKind, PairKind};

// the encryption context, and the pairs of it that are left
pub type Context<'m> = Entries<'m, PairKind>;

pub type Pairs<'m> = EntriesLeft<'m, PairKind>;

// the encrypted data keys, and those that are left
pub type EncryptedDataKeys<'m> = Entries<'m, DataKeyKind>;

pub type DataKeys<'m> = EntriesLeft<'m, DataKeyKind>;

impl<'m> Entries<'m, PairKind> {
    pub fn pairs(self) -> Pairs<'m>
        ensures value { pairs_left result ≡ pairs_in self.entry }
    {
        EntriesLeft(self)
    }
}

impl<'m> Entries<'m, DataKeyKind> {
    pub fn data_keys(self) -> DataKeys<'m>
        ensures value { data_keys_left result ≡ data_keys_in self.entry }
    {
        EntriesLeft(self)
    }
}

// a header; id is the message id
// its parts, and the tag, are slices in the library's interface: callers compare them with slices and lend them on as such
#[derive(Clone, Copy)]
pub struct Header<'m> {
    pub id: &'m [u8],
    pub context: Context<'m>,
    pub encrypted_data_keys: EncryptedDataKeys<'m>,
    pub frame_length: u32,
    pub commitment: &'m [u8],
}

// a header, its tag, and what comes after in the message
#[derive(Clone, Copy)]
pub struct ReadHeader<'m> {
    pub header: Header<'m>,
    pub tag: &'m [u8],
    pub rest: &'m [u8],
}
