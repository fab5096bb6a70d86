// The encrypted data keys of a request that passed their checks.
ghost use Rattle.std.specs.Prelude.{◌≡◌, ◌+◌, ◌≤◌, ◌++◌, true, length, IfSome, option_map};
ghost use Rattle.octets.specs.Bytes.{to_bytes};
ghost use Rattle.octets.specs.Writing.{Writes};
ghost use Rattle.format.specs.Request.{data_keys_bytes, short_data_keys};
ghost use Rattle.header.specs.Models.{data_keys};
ghost use Rattle.header.specs.Checked.{data_keys_length};

use crate::part::{parts_len, put_parts};
use crate::request::EncryptedDataKey;
use crate::suite::MAX_FIELD;
use octets::Writer;

// data keys that a header has room for, and how many bytes they have
#[derive(Clone, Copy)]
pub struct DataKeys<'e, 'p, 'i, 'c> {
    keys: &'e [EncryptedDataKey<'p, 'i, 'c>],
    keys_len: usize,

    ghost few: { length keys.now ≤ 65535 },
    ghost long: { keys_len ≡ length (data_keys_bytes (data_keys keys.now)) },
    ghost short: { short_data_keys (data_keys keys.now) ≡ true },
}

impl<'e, 'p, 'i, 'c> DataKeys<'e, 'p, 'i, 'c> {
    // None where there are none or too many, or a field of one is too long
    pub fn checked(keys: &'e [EncryptedDataKey<'p, 'i, 'c>]) -> Option<DataKeys<'e, 'p, 'i, 'c>>
        ensures value { option_map (λ k. k.keys_len) result ≡ data_keys_length (data_keys keys.now) }
        ensures same { IfSome result (λ k. k.keys.now ≡ keys.now) }
    {
        if keys.is_empty() || keys.len() > MAX_FIELD {
            return None;
        }
        let keys_len = parts_len(keys)?;
        Some(DataKeys { keys, keys_len })
    }

    // how many bytes their count and they have in a header
    pub fn len(self) -> usize
        ensures { result ≡ 2 + length (data_keys_bytes (data_keys self.entry.keys.now)) }
    {
        2 + self.keys_len
    }

    pub fn put(self, to: &mut Writer) -> Option<()>
        ensures { Writes to.old (to_bytes 2 (length self.entry.keys.now) ++ data_keys_bytes (data_keys self.entry.keys.now)) result to.new }
    {
        put_parts(to, self.keys)
    }
}
