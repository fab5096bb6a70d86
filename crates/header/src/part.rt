// Fields, and the lists in a header: its pairs and its encrypted data keys, which are so many fields each.
ghost use Rattle.std.specs.Prelude.{◌≡◌, ◌≤◌, ◌++◌, ℕ, Bool, true, List, length};
ghost use Rattle.std.specs.List.{flat_map, list_all};
ghost use Rattle.octets.specs.Bytes.{to_bytes};
ghost use Rattle.octets.specs.Writing.{Writes};
ghost use Rattle.format.specs.Request.{field, fits_field};
ghost use Rattle.header.specs.Models.{pair, data_key};
ghost use Rattle.header.specs.Checked.{short_data_key, length_if, short_length_if};
ghost use Rattle.header.specs.Written.{pair_bytes, short_pair, data_key_bytes};

use crate::request::{EncryptedDataKey, Pair};
use crate::suite::MAX_FIELD;
use octets::Writer;

// how long a field of these bytes is; None where they are too many for one
fn field_len(bytes: &[u8]) -> Option<usize>
    ensures { result ≡ length_if (fits_field bytes.now) (field bytes.now) }
{
    if bytes.len() > MAX_FIELD {
        return None;
    }
    Some(2 + bytes.len())
}

// a field: its length in two bytes, and its bytes
fn put_field(to: &mut Writer, bytes: &[u8]) -> Option<()>
    requires { length bytes.now ≤ 65535 }
    ensures { Writes to.old (field bytes.now) result to.new }
{
    to.put_number(bytes.len() as u16)?;
    to.put(bytes)
}

// An element of such a list.
pub trait Part {
    // the bytes of its fields, and whether each field is short enough
    ghost bytes: { Self → List ℕ };

    ghost short: { Self → Bool };

    // how many bytes it has; None where a field is too long
    fn len(&self) -> Option<usize>
        ensures value { result ≡ length_if (short self.now) (bytes self.now) };

    // None where there is no room
    fn put(&self, to: &mut Writer) -> Option<()>
        requires short { short self.now ≡ true }
        ensures value { Writes to.old (bytes self.now) result to.new };
}

impl Part for Pair<'_, '_> {
    ghost bytes = { λ p. pair_bytes (pair p) };

    ghost short = { λ p. short_pair (pair p) };

    fn len(&self) -> Option<usize> {
        Some(field_len(self.name)? + field_len(self.value)?)
    }

    fn put(&self, to: &mut Writer) -> Option<()> {
        put_field(to, self.name)?;
        put_field(to, self.value)
    }
}

impl Part for EncryptedDataKey<'_, '_, '_> {
    ghost bytes = { λ k. data_key_bytes (data_key k) };

    ghost short = { λ k. short_data_key (data_key k) };

    fn len(&self) -> Option<usize> {
        let id_and_info = field_len(self.provider_id)? + field_len(self.provider_info)?;
        Some(id_and_info + field_len(self.ciphertext)?)
    }

    fn put(&self, to: &mut Writer) -> Option<()> {
        put_field(to, self.provider_id)?;
        put_field(to, self.provider_info)?;
        put_field(to, self.ciphertext)
    }
}

// how many bytes all parts have; None where a field is too long, or a usize cannot say it
pub fn parts_len<P: Part>(parts: &[P]) -> Option<usize>
    ensures { result ≡ short_length_if (list_all P.short parts.now) (flat_map P.bytes parts.now) }
{
    let mut len = 0usize;
    for part in parts {
        len = len.checked_add(part.len()?)?;
    }
    Some(len)
}

// how many parts there are, in two bytes, and the parts
pub fn put_parts<P: Part>(to: &mut Writer, parts: &[P]) -> Option<()>
    requires few { length parts.now ≤ 65535 }
    requires short { list_all P.short parts.now ≡ true }
    ensures { Writes to.old (to_bytes 2 (length parts.now) ++ flat_map P.bytes parts.now) result to.new }
{
    to.put_number(parts.len() as u16)?;
    for part in parts {
        part.put(to)?;
    }
    Some(())
}
