// GHASH: blocks taken into a state one by one.
ghost use Rattle.std.specs.Prelude.{◌≡◌, ◌-◌, ◌/◌, ◌≤◌, ◌++◌, length};
ghost use Rattle.octets.specs.Bits.{bits_xor};
ghost use Rattle.octets.specs.Bytes.{repeat};
ghost use Rattle.ghash.specs.Field.{product};
ghost use Rattle.ghash.specs.Ghash.{ghash, zero_padded};
ghost use Rattle.ghash.specs.Element.{value};
ghost use Rattle.ghash.specs.Table.{hash_key_of};

use crate::element::Element;
use crate::table::Table;

// One block more.
pub fn hash_block(table: &Table, state: Element, block: Element) -> Element
    ensures value { value result ≡ product (bits_xor 128 (value state) (value block)) (hash_key_of table.now) }
{
    table.times(state + block)
}

// At most sixteen bytes, and zeros up to sixteen.
fn filled(bytes: &[u8]) -> [u8; 16]
    requires { length bytes.now ≤ 16 }
    ensures { result ≡ bytes.now ++ repeat (16 - length bytes.now) 0 }
{
    let mut block = [0; 16];
    block[..bytes.len()].copy_from_slice(bytes);
    block
}

// All of `bytes`, with zeros up to a whole block. They are additional data or ciphertext, so public, and gone through by an iterator.
pub fn hash_padded(table: &Table, state: Element, bytes: &[u8]) -> Element
    ensures value { value result ≡ ghash (length (zero_padded bytes.now) / 16) (hash_key_of table.now) (value state) (zero_padded bytes.now) }
{
    let (blocks, rest) = bytes.as_chunks::<16>();
    let mut s = state;
    for block in blocks {
        s = hash_block(table, s, Element::from_bytes(block));
    }
    if rest.is_empty() {
        return s;
    }
    hash_block(table, s, Element::from_bytes(&filled(rest)))
}
