// One piece sealed, and opened.
ghost use Rattle.std.specs.Prelude.{is_ok};
ghost use Rattle.gcm.specs.Key.{key_of};
ghost use Rattle.gcm.specs.Calls.{Seals, Opens};

use crate::counter::xor_keystream;
use crate::key::Key;
use crate::tag::compute_tag;
use octets::equal_fixed;

// The tag isn't right, or the lent bytes aren't as long as the ciphertext.
#[derive(Clone, Copy, Debug, PartialEq, Eq)]
pub struct NotOpened;

// Writes the ciphertext over all of `out` and gives the tag; None where `out` isn't as long as the text, and then
// nothing is written.
pub fn seal(
    key: &Key,
    nonce: &[u8; 12],
    aad: &[u8],
    text: &[u8],
    out: &mut [u8],
) -> Option<[u8; 16]>
    ensures value { Seals (key_of key.now) nonce.now aad.now text.now out.old result out.new }
{
    if out.len() != text.len() {
        return None;
    }
    xor_keystream(&key.keys, nonce, text, out);
    Some(compute_tag(key, nonce, aad, out))
}

// Writes the text over all of `out`, where the tag is right and `out` is as long as the ciphertext; else nothing is
// written.
pub fn open(
    key: &Key,
    nonce: &[u8; 12],
    aad: &[u8],
    ciphertext: &[u8],
    tag: &[u8; 16],
    out: &mut [u8],
) -> Result<(), NotOpened>
    ensures value { Opens (key_of key.now) nonce.now aad.now ciphertext.now tag.now out.old (is_ok result) out.new }
{
    if out.len() != ciphertext.len() {
        return Err(NotOpened);
    }
    let own = compute_tag(key, nonce, aad, ciphertext);
    if !equal_fixed(&own, tag) {
        return Err(NotOpened);
    }
    xor_keystream(&key.keys, nonce, ciphertext, out);
    Ok(())
}
