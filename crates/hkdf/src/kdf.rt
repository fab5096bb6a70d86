// HKDF with one block of output: up to 64 bytes.
ghost use Rattle.std.specs.Prelude.{◌≡◌, ℕ, ◌<◌, ◌≤◌, List, length, MatchResult};
ghost use Rattle.hkdf.specs.Hmac.{hmac};
ghost use Rattle.hkdf.specs.Hkdf.{hkdf};

use crate::mac::{Mac, hmac};

const MAX_OUTPUT: usize = 64;

// more output was asked for than one block holds
#[derive(Clone, Copy, PartialEq, Eq, Debug)]
pub struct TooLong;

// fills `out` from the first and only block of output of an extracted key
#[tactic(auto, using(octets::proofs::Lists::take_is), unfolding(crate::specs::Hkdf::hkdf))]
pub(crate) fn expand(extracted: &[u8; 64], info: &[u8], out: &mut [u8])
    requires { length out.old ≤ MAX_OUTPUT }
    ensures { (salt key : List ℕ) → extracted.now ≡ hmac salt key → out.new ≡ hkdf salt key info.now (length out.old) }
{
    let mut mac = Mac::new(extracted);
    mac.update(info);
    mac.update(&[1]);
    let mut block = mac.finish();
    out.copy_from_slice(&block[..out.len()]);
    // no promise: the compiler may have made copies, or drop these writes
    block.fill(0);
}

// fills `out`, or leaves it as it was where it is longer than 64 bytes
pub fn derive(salt: &[u8], key: &[u8], info: &[u8], out: &mut [u8]) -> Result<(), TooLong>
    ensures value { MatchResult result
        (λ _. (length out.old ≤ 64) × (out.new ≡ hkdf salt.now key.now info.now (length out.old)))
        (λ _. (64 < length out.old) × (out.new ≡ out.old)) }
{
    if out.len() > MAX_OUTPUT {
        return Err(TooLong);
    }
    let mut extracted = hmac(salt, key);
    expand(&extracted, info, out);
    extracted.fill(0);
    Ok(())
}
