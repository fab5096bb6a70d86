// SHA-512, HMAC and HKDF: one case a line. The cases are alike but for how many words each reads and what it calls, and no longer
// than a function that is told both.
use crate::words::Words;
use hkdf::{derive, hmac};
use sha512::hash;

pub fn sha512_case(words: &mut Words) -> anyhow::Result<bool> {
    let (message, expected) = words.read::<(Vec<u8>, Vec<u8>)>()?;
    Ok(hash(message.as_slice()).as_slice() == expected.as_slice())
}

pub fn hmac_case(words: &mut Words) -> anyhow::Result<bool> {
    let (key, message, expected) = words.read::<(Vec<u8>, Vec<u8>, Vec<u8>)>()?;
    Ok(hmac(key.as_slice(), message.as_slice()).as_slice() == expected.as_slice())
}

pub fn hkdf_case(words: &mut Words) -> anyhow::Result<bool> {
    let (salt, key, info, len) = words.read::<(Vec<u8>, Vec<u8>, Vec<u8>, usize)>()?;
    let mut out = vec![in words.heap; 0u8; len]?;
    let derived = derive(
        salt.as_slice(),
        key.as_slice(),
        info.as_slice(),
        out.as_mut_slice(),
    );
    let expected = words.read::<Vec<u8>>()?;
    Ok(derived.is_ok() && out.as_slice() == expected.as_slice())
}
