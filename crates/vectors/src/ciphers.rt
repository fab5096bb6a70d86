// AES-256 and GCM: one case a line.
use crate::words::{FromWords, Words};
use aes256::{RoundKeys, encrypt_block, expand_key};
use anyhow::bail;
use gcm::Key;

// Each block apart.
pub fn aes_case(words: &mut Words) -> anyhow::Result<bool> {
    let (key, blocks, expected) = words.read::<([u8; 32], Vec<u8>, Vec<u8>)>()?;
    blocks_are(&expand_key(&key), blocks.as_slice(), expected.as_slice())
}

fn blocks_are(keys: &RoundKeys, blocks: &[u8], expected: &[u8]) -> anyhow::Result<bool> {
    if blocks.len() != expected.len() || blocks.len() % 16 != 0 {
        bail!("not whole blocks");
    }
    let (blocks, _) = blocks.as_chunks::<16>();
    let (expected, _) = expected.as_chunks::<16>();
    let mut pairs = blocks.iter().zip(expected);
    Ok(pairs.all(|(block, expected)| encrypt_block(keys, *block) == *expected))
}

// What one call took and gave.
#[derive(Drop)]
struct Piece {
    key: [u8; 32],
    nonce: [u8; 12],
    aad: Vec<u8>,
    sealed: Vec<u8>,
    tag: [u8; 16],
}

impl<'w> FromWords<'w> for Piece {
    fn from_words(words: &mut Words<'w>) -> anyhow::Result<Piece> {
        let (key, nonce, aad) = words.read()?;
        let (sealed, tag) = words.read()?;
        Ok(Piece {
            key,
            nonce,
            aad,
            sealed,
            tag,
        })
    }
}

// Both directions where the tag is right; opening alone, which has to refuse and leave the bytes, where it isn't.
pub fn gcm_case(words: &mut Words) -> anyhow::Result<bool> {
    let (piece, expected) = words.read::<(Piece, &str)>()?;
    let key = Key::new(&piece.key);
    let mut out = vec![in words.heap; 0u8; piece.sealed.len()]?;
    let opened = opens(&key, &piece, out.as_mut_slice());
    if expected != "ok" {
        return Ok(!opened && all_zero(out.as_slice()));
    }
    let text = words.read::<Vec<u8>>()?;
    let same = out.as_slice() == text.as_slice();
    Ok(opened && same && seals(&key, &piece, text.as_slice(), out.as_mut_slice()))
}

fn opens(key: &Key, piece: &Piece, out: &mut [u8]) -> bool {
    gcm::open(
        key,
        &piece.nonce,
        piece.aad.as_slice(),
        piece.sealed.as_slice(),
        &piece.tag,
        out,
    )
    .is_ok()
}

fn seals(key: &Key, piece: &Piece, text: &[u8], out: &mut [u8]) -> bool {
    let made = gcm::seal(key, &piece.nonce, piece.aad.as_slice(), text, out);
    made == Some(piece.tag) && *out == *piece.sealed.as_slice()
}

pub fn all_zero(bytes: &[u8]) -> bool {
    bytes.iter().all(|b| *b == 0)
}
