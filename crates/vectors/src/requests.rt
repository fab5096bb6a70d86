// What requests and headers are made of, as the words of a line say it, and the same lent to the library.
use crate::words::{FromWords, Words};
use header::{EncryptedDataKey, HeaderRequest, Pair};
use std::alloc::{AllocError, Global};

#[derive(Drop)]
pub struct OwnedPair {
    name: Vec<u8>,
    value: Vec<u8>,
}

impl<'w> FromWords<'w> for OwnedPair {
    fn from_words(words: &mut Words<'w>) -> anyhow::Result<OwnedPair> {
        let (name, value) = words.read()?;
        Ok(OwnedPair { name, value })
    }
}

impl OwnedPair {
    pub fn lend(&self) -> Pair<'_, '_> {
        Pair {
            name: self.name.as_slice(),
            value: self.value.as_slice(),
        }
    }
}

#[derive(Drop)]
pub struct OwnedDataKey {
    provider_id: Vec<u8>,
    provider_info: Vec<u8>,
    ciphertext: Vec<u8>,
}

impl<'w> FromWords<'w> for OwnedDataKey {
    fn from_words(words: &mut Words<'w>) -> anyhow::Result<OwnedDataKey> {
        let (provider_id, provider_info, ciphertext) = words.read()?;
        Ok(OwnedDataKey {
            provider_id,
            provider_info,
            ciphertext,
        })
    }
}

impl OwnedDataKey {
    pub fn lend(&self) -> EncryptedDataKey<'_, '_, '_> {
        EncryptedDataKey {
            provider_id: self.provider_id.as_slice(),
            provider_info: self.provider_info.as_slice(),
            ciphertext: self.ciphertext.as_slice(),
        }
    }
}

#[derive(Drop)]
pub struct OwnedLists {
    pairs: Vec<OwnedPair>,
    data_keys: Vec<OwnedDataKey>,
}

impl<'w> FromWords<'w> for OwnedLists {
    fn from_words(words: &mut Words<'w>) -> anyhow::Result<OwnedLists> {
        let (pairs, data_keys) = words.read()?;
        Ok(OwnedLists { pairs, data_keys })
    }
}

impl OwnedLists {
    pub fn lend(&self, heap: Global) -> Result<Lists<'_>, AllocError> {
        let pairs = self.pairs.iter().map(|pair| pair.lend()).collect(heap)?;
        let data_keys = self.data_keys.iter().map(|key| key.lend()).collect(heap)?;
        Ok(Lists { pairs, data_keys })
    }
}

#[derive(Drop)]
pub struct Lists<'l> {
    pairs: Vec<Pair<'l, 'l>>,
    data_keys: Vec<EncryptedDataKey<'l, 'l, 'l>>,
}

// What a request begins with.
#[derive(Drop)]
pub struct Fixed {
    pub key: Vec<u8>,
    id: Vec<u8>,
    frame_length: u32,
}

impl<'w> FromWords<'w> for Fixed {
    fn from_words(words: &mut Words<'w>) -> anyhow::Result<Fixed> {
        let (key, id, frame_length) = words.read()?;
        Ok(Fixed {
            key,
            id,
            frame_length,
        })
    }
}

pub fn header_request<'f, 'a, 'l>(
    fixed: &'f Fixed,
    lists: &'a Lists<'l>,
) -> HeaderRequest<'f, 'a, 'l, 'l, 'a, 'l, 'l, 'l> {
    HeaderRequest {
        id: fixed.id.as_slice(),
        context: lists.pairs.as_slice(),
        encrypted_data_keys: lists.data_keys.as_slice(),
        frame_length: fixed.frame_length,
    }
}
