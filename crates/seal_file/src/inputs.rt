// What a command names: the encrypted data keys, the context and the message id.
use cli::context::Pair as NamedValue;
use cli::split::DataKeyWord;
use commands::limits::{MAX_HEADER, MAX_TEXT};
use commands::problem::Problem;
use files::read::{random, read_whole};
use header::{EncryptedDataKey, Pair};
use programs::{FileResult, input_len};

// How long the text is. One that is too long is refused before anything is written; this is also seen to as it is read.
pub fn text_len<'a>(rt: &HostRuntime, path: &'a str) -> Result<u64, Problem<'a>> {
    let len = input_len(rt, path)?;
    if len > MAX_TEXT {
        return Err(Problem::TextTooLong(path));
    }
    Ok(len)
}

fn read_data_key<'a>(rt: &HostRuntime, path: &'a str) -> Result<Vec<u8>, Problem<'a>> {
    read_whole(rt, path, MAX_HEADER as u32)
        .reading(path)?
        .ok_or(Problem::HeaderTooLong)
}

// The bytes of each encrypted data key.
pub fn read_data_keys<'a>(
    rt: &HostRuntime,
    words: &[DataKeyWord<'a>],
) -> Result<Vec<Vec<u8>>, Problem<'a>> {
    words
        .iter()
        .map(|word| read_data_key(rt, word.file))
        .try_collect(rt.alloc())
}

// The encrypted data keys with their bytes: by hand, as no `From` is between two types that are both another crate's.
pub fn encrypted_keys<'a, 'c>(
    rt: &HostRuntime,
    words: &[DataKeyWord<'a>],
    ciphertexts: &'c [Vec<u8>],
) -> Result<Vec<EncryptedDataKey<'a, 'a, 'c>>, Problem<'a>> {
    let keys = words
        .iter()
        .zip(ciphertexts)
        .map(|(word, ciphertext)| EncryptedDataKey {
            provider_id: word.provider_id.as_bytes(),
            provider_info: word.provider_info.as_bytes(),
            ciphertext: ciphertext.as_slice(),
        })
        .collect(rt.alloc())?;
    Ok(keys)
}

// The pairs of the context as bytes.
pub fn pairs_of<'a>(
    rt: &HostRuntime,
    context: &[NamedValue<'a>],
) -> Result<Vec<Pair<'a, 'a>>, Problem<'a>> {
    let pairs = context
        .iter()
        .map(|pair| Pair {
            name: pair.name.as_bytes(),
            value: pair.value.as_bytes(),
        })
        .collect(rt.alloc())?;
    Ok(pairs)
}

// The id that is given, or a random one.
pub fn message_id<'a>(rt: &HostRuntime, given: Option<[u8; 32]>) -> Result<[u8; 32], Problem<'a>> {
    match given {
        Some(id) => Ok(id),
        None => random(rt).reading("/dev/urandom"),
    }
}
