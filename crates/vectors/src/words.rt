// The words of a line, one after the other, and what they say.
ghost use Rattle.std.specs.Prelude.{◌<◌, IfSome};

use anyhow::{Context, bail};
use std::alloc::{AllocError, Global};
use std::str::Split;

// The words that are left of a line. Each is cut off and made into what it says when it is read: what no case asks for costs nothing.
#[derive(Drop)]
pub struct Words<'w> {
    pub heap: Global,
    left: Split<'w, char>,
}

impl<'w> Words<'w> {
    pub fn of(heap: Global, line: &'w str) -> Words<'w> {
        Words {
            heap,
            left: line.split(' '),
        }
    }

    pub fn read<T: FromWords<'w>>(&mut self) -> anyhow::Result<T> {
        // Not handed on as it came: a result with room for an error is large, and would be moved whole at each word.
        Ok(T::from_words(self)?)
    }
}

// What the next word says, or several words one after the other.
pub trait FromWords<'w>: Sized + Drop {
    fn from_words(words: &mut Words<'w>) -> anyhow::Result<Self>;
}

impl<'w> FromWords<'w> for &'w str {
    fn from_words(words: &mut Words<'w>) -> anyhow::Result<&'w str> {
        let Some(word) = words.left.next() else {
            bail!("a word is missing");
        };
        Ok(word)
    }
}

impl<'w> FromWords<'w> for u64 {
    fn from_words(words: &mut Words<'w>) -> anyhow::Result<u64> {
        Ok(words.read::<&str>()?.parse::<u64>()?)
    }
}

impl<'w> FromWords<'w> for u32 {
    fn from_words(words: &mut Words<'w>) -> anyhow::Result<u32> {
        Ok(u32::try_from(words.read::<u64>()?)?)
    }
}

impl<'w> FromWords<'w> for usize {
    fn from_words(words: &mut Words<'w>) -> anyhow::Result<usize> {
        Ok(usize::try_from(words.read::<u64>()?)?)
    }
}

// Hexadecimal digits, or `-` for no bytes.
impl<'w> FromWords<'w> for Vec<u8> {
    fn from_words(words: &mut Words<'w>) -> anyhow::Result<Vec<u8>> {
        let word = words.read::<&str>()?;
        match unhex(words.heap, word)? {
            Some(bytes) => Ok(bytes),
            None if word.len() % 2 == 0 => bail!("not a hexadecimal digit"),
            None => bail!("half a byte"),
        }
    }
}

// Bytes of a length that is known: keys, nonces, tags.
impl<'w, const N: usize> FromWords<'w> for [u8; N] {
    fn from_words(words: &mut Words<'w>) -> anyhow::Result<[u8; N]> {
        let bytes = words.read::<Vec<u8>>()?;
        <[u8; N]>::try_from(bytes.as_slice())
            .ok()
            .context("bytes of another length")
    }
}

// Several words at once: one impl for each number of them, since no tuple is of any length.
impl<'w, A: FromWords<'w>, B: FromWords<'w>> FromWords<'w> for (A, B) {
    fn from_words(words: &mut Words<'w>) -> anyhow::Result<(A, B)> {
        Ok((words.read()?, words.read()?))
    }
}

impl<'w, A: FromWords<'w>, B: FromWords<'w>, C: FromWords<'w>> FromWords<'w> for (A, B, C) {
    fn from_words(words: &mut Words<'w>) -> anyhow::Result<(A, B, C)> {
        Ok((words.read()?, words.read()?, words.read()?))
    }
}

impl<'w, A, B, C, D> FromWords<'w> for (A, B, C, D)
where
    A: FromWords<'w>,
    B: FromWords<'w>,
    C: FromWords<'w>,
    D: FromWords<'w>,
{
    fn from_words(words: &mut Words<'w>) -> anyhow::Result<(A, B, C, D)> {
        Ok((words.read()?, words.read()?, words.read()?, words.read()?))
    }
}

// As many as the next word says.
impl<'w, T: FromWords<'w>> FromWords<'w> for Vec<T> {
    fn from_words(words: &mut Words<'w>) -> anyhow::Result<Vec<T>> {
        let mut list = Vec::new(words.heap);
        // A loop: a closure that reads words isn't proved.
        for _ in 0..words.read::<u64>()? {
            list.push(words.read()?)?;
        }
        Ok(list)
    }
}

// The bytes of hexadecimal digits, none for `-`; nothing for another word.
fn unhex(heap: Global, word: &str) -> Result<Option<Vec<u8>>, AllocError> {
    if word == "-" {
        return Ok(Some(Vec::new(heap)));
    }
    let (pairs, []) = word.as_bytes().as_chunks::<2>() else {
        return Ok(None);
    };
    pairs.iter().map(|pair| unhex_byte(*pair)).collect(heap)
}

fn unhex_byte([high, low]: [u8; 2]) -> Option<u8> {
    Some(nibble(high)? * 16 + nibble(low)?)
}

// Small digits alone, where the library's `to_digit` takes capital ones too.
fn nibble(digit: u8) -> Option<u8>
    ensures value { IfSome result (λ n. n < 16) }
{
    match digit {
        b'0'..=b'9' => Some(digit - b'0'),
        b'a'..=b'f' => Some(digit - b'a' + 10),
        _ => None,
    }
}
