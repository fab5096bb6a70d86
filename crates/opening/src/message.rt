// Whole messages, opened into lent bytes.
ghost use Rattle.std.specs.Prelude.{◌≡◌, ◌-◌, ◌≤◌, true, List, length, drop};
ghost use Rattle.octets.specs.Bytes.{repeat};
ghost use Rattle.format.specs.Request.{Request};
ghost use Rattle.format.specs.Sealed.{all_good};
ghost use Rattle.opening.specs.Answer.{answer, text_len, opening, open_answer, Accounts};

use crate::refusal::OpenRefusal;
use crate::unlock::unlock;
use crate::walk::open_frames;
use header_read::{Context, read_header};
use octets::clear;

// A message that opened: the encryption context, over the message's bytes, and how long the text is, which stands in the lent
// bytes: nothing is allocated for it.
#[derive(Clone, Copy)]
pub struct Opened<'m> {
    pub context: Context<'m>,
    pub len: usize,
}

// The text, from the front of enough lent bytes on. A refusal goes by `let .. else`.
fn open_message<'m>(
    key: &[u8; 32],
    message: &'m [u8],
    out: &mut [u8],
) -> Result<Opened<'m>, OpenRefusal>
    requires { length message.now ≤ length out.old }
    ensures value { answer result out.new ≡ opening key.now message.now }
    ensures within { text_len result ≤ length out.old }
{
    let Some(read) = read_header(message) else {
        return Err(OpenRefusal::NoHeader);
    };
    let mut unlocked = unlock(key, message, read)?;
    let opened = open_frames(&unlocked, read.rest, out);
    unlocked.cipher.wipe();
    Ok(Opened {
        context: read.header.context,
        len: opened?,
    })
}

// Opens a message: its text, and then zeros; refused for the first reason that applies, and then all lent bytes are zeros.
pub fn open<'m>(
    key: &[u8; 32],
    message: &'m [u8],
    out: &mut [u8],
) -> Result<Opened<'m>, OpenRefusal>
    ensures value { answer result out.new ≡ open_answer (length out.old) key.now message.now }
    ensures zeros { drop (text_len result) out.new ≡ repeat (length out.old - text_len result) 0 }
    ensures sealed { (rs : List Request) → all_good rs ≡ true → Accounts rs key.now message.now result out.new }
{
    if out.len() < message.len() {
        clear(out);
        return Err(OpenRefusal::OutTooShort);
    }
    let answer = open_message(key, message, out);
    let len = answer.map_or(0, |opened| opened.len);
    clear(&mut out[len..]);
    answer
}
