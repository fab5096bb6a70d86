// The public calls on whole messages.
ghost use Rattle.std.specs.Prelude.{◌≡◌, true, List, length};
ghost use Rattle.format.specs.Request.{Request as Asked};
ghost use Rattle.format.specs.Reading.{read_header};
ghost use Rattle.format.specs.Opening.{open_message};
ghost use Rattle.format.specs.Promise.{seal_answer};
ghost use Rattle.format.specs.Sealed.{all_good};
ghost use Rattle.header.specs.Models.{request_of};
ghost use Rattle.header_read.specs.Parts.{header_reads};
ghost use Rattle.opening.specs.Answer.{answer, Accounts};
ghost use Rattle.strongbox.specs.Answers.{length_told, message_length, seal_told, sealed_into, SealKeeps, opened_into, left_in};

use header::{Request, SealRefusal};
use header_read::ReadHeader;
use opening::{OpenRefusal, Opened};

// How long a request's message is, or why it is refused. Of the key only its length is looked at.
pub fn sealed_len(request: Request) -> Result<u64, SealRefusal>
    ensures value { length_told result ≡ message_length (seal_answer (request_of request.entry)) }
{
    sealing::sealed_len(request)
}

// Seals a request into lent bytes that have to be exactly as long as its message (see `sealed_len`). The first refusal that
// applies, in the order 2, 3, 4, 5, 1, leaves them as they were.
pub fn seal(request: Request, out: &mut [u8]) -> Result<(), SealRefusal>
    ensures value { seal_told result out.new ≡ sealed_into (length out.old) (seal_answer (request_of request.entry)) }
    ensures keeps { SealKeeps result out.old out.new }
{
    sealing::seal(request, out)
}

// Reads the header of a message, with no key: what it is about, its tag, and what comes after.
pub fn read_header(message: &[u8]) -> Option<ReadHeader<'_>>
    ensures value { header_reads result ≡ read_header message.now }
{
    header_read::read_header(message)
}

// Opens a message with a key, into lent bytes at least as long as the message: the text, and then zeros. Refused for the first
// reason that applies, in the order 1, 3, 4, 5, then frame by frame 6, 7, 8; the lent bytes are then all zeros.
// Is this what was sealed? The last clause answers: whatever requests were sealed, a message that opens is one of theirs, byte
// for byte, with its key, its context and its text; or a piece in it with a right tag that none of them sealed is shown, or an
// id used twice, or two keys that come to the same.
pub fn open<'m>(
    key: &[u8; 32],
    message: &'m [u8],
    out: &mut [u8],
) -> Result<Opened<'m>, OpenRefusal>
    ensures value { answer result out.new ≡ opened_into (length out.old) message.now (open_message key.now message.now) }
    ensures leaves { out.new ≡ left_in (length out.old) message.now (open_message key.now message.now) }
    ensures sealed { (requests : List Asked) → all_good requests ≡ true → Accounts requests key.now message.now result out.new }
{
    opening::open(key, message, out)
}
