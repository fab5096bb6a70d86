// A header, written into lent bytes.
ghost use Rattle.std.specs.Prelude.{◌≡◌, length};
ghost use Rattle.header.specs.Checked.{answer_number};
ghost use Rattle.header.specs.Written.{write_refusal, HeaderWritten};

use crate::asked::Header;
use crate::refusal::SealRefusal;
use crate::request::HeaderRequest;
use octets::Writer;

// A header with its commitment, written from the front of the lent bytes on; answers how long it is. Refused if a check
// refuses it, or if the lent bytes are too few; they are then as they were.
pub fn write_header(
    header: HeaderRequest,
    commitment: &[u8; 32],
    out: &mut [u8],
) -> Result<usize, SealRefusal>
    ensures value { answer_number result ≡ write_refusal header.entry commitment.now (length out.old) }
    ensures written { HeaderWritten header.entry commitment.now out.old result out.new }
{
    let asked = Header::checked(header)?;
    let len = asked.len();
    if out.len() < len {
        return Err(SealRefusal::OutLength);
    }
    let mut to = Writer::new(out);
    asked
        .put(commitment, &mut to)
        .ok_or(SealRefusal::OutLength)?;
    Ok(len)
}
