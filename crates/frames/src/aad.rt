// What a frame's text is sealed with: a nonce and additional data.
ghost use Rattle.std.specs.Prelude.{◌≡◌, take};
ghost use Rattle.octets.specs.Bits.{pick};
ghost use Rattle.octets.specs.Bytes.{to_bytes};
ghost use Rattle.octets.specs.Writing.{Writes};
ghost use Rattle.format.specs.Piece.{regular_label, final_label, frame_aad};
ghost use Rattle.frames.specs.Kind.{is_final, aad_length};

use crate::frame::FrameKind;
use octets::Writer;

// the longest additional data, a final frame's
const MAX_AAD: usize = 78;

// A frame's nonce: its number in twelve bytes.
pub fn frame_nonce(number: u32) -> [u8; 12]
    ensures value { result ≡ to_bytes 12 number }
{
    let [a, b, c, d] = number.to_be_bytes();
    [0, 0, 0, 0, 0, 0, 0, 0, a, b, c, d]
}

impl FrameKind {
    fn label(self) -> &'static [u8]
        ensures { result.now ≡ pick (is_final self) final_label regular_label }
    {
        match self {
            FrameKind::Regular => b"AWSKMSEncryptionClient Frame",
            FrameKind::Final => b"AWSKMSEncryptionClient Final Frame",
        }
    }

    // How long the additional data is.
    pub fn aad_len(self) -> usize
        ensures value { result ≡ aad_length self }
    {
        match self {
            FrameKind::Regular => 72,
            FrameKind::Final => MAX_AAD,
        }
    }
}

// The additional data of a frame with so many bytes of text.
fn write_aad(kind: FrameKind, id: &[u8; 32], number: u32, len: usize, to: &mut Writer) -> Option<()>
    ensures { Writes to.old (frame_aad id.now (is_final kind) number len) result to.new }
{
    to.put(id)?;
    to.put(kind.label())?;
    to.put_number(number)?;
    to.put_number(len as u64)
}

// The same in the first bytes, as many as its kind says.
pub fn frame_aad(kind: FrameKind, id: &[u8; 32], number: u32, len: usize) -> [u8; MAX_AAD]
    ensures value { take (aad_length kind) result ≡ frame_aad id.now (is_final kind) number len }
{
    let mut aad = [0; MAX_AAD];
    write_aad(kind, id, number, len, &mut Writer::new(&mut aad)).unwrap();
    aad
}
