// The cipher of one message: its frames sealed and opened, and its header's tag.
ghost use Rattle.std.specs.Prelude.{◌≡◌, ◌<◌, length, is_ok, if◌then◌else◌};
ghost use Rattle.octets.specs.Bytes.{repeat};
ghost use Rattle.octets.specs.Writing.{Writes};
ghost use Rattle.gcm.specs.Key.{key_of};
ghost use Rattle.frames.specs.declared.frame.FrameKind.TheVariants.{Final};
ghost use Rattle.frames.specs.Cipher.{header_tag};
ghost use Rattle.frames.specs.Frame.{frame_front, frame_fits, sealed_frame, OpensFrame};
ghost use Rattle.frames.specs.Next.{frame_of};

use crate::aad::{frame_aad, frame_nonce};
use crate::frame::{END_MARKER, Frame, FrameKind, WrongLength};
use gcm::{Key, NotOpened, open, seal};
use octets::Writer;

// What stands before the ciphertext of a frame with so many bytes of text.
fn write_front(kind: FrameKind, number: u32, len: usize, to: &mut Writer) -> Option<()>
    requires { kind ≡ Final → len < 4294967296 }
    ensures { Writes to.old (frame_front kind number len) result to.new }
{
    match kind {
        FrameKind::Regular => {
            to.put_number(number)?;
            to.put(&frame_nonce(number))
        }
        FrameKind::Final => {
            to.put_number(END_MARKER)?;
            to.put_number(number)?;
            to.put(&frame_nonce(number))?;
            to.put_number(len as u32)
        }
    }
}

// A frame over all of the lent bytes.
pub fn seal_frame(
    key: &Key,
    id: &[u8; 32],
    kind: FrameKind,
    number: u32,
    text: &[u8],
    out: &mut [u8],
) -> Result<(), WrongLength>
    ensures fits { is_ok result ≡ frame_fits kind (length text.now) (length out.old) }
    ensures value { out.new ≡ (if is_ok result then sealed_frame kind (key_of key.now) id.now number text.now else out.old) }
{
    // a final frame says its length in four bytes
    if kind == FrameKind::Final && text.len() > u32::MAX as usize {
        return Err(WrongLength);
    }
    if out.len() != text.len() + kind.overhead() {
        return Err(WrongLength);
    }
    let (front, sealed) = out.split_at_mut(kind.front_len());
    let (ciphertext, tag_place) = sealed.split_at_mut(text.len());
    let aad = frame_aad(kind, id, number, text.len());
    let aad = &aad[..kind.aad_len()];
    let tag = seal(key, &frame_nonce(number), aad, text, ciphertext).unwrap();
    tag_place.copy_from_slice(&tag);
    write_front(kind, number, text.len(), &mut Writer::new(front)).unwrap();
    Ok(())
}

// A frame's text, into lent bytes of its length; where the tag isn't right, or they are of another length, they are as they were.
pub fn open_frame(
    key: &Key,
    id: &[u8; 32],
    number: u32,
    frame: Frame,
    out: &mut [u8],
) -> Result<(), NotOpened>
    ensures value { OpensFrame (key_of key.now) id.now number (frame_of frame.entry) out.old (is_ok result) out.new }
{
    let nonce = frame_nonce(number);
    let aad = frame_aad(frame.kind, id, number, frame.ciphertext.len());
    let aad = &aad[..frame.kind.aad_len()];
    open(key, &nonce, aad, frame.ciphertext, &frame.tag, out)
}

// The tag of a header, which is sealed with no text.
pub fn header_tag(key: &Key, header: &[u8]) -> [u8; 16]
    ensures value { result ≡ header_tag (key_of key.now) header.now }
{
    seal(key, &[0; 12], header, &[], &mut []).unwrap()
}

// The key that a message is sealed with, prepared, and the message's id. The methods are the calls of their names, which ask for no
// more than a key and an id that are lent.
#[derive(Drop)]
pub struct MessageCipher {
    pub key: Key,
    pub id: [u8; 32],
}

impl MessageCipher {
    pub fn seal_frame(
        &self,
        kind: FrameKind,
        number: u32,
        text: &[u8],
        out: &mut [u8],
    ) -> Result<(), WrongLength>
        ensures fits { is_ok result ≡ frame_fits kind (length text.now) (length out.old) }
        ensures value { out.new ≡ (if is_ok result then sealed_frame kind (key_of self.now.key) self.now.id number text.now else out.old) }
    {
        seal_frame(&self.key, &self.id, kind, number, text, out)
    }

    pub fn open_frame(&self, number: u32, frame: Frame, out: &mut [u8]) -> Result<(), NotOpened>
        ensures value { OpensFrame (key_of self.now.key) self.now.id number (frame_of frame.entry) out.old (is_ok result) out.new }
    {
        open_frame(&self.key, &self.id, number, frame, out)
    }

    pub fn header_tag(&self, header: &[u8]) -> [u8; 16]
        ensures value { result ≡ header_tag (key_of self.now.key) header.now }
    {
        header_tag(&self.key, header)
    }

    // The key is overwritten by the key of zeros.
    pub fn wipe(&mut self)
        ensures value { key_of self.new.key ≡ repeat 32 0 }
        ensures id { self.new.id ≡ self.old.id }
    {
        self.key.wipe();
    }
}
