// A message sealed in calls: its start, then one frame a call.
ghost use Rattle.std.specs.Prelude.{◌≡◌, ◌+◌, ◌<◌, length, is_ok, if◌then◌else◌};
ghost use Rattle.gcm.specs.Key.{key_of};
ghost use Rattle.frames.specs.Frame.{sealed_frame};
ghost use Rattle.header.specs.Checked.{answer_number};
ghost use Rattle.sealing.specs.Answers.{start_number};
ghost use Rattle.sealing.specs.Calls.{Begins, text_before, takes, comes, frame_answer, regular_answer, SealsRegular, final_answer, SealsFinal};

use crate::keys::Keys;
use crate::state::{FrameRefusal, Sealer};
use frames::{END_MARKER, FrameKind, TAG_LENGTH};
use header::{HeaderRequest, SealRefusal, array_32, check_header, text_fits};

impl Sealer {
    // The start of a message, its header with its tag, from the front of the lent bytes on; and how long it is.
    pub fn begin(
        key: &[u8],
        header: HeaderRequest,
        out: &mut [u8],
    ) -> Result<(Sealer, usize), SealRefusal>
        ensures value { answer_number result ≡ start_number key.now header.entry (length out.old) }
        ensures written { Begins key.now header.entry out.old result out.new }
    {
        let key = array_32(key).ok_or(SealRefusal::KeyOrIdOrFrameLength)?;
        let checked = check_header(header)?;
        if out.len() < checked.header_len + TAG_LENGTH {
            return Err(SealRefusal::OutLength);
        }
        let keys = Keys::new(key, checked.id);
        let len = keys.write_start(header, out);
        let sealer = Sealer {
            cipher: keys.cipher,
            frame_length: header.frame_length,
            number: 1,
            finished: false,
        };
        Ok((sealer, len))
    }

    // How long the text is, with so much more.
    fn text_len(&self, more: usize) -> u64
        requires { more < 4294967296 }
        ensures { result ≡ text_before self.now + more }
    {
        (self.number - 1) as u64 * self.frame_length as u64 + more as u64
    }

    // Whether a frame may have so much text: a regular one as much as the frame length, the final one at most that, and some, unless
    // it is the only frame.
    fn takes(&self, kind: FrameKind, len: usize) -> bool
        ensures { result ≡ takes kind self.now len }
    {
        match kind {
            FrameKind::Regular => len == self.frame_length as usize,
            FrameKind::Final => {
                len <= self.frame_length as usize && (len > 0 || self.number == 1)
            }
        }
    }

    // Whether a frame may come next: after a regular one there is another.
    fn comes(&self, kind: FrameKind) -> bool
        ensures { result ≡ comes kind self.now }
    {
        kind == FrameKind::Final || self.number < END_MARKER
    }

    // The next frame, over all of the lent bytes.
    fn seal_next(&self, kind: FrameKind, text: &[u8], out: &mut [u8]) -> Result<(), FrameRefusal>
        ensures value { result ≡ frame_answer kind self.now (length text.now) (length out.old) }
        ensures written { out.new ≡ (if is_ok result then sealed_frame kind (key_of self.now.cipher.key) self.now.cipher.id self.now.number text.now else out.old) }
    {
        if self.finished {
            return Err(FrameRefusal::Finished);
        }
        if !self.takes(kind, text.len()) {
            return Err(FrameRefusal::TextLength);
        }
        if !self.comes(kind) || !text_fits(self.text_len(text.len()), self.frame_length) {
            return Err(FrameRefusal::Text);
        }
        self.cipher
            .seal_frame(kind, self.number, text, out)
            .map_err(|_| FrameRefusal::OutLength)
    }

    // A frame that isn't the final one, over all of the lent bytes.
    pub fn seal_regular(&mut self, text: &[u8], out: &mut [u8]) -> Result<(), FrameRefusal>
        ensures value { result ≡ regular_answer self.old (length text.now) (length out.old) }
        ensures written { SealsRegular self.old text.now out.old result self.new out.new }
    {
        self.seal_next(FrameKind::Regular, text, out)?;
        self.number += 1;
        Ok(())
    }

    // The final frame, over all of the lent bytes. The key is overwritten.
    pub fn seal_final(&mut self, text: &[u8], out: &mut [u8]) -> Result<(), FrameRefusal>
        ensures value { result ≡ final_answer self.old (length text.now) (length out.old) }
        ensures written { SealsFinal self.old text.now out.old result self.new out.new }
    {
        self.seal_next(FrameKind::Final, text, out)?;
        self.cipher.wipe();
        self.finished = true;
        Ok(())
    }
}
