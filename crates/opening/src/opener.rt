// A message opened frame by frame, by callers that hold only a part of it at a time.
ghost use Rattle.std.specs.Prelude.{◌≡◌};
ghost use Rattle.octets.specs.Bytes.{repeat};
ghost use Rattle.gcm.specs.Key.{key_of};
ghost use Rattle.opening.specs.Opener.{Begins, Steps, Nexts, Ends};

use crate::refusal::OpenRefusal;
use crate::state::{FrameText, Opener, Step};
use crate::unlock::unlock;
use frames::{FrameKind, read_frame};
use header_read::read_header;
use octets::clear;

impl Opener {
    // Begins with bytes that a header and its tag stand at the front of. Refusals go by `let .. else`, here and below.
    pub fn new(key: &[u8; 32], bytes: &[u8]) -> Result<Opener, OpenRefusal>
        ensures value { Begins key.now bytes.now result }
    {
        let Some(read) = read_header(bytes) else {
            return Err(OpenRefusal::NoHeader);
        };
        let unlocked = unlock(key, bytes, read)?;
        Ok(Opener {
            unlocked,
            header_len: bytes.len() - read.rest.len(),
            number: 1,
            done: false,
        })
    }

    // How many bytes the header and its tag took.
    pub fn header_len(&self) -> usize
        ensures value { result ≡ self.now.header_len }
    {
        self.header_len
    }

    // The length of a regular frame's text. No frame is longer than that and 40 bytes.
    pub fn frame_length(&self) -> u32
        ensures value { result ≡ self.now.unlocked.frame_length }
    {
        self.unlocked.frame_length
    }

    // One frame; the lent bytes are written only where its tag is right.
    fn step(&mut self, bytes: &[u8], at_end: bool, out: &mut [u8]) -> Result<Step, OpenRefusal>
        ensures value { Steps self.old bytes.now at_end out.old result self.new out.new }
    {
        if self.done {
            if bytes.is_empty() {
                return Ok(Step::End);
            }
            return Err(OpenRefusal::AfterFinal(self.number));
        }
        let Some(frame) = read_frame(self.unlocked.frame_length, self.number, bytes) else {
            if at_end
                || bytes.len()
                    >= self.unlocked.frame_length as usize + FrameKind::Final.overhead()
            {
                return Err(OpenRefusal::Frame(self.number));
            }
            return Ok(Step::NeedMore);
        };
        let len = frame.ciphertext.len();
        if out.len() < len {
            return Err(OpenRefusal::OutTooShort);
        }
        let cipher = &self.unlocked.cipher;
        let Ok(()) = cipher.open_frame(self.number, frame, &mut out[0..len]) else {
            return Err(OpenRefusal::FrameTag(self.number));
        };
        let text = FrameText {
            len,
            taken: bytes.len() - frame.rest.len(),
        };
        match frame.kind {
            FrameKind::Regular => {
                self.number += 1;
                Ok(Step::Regular(text))
            }
            FrameKind::Final => {
                self.done = true;
                Ok(Step::Final(text))
            }
        }
    }

    // Opens the frame at the front of the bytes that follow what was taken so far; `at_end` says that nothing follows them. After a
    // refusal the lent bytes are zeros, and the opener is as it was.
    pub fn next(&mut self, bytes: &[u8], at_end: bool, out: &mut [u8]) -> Result<Step, OpenRefusal>
        ensures value { Nexts self.old bytes.now at_end out.old result self.new out.new }
    {
        let answer = self.step(bytes, at_end, out);
        if answer.is_err() {
            clear(out);
        }
        answer
    }

    // Ends where nothing follows what was taken: refused where the final frame wasn't opened. The key is overwritten.
    pub fn finish(&mut self) -> Result<(), OpenRefusal>
        ensures value { Ends self.old result }
        ensures wiped { key_of self.new.unlocked.cipher.key ≡ repeat 32 0 }
    {
        self.unlocked.cipher.wipe();
        if self.done {
            return Ok(());
        }
        Err(OpenRefusal::Frame(self.number))
    }
}
