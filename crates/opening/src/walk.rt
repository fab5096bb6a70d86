// The frames of a message, one after another.
ghost use Rattle.std.specs.Prelude.{◌≤◌, length};
ghost use Rattle.opening.specs.Unlocked.{FramesOpen, frames_len};

use crate::refusal::OpenRefusal;
use crate::unlock::Unlocked;
use frames::{FrameKind, read_frame};

// The texts of all frames, one after another, from the front of the lent bytes on; and how long they are.
pub fn open_frames(unlocked: &Unlocked, bytes: &[u8], out: &mut [u8]) -> Result<usize, OpenRefusal>
    requires { length bytes.now ≤ length out.old }
    ensures value { FramesOpen unlocked.now bytes.now result out.new }
    ensures within { frames_len result ≤ length out.old }
{
    let mut rest = bytes;
    let mut number = 1u32;
    let mut at = 0;
    // left by its label at the first frame that isn't whole or right
    let refusal = 'frames: loop {
        let Some(frame) = read_frame(unlocked.frame_length, number, rest) else {
            break 'frames OpenRefusal::Frame(number);
        };
        let end = at + frame.ciphertext.len();
        let Ok(()) = unlocked.cipher.open_frame(number, frame, &mut out[at..end]) else {
            break 'frames OpenRefusal::FrameTag(number);
        };
        match frame.kind {
            FrameKind::Regular => {
                rest = frame.rest;
                at = end;
                number += 1;
            }
            FrameKind::Final => {
                if frame.rest.is_empty() {
                    return Ok(end);
                }
                break 'frames OpenRefusal::AfterFinal(number);
            }
        }
    };
    Err(refusal)
}
