// A message gone through, from its file to where its text goes.
use crate::refusal::refused;
use crate::source::Source;
use commands::limits::MAX_TEXT;
use commands::open::OpenCommand;
use commands::problem::Problem;
use files::read::{read_full, wipe};
use files::window::Window;
use frames::FrameKind;
use header_front::{HeaderFront, header_front};
use opening::{OpenRefusal, Opener, Step};
use programs::{FRAME_ROOM, FileResult, START_ROOM, TEXT_ROOM};
use std::fs::File;
use std::io::Write;

// Checks the whole message, hands its text on, and answers the hash of all its bytes. The lent bytes are for its header.
pub fn pass<'a, W: Write>(
    rt: &HostRuntime,
    command: OpenCommand<'a>,
    key: &[u8; 32],
    start: &mut [u8; START_ROOM],
    out: &mut W,
) -> Result<[u8; 64], Problem<'a>> {
    let mut file = File::open(rt, command.input).reading(command.input)?;
    let len = read_full(&mut file, start).reading(command.input)?;
    let begun = &start[..len];
    let mut opener = Opener::new(key, begun).map_err(|refusal| not_begun(
        refusal,
        begun,
        command.input,
    ))?;
    let header = &begun[..opener.header_len().min(len)];
    let digest = pass_frames(rt, command, file, header, &mut opener, out);
    let end = opener.finish();
    let digest = digest?;
    end.map_err(refused)?;
    Ok(digest)
}

fn not_begun<'a>(refusal: OpenRefusal, start: &[u8], path: &'a str) -> Problem<'a> {
    match refusal {
        OpenRefusal::NoHeader => no_header(start, path),
        _ => refused(refusal),
    }
}

// Where a file's first bytes are no header, its header may only be longer than they are.
pub fn no_header<'a>(start: &[u8], path: &'a str) -> Problem<'a> {
    if start.len() == START_ROOM
        && let HeaderFront::Short = header_front(start)
    {
        return Problem::LongHeader(path);
    }
    refused(OpenRefusal::NoHeader)
}

// A call of its own, or the rooms of both passes would stand on the stack at once.
#[inline(never)]
fn pass_frames<'a, W: Write>(
    rt: &HostRuntime,
    command: OpenCommand<'a>,
    file: File,
    header: &[u8],
    opener: &mut Opener,
    out: &mut W,
) -> Result<[u8; 64], Problem<'a>> {
    let frame_length = opener.frame_length();
    let window = Window::new(frame_length as usize + FrameKind::Final.overhead()).ok_or(
        Problem::LongFrames(command.input, frame_length),
    )?;
    let source = Source::after(rt, file, header).reading(command.input)?;
    let mut frames = Frames {
        command,
        source,
        bytes: window,
        text: [0; TEXT_ROOM],
    };
    let passed = frames.pass(opener, out);
    wipe(rt, &mut frames.text);
    passed?;
    Ok(frames.source.digest())
}

// A message's frames as they are opened, with room for the longest of them and for its text.
#[derive(Drop)]
struct Frames<'a> {
    command: OpenCommand<'a>,
    source: Source,
    bytes: Window<FRAME_ROOM>,
    text: [u8; TEXT_ROOM],
}

impl<'a> Frames<'a> {
    // One frame a turn, until the end: at most one for each byte of text, a final one without, and a turn that finds the end.
    fn pass<W: Write>(&mut self, opener: &mut Opener, out: &mut W) -> Result<(), Problem<'a>> {
        let too_long = Problem::LongMessage(self.command.input);
        let mut left = MAX_TEXT;
        for _ in 0..MAX_TEXT + 2 {
            let Some(len) = self.pass_next(opener, out)? else {
                return Ok(());
            };
            left = left.checked_sub(len as u64).ok_or(too_long)?;
        }
        Err(too_long)
    }

    // The next frame's text handed on, and its length; None at the end. Opener and `out` are lent anew at each call, since no struct holds
    // them lent. The window has room for as many bytes as the longest frame has, so a frame stands there whole or the file ends.
    fn pass_next<W: Write>(
        &mut self,
        opener: &mut Opener,
        out: &mut W,
    ) -> Result<Option<usize>, Problem<'a>> {
        self.source
            .fill(&mut self.bytes)
            .reading(self.command.input)?;
        let at_end = !self.bytes.is_full();
        let step = opener
            .next(self.bytes.held(), at_end, &mut self.text)
            .map_err(refused)?;
        let frame = match step {
            Step::Regular(frame) | Step::Final(frame) => frame,
            // not asked for where the window holds the longest frame; then the turns end it
            Step::NeedMore => return Ok(Some(0)),
            Step::End => return Ok(None),
        };
        let text = self
            .text
            .get(..frame.len)
            .ok_or(refused(OpenRefusal::OutTooShort))?;
        self.source.take(&mut self.bytes, frame.taken);
        out.write_all(text).writing(self.command.output)?;
        Ok(Some(frame.len))
    }
}
