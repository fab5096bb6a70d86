// The message of a file, written frame by frame into OUTPUT.
use commands::limits::MAX_TEXT;
use commands::problem::Problem;
use commands::seal::SealCommand;
use files::window::Window;
use frames::FrameKind;
use header::HeaderRequest;
use programs::{FRAME_ROOM, FileResult, Output, START_ROOM, TEXT_ROOM};
use sealing::{FrameRefusal, Sealer};
use std::fs::File;
use std::io::Write;

// The largest text of a frame with a byte after it.
const WINDOW_ROOM: usize = TEXT_ROOM + 1;

// What was sealed: so many bytes of text, in so many frames, into a message of so many bytes.
#[derive(Clone, Copy)]
pub struct Sealed {
    pub text: u64,
    pub frames: u64,
    pub message: u64,
}

impl Sealed {
    // One more frame, with so many bytes of text.
    fn add(&mut self, text_len: usize, frame_len: usize) {
        self.text = self.text.saturating_add(text_len as u64);
        self.frames = self.frames.saturating_add(1);
        self.message = self.message.saturating_add(frame_len as u64);
    }
}

// The library's calls are one for each kind, with a contract each.
fn seal_frame(
    sealer: &mut Sealer,
    kind: FrameKind,
    text: &[u8],
    out: &mut [u8],
) -> Result<(), FrameRefusal> {
    match kind {
        FrameKind::Regular => sealer.seal_regular(text, out),
        FrameKind::Final => sealer.seal_final(text, out),
    }
}

// Seals INPUT, which is expected to have so many bytes, into OUTPUT. Where anything fails, OUTPUT is as it was.
pub fn seal_file<'a>(
    rt: &HostRuntime,
    command: SealCommand<'a>,
    expected: u64,
    key: &[u8; 32],
    header: HeaderRequest,
) -> Result<Sealed, Problem<'a>> {
    let source = File::open(rt, command.input).reading(command.input)?;
    let mut output = Output::create(rt, command.output, command.force)?;
    let sealed = write_message(rt, command, source, &mut output, key, header);
    let sealed = sealed.and_then(|sealed| {
        if sealed.text == expected {
            Ok(sealed)
        } else {
            Err(Problem::Changed(command.input))
        }
    });
    output.settle(rt, sealed)
}

// Header and tag, and how many bytes they have. A call of its own, or its room would stand on the stack below that of the frames.
#[inline(never)]
fn write_start<'a>(
    command: SealCommand<'a>,
    output: &mut Output<'a>,
    key: &[u8; 32],
    header: HeaderRequest,
) -> Result<(Sealer, usize), Problem<'a>> {
    let mut start = [0; START_ROOM];
    // The key and the id have 32 bytes, names rise and there is a data key, so a header that is refused is too long.
    let (sealer, len) = Sealer::begin(key, header, &mut start).map_err(|_| Problem::HeaderTooLong)?;
    let begun = start.get(..len).ok_or(Problem::HeaderTooLong)?;
    output.write_all(begun).writing(command.output)?;
    Ok((sealer, len))
}

// Header and tag, and then the frames. The text that went by is wiped.
fn write_message<'a>(
    rt: &HostRuntime,
    command: SealCommand<'a>,
    source: File,
    output: &mut Output<'a>,
    key: &[u8; 32],
    header: HeaderRequest,
) -> Result<Sealed, Problem<'a>> {
    let (sealer, len) = write_start(command, output, key, header)?;
    let text = Window::new(command.frame_length as usize + 1).ok_or(Problem::FrameLength)?;
    let mut frames = Frames {
        command,
        source,
        text,
        frame: [0; FRAME_ROOM],
        sealer,
        sealed: Sealed {
            text: 0,
            frames: 0,
            message: len as u64,
        },
    };
    let written = frames.write(output);
    frames.text.wipe(rt);
    written?;
    Ok(frames.sealed)
}

// A file as it is sealed: its text that was read and not sealed yet, room for a frame, and what was sealed before.
#[derive(Drop)]
struct Frames<'a> {
    command: SealCommand<'a>,
    source: File,
    text: Window<WINDOW_ROOM>,
    frame: [u8; FRAME_ROOM],
    sealer: Sealer,
    sealed: Sealed,
}

impl<'a> Frames<'a> {
    // One frame a turn, until the final one; each but that has some text, so there are no more turns than bytes. OUTPUT is lent anew at each
    // call, since no struct holds it lent.
    fn write(&mut self, output: &mut Output<'a>) -> Result<(), Problem<'a>> {
        for _ in 0..MAX_TEXT {
            let kind = self.write_next(output)?;
            if self.sealed.text > MAX_TEXT {
                return Err(Problem::TextTooLong(self.command.input));
            }
            if kind == FrameKind::Final {
                return Ok(());
            }
        }
        Err(Problem::TextTooLong(self.command.input))
    }

    // There is room for the text of a frame and one byte more, which tells whether text is left; that one waits for the next frame.
    fn write_next(&mut self, output: &mut Output<'a>) -> Result<FrameKind, Problem<'a>> {
        self.text
            .fill(&mut self.source)
            .reading(self.command.input)?;
        let have = self.text.held().len();
        if self.text.is_full() && have > 0 {
            self.put(output, FrameKind::Regular, have - 1)?;
            return Ok(FrameKind::Regular);
        }
        self.put(output, FrameKind::Final, have)?;
        Ok(FrameKind::Final)
    }

    // Seals the first bytes of the text that is there. A text of at most 64 MiB in frames of this length is never refused.
    fn put(
        &mut self,
        output: &mut Output<'a>,
        kind: FrameKind,
        len: usize,
    ) -> Result<(), Problem<'a>> {
        let text = self.text.held().get(..len).ok_or(Problem::FrameLength)?;
        let out = self
            .frame
            .get_mut(..text.len() + kind.overhead())
            .ok_or(Problem::FrameLength)?;
        seal_frame(&mut self.sealer, kind, text, out).map_err(|_| Problem::FrameLength)?;
        output.write_all(out).writing(self.command.output)?;
        self.sealed.add(text.len(), out.len());
        self.text.take(len);
        Ok(())
    }
}
