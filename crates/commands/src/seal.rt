// The command to seal a file.
ghost use Rattle.std.specs.Prelude.{◌≡◌, IfOk, IfErr, Some, None};
ghost use Rattle.cli.specs.Line.{texts};
ghost use Rattle.commands.specs.Seal.{frame_length_of, id_of, SealGiven};

use crate::given::{is_given, key_of, operands, sole};
use crate::limits::{DEFAULT_FRAME_LENGTH, MAX_FRAME_LENGTH};
use crate::problem::Problem;
use cli::hex::unhex32;
use cli::line::CommandLine;
use cli::number::parse_number;
use cli::options::Kind;

#[derive(Clone, Copy)]
pub struct SealCommand<'a> {
    pub key: &'a str,
    pub frame_length: u32,
    // random where it isn't given
    pub id: Option<[u8; 32]>,
    pub force: bool,
    pub input: &'a str,
    pub output: &'a str,
}

fn frame_length_of<'a>(line: &CommandLine<'_, 'a>) -> Result<u32, Problem<'a>>
    ensures value { IfOk result (λ n. Some n ≡ frame_length_of (texts Kind.FrameLength line.now)) }
    ensures refused { IfErr result (λ _. frame_length_of (texts Kind.FrameLength line.now) ≡ None) }
{
    let Some(text) = sole(line, Kind::FrameLength)? else {
        return Ok(DEFAULT_FRAME_LENGTH);
    };
    parse_number(text.as_bytes(), 1, MAX_FRAME_LENGTH).map_err(|_| Problem::FrameLength)
}

fn id_of<'a>(line: &CommandLine<'_, 'a>) -> Result<Option<[u8; 32]>, Problem<'a>>
    ensures value { IfOk result (λ o. Some o ≡ id_of (texts Kind.Id line.now)) }
    ensures refused { IfErr result (λ _. id_of (texts Kind.Id line.now) ≡ None) }
{
    let Some(text) = sole(line, Kind::Id)? else {
        return Ok(None);
    };
    unhex32(text.as_bytes()).map(Some).ok_or(Problem::Id)
}

// What is asked but for the context and the encrypted data keys. It isn't made of `open_command`: the words are looked at in this order,
// which decides what is complained of first.
pub fn seal_command<'a>(line: &CommandLine<'_, 'a>) -> Result<SealCommand<'a>, Problem<'a>>
    ensures value { IfOk result (λ s. SealGiven line.now s) }
{
    let key = key_of(line)?;
    let frame_length = frame_length_of(line)?;
    let id = id_of(line)?;
    let force = is_given(line, Kind::Force)?;
    let (input, output) = operands(line)?;
    Ok(SealCommand {
        key,
        frame_length,
        id,
        force,
        input,
        output,
    })
}
