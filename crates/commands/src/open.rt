// The commands to open a file, and to show the header of one.
ghost use Rattle.std.specs.Prelude.{◌≡◌, [], ◌∷◌, IfOk};
ghost use Rattle.cli.specs.Line.{texts};
ghost use Rattle.commands.specs.Open.{OpenGiven};

use crate::given::{is_given, key_of, operands, sole};
use crate::problem::Problem;
use cli::line::CommandLine;
use cli::options::Kind;

#[derive(Clone, Copy)]
pub struct OpenCommand<'a> {
    pub key: &'a str,
    pub force: bool,
    pub input: &'a str,
    pub output: &'a str,
}

// What is asked but for the pairs that the context has to hold.
pub fn open_command<'a>(line: &CommandLine<'_, 'a>) -> Result<OpenCommand<'a>, Problem<'a>>
    ensures value { IfOk result (λ c. OpenGiven line.now c) }
{
    let key = key_of(line)?;
    let force = is_given(line, Kind::Force)?;
    let (input, output) = operands(line)?;
    Ok(OpenCommand {
        key,
        force,
        input,
        output,
    })
}

// INPUT, whose header is to be shown, for which nothing else is needed.
pub fn header_command<'a>(line: &CommandLine<'_, 'a>) -> Result<&'a str, Problem<'a>>
    ensures value { IfOk result (λ f. texts Kind.Operand line.now ≡ f.now ∷ []) }
{
    if line.len() != 2 {
        return Err(Problem::HeaderAlone);
    }
    sole(line, Kind::Operand)?.ok_or(Problem::HeaderAlone)
}
