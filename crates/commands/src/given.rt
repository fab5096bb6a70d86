// What was given of one kind.
ghost use Rattle.std.specs.Prelude.{◌≡◌, ◌<◌, ◌≢◌, [], ◌∷◌, length, IfOk, IfErr};
ghost use Rattle.std.specs.Option.{option_map};
ghost use Rattle.cli.specs.Line.{texts, now_of};
ghost use Rattle.commands.specs.Given.{listed, some_of};

use crate::problem::Problem;
use cli::line::CommandLine;
use cli::options::Kind;

// The one text of a kind, or none.
pub fn sole<'a>(line: &CommandLine<'_, 'a>, kind: Kind) -> Result<Option<&'a str>, Problem<'a>>
    ensures value { IfOk result (λ o. texts kind line.now ≡ listed (option_map now_of o)) }
    ensures refused { IfErr result (λ e. (e ≡ Problem.Repeated kind) × (1 < length (texts kind line.now))) }
{
    let mut texts = line.texts(kind);
    let text = texts.next();
    if texts.next().is_some() {
        return Err(Problem::Repeated(kind));
    }
    Ok(text)
}

// The texts of INPUT and OUTPUT.
pub fn operands<'a>(line: &CommandLine<'_, 'a>) -> Result<(&'a str, &'a str), Problem<'a>>
    ensures value { IfOk result (λ p. texts Kind.Operand line.now ≡ p.0.now ∷ p.1.now ∷ []) }
    ensures refused { IfErr result (λ e. (e ≡ Problem.Operands) × (length (texts Kind.Operand line.now) ≢ 2)) }
{
    let mut texts = line.texts(Kind::Operand);
    let (Some(input), Some(output), None) = (texts.next(), texts.next(), texts.next()) else {
        return Err(Problem::Operands);
    };
    Ok((input, output))
}

// Whether an option that takes no value is given.
pub fn is_given<'a>(line: &CommandLine<'_, 'a>, kind: Kind) -> Result<bool, Problem<'a>>
    ensures value { IfOk result (λ b. b ≡ some_of (texts kind line.now)) }
    ensures refused { IfErr result (λ e. (e ≡ Problem.Repeated kind) × (1 < length (texts kind line.now))) }
{
    Ok(sole(line, kind)?.is_some())
}

// The text of --key, which has to be given.
pub fn key_of<'a>(line: &CommandLine<'_, 'a>) -> Result<&'a str, Problem<'a>>
    ensures value { IfOk result (λ k. texts Kind.Key line.now ≡ k.now ∷ []) }
    ensures refused { IfErr result (λ _. length (texts Kind.Key line.now) ≢ 1) }
{
    sole(line, Kind::Key)?.ok_or(Problem::Missing(Kind::Key))
}
