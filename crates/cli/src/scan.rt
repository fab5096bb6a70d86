// The words of a command line, each with what it is for.
ghost use Rattle.std.specs.Prelude.{◌≡◌};
ghost use Rattle.cli.specs.Options.{option_of};
ghost use Rattle.cli.specs.Scan.{step_of, option_step, scan_from, words_of, Scans};
ghost use Rattle.cli.specs.declared.scan.ScanError.TheVariants.{Memory};

use crate::line::Given;
use crate::options::{Kind, Program};
use std::alloc::{AllocFailed, Global};

#[derive(Clone, Copy, PartialEq, Eq, Debug, Drop)]
pub enum ScanError<'a> {
    Unknown(&'a str),
    NoValue(Kind),
    Memory,
}

impl<'a, T: Drop> From<AllocFailed<T>> for ScanError<'a> {
    ghost from_gives = { λ _ e. e ≡ Memory };

    fn from(_error: AllocFailed<T>) -> ScanError<'a> {
        ScanError::Memory
    }
}

// What the next word is.
#[derive(Clone, Copy)]
pub enum Expects {
    Word,
    ValueOf(Kind),
    // after "--" no word is an option
    Operand,
}

// What a word is given for, if it is for anything, and what comes next.
#[derive(Clone, Copy)]
pub struct Step {
    given: Option<Kind>,
    then: Expects,
}

fn next_step(program: Program, expects: Expects, word: &str) -> Option<Step>
    ensures { result ≡ step_of program expects word.now }
{
    match expects {
        Expects::ValueOf(kind) => Some(Step {
            given: Some(kind),
            then: Expects::Word,
        }),
        Expects::Operand => Some(Step {
            given: Some(Kind::Operand),
            then: Expects::Operand,
        }),
        Expects::Word => word_step(program, word),
    }
}

fn word_step(program: Program, word: &str) -> Option<Step>
    ensures { result ≡ step_of program Expects.Word word.now }
{
    if word == "--" {
        return Some(Step {
            given: None,
            then: Expects::Operand,
        });
    }
    if !word.starts_with('-') {
        return Some(Step {
            given: Some(Kind::Operand),
            then: Expects::Word,
        });
    }
    option_step(program, word)
}

fn option_step(program: Program, word: &str) -> Option<Step>
    ensures { result ≡ option_step program (option_of word.now) }
{
    let kind = Kind::of(word)?;
    if !program.takes(kind) {
        return None;
    }
    if kind.takes_value() {
        return Some(Step {
            given: None,
            then: Expects::ValueOf(kind),
        });
    }
    Some(Step {
        given: Some(kind),
        then: Expects::Word,
    })
}

// The words after the program's own name.
pub fn scan<'a>(
    heap: Global,
    program: Program,
    words: &'a [String],
) -> Result<Vec<Given<'a>>, ScanError<'a>>
    ensures value { Scans result (scan_from program Expects.Word (words_of words.now)) }
{
    let mut all = Vec::new(heap);
    let mut expects = Expects::Word;
    for word in words {
        let text = word.as_str();
        let step = next_step(program, expects, text).ok_or(ScanError::Unknown(text))?;
        if let Some(kind) = step.given {
            all.push(Given { kind, text })?;
        }
        expects = step.then;
    }
    if let Expects::ValueOf(kind) = expects {
        return Err(ScanError::NoValue(kind));
    }
    Ok(all)
}
