// A program of the command line.
use crate::file_result::FileResult;
use crate::output::say;
use cli::line::CommandLine;
use cli::options::{Kind, Program};
use cli::scan::scan;
use commands::given::is_given;
use commands::problem::Problem;
use std::env;
use std::process::ExitCode;

// What a program is called, what it says of itself, and what it does.
pub trait Tool {
    const PROGRAM: Program;

    const NAME: &'static str;

    const VERSION: &'static str;

    const HELP: &'static str;

    fn run<'a>(rt: &HostRuntime, line: &CommandLine<'_, 'a>) -> Result<(), Problem<'a>>;
}

// The whole program: whatever it can't do is one line on standard error.
pub fn run_tool<T: Tool>(rt: HostRuntime) -> ExitCode {
    // A problem may name one of the words, which have to outlive it, so each of the two parts complains.
    let words = match words(&rt) {
        Ok(words) => words,
        Err(problem) => return complain::<T>(&rt, problem),
    };
    match run_words::<T>(&rt, words.as_slice()) {
        Ok(()) => ExitCode::SUCCESS,
        Err(problem) => complain::<T>(&rt, problem),
    }
}

fn complain<T: Tool>(rt: &HostRuntime, problem: Problem) -> ExitCode {
    let name = T::NAME;
    let _ = eprintln!(rt; "{name}: {problem}");
    ExitCode::FAILURE
}

// The words after the program's own name.
fn words(rt: &HostRuntime) -> Result<Vec<String>, Problem<'static>> {
    let args = env::args(rt).reading("the command line")?;
    Ok(args.skip(1).collect(rt.alloc())?)
}

fn run_words<'a, T: Tool>(rt: &HostRuntime, words: &'a [String]) -> Result<(), Problem<'a>> {
    let given = scan(rt.alloc(), T::PROGRAM, words)?;
    let line = CommandLine::of(given.as_slice());
    if is_given(&line, Kind::Help)? {
        return say(rt, T::HELP);
    }
    if is_given(&line, Kind::Version)? {
        return say(rt, T::VERSION);
    }
    T::run(rt, &line)
}
