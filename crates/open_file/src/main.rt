// Opens a file: the text stands under a name of its own until it is whole and checked, and then takes OUTPUT's place.
#![tactic(auto)]

mod context;
mod escaped;
mod message;
mod open;
mod refusal;
mod show;
mod source;

use cli::line::CommandLine;
use cli::options::{Kind, Program};
use commands::context::context_of;
use commands::given::is_given;
use commands::open::{header_command, open_command};
use commands::problem::Problem;
use open::Asked;
use programs::{Tool, check_output, input_len, run_tool, with_key};
use show::print_header;
use std::process::ExitCode;

struct StrongboxOpen;

impl Tool for StrongboxOpen {
    const PROGRAM: Program = Program::Open;

    const NAME: &'static str = "strongbox-open";

    const VERSION: &'static str = "strongbox-open 1.0.0";

    const HELP: &'static str =
        "Usage: strongbox-open --key FILE [--context NAME=VALUE..] [--force] INPUT OUTPUT
       strongbox-open --header INPUT
Opens the message INPUT into the file OUTPUT, and prints its encryption context.

  --key FILE            the data key: 32 bytes, or 64 hexadecimal digits
  --context NAME=VALUE  a pair that the message's context has to hold
  --force               replace OUTPUT if it exists
  --header              print INPUT's header, which needs no key; it isn't checked
  --help                print this
  --version             print the version";

    fn run<'a>(rt: &HostRuntime, line: &CommandLine<'_, 'a>) -> Result<(), Problem<'a>> {
        if is_given(line, Kind::Header)? {
            let input = header_command(line)?;
            return print_header(rt, input);
        }
        let command = open_command(line)?;
        let wanted = context_of(rt.alloc(), line)?;
        check_output(rt, command.output, command.force)?;
        // A message is gone through twice, which only a regular file allows.
        input_len(rt, command.input)?;
        let asked = Asked { command, wanted };
        with_key(rt, command.key, asked)?
    }
}

fn main(rt: HostRuntime) -> ExitCode {
    run_tool::<StrongboxOpen>(rt)
}
