// Seals a file: the message stands under a name of its own until it is whole, and then takes OUTPUT's place.
#![tactic(auto)]

mod inputs;
mod message;

use cli::context::Context;
use cli::line::CommandLine;
use cli::options::Program;
use cli::split::DataKeyWord;
use commands::context::context_of;
use commands::data_keys::data_keys_of;
use commands::problem::Problem;
use commands::seal::{SealCommand, seal_command};
use header::HeaderRequest;
use inputs::{encrypted_keys, message_id, pairs_of, read_data_keys, text_len};
use message::{Sealed, seal_file};
use programs::{FileResult, KeyUse, Tool, check_output, run_tool, with_key};
use std::process::ExitCode;

struct StrongboxSeal;

impl Tool for StrongboxSeal {
    const PROGRAM: Program = Program::Seal;

    const NAME: &'static str = "strongbox-seal";

    const VERSION: &'static str = "strongbox-seal 1.0.0";

    const HELP: &'static str =
        "Usage: strongbox-seal --key FILE --data-key PROVIDER_ID:PROVIDER_INFO:FILE [OPTION..] INPUT OUTPUT
Seals the file INPUT into a message, the file OUTPUT.

  --key FILE            the data key: 32 bytes, or 64 hexadecimal digits
  --data-key PROVIDER_ID:PROVIDER_INFO:FILE
                        the data key as a provider encrypted it, whose bytes are in
                        FILE; once or more. The id and the file's name have no colon
  --context NAME=VALUE  a pair of the encryption context, which isn't secret
  --frame-length N      bytes of text in a frame, 1 to 16384 (default: 4096)
  --id HEX              the message id, 64 digits, for tests (default: random)
  --force               replace OUTPUT if it exists
  --help                print this
  --version             print the version";

    fn run<'a>(rt: &HostRuntime, line: &CommandLine<'_, 'a>) -> Result<(), Problem<'a>> {
        let command = seal_command(line)?;
        let context = context_of(rt.alloc(), line)?;
        let data_keys = data_keys_of(rt.alloc(), line)?;
        check_output(rt, command.output, command.force)?;
        let text_len = text_len(rt, command.input)?;
        let asked = Asked {
            command,
            context,
            data_keys,
            text_len,
        };
        let sealed = with_key(rt, command.key, asked)??;
        report(rt, sealed)
    }
}

fn main(rt: HostRuntime) -> ExitCode {
    run_tool::<StrongboxSeal>(rt)
}

// A command with what its other words give, and how long the text is.
#[derive(Drop)]
struct Asked<'a> {
    command: SealCommand<'a>,
    context: Context<'a>,
    data_keys: Vec<DataKeyWord<'a>>,
    text_len: u64,
}

impl<'a> KeyUse for Asked<'a> {
    type Made = Result<Sealed, Problem<'a>>;

    ghost gives = { λ _ _ _. Unit {0} };

    // Reads what else the command names, and seals.
    fn run(self, rt: &HostRuntime, key: &[u8; 32]) -> Result<Sealed, Problem<'a>> {
        let words = self.data_keys.as_slice();
        let ciphertexts = read_data_keys(rt, words)?;
        let pairs = pairs_of(rt, self.context.pairs())?;
        let data_keys = encrypted_keys(rt, words, ciphertexts.as_slice())?;
        let id = message_id(rt, self.command.id)?;
        let header = HeaderRequest {
            id: &id,
            context: pairs.as_slice(),
            encrypted_data_keys: data_keys.as_slice(),
            frame_length: self.command.frame_length,
        };
        seal_file(rt, self.command, self.text_len, key, header)
    }
}

fn report<'a>(rt: &HostRuntime, sealed: Sealed) -> Result<(), Problem<'a>> {
    let name = StrongboxSeal::NAME;
    let Sealed {
        text,
        frames,
        message,
    } = sealed;
    eprintln!(rt; "{name}: {text} bytes in, {message} bytes out, frames: {frames}").writing(
        "standard error",
    )
}
