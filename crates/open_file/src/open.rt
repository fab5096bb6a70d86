// A message opened: gone through once to check it, and once more to write its text.
use crate::context::{check_context, print_context};
use crate::message::pass;
use cli::context::Context;
use commands::open::OpenCommand;
use commands::problem::Problem;
use header_read::read_header;
use programs::{KeyUse, Output, START_ROOM};
use std::io;

// A command, and the pairs that the message's context has to hold.
#[derive(Drop)]
pub struct Asked<'a> {
    pub command: OpenCommand<'a>,
    pub wanted: Context<'a>,
}

impl<'a> KeyUse for Asked<'a> {
    type Made = Result<(), Problem<'a>>;

    ghost gives = { λ _ _ _. Unit {0} };

    // Opens INPUT into OUTPUT, and prints its context. Where anything fails, OUTPUT is as it was. A call of its own, or its room would
    // stand on the stack as the key is read.
    #[inline(never)]
    fn run(self, rt: &HostRuntime, key: &[u8; 32]) -> Result<(), Problem<'a>> {
        let mut start = [0; START_ROOM];
        let digest = pass(rt, self.command, key, &mut start, &mut io::sink())?;
        let read = read_header(&start).ok_or(Problem::Changed(self.command.input))?;
        check_context(read.header.context, self.wanted.pairs())?;
        self.write_text(rt, key, &digest)?;
        print_context(rt, read.header.context)
    }
}

impl<'a> Asked<'a> {
    // The second time, with every check again, since the file may have changed.
    fn write_text(
        &self,
        rt: &HostRuntime,
        key: &[u8; 32],
        first: &[u8; 64],
    ) -> Result<(), Problem<'a>> {
        let command = self.command;
        let mut output = Output::create(rt, command.output, command.force)?;
        let written = write_again(rt, command, key, first, &mut output);
        output.settle(rt, written)
    }
}

fn write_again<'a>(
    rt: &HostRuntime,
    command: OpenCommand<'a>,
    key: &[u8; 32],
    first: &[u8; 64],
    output: &mut Output<'a>,
) -> Result<(), Problem<'a>> {
    let mut start = [0; START_ROOM];
    let second = pass(rt, command, key, &mut start, output)?;
    if second != *first {
        return Err(Problem::Changed(command.input));
    }
    Ok(())
}
