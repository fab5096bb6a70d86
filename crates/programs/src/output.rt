// Where a program's results go: OUTPUT, and standard output.
ghost use Rattle.std.specs.Prelude.{◌≡◌, IfOk, IfErr};

use crate::file_result::FileResult;
use commands::problem::{Action, Problem};
use files::new_file::NewFile;
use files::read::file_len;
use std::fmt::Display;
use std::io;
use std::io::Write;

// An existing file is replaced only when asked, and nothing but a regular file ever is: not a device, nor a folder. That nothing else
// takes the place in between is seen to when OUTPUT does.
pub fn check_output<'a>(rt: &HostRuntime, path: &'a str, force: bool) -> Result<(), Problem<'a>> {
    match file_len(rt, path) {
        Ok(Some(_)) if force => Ok(()),
        Ok(None) if force => Err(Problem::NoFile(path)),
        Ok(_) => Err(Problem::Exists(path)),
        Err(error) if error.kind() == io::ErrorKind::NotFound => Ok(()),
        // not by `reading`, since one of the errors is what is wished
        Err(error) => Err(Problem::File(Action::Read, path, error)),
    }
}

// OUTPUT as it is written: under a name of its own until it is whole.
#[derive(Drop)]
pub struct Output<'a> {
    file: NewFile,
    path: &'a str,
    force: bool,
}

impl<'a> Output<'a> {
    pub fn create(rt: &HostRuntime, path: &'a str, force: bool) -> Result<Output<'a>, Problem<'a>> {
        let file = NewFile::create(rt, path).writing(path)?;
        Ok(Output { file, path, force })
    }

    // Puts the file in its place where all went well; where anything fails, nothing is left of it.
    pub fn settle<T: Drop>(
        self,
        rt: &HostRuntime,
        done: Result<T, Problem<'a>>,
    ) -> Result<T, Problem<'a>>
        ensures done { IfOk result (λ value. done.entry ≡ Ok value) }
        ensures problem { IfErr done.entry (λ e. result ≡ Err e) }
    {
        let Output { file, path, force } = self;
        match done {
            Ok(value) => finish_output(rt, file, path, force).map(|()| value),
            Err(problem) => {
                file.discard(rt);
                Err(problem)
            }
        }
    }
}

impl Write for Output<'_> {
    fn write(&mut self, bytes: &[u8]) -> io::Result<usize> {
        self.file.write(bytes)
    }

    fn flush(&mut self) -> io::Result<()> {
        self.file.flush()
    }
}

// Puts a file that is whole in its place; where that fails, nothing is left of it. One of the errors has a problem of its own.
pub fn finish_output<'a>(
    rt: &HostRuntime,
    file: NewFile,
    path: &'a str,
    force: bool,
) -> Result<(), Problem<'a>> {
    match file.finish(rt, path, force) {
        Err(error) if error.kind() == io::ErrorKind::AlreadyExists => Err(Problem::Exists(path)),
        finished => finished.writing(path),
    }
}

pub fn say<'a>(rt: &HostRuntime, line: impl Display + Drop) -> Result<(), Problem<'a>> {
    rt.println(line).writing("standard output")
}
