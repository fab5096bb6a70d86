// What the system didn't do, as a problem that names the file.
ghost use Rattle.std.specs.Prelude.{◌≡◌};
ghost use Rattle.programs.specs.FileResult.{naming};
ghost use Rattle.commands.specs.declared.problem.Action.TheVariants.{Read, Write};

use commands::problem::{Action, Problem};
use std::io;

// A method for each action: `.reading(path)?` says more where it is called than an action that is passed.
pub trait FileResult<T> {
    fn reading<'a>(self, path: &'a str) -> Result<T, Problem<'a>>;

    fn writing<'a>(self, path: &'a str) -> Result<T, Problem<'a>>;
}

impl<T> FileResult<T> for io::Result<T> {
    fn reading<'a>(self, path: &'a str) -> Result<T, Problem<'a>>
        ensures value { result ≡ naming Read path.entry self }
    {
        self.map_err(|error| Problem::File(Action::Read, path, error))
    }

    fn writing<'a>(self, path: &'a str) -> Result<T, Problem<'a>>
        ensures value { result ≡ naming Write path.entry self }
    {
        self.map_err(|error| Problem::File(Action::Write, path, error))
    }
}
