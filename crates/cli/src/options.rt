// The options of the two programs.
ghost use Rattle.std.specs.Prelude.{◌≡◌, Some};
ghost use Rattle.cli.specs.Options.{name_of, option_of, takes, takes_value};

use std::fmt;

#[derive(Clone, Copy)]
pub enum Program {
    Seal,
    Open,
}

// What a word of the command line is for.
#[derive(Clone, Copy, PartialEq, Eq, Debug)]
pub enum Kind {
    Key,
    DataKey,
    Context,
    FrameLength,
    Id,
    Header,
    Force,
    Help,
    Version,
    // no option, but a file
    Operand,
}

// The kinds that are options.
const OPTIONS: [Kind; 9] = [
    Kind::Key,
    Kind::DataKey,
    Kind::Context,
    Kind::FrameLength,
    Kind::Id,
    Kind::Header,
    Kind::Force,
    Kind::Help,
    Kind::Version,
];

impl Kind {
    // How a person writes it.
    pub fn name(self) -> &'static str
        ensures value { result.now ≡ name_of self }
    {
        match self {
            Kind::Key => "--key",
            Kind::DataKey => "--data-key",
            Kind::Context => "--context",
            Kind::FrameLength => "--frame-length",
            Kind::Id => "--id",
            Kind::Header => "--header",
            Kind::Force => "--force",
            Kind::Help => "--help",
            Kind::Version => "--version",
            Kind::Operand => "a file",
        }
    }

    // The option of that name.
    pub fn of(word: &str) -> Option<Kind>
        ensures { result ≡ option_of word.now }
    {
        OPTIONS.iter().copied().find(|kind| word == kind.name())
    }

    // Whether the next word is its value.
    pub fn takes_value(self) -> bool
        ensures { result ≡ takes_value self }
    {
        matches!(
            self,
            Kind::Key | Kind::DataKey | Kind::Context | Kind::FrameLength | Kind::Id
        )
    }
}

impl fmt::Display for Kind {
    ghost output = { λ kind. Some (name_of kind) };

    fn fmt<W: fmt::Write>(&self, f: &mut fmt::Formatter<W>) -> fmt::Result {
        f.write_str(self.name())
    }
}

impl Program {
    pub fn takes(self, kind: Kind) -> bool
        ensures { result ≡ takes self kind }
    {
        match (self, kind) {
            (Program::Seal, Kind::Header) => false,
            (Program::Open, Kind::DataKey | Kind::FrameLength | Kind::Id) => false,
            _ => true,
        }
    }
}
