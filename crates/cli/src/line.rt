// What the words of a command line give.
ghost use Rattle.std.specs.Prelude.{◌≡◌, map, length};
ghost use Rattle.cli.specs.Line.{item, texts};

use crate::options::Kind;
use std::marker::Model;

// A word with what it is for: an option's value, an option that takes none, or a file.
#[derive(Clone, Copy)]
pub struct Given<'a> {
    pub kind: Kind,
    pub text: &'a str,
}

// Everything that is given, in the order of the words.
#[derive(Drop)]
pub struct CommandLine<'l, 'a> {
    given: &'l [Given<'a>],
}

impl<'l, 'a> Model for CommandLine<'l, 'a> {
    ghost use Rattle.std.specs.Prelude.{List, map};
    ghost use Rattle.cli.specs.Line.{Item, item};

    ghost Value = { List Item };

    ghost view = { λ line. map item line.given.now };
}

impl<'l, 'a> CommandLine<'l, 'a> {
    pub fn of(given: &'l [Given<'a>]) -> CommandLine<'l, 'a>
        ensures value { result ≡ map item given.now }
    {
        CommandLine { given }
    }

    // How much is given.
    pub fn len(&self) -> usize
        ensures value { result ≡ length self.now }
    {
        self.given.len()
    }

    // What is given of one kind.
    pub fn texts(&self, kind: Kind) -> Texts<'l, 'a>
        ensures value { result ≡ texts kind self.now }
    {
        Texts {
            left: self.given,
            kind,
        }
    }
}

// The texts of one kind, in the order of the words.
#[derive(Drop)]
pub struct Texts<'l, 'a> {
    left: &'l [Given<'a>],
    kind: Kind,
}

impl<'l, 'a> Model for Texts<'l, 'a> {
    ghost use Rattle.std.specs.Prelude.{List, ℕ, map};
    ghost use Rattle.cli.specs.Line.{item, texts};

    ghost Value = { List (List ℕ) };

    ghost view = { λ it. texts it.kind (map item it.left.now) };
}

impl<'l, 'a> Iterator for Texts<'l, 'a> {
    ghost use Rattle.std.specs.Iterator.{YieldsFirstRef, item_count};

    type Item = &'a str;

    ghost next_gives = { YieldsFirstRef (λ rest. rest) };

    ghost remaining = { item_count (λ rest. rest) };

    fn next(&mut self) -> Option<&'a str> {
        let left = self.left;
        let kind = self.kind;
        let at = left.iter().position(|one| one.kind == kind)?;
        self.left = &left[at + 1..];
        Some(left[at].text)
    }
}
