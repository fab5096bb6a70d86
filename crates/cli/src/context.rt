// The encryption context of a command line, in the order of the names' bytes.
ghost use Rattle.std.specs.Prelude.{◌≡◌, true, [], map};
ghost use Rattle.cli.specs.Context.{pair_of, rising, Adds};
ghost use Rattle.cli.specs.declared.context.AddError.TheVariants.{Memory};

use octets::less;
use std::alloc::{AllocFailed, Global};
use std::marker::Model;

#[derive(Clone, Copy)]
pub struct Pair<'a> {
    pub name: &'a str,
    pub value: &'a str,
}

#[derive(Clone, Copy, PartialEq, Eq, Debug, Drop)]
pub enum AddError {
    // the name is there already
    Twice,
    Memory,
}

impl<T: Drop> From<AllocFailed<T>> for AddError {
    ghost from_gives = { λ _ e. e ≡ Memory };

    fn from(_error: AllocFailed<T>) -> AddError {
        AddError::Memory
    }
}

// Puts a pair among pairs in any order, before the first whose name isn't below its own; it is refused where that one has its name.
// The library's search from the front is right for any order, where one that halves would be for pairs in order alone. Names are
// compared as bytes by `less`, which takes fewer steps at short names than the order of texts.
pub fn add_pair<'a>(pairs: &mut Vec<Pair<'a>>, pair: Pair<'a>) -> Result<(), AddError>
    ensures value { Adds (pair_of pair.entry) (map pair_of pairs.old.items) result (map pair_of pairs.new.items) }
{
    let place = pairs
        .iter()
        .position(|one| !less(one.name.as_bytes(), pair.name.as_bytes()))
        .unwrap_or(pairs.len());
    if place < pairs.len() && pairs[place].name == pair.name {
        return Err(AddError::Twice);
    }
    pairs.insert(place, pair)?;
    Ok(())
}

// Pairs in order, each name once.
#[derive(Drop)]
pub struct Context<'a> {
    pairs: Vec<Pair<'a>>,
}

impl<'a> Model for Context<'a> {
    ghost use Rattle.std.specs.Prelude.{◌≡◌, true, List, map};
    ghost use Rattle.cli.specs.Context.{NamedValue, pair_of, rising};

    ghost Value = { List NamedValue };

    ghost view = { λ context. map pair_of context.pairs.items };

    ghost invariant = { λ context. rising (map pair_of context.pairs.items) ≡ true };
}

impl<'a> Context<'a> {
    #[tactic(auto, unfolding(crate::specs::Context::rising))]
    pub fn new(heap: Global) -> Context<'a>
        ensures value { result ≡ [] }
    {
        Context {
            pairs: Vec::new(heap),
        }
    }

    pub fn pairs(&self) -> &[Pair<'a>]
        ensures value { map pair_of result.now ≡ self.now }
        ensures order { rising self.now ≡ true }
    {
        self.pairs.as_slice()
    }

    // The pairs themselves, for whoever goes on with a list.
    pub fn into_pairs(self) -> Vec<Pair<'a>>
        ensures value { map pair_of result.items ≡ self.entry }
        ensures order { rising (map pair_of result.items) ≡ true }
    {
        let Context { pairs } = self;
        pairs
    }

    // Puts a pair in its place; a name that is there already is refused.
    pub fn add(&mut self, pair: Pair<'a>) -> Result<(), AddError>
        ensures value { Adds (pair_of pair.entry) self.old result self.new }
    {
        add_pair(&mut self.pairs, pair)
    }
}
