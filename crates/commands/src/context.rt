// The encryption context that words give.
ghost use Rattle.std.specs.Prelude.{◌≡◌, true, [], IfOk, Some};
ghost use Rattle.cli.specs.Context.{rising};
ghost use Rattle.cli.specs.Line.{texts};
ghost use Rattle.commands.specs.Given.{context_from};

use crate::problem::Problem;
use cli::context::{AddError, Context, Pair};
use cli::line::CommandLine;
use cli::options::Kind;
use cli::split::split_pair;
use std::alloc::Global;

// The encryption context, in the order of the names.
#[tactic(auto, unfolding(cli::specs::Context::rising))]
pub fn context_of<'a>(heap: Global, line: &CommandLine<'_, 'a>) -> Result<Context<'a>, Problem<'a>>
    ensures value { IfOk result (λ context. context_from [] (texts Kind.Context line.now) ≡ Some context) }
    ensures order { IfOk result (λ context. rising context ≡ true) }
{
    let mut context = Context::new(heap);
    for word in line.texts(Kind::Context) {
        let (name, value) = split_pair(word).ok_or(Problem::NoPair(word))?;
        // by hand, since the error doesn't hold the name, so that it outlives it
        match context.add(Pair { name, value }) {
            Ok(()) => {}
            Err(AddError::Twice) => return Err(Problem::NameTwice(name)),
            Err(AddError::Memory) => return Err(Problem::Memory),
        }
    }
    Ok(context)
}
