// The encryption context of a message: pairs that have to be there, and all of them printed.
use crate::escaped::EscapedPair;
use cli::context::Pair as NamedValue;
use commands::problem::Problem;
use header_read::Context;
use programs::say;

// Refuses a context that doesn't hold each of the pairs.
pub fn check_context<'a>(context: Context, wanted: &[NamedValue<'a>]) -> Result<(), Problem<'a>> {
    match wanted.iter().find(|pair| !holds(context, pair)) {
        Some(missing) => Err(Problem::NoSuchPair(missing.name, missing.value)),
        None => Ok(()),
    }
}

fn holds(context: Context, wanted: &NamedValue) -> bool {
    let name = wanted.name.as_bytes();
    let value = wanted.value.as_bytes();
    context
        .pairs()
        .any(|pair| pair.name == name && pair.value == value)
}

// One pair a line.
pub fn print_context<'a>(rt: &HostRuntime, context: Context) -> Result<(), Problem<'a>> {
    for pair in context.pairs() {
        say(rt, EscapedPair(pair))?;
    }
    Ok(())
}
