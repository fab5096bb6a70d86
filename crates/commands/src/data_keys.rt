// The encrypted data keys that words give.
ghost use Rattle.std.specs.Prelude.{◌≡◌, map, IfOk};
ghost use Rattle.cli.specs.Line.{texts};
ghost use Rattle.cli.specs.Split.{split_data_key};
ghost use Rattle.commands.specs.Given.{some_parts};

use crate::problem::Problem;
use cli::line::CommandLine;
use cli::options::Kind;
use cli::split::{DataKeyWord, split_data_key};
use std::alloc::Global;

// The encrypted data keys, of which there has to be one.
pub fn data_keys_of<'a>(
    heap: Global,
    line: &CommandLine<'_, 'a>,
) -> Result<Vec<DataKeyWord<'a>>, Problem<'a>>
    ensures value { IfOk result (λ v. map split_data_key (texts Kind.DataKey line.now) ≡ map some_parts v.items) }
{
    let mut all = Vec::new(heap);
    for word in line.texts(Kind::DataKey) {
        let one = split_data_key(word).ok_or(Problem::NoDataKey(word))?;
        all.push(one)?;
    }
    if all.is_empty() {
        return Err(Problem::Missing(Kind::DataKey));
    }
    Ok(all)
}
