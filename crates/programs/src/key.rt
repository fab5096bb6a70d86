// The key of a command.
ghost use Rattle.std.specs.Prelude.{ℕ, List, IfOk};

use crate::file_result::FileResult;
use cli::key::parse_key;
use commands::problem::Problem;
use files::read::{read_start, wipe};

// What a command does with its key.
pub trait KeyUse: Sized {
    type Made;

    // what may come of a key
    ghost gives: { Self → List ℕ → Self.Made → Type 0 };

    fn run(self, rt: &HostRuntime, key: &[u8; 32]) -> Self::Made
        ensures given { gives self key.now result };
}

// What is made with the key in a file, which is wiped afterwards. Wiping goes by hand here and in both programs: no bound on a function
// names a const parameter, as one for any length of bytes would.
pub fn with_key<'a, U: KeyUse + Drop>(
    rt: &HostRuntime,
    path: &'a str,
    key_use: U,
) -> Result<U::Made, Problem<'a>>
    ensures ran { (key : List ℕ) × IfOk result (U.gives key_use key) }
{
    let mut key = [0; 32];
    let made = run_with(rt, path, &mut key, key_use);
    wipe(rt, &mut key);
    made
}

fn run_with<'a, U: KeyUse + Drop>(
    rt: &HostRuntime,
    path: &'a str,
    key: &mut [u8; 32],
    key_use: U,
) -> Result<U::Made, Problem<'a>>
    ensures { IfOk result (U.gives key_use key.new) }
{
    read_key(rt, path, key)?;
    Ok(key_use.run(rt, key))
}

// The key in a file, into lent bytes; what was read is wiped.
pub fn read_key<'a>(
    rt: &HostRuntime,
    path: &'a str,
    key: &mut [u8; 32],
) -> Result<(), Problem<'a>> {
    let mut bytes = [0; 66];
    let found = key_in(rt, path, &mut bytes);
    wipe(rt, &mut bytes);
    let mut found = found?;
    key.copy_from_slice(&found);
    wipe(rt, &mut found);
    Ok(())
}

fn key_in<'a>(
    rt: &HostRuntime,
    path: &'a str,
    bytes: &mut [u8; 66],
) -> Result<[u8; 32], Problem<'a>> {
    let n = read_start(rt, path, bytes).reading(path)?;
    parse_key(&bytes[..n]).ok_or(Problem::NoKey(path))
}
