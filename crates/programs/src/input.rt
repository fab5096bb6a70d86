// INPUT, before it is read.
use crate::file_result::FileResult;
use commands::problem::Problem;
use files::read::file_len;

// How many bytes a file has, which has to be a regular one.
pub fn input_len<'a>(rt: &HostRuntime, path: &'a str) -> Result<u64, Problem<'a>> {
    file_len(rt, path)
        .reading(path)?
        .ok_or(Problem::NoFile(path))
}
