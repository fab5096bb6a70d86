// The command line of the programs: words into options, and texts into bytes, keys, sizes and pairs.
// Every answer is said by a definition of specs/; nothing here reads a file or prints.
#![tactic(auto)]

pub mod context;
pub mod hex;
pub mod key;
pub mod line;
pub mod number;
pub mod options;
pub mod scan;
pub mod split;
