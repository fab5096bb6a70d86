// What the two programs are asked to do: a command from the words of a command line, the programs' limits, and the messages of
// everything that can go wrong. A command that comes back is as the words say it; nothing here reads a file or prints.
#![tactic(auto)]

pub mod context;
pub mod data_keys;
pub mod given;
pub mod limits;
pub mod open;
pub mod problem;
pub mod seal;
