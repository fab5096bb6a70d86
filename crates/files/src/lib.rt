// Files for the programs: what is read never runs past its buffer or its limit, and what is written stands under a name of its
// own until it is whole.
#![tactic(auto)]

pub mod new_file;
pub mod read;
pub mod window;
