// What messages are, and what is true of them. Nothing here runs: specs/ has the definitions and the statements,
// and each function's contract is one statement, so that its proof is owed.
#![tactic(auto)]

pub mod authenticity;
pub mod boundaries;
pub mod corollaries;
pub mod reading;
pub mod round_trip;
pub mod shape;
